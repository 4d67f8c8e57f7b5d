//! Callbacks and the answers to them (RFC 8881, section 20), as messages: read and written.
#![tactic(auto)]

mod answers;
mod arguments;
mod calls;
mod compounds;
mod fault;
mod laws;
mod outcomes;
mod referring;

pub use answers::{read_answer, spell_answer};
pub use calls::{read_call, spell_call};
pub use fault::MsgFault;
pub use laws::{
    messages_are_read_where_spelled, messages_have_one_value, no_spelling_begins_another,
    operations_are_lawful, what_is_spelled_can_be_written, what_is_written_is_read,
};

#[cfg(test)]
mod tests;
