//! Replies to a COMPOUND (RFC 8881, section 16.2), as messages: read and written.
#![tactic(auto)]

mod fault;
mod laws;
mod reading;
mod writing;

pub use fault::MsgFault;
pub use laws::{no_reply_begins_another, replies_have_one_value, what_is_written_is_read};
pub use reading::read_reply;
pub use writing::spell_reply;

#[cfg(test)]
mod tests;
