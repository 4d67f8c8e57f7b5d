//! The messages of COMPOUND (RFC 8881, section 16.2): how requests and replies are spelled and read, and which request a call is.
#![tactic(auto)]

mod changes;
mod heads;
mod laws;
mod parts;
mod plans;
mod readings;
mod requests;
mod singles;
mod states;
mod walks;

pub use laws::{calls_are_of_one_request, what_is_spelled_is_seen};
pub use n41_fits::fits;
pub use n41_replies::{MsgFault, read_reply, spell_reply};
pub use n41_spell::spell;
pub use n41_seen::{CallSeen, SeenTail, read_request};
pub use requests::request_of;

#[cfg(test)]
mod tests;
