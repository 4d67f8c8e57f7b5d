//! Calls of COMPOUND as a server sees them (RFC 8881, section 16.2).
#![tactic(auto)]

mod calls;
mod compounds;
mod laws;
mod reading;

pub use calls::{Args, CallSeen, SeenTail};
pub use laws::{
    calls_are_read_where_spelled, calls_have_one_value, no_whole_call_begins_another,
    only_bad_heads_are_refused, whole_calls_are_read,
};
pub use reading::read_request;

#[cfg(test)]
mod tests;
