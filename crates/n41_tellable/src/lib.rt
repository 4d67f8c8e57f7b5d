//! Which events can be told in writing, and that those are among them whose message was read.
#![tactic(auto)]

mod laws;

pub use laws::replies_that_are_read_are_tellable;
