//! What a client wants next, from its tables: a connection, that a request be sent, what comes, or that a moment comes.
#![tactic(auto)]

mod laws;
mod waits;
mod wants;

pub use laws::one_thing_is_wanted;
pub use wants::{Want, wanted};
