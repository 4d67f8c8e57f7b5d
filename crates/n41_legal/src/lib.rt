//! Which step of a run of a client, the net and a server may not follow those before it, found by a plain program: each rule is said once.
#![tactic(auto)]

mod bare;
mod net;
mod replies;
mod rules;
mod server;
mod sizes;
mod slots;

pub use net::messages;
pub use rules::first_illegal;
