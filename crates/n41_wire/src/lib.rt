//! The two ends of a connection of the client: an inlet that hears messages, and an outlet that sends them.
#![tactic(auto)]

mod arrival;
mod fault;
mod inlet;
mod laws;
mod log;
mod outlet;
mod posted;
mod taken;
mod wire;

pub use arrival::{Arrival, InGot};
pub use fault::InFault;
pub use inlet::Inlet;
pub use laws::replies_stand_first;
pub use outlet::Outlet;
pub use wire::Wire;
