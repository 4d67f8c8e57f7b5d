//! One thread's desk of a client: it holds the client's core, its connections, a dialer and a clock, and does what the core wants.
#![tactic(auto)]

mod breaking;
mod desk;
mod hearing;
mod lines;
mod saying;
mod turning;
mod turns;

pub use desk::Desk;
pub use turns::Turn;
