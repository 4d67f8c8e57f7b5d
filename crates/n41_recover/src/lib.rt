//! The phase of recovery, moved by each event, from a few words of what was put.
#![tactic(auto)]

mod laws;
mod recover;
mod replies;
#[cfg(test)]
mod tests;
mod words;

pub use laws::{recovery_tells_the_phase, the_recovery_steps};
pub use recover::Recover;
pub use words::{Kind, Lone};
