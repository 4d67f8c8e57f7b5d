//! The journal: the list of all that the client did and met.
#![tactic(auto)]

mod events;
mod journal;
#[cfg(test)]
mod tests;

pub use events::{Cause, Event};
pub use journal::{Journal, keeps_places};
