//! The slots of a session as its client uses them: on each at most one request is out, and its turns rise by one.
#![tactic(auto)]

mod laws;
mod slots;
#[cfg(test)]
mod tests;

pub use laws::{releasing_changes_one_slot, taking_changes_one_slot};
pub use slots::{Slot, Slots};
