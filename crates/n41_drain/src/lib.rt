//! The gate before the session: calls wait behind it, and leave in the order in which they came.
#![tactic(auto)]

mod drain;
#[cfg(test)]
mod tests;

pub use drain::{Drain, Waiting};
