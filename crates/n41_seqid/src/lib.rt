//! The order of seqids, and fronts: items that leave in the order of their seqids, in whatever order they come.
#![tactic(auto)]

mod front;
mod seqids;
#[cfg(test)]
mod tests;

pub use front::{Front, SeqFault};
pub use seqids::{newer, next};
