//! A source read to its end, and a sink given a whole text.
#![tactic(auto)]

mod reading;
mod sinking;
#[cfg(test)]
mod tests;

pub use reading::{ReadFault, read_all};
pub use sinking::put_all;
