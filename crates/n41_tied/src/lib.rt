//! A journal with the tables that it fills.
#![tactic(auto)]

mod tied;

pub use tied::Tied;
