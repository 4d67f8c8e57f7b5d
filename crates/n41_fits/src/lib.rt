//! Whether the results of a reply are those that a request asked for.
#![tactic(auto)]

mod asked;
mod attributes;
mod reply;

pub use reply::fits;
