//! Record marking (RFC 5531, section 11).
#![tactic(auto)]

mod fault;
mod gather;
mod history;
mod laws;
mod marking;
mod partial;
mod pieces;

pub use fault::GatherFault;
pub use gather::Gather;
pub use laws::{cutting_changes_nothing, streams_have_one_reading};
pub use marking::{append_marked, mark};

#[cfg(test)]
mod tests;
