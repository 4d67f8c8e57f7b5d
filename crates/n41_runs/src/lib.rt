//! The runs of a client, the net and a server that keeps its rules: what is legal, what took effect, and what the client promises of
//! it. There are definitions alone here, and the types that they speak of; their law stands in n41_once.
#![tactic(auto)]

mod commands;
mod steps;

pub use commands::CommandName;
pub use steps::Step;
