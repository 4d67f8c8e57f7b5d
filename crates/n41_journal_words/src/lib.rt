//! The words of a journal's lines, and the answers to commands that they say.
#![tactic(auto)]

mod answers;
mod first;
mod forms;
mod names;
mod reader;
#[cfg(test)]
mod tests;

pub use answers::read_answer;
pub use reader::Words;
