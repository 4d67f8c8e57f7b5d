//! Printing the records of one side of a connection.
#![tactic(auto)]

mod dumping;
mod fault;
mod piece;
mod printer;

pub use dumping::dump;
pub use fault::DumpFault;
pub use n41_lines::Side;

#[cfg(test)]
mod tests;
