//! The text of the records of a connection, a line for each.
#![tactic(auto)]

mod client;
mod last;
mod parts;
mod record_line;
mod server;
mod side;

pub use last::{Last, last_line};
pub use record_line::line;
pub use side::Side;

#[cfg(test)]
mod tests;
