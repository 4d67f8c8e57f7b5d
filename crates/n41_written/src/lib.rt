//! The texts of commands, as they stand in lines.
#![tactic(auto)]

mod commands;
mod laws;
#[cfg(test)]
mod tests;
mod values;

pub use commands::{put_command, write_command};
pub use laws::{bytes_are_read_back, numbers_are_read_back, what_is_written_is_read};
