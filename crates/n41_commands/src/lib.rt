//! The commands of a script and the lines at its head, each read from the words of a line.
#![tactic(auto)]

mod callers;
mod commands;
mod directories;
mod ends;
mod files;
mod forms;
mod heads;
mod locks;
mod paths;
mod reader;
#[cfg(test)]
mod tests;
mod verb;

pub use callers::{is_caller, is_kept};
pub use commands::{read_command, read_command_with};
pub use ends::end_fault;
pub use heads::{Ids, read_ids, read_owner};
pub use verb::{Verb, read_verb};
