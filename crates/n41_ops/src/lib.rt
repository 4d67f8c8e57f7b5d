//! The results of the operations of a compound (RFC 8881, section 18), read and written.
#![tactic(auto)]

mod directories;
mod files;
mod laws;
mod locks;
mod openings;
mod results;
mod sessions;

pub use laws::{results_are_lawful, what_is_written_is_read};
pub use results::{read_res, write_res};

#[cfg(test)]
mod tests;
