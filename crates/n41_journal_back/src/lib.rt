//! A journal that is written is read as the same.
#![tactic(auto)]

mod again;
mod kept;
mod laws;
#[cfg(test)]
mod tests;

pub use again::written_and_read;
pub use laws::what_is_written_is_read;
