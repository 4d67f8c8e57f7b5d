//! The text of a journal, read from a source and checked by itself; what was found is printed to a sink.
#![tactic(auto)]

mod fault;
mod laws;
mod printing;
mod reading;
mod replaying;
#[cfg(test)]
mod tests;

pub use fault::ReplayFault;
pub use laws::a_journal_has_one_verdict;
pub use n41_check::Rule;
pub use replaying::replay;
