//! The reader of journals: lines, each of an event.
#![tactic(auto)]

mod causes;
mod events;
mod first;
mod lawful;
mod laws;
mod messages;
mod reading;
#[cfg(test)]
mod tests;

pub use lawful::request_is_lawful;
pub use laws::a_text_says_one_thing;
pub use n41_words::{LineKind, ScriptFault};
pub use reading::read_journal;
