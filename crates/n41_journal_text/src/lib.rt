//! The text of a journal: a line for each event.
#![tactic(auto)]

mod events;
mod laws;
mod messages;
mod numbered;
#[cfg(test)]
mod tests;
mod text;
mod typed;

pub use laws::{each_event_is_a_line, lines_have_their_words};
pub use text::journal_text;
