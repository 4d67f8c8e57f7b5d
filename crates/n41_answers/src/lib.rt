//! The places of the answers in a journal, so that the answer to a command is found without a scan.
#![tactic(auto)]

mod answers;
mod laws;
mod row;
#[cfg(test)]
mod tests;

pub use answers::{Answers, answer_of};
pub use laws::{
    answers_have_their_places, commands_are_answered_in_order, the_lists_step,
    the_printed_answer_is_placed,
};
