//! The texts that are printed: the answers to the commands of a script.
#![tactic(auto)]

mod answers;
mod found;
mod laws;
mod numbers;
#[cfg(test)]
mod tests;
mod texts;
mod values;

pub use answers::{answer_text, put_answer};
pub use laws::the_text_is_that_of_the_run;
pub use texts::text;
pub use values::{put, put_decimal};
