//! What a text of lines is made of: lines, words, numbers, bytes in hexadecimal, and the kinds of faults.
#![tactic(auto)]

mod fault;
mod hexes;
mod lines;
mod numbers;
mod words;

pub use fault::{LineFault, LineKind, ScriptFault};
pub use hexes::hex_bytes;
pub use lines::{is_skipped, next_line};
pub use numbers::{number, octal};
pub use words::{has_control, is_word, missing, next_word};
