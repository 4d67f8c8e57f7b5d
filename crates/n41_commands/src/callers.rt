// The names of callers, and of the handles of a caller.
ghost use Rattle.std.specs.Prelude.{◌≡◌};
ghost use Rattle.std.specs.List.{list_all};
ghost use Rattle.n41_words.specs.Faults.{Gives};
ghost use Rattle.n41_commands.specs.Callers.{is_caller_byte, is_caller, is_kept};
ghost use Rattle.n41_commands.specs.Commands.{label};

use n41_types::{Bytes, Label};
use n41_words::{LineFault, LineKind, is_word};
use std::alloc::Global;

fn is_caller_byte(byte: u8) -> bool
    ensures { result ≡ is_caller_byte byte }
{
    matches!(byte, b'a'..=b'z' | b'0'..=b'9')
}

fn has_caller_bytes(word: &[u8]) -> bool
    ensures { result ≡ list_all is_caller_byte word.now }
{
    word.iter().all(|byte| is_caller_byte(*byte))
}

/// Whether the word has the form of a caller's name.
pub fn is_caller(word: &[u8]) -> bool
    ensures { result ≡ is_caller word.now }
{
    !word.is_empty() && word.len() <= 16 && has_caller_bytes(word)
}

/// Whether a line that begins with the word is of no caller.
pub fn is_kept(word: &[u8]) -> bool
    ensures { result ≡ is_kept word.now }
{
    is_word(word, b"plan") || is_word(word, b"user") || is_word(word, b"owner")
}

/// A caller's name for a handle.
pub(crate) fn label(alloc: Global, word: &[u8]) -> Result<Label, LineFault>
    ensures { Gives result (label word.now) }
{
    if !is_caller(word) || is_kept(word) {
        return Err(LineFault::Kind(LineKind::Name));
    }
    Ok(Label::new(Bytes::copy_from_slice(alloc, word)?))
}
