// What a word says by its form.
ghost use Rattle.n41_words.specs.Faults.{Gives};
ghost use Rattle.std.specs.Prelude.{◌≡◌};
ghost use Rattle.n41_journal_words.specs.Answers.{is_dash, or_dash, number64, mode, data_bytes, is_last};

use n41_types::Bytes;
use n41_words::{LineFault, LineKind, hex_bytes, is_word, number, octal};
use std::alloc::Global;

fn is_dash(word: &[u8]) -> bool
    ensures { result ≡ is_dash word.now }
{
    is_word(word, b"-")
}

/// A number of at most 64 bits, or a dash for none.
pub(crate) fn number_or_dash(word: &[u8]) -> Result<Option<u64>, LineFault>
    ensures { Gives result (or_dash number64 word.now) }
{
    if is_dash(word) {
        return Ok(None);
    }
    Ok(Some(number(word, u64::MAX)?))
}

/// A mode in octal, or a dash for none.
pub(crate) fn mode_or_dash(word: &[u8]) -> Result<Option<u32>, LineFault>
    ensures { Gives result (or_dash mode word.now) }
{
    if is_dash(word) {
        return Ok(None);
    }
    Ok(Some(octal(word, u32::MAX)?))
}

/// Bytes in hexadecimal, or a dash for none.
pub(crate) fn data_bytes(alloc: Global, word: &[u8]) -> Result<Bytes, LineFault>
    ensures { Gives result (data_bytes word.now) }
{
    if is_dash(word) {
        return Ok(Bytes::new());
    }
    hex_bytes(alloc, word)
}

/// Whether the bytes are the last of their file.
pub(crate) fn is_last(word: &[u8]) -> Result<bool, LineFault>
    ensures { Gives result (is_last word.now) }
{
    if is_word(word, b"end") {
        return Ok(true);
    }
    if is_word(word, b"more") {
        return Ok(false);
    }
    Err(LineFault::Kind(LineKind::Command))
}
