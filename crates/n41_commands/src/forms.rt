// What a word says by its form.
ghost use Rattle.std.specs.Prelude.{IfOk};
ghost use Rattle.n41_types.specs.Spans.{IsLength};
ghost use Rattle.n41_words.specs.Faults.{Gives};
ghost use Rattle.n41_commands.specs.Commands.{mode_of, kind_of, offset, count, seconds, extent, payload};

use n41_types::{Bytes, LockKind, Mode};
use n41_words::{LineFault, LineKind, hex_bytes, is_word, number};
use std::alloc::Global;

/// The bytes that may be read at once.
const COUNT_LIMIT: u64 = 65_536;

/// The seconds of the longest pause.
const PAUSE_LIMIT: u64 = 600;

/// The digits of the bytes that may be written at once.
const DIGIT_LIMIT: usize = 131_072;

pub(crate) fn mode_of(word: &[u8]) -> Result<Mode, LineFault>
    ensures { Gives result (mode_of word.now) }
{
    if is_word(word, b"r") {
        return Ok(Mode::Read);
    }
    if is_word(word, b"w") {
        return Ok(Mode::Write);
    }
    if is_word(word, b"rw") {
        return Ok(Mode::Both);
    }
    Err(LineFault::Kind(LineKind::Command))
}

pub(crate) fn lock_kind(word: &[u8]) -> Result<LockKind, LineFault>
    ensures { Gives result (kind_of word.now) }
{
    if is_word(word, b"r") {
        return Ok(LockKind::Read);
    }
    if is_word(word, b"w") {
        return Ok(LockKind::Write);
    }
    Err(LineFault::Kind(LineKind::Command))
}

/// A place in a file, or its size.
pub(crate) fn offset(word: &[u8]) -> Result<u64, LineFault>
    ensures { Gives result (offset word.now) }
{
    Ok(number(word, u64::MAX)?)
}

/// How many bytes are read, one at least.
pub(crate) fn count(word: &[u8]) -> Result<u32, LineFault>
    ensures { Gives result (count word.now) }
{
    let count = number(word, COUNT_LIMIT)?;
    if count == 0 {
        return Err(LineFault::Kind(LineKind::Number));
    }
    Ok(count as u32)
}

pub(crate) fn seconds(word: &[u8]) -> Result<u32, LineFault>
    ensures { Gives result (seconds word.now) }
{
    Ok(number(word, PAUSE_LIMIT)? as u32)
}

/// The length of a span. None is to the end of the file.
pub(crate) fn length(word: &[u8]) -> Result<Option<u64>, LineFault>
    ensures value { Gives result (extent word.now) }
    ensures within { IfOk result (λ len. IsLength len) }
{
    if is_word(word, b"eof") {
        return Ok(None);
    }
    Ok(Some(number(word, u64::MAX - 1)?))
}

/// The bytes of a write.
pub(crate) fn payload(alloc: Global, word: &[u8]) -> Result<Bytes, LineFault>
    ensures { Gives result (payload word.now) }
{
    if word.len() > DIGIT_LIMIT {
        return Err(LineFault::Kind(LineKind::Hex));
    }
    hex_bytes(alloc, word)
}
