// The answers to commands.
ghost use Rattle.std.specs.Prelude.{codes};
ghost use Rattle.n41_words.specs.Faults.{Gives};
ghost use Rattle.n41_journal_words.specs.Names.{name_of};
ghost use Rattle.n41_journal_words.specs.Reading.{form_at, field_at, Reads};
ghost use Rattle.n41_journal_words.specs.Answers.{number64, or_dash, mode, data_bytes, is_last, data_of, stat_of, names_at, names_of, not_of, answer_behind, answer_of};

use crate::first::{First, read_first};
use crate::forms::{data_bytes, is_last, mode_or_dash, number_or_dash};
use crate::names::name;
use crate::reader::Words;
use n41_types::{Answer, Bytes, Loss, Status, Texts, Value};
use n41_words::LineFault;
use std::alloc::Global;

/// What a read gave.
fn data(alloc: Global, words: &mut Words<'_>) -> Result<Answer, LineFault>
    ensures { Gives result (data_of words.old) }
{
    let word = words.word()?;
    let bytes = data_bytes(alloc, word)?;
    let word = words.word()?;
    let last = is_last(word)?;
    words.end_with(Answer::Done(Value::Got { bytes, last }))
}

/// A number of at most 64 bits, or a dash, behind its name.
fn field(words: &mut Words<'_>, text: &[u8]) -> Result<Option<u64>, LineFault>
    ensures { Reads (λ n. n) result words.new (field_at text.now (or_dash number64) words.old) }
{
    words.fixed(text)?;
    let word = words.word()?;
    number_or_dash(word)
}

/// The mode behind its name.
fn mode(words: &mut Words<'_>) -> Result<Option<u32>, LineFault>
    ensures { Reads (λ n. n) result words.new (field_at (codes "mode") (or_dash mode) words.old) }
{
    words.fixed(b"mode")?;
    let word = words.word()?;
    mode_or_dash(word)
}

/// The attributes of a file.
fn stat(words: &mut Words<'_>) -> Result<Answer, LineFault>
    ensures { Gives result (stat_of words.old) }
{
    words.fixed(b"type")?;
    let kind = words.number32()?;
    words.fixed(b"size")?;
    let size = words.number64()?;
    let fileid = field(words, b"fileid")?;
    let mode = mode(words)?;
    words.end_with(Answer::Done(Value::Stat {
        kind,
        size,
        fileid,
        mode,
    }))
}

/// The next word as a name.
fn next_name(alloc: Global, words: &mut Words<'_>) -> Result<Bytes, LineFault>
    ensures { Reads (λ n. n) result words.new (form_at name_of words.old) }
{
    let word = words.word()?;
    name(alloc, word)
}

/// So many names. Room is taken for a name only once it is there.
fn names_of(alloc: Global, words: &mut Words<'_>, count: u64) -> Result<Texts, LineFault>
    ensures { Reads (λ x. x) result words.new (names_at count words.old) }
{
    let mut names = Vec::new(alloc);
    for _place in 0..count {
        let name = next_name(alloc, words)?;
        names.push(name)?;
    }
    Ok(Texts::from_vec(names))
}

/// The names of a directory.
fn names(alloc: Global, words: &mut Words<'_>) -> Result<Answer, LineFault>
    ensures { Gives result (names_of words.old) }
{
    let count = words.number64()?;
    let names = names_of(alloc, words, count)?;
    let more = words.more();
    words.end_with(Answer::Done(Value::Names { names, more }))
}

/// That no handle is open.
fn not_open(words: &mut Words<'_>) -> Result<Answer, LineFault>
    ensures { Gives result (not_of words.old) }
{
    words.fixed(b"open")?;
    words.end_with(Answer::NotOpen)
}

/// The answer that the words behind its first word say.
fn read_behind(alloc: Global, first: First, words: &mut Words<'_>) -> Result<Answer, LineFault>
    ensures { Gives result (answer_behind first words.old) }
{
    match first {
        First::Opened => words.end_with(Answer::Done(Value::Opened)),
        First::Data => data(alloc, words),
        First::Wrote => Ok(Answer::Done(Value::Wrote(words.last_number32()?))),
        First::Locked => words.end_with(Answer::Done(Value::Locked)),
        First::Unlocked => words.end_with(Answer::Done(Value::Unlocked)),
        First::Free => words.end_with(Answer::Done(Value::Free)),
        First::Truncated => words.end_with(Answer::Done(Value::Truncated)),
        First::Closed => words.end_with(Answer::Done(Value::Closed)),
        First::Stat => stat(words),
        First::Names => names(alloc, words),
        First::Made => words.end_with(Answer::Done(Value::Made)),
        First::Removed => words.end_with(Answer::Done(Value::Removed)),
        First::Renamed => words.end_with(Answer::Done(Value::Renamed)),
        First::Paused => words.end_with(Answer::Done(Value::Paused)),
        First::Refused => Ok(Answer::Refused(Status(words.last_number32()?))),
        First::Unknown => words.end_with(Answer::Unknown),
        First::Lost => Ok(Answer::StateLost(Loss(Status(words.last_number32()?)))),
        First::Unreachable => Ok(Answer::Unreachable(words.last_number64()?)),
        First::Not => not_open(words),
        First::Breach => Ok(Answer::Breach(words.last_number64()?)),
    }
}

/// The answer that the words to the end of a line say, or the first fault in them (own).
pub fn read_answer(alloc: Global, words: &mut Words<'_>) -> Result<Answer, LineFault>
    ensures { Gives result (answer_of words.old) }
{
    let word = words.word()?;
    let first = read_first(word)?;
    read_behind(alloc, first, words)
}
