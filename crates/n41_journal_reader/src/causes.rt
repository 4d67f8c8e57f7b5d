// Why connections broke.
ghost use Rattle.n41_words.specs.Faults.{Gives};
ghost use Rattle.n41_journal_reader.specs.Events.{cause_behind, cause_of};

use n41_journal::Cause;
use n41_journal_words::Words;
use n41_words::{LineFault, LineKind, is_word};

/// The cause that a word and the words behind it say.
fn cause_behind(word: &[u8], words: &mut Words<'_>) -> Result<Cause, LineFault>
    ensures { Gives result (cause_behind word.now words.old) }
{
    if is_word(word, b"old") {
        return Ok(Cause::Old(words.last_number32()?));
    }
    if is_word(word, b"link") {
        return words.end_with(Cause::Link);
    }
    if is_word(word, b"ended") {
        return words.end_with(Cause::Ended);
    }
    if is_word(word, b"record") {
        return words.end_with(Cause::BadRecord);
    }
    if is_word(word, b"garbled") {
        return words.end_with(Cause::Garbled);
    }
    if is_word(word, b"memory") {
        return words.end_with(Cause::NoMemory);
    }
    Err(LineFault::Kind(LineKind::Command))
}

/// The cause that the words to the end of a line say.
pub(crate) fn read_cause(words: &mut Words<'_>) -> Result<Cause, LineFault>
    ensures { Gives result (cause_of words.old) }
{
    let word = words.word()?;
    cause_behind(word, words)
}
