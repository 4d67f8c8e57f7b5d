// The words for an answer.
ghost use Rattle.std.specs.Prelude.{◌≡◌, ◌++◌, codes, OnOk, IfOk};
ghost use Rattle.std.specs.Fmt.{decimal};
ghost use Rattle.n41_calls.specs.Text.{answer_text, unanswered_text};

use crate::values::{put, put_decimal, put_value};
use n41_types::{Answer, NoMemory};
use std::alloc::Global;

/// Adds a word and a number behind a space.
fn put_numbered(alloc: Global, out: &mut Vec<u8>, word: &str, number: u64) -> Result<(), NoMemory>
    ensures { OnOk result (out.new.items ≡ out.old.items ++ word.now ++ codes " " ++ decimal number) }
{
    put(out, word)?;
    put(out, " ")?;
    put_decimal(alloc, out, number)
}

/// Adds the words for a command without an answer, in a run with this breach.
pub(crate) fn put_unanswered(
    alloc: Global,
    out: &mut Vec<u8>,
    breach: Option<u64>,
) -> Result<(), NoMemory>
    ensures { OnOk result (out.new.items ≡ out.old.items ++ unanswered_text breach) }
{
    match breach {
        Some(place) => put_numbered(alloc, out, "breach", place),
        None => put(out, "unreachable"),
    }
}

/// Adds the words for an answer, as a run prints them, at the end of a text.
pub fn put_answer(alloc: Global, out: &mut Vec<u8>, answer: &Answer) -> Result<(), NoMemory>
    ensures { OnOk result (out.new.items ≡ out.old.items ++ answer_text answer.now) }
{
    match answer {
        Answer::Done(value) => put_value(alloc, out, value),
        Answer::Refused(status) => put_numbered(alloc, out, "refused", u64::from(status.0)),
        Answer::Unknown => put(out, "unknown"),
        Answer::StateLost(loss) => put_numbered(alloc, out, "lost", u64::from(loss.0.0)),
        Answer::Unreachable(_) => put(out, "unreachable"),
        Answer::NotOpen => put(out, "not open"),
        Answer::Breach(place) => put_numbered(alloc, out, "breach", *place),
    }
}

/// The words for an answer, as a run prints them.
pub fn answer_text(alloc: Global, answer: &Answer) -> Result<Vec<u8>, NoMemory>
    ensures { IfOk result (λ text. text.items ≡ answer_text answer.now) }
{
    let mut out = Vec::new(alloc);
    put_answer(alloc, &mut out, answer)?;
    Ok(out)
}
