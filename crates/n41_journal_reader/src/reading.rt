// The lines of a journal, read one after another.
ghost use Rattle.std.specs.Prelude.{List, reverse, IfOk, IfErr};
ghost use Rattle.n41_words.specs.Lines.{lines};
ghost use Rattle.n41_journal_reader.specs.Journals.{told_lines, SayEach, IsJournal, IsLineFault, IsFault, IsAnswerTo, Adds};
ghost use Rattle.n41_journal.specs.declared.events.Event.{Event};

use crate::events::read_event;
use n41_journal::Journal;
use n41_journal_words::Words;
use n41_script::SCRIPT_LIMIT;
use n41_words::{LineFault, LineKind, ScriptFault, is_skipped, next_line};
use std::alloc::Global;

/// Adds the event of a line, where it says one.
fn take_line(alloc: Global, journal: &mut Journal, line: &[u8]) -> Result<(), LineFault>
    ensures { Adds result line.now journal.old.events journal.new.events }
{
    if is_skipped(line) {
        return Ok(());
    }
    let event = read_event(alloc, &mut Words::new(line))?;
    match journal.push(event) {
        Ok(()) => Ok(()),
        Err(_) => Err(LineFault::NoMemory),
    }
}

/// Reads the lines of a text.
fn read_lines(alloc: Global, text: &[u8]) -> Result<Journal, ScriptFault>
    ensures ok { IfOk result (λ j. SayEach (told_lines (lines text.now)) (reverse j.events)) }
    ensures err { IfErr result (λ f. IsLineFault text.now f) }
{
    let mut journal = Journal::new(alloc);
    let mut rest = text;
    let mut number: u64 = 0;
    while let Some((line, behind)) = next_line(rest) {
        number += 1;
        if let Err(fault) = take_line(alloc, &mut journal, line) {
            return Err(fault.at(number));
        }
        rest = behind;
    }
    Ok(journal)
}

/// Reads a text.
fn read_text(alloc: Global, text: &[u8]) -> Result<Journal, ScriptFault>
    ensures ok { IfOk result (λ j. IsJournal text.now (reverse j.events)) }
    ensures err { IfErr result (λ f. IsFault text.now f) }
{
    if text.len() > SCRIPT_LIMIT {
        return Err(ScriptFault::Line {
            line: 0,
            kind: LineKind::Limit,
        });
    }
    read_lines(alloc, text)
}

/// What a text says as a journal (own), or the number of its first line that is refused, and the first fault of that line. A text above
/// 16 MiB has the fault `Limit` at line 0.
pub fn read_journal(alloc: Global, text: &[u8]) -> Result<Journal, ScriptFault>
    // What is read is a journal of these events.
    ensures ok { IfOk result (λ j. IsJournal text.now (reverse j.events)) }
    // A journal is read as its events, unless memory runs out.
    ensures only { (es : List Event) → IsJournal text.now es → IsAnswerTo result es }
    // Which fault it is.
    ensures err { IfErr result (λ f. IsFault text.now f) }
{
    read_text(alloc, text)
}
