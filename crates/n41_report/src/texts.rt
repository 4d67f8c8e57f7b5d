// The text of the answers to a script.
ghost use Rattle.std.specs.Prelude.{◌≡◌, ◌++◌, [], get_or, option_copied, IfOk, OnOk};
ghost use Rattle.n41_report.specs.Text.{ending_text, line_text, script_text};

use crate::answers::{put_answer, put_unanswered};
use crate::found::answers_in;
use crate::numbers::Numbers;
use crate::values::{put, put_decimal};
use n41_journal::Journal;
use n41_script::Script;
use n41_types::{Answer, Name, NoMemory};
use std::alloc::Global;

/// The name of a caller, empty for one that is not there.
fn name_of(names: &[Name], caller: u32) -> &[u8]
    ensures { result.now ≡ get_or names.now caller [] }
{
    match names.get(caller as usize) {
        Some(name) => name.as_slice(),
        None => &[],
    }
}

/// Adds the words for how a command ended, in a run with this breach.
fn put_ending(
    alloc: Global,
    out: &mut Vec<u8>,
    breach: Option<u64>,
    answer: Option<&Answer>,
) -> Result<(), NoMemory>
    ensures { OnOk result (out.new.items ≡ out.old.items ++ ending_text breach (option_copied answer.entry)) }
{
    match answer {
        Some(answer) => put_answer(alloc, out, answer),
        None => put_unanswered(alloc, out, breach),
    }
}

/// Adds the line of a command: its place in the script, its caller, and how it ended.
fn put_line(
    alloc: Global,
    out: &mut Vec<u8>,
    place: u64,
    name: &[u8],
    breach: Option<u64>,
    answer: Option<&Answer>,
) -> Result<(), NoMemory>
    ensures { OnOk result (out.new.items ≡ out.old.items ++ line_text place name.now (ending_text breach (option_copied answer.entry))) }
{
    put_decimal(alloc, out, place)?;
    put(out, " ")?;
    out.extend_from_slice(name)?;
    put(out, " ")?;
    put_ending(alloc, out, breach, answer)?;
    put(out, "\n")
}

/// The text of a script's answers (own): for each command one line, with its place in the script, the name of its caller, and the answer that
/// the journal has for it. `breach` is the place in the journal of the first reply that breaks the rules, where there is one: a command without an
/// answer was met by it, or else by no server.
pub fn text(
    alloc: Global,
    journal: &Journal,
    script: &Script,
    breach: Option<u64>,
) -> Result<Vec<u8>, NoMemory>
    ensures { IfOk result (λ t. t.items ≡ script_text breach journal.now.events script.now) }
{
    let found = answers_in(alloc, journal)?;
    let mut numbers = Numbers::new(alloc);
    let mut out = Vec::new(alloc);
    let mut place: u64 = 0;
    for line in script.lines.as_slice() {
        place += 1;
        let number = numbers.next(line.caller)?;
        let name = name_of(script.callers.as_slice(), line.caller);
        let answer = found.get(line.caller, number);
        put_line(alloc, &mut out, place, name, breach, answer)?;
    }
    Ok(out)
}
