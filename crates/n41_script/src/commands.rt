// The commands of callers.
ghost use Rattle.std.specs.Prelude.{◌≡◌};
ghost use Rattle.n41_words.specs.Lines.{words};
ghost use Rattle.n41_words.specs.Faults.{Gives};
ghost use Rattle.n41_script.specs.Commands.{is_built, built_verb, command_of};

use n41_commands::{Verb, read_command_with, read_verb};
use n41_types::Command;
use n41_words::{LineFault, LineKind, has_control, missing, next_word};
use std::alloc::Global;

/// Whether the commands of a verb are built.
fn is_built(verb: Verb) -> bool
    ensures { result ≡ is_built verb }
{
    matches!(
        verb,
        Verb::Stat | Verb::List | Verb::MakeDir | Verb::Remove | Verb::Rename | Verb::Pause
    )
}

/// The verb that a word is, of those that are built.
fn built_verb(word: &[u8]) -> Result<Verb, LineKind>
    ensures { result ≡ built_verb word.now }
{
    let verb = read_verb(word)?;
    if !is_built(verb) {
        return Err(LineKind::Command);
    }
    Ok(verb)
}

/// The command of the words behind a caller, where there may be one more or not.
pub(crate) fn command_of(
    alloc: Global,
    full: bool,
    long: bool,
    text: &[u8],
) -> Result<Command, LineFault>
    ensures { Gives result (command_of full long (words text.now)) }
{
    let Some((word, rest)) = next_word(text) else {
        return Err(LineFault::Kind(missing(long, LineKind::Command)));
    };
    if has_control(word) {
        return Err(LineFault::Kind(LineKind::Byte));
    }
    let verb = match built_verb(word) {
        Ok(verb) => verb,
        Err(kind) => return Err(LineFault::Kind(kind)),
    };
    if full {
        return Err(LineFault::Kind(LineKind::Limit));
    }
    read_command_with(alloc, verb, long, rest)
}
