// Commands, each read by the words behind its verb.
ghost use Rattle.n41_words.specs.Lines.{words};
ghost use Rattle.n41_words.specs.Faults.{Gives};
ghost use Rattle.n41_commands.specs.Commands.{command_with, command_of};
ghost use Rattle.n41_commands.specs.declared.verb.Verb.TheVariants as verb;

use crate::directories::{list, make_dir, remove, rename, stat};
use crate::files::{close, create, open, read, truncate, write};
use crate::locks::{lock, test_lock, unlock};
use crate::reader::Reader;
use crate::verb::{Verb, read_verb};
use n41_types::Command;
use n41_words::{LineFault, LineKind, has_control, missing, next_word};
use std::alloc::Global;

fn pause(reader: &mut Reader<'_>) -> Result<Command, LineFault>
    ensures { Gives result (command_with verb.Pause reader.old.long reader.old.words) }
{
    let seconds = reader.seconds()?;
    reader.end()?;
    Ok(Command::Pause { seconds })
}

/// The command of this verb, by the words behind it. Where the line has more bytes than one may have, behind this text, it is `long`.
pub fn read_command_with(
    alloc: Global,
    verb: Verb,
    long: bool,
    text: &[u8],
) -> Result<Command, LineFault>
    ensures { Gives result (command_with verb long (words text.now)) }
{
    let mut reader = Reader::new(long, text);
    match verb {
        Verb::Create => create(alloc, &mut reader, false),
        Verb::New => create(alloc, &mut reader, true),
        Verb::Open => open(alloc, &mut reader),
        Verb::Read => read(alloc, &mut reader),
        Verb::Write => write(alloc, &mut reader),
        Verb::Lock => lock(alloc, &mut reader),
        Verb::Unlock => unlock(alloc, &mut reader),
        Verb::TestLock => test_lock(alloc, &mut reader),
        Verb::Truncate => truncate(alloc, &mut reader),
        Verb::Close => close(alloc, &mut reader),
        Verb::Stat => stat(alloc, &mut reader),
        Verb::List => list(alloc, &mut reader),
        Verb::MakeDir => make_dir(alloc, &mut reader),
        Verb::Remove => remove(alloc, &mut reader),
        Verb::Rename => rename(alloc, &mut reader),
        Verb::Pause => pause(&mut reader),
    }
}

/// The command that the words of a text say, or the first fault in them. Where the line has more bytes than one may have, behind this
/// text, it is `long`.
pub fn read_command(alloc: Global, long: bool, text: &[u8]) -> Result<Command, LineFault>
    ensures { Gives result (command_of long (words text.now)) }
{
    let Some((word, rest)) = next_word(text) else {
        return Err(LineFault::Kind(missing(long, LineKind::Command)));
    };
    if has_control(word) {
        return Err(LineFault::Kind(LineKind::Byte));
    }
    let verb = read_verb(word)?;
    read_command_with(alloc, verb, long, rest)
}
