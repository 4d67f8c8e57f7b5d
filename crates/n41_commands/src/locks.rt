// The commands on locks.
ghost use Rattle.n41_words.specs.Faults.{Gives};
ghost use Rattle.n41_commands.specs.Commands.{command_with};
ghost use Rattle.n41_commands.specs.declared.verb.Verb.TheVariants as verb;

use crate::reader::Reader;
use n41_types::Command;
use n41_words::LineFault;
use std::alloc::Global;

pub(crate) fn lock(alloc: Global, reader: &mut Reader<'_>) -> Result<Command, LineFault>
    ensures { Gives result (command_with verb.Lock reader.old.long reader.old.words) }
{
    let label = reader.label(alloc)?;
    let kind = reader.lock_kind()?;
    let span = reader.span()?;
    reader.end()?;
    Ok(Command::Lock { label, kind, span })
}

pub(crate) fn test_lock(alloc: Global, reader: &mut Reader<'_>) -> Result<Command, LineFault>
    ensures { Gives result (command_with verb.TestLock reader.old.long reader.old.words) }
{
    let label = reader.label(alloc)?;
    let kind = reader.lock_kind()?;
    let span = reader.span()?;
    reader.end()?;
    Ok(Command::TestLock { label, kind, span })
}

pub(crate) fn unlock(alloc: Global, reader: &mut Reader<'_>) -> Result<Command, LineFault>
    ensures { Gives result (command_with verb.Unlock reader.old.long reader.old.words) }
{
    let label = reader.label(alloc)?;
    let span = reader.span()?;
    reader.end()?;
    Ok(Command::Unlock { label, span })
}
