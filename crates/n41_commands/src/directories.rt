// The commands on what stands at a path.
ghost use Rattle.n41_words.specs.Faults.{Gives};
ghost use Rattle.n41_commands.specs.Commands.{command_with};
ghost use Rattle.n41_commands.specs.declared.verb.Verb.TheVariants as verb;

use crate::reader::Reader;
use n41_types::Command;
use n41_words::LineFault;
use std::alloc::Global;

pub(crate) fn stat(alloc: Global, reader: &mut Reader<'_>) -> Result<Command, LineFault>
    ensures { Gives result (command_with verb.Stat reader.old.long reader.old.words) }
{
    let path = reader.path(alloc)?;
    reader.end()?;
    Ok(Command::Stat { path })
}

pub(crate) fn list(alloc: Global, reader: &mut Reader<'_>) -> Result<Command, LineFault>
    ensures { Gives result (command_with verb.List reader.old.long reader.old.words) }
{
    let path = reader.path(alloc)?;
    reader.end()?;
    Ok(Command::List { path })
}

pub(crate) fn make_dir(alloc: Global, reader: &mut Reader<'_>) -> Result<Command, LineFault>
    ensures { Gives result (command_with verb.MakeDir reader.old.long reader.old.words) }
{
    let path = reader.target(alloc)?;
    reader.end()?;
    Ok(Command::MakeDir { path })
}

pub(crate) fn remove(alloc: Global, reader: &mut Reader<'_>) -> Result<Command, LineFault>
    ensures { Gives result (command_with verb.Remove reader.old.long reader.old.words) }
{
    let path = reader.target(alloc)?;
    reader.end()?;
    Ok(Command::Remove { path })
}

pub(crate) fn rename(alloc: Global, reader: &mut Reader<'_>) -> Result<Command, LineFault>
    ensures { Gives result (command_with verb.Rename reader.old.long reader.old.words) }
{
    let from = reader.target(alloc)?;
    let to = reader.target(alloc)?;
    reader.end()?;
    Ok(Command::Rename { from, to })
}
