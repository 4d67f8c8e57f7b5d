// The commands on files: to open one, to read and write it, to close it.
ghost use Rattle.n41_words.specs.Faults.{Gives};
ghost use Rattle.n41_commands.specs.Commands.{create, command_with};
ghost use Rattle.n41_commands.specs.declared.verb.Verb.TheVariants as verb;

use crate::reader::Reader;
use n41_types::Command;
use n41_words::LineFault;
use std::alloc::Global;

pub(crate) fn create(
    alloc: Global,
    reader: &mut Reader<'_>,
    guarded: bool,
) -> Result<Command, LineFault>
    ensures { Gives result (create guarded reader.old.long reader.old.words) }
{
    let label = reader.label(alloc)?;
    let path = reader.target(alloc)?;
    reader.end()?;
    Ok(Command::Create {
        label,
        path,
        guarded,
    })
}

pub(crate) fn open(alloc: Global, reader: &mut Reader<'_>) -> Result<Command, LineFault>
    ensures { Gives result (command_with verb.Open reader.old.long reader.old.words) }
{
    let label = reader.label(alloc)?;
    let path = reader.path(alloc)?;
    let mode = reader.mode()?;
    reader.end()?;
    Ok(Command::OpenFile { label, path, mode })
}

pub(crate) fn read(alloc: Global, reader: &mut Reader<'_>) -> Result<Command, LineFault>
    ensures { Gives result (command_with verb.Read reader.old.long reader.old.words) }
{
    let label = reader.label(alloc)?;
    let offset = reader.offset()?;
    let count = reader.count()?;
    reader.end()?;
    Ok(Command::Read {
        label,
        offset,
        count,
    })
}

pub(crate) fn write(alloc: Global, reader: &mut Reader<'_>) -> Result<Command, LineFault>
    ensures { Gives result (command_with verb.Write reader.old.long reader.old.words) }
{
    let label = reader.label(alloc)?;
    let offset = reader.offset()?;
    let bytes = reader.payload(alloc)?;
    reader.end()?;
    Ok(Command::Write {
        label,
        offset,
        bytes,
    })
}

pub(crate) fn truncate(alloc: Global, reader: &mut Reader<'_>) -> Result<Command, LineFault>
    ensures { Gives result (command_with verb.Truncate reader.old.long reader.old.words) }
{
    let label = reader.label(alloc)?;
    let size = reader.offset()?;
    reader.end()?;
    Ok(Command::Truncate { label, size })
}

pub(crate) fn close(alloc: Global, reader: &mut Reader<'_>) -> Result<Command, LineFault>
    ensures { Gives result (command_with verb.Close reader.old.long reader.old.words) }
{
    let label = reader.label(alloc)?;
    reader.end()?;
    Ok(Command::Close { label })
}
