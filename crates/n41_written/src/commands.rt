// The texts of commands.
ghost use Rattle.std.specs.Prelude.{◌≡◌, ◌++◌, codes, OnOk, IfOk};
ghost use Rattle.std.specs.Fmt.{decimal};
ghost use Rattle.hex.specs.Hex.{encode_lower};
ghost use Rattle.n41_commands.specs.Paths.{path_text};
ghost use Rattle.n41_commands.specs.Commands.{verb_text};
ghost use Rattle.n41_commands.specs.declared.verb.Verb.TheVariants as verb;
ghost use Rattle.n41_written.specs.Written.{◌·◌, mode_text, kind_text, span_text, create_text, command_text};

use crate::values::{
    create_verb, put_decimal, put_hex, put_kind, put_mode, put_path, put_space, put_span, put_verb,
};
use n41_commands::Verb;
use n41_types::{Bytes, Command, Label, LockKind, Mode, NoMemory, Path, Span};
use std::alloc::Global;

/// Adds a verb and a label.
fn put_labelled(out: &mut Vec<u8>, verb: Verb, label: &Label) -> Result<(), NoMemory>
    ensures { OnOk result (out.new.items ≡ out.old.items ++ (verb_text verb · label.now)) }
{
    put_verb(out, verb)?;
    out.extend_from_slice(label.as_slice())
}

/// Adds a verb and a path.
fn put_at(out: &mut Vec<u8>, verb: Verb, path: &Path) -> Result<(), NoMemory>
    ensures { OnOk result (out.new.items ≡ out.old.items ++ (verb_text verb · path_text path.now)) }
{
    put_verb(out, verb)?;
    put_path(out, path)
}

fn put_create(out: &mut Vec<u8>, label: &Label, path: &Path, guarded: bool) -> Result<(), NoMemory>
    ensures { OnOk result (out.new.items ≡ out.old.items ++ (create_text guarded · (label.now · path_text path.now))) }
{
    put_labelled(out, create_verb(guarded), label)?;
    put_space(out)?;
    put_path(out, path)
}

fn put_open(out: &mut Vec<u8>, label: &Label, path: &Path, mode: Mode) -> Result<(), NoMemory>
    ensures { OnOk result (out.new.items ≡ out.old.items ++ (verb_text verb.Open · (label.now · (path_text path.now · mode_text mode)))) }
{
    put_labelled(out, Verb::Open, label)?;
    put_space(out)?;
    put_path(out, path)?;
    put_space(out)?;
    put_mode(out, mode)
}

fn put_read(
    alloc: Global,
    out: &mut Vec<u8>,
    label: &Label,
    offset: u64,
    count: u32,
) -> Result<(), NoMemory>
    ensures { OnOk result (out.new.items ≡ out.old.items ++ (verb_text verb.Read · (label.now · (decimal offset · decimal count)))) }
{
    put_labelled(out, Verb::Read, label)?;
    put_space(out)?;
    put_decimal(alloc, out, offset)?;
    put_space(out)?;
    put_decimal(alloc, out, u64::from(count))
}

fn put_write(
    alloc: Global,
    out: &mut Vec<u8>,
    label: &Label,
    offset: u64,
    bytes: &[u8],
) -> Result<(), NoMemory>
    ensures { OnOk result (out.new.items ≡ out.old.items ++ (verb_text verb.Write · (label.now · (decimal offset · encode_lower bytes.now)))) }
{
    put_labelled(out, Verb::Write, label)?;
    put_space(out)?;
    put_decimal(alloc, out, offset)?;
    put_space(out)?;
    put_hex(alloc, out, bytes)
}

/// Adds a verb that takes or tries a lock.
fn put_lock(
    alloc: Global,
    out: &mut Vec<u8>,
    verb: Verb,
    label: &Label,
    kind: LockKind,
    span: Span,
) -> Result<(), NoMemory>
    ensures { OnOk result (out.new.items ≡ out.old.items ++ (verb_text verb · (label.now · (kind_text kind · span_text span)))) }
{
    put_labelled(out, verb, label)?;
    put_space(out)?;
    put_kind(out, kind)?;
    put_space(out)?;
    put_span(alloc, out, span)
}

fn put_unlock(alloc: Global, out: &mut Vec<u8>, label: &Label, span: Span) -> Result<(), NoMemory>
    ensures { OnOk result (out.new.items ≡ out.old.items ++ (verb_text verb.Unlock · (label.now · span_text span))) }
{
    put_labelled(out, Verb::Unlock, label)?;
    put_space(out)?;
    put_span(alloc, out, span)
}

fn put_truncate(alloc: Global, out: &mut Vec<u8>, label: &Label, size: u64) -> Result<(), NoMemory>
    ensures { OnOk result (out.new.items ≡ out.old.items ++ (verb_text verb.Truncate · (label.now · decimal size))) }
{
    put_labelled(out, Verb::Truncate, label)?;
    put_space(out)?;
    put_decimal(alloc, out, size)
}

fn put_rename(out: &mut Vec<u8>, from: &Path, to: &Path) -> Result<(), NoMemory>
    ensures { OnOk result (out.new.items ≡ out.old.items ++ (verb_text verb.Rename · (path_text from.now · path_text to.now))) }
{
    put_at(out, Verb::Rename, from)?;
    put_space(out)?;
    put_path(out, to)
}

fn put_pause(alloc: Global, out: &mut Vec<u8>, seconds: u32) -> Result<(), NoMemory>
    ensures { OnOk result (out.new.items ≡ out.old.items ++ (verb_text verb.Pause · decimal seconds)) }
{
    put_verb(out, Verb::Pause)?;
    put_decimal(alloc, out, u64::from(seconds))
}

/// Adds the text of a command.
pub fn put_command(alloc: Global, out: &mut Vec<u8>, command: &Command) -> Result<(), NoMemory>
    ensures { OnOk result (out.new.items ≡ out.old.items ++ command_text command.now) }
{
    match command {
        Command::Create {
            label,
            path,
            guarded,
        } => put_create(out, label, path, *guarded),
        Command::OpenFile { label, path, mode } => put_open(out, label, path, *mode),
        Command::Read {
            label,
            offset,
            count,
        } => put_read(alloc, out, label, *offset, *count),
        Command::Write {
            label,
            offset,
            bytes,
        } => put_write(alloc, out, label, *offset, bytes.as_slice()),
        Command::Lock { label, kind, span } => {
            put_lock(alloc, out, Verb::Lock, label, *kind, *span)
        }
        Command::Unlock { label, span } => put_unlock(alloc, out, label, *span),
        Command::TestLock { label, kind, span } => {
            put_lock(alloc, out, Verb::TestLock, label, *kind, *span)
        }
        Command::Truncate { label, size } => put_truncate(alloc, out, label, *size),
        Command::Close { label } => put_labelled(out, Verb::Close, label),
        Command::Stat { path } => put_at(out, Verb::Stat, path),
        Command::List { path } => put_at(out, Verb::List, path),
        Command::MakeDir { path } => put_at(out, Verb::MakeDir, path),
        Command::Remove { path } => put_at(out, Verb::Remove, path),
        Command::Rename { from, to } => put_rename(out, from, to),
        Command::Pause { seconds } => put_pause(alloc, out, *seconds),
    }
}

/// The text of a command.
pub fn write_command(alloc: Global, command: &Command) -> Result<Bytes, NoMemory>
    ensures { IfOk result (λ text. text ≡ command_text command.now) }
{
    let mut out = Vec::new(alloc);
    put_command(alloc, &mut out, command)?;
    Ok(Bytes::from_vec(out)?)
}
