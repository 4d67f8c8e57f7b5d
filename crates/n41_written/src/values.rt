// The words of commands. Each call adds one at the end of a text.
ghost use Rattle.std.specs.Prelude.{◌≡◌, ◌++◌, ◌∷◌, codes, OnOk};
ghost use Rattle.std.specs.List.{flat_map};
ghost use Rattle.std.specs.Fmt.{decimal};
ghost use Rattle.hex.specs.Hex.{encode_lower};
ghost use Rattle.n41_commands.specs.Paths.{path_text};
ghost use Rattle.n41_commands.specs.Commands.{verb_text};
ghost use Rattle.n41_written.specs.Written.{mode_text, kind_text, extent_text, span_text, create_text};

use n41_commands::Verb;
use n41_types::{LockKind, Mode, Name, NoMemory, Path, Span};
use std::alloc::Global;

/// Adds this word.
pub(crate) fn put(out: &mut Vec<u8>, word: &str) -> Result<(), NoMemory>
    ensures { OnOk result (out.new.items ≡ out.old.items ++ word.now) }
{
    out.extend_from_slice(word.as_bytes())
}

/// Adds the space between two words.
pub(crate) fn put_space(out: &mut Vec<u8>) -> Result<(), NoMemory>
    ensures { OnOk result (out.new.items ≡ out.old.items ++ codes " ") }
{
    put(out, " ")
}

/// Adds a number in decimal.
pub(crate) fn put_decimal(alloc: Global, out: &mut Vec<u8>, number: u64) -> Result<(), NoMemory>
    ensures { OnOk result (out.new.items ≡ out.old.items ++ decimal number) }
{
    let digits = number.to_string(alloc)?;
    put(out, digits.as_str())
}

/// Adds bytes in hexadecimal.
pub(crate) fn put_hex(alloc: Global, out: &mut Vec<u8>, bytes: &[u8]) -> Result<(), NoMemory>
    ensures { OnOk result (out.new.items ≡ out.old.items ++ encode_lower bytes.now) }
{
    let digits = hex::encode(alloc, bytes)?;
    put(out, digits.as_str())
}

/// Adds the word of a verb and the space behind it.
pub(crate) fn put_verb(out: &mut Vec<u8>, verb: Verb) -> Result<(), NoMemory>
    ensures { OnOk result (out.new.items ≡ out.old.items ++ verb_text verb ++ codes " ") }
{
    out.extend_from_slice(verb.text())?;
    put_space(out)
}

/// The verb that makes a file, anew or not.
pub(crate) fn create_verb(guarded: bool) -> Verb
    ensures { verb_text result ≡ create_text guarded }
{
    if guarded { Verb::New } else { Verb::Create }
}

/// Adds how a file is to be open.
pub(crate) fn put_mode(out: &mut Vec<u8>, mode: Mode) -> Result<(), NoMemory>
    ensures { OnOk result (out.new.items ≡ out.old.items ++ mode_text mode) }
{
    match mode {
        Mode::Read => put(out, "r"),
        Mode::Write => put(out, "w"),
        Mode::Both => put(out, "rw"),
    }
}

/// Adds how bytes are to be locked.
pub(crate) fn put_kind(out: &mut Vec<u8>, kind: LockKind) -> Result<(), NoMemory>
    ensures { OnOk result (out.new.items ≡ out.old.items ++ kind_text kind) }
{
    match kind {
        LockKind::Read => put(out, "r"),
        LockKind::Write => put(out, "w"),
    }
}

fn put_extent(alloc: Global, out: &mut Vec<u8>, len: Option<u64>) -> Result<(), NoMemory>
    ensures { OnOk result (out.new.items ≡ out.old.items ++ extent_text len) }
{
    match len {
        None => put(out, "eof"),
        Some(len) => put_decimal(alloc, out, len),
    }
}

/// Adds the two words of a span.
pub(crate) fn put_span(alloc: Global, out: &mut Vec<u8>, span: Span) -> Result<(), NoMemory>
    ensures { OnOk result (out.new.items ≡ out.old.items ++ span_text span) }
{
    put_decimal(alloc, out, span.from)?;
    put_space(out)?;
    put_extent(alloc, out, span.len)
}

/// Adds a name of a path behind a `/`.
fn put_step(out: &mut Vec<u8>, name: &[u8]) -> Result<(), NoMemory>
    ensures { OnOk result (out.new.items ≡ out.old.items ++ 47 ∷ name.now) }
{
    put(out, "/")?;
    out.extend_from_slice(name)
}

fn put_steps(out: &mut Vec<u8>, names: &[Name]) -> Result<(), NoMemory>
    ensures { OnOk result (out.new.items ≡ out.old.items ++ flat_map (λ name. 47 ∷ name) names.now) }
{
    for name in names {
        put_step(out, name.as_slice())?;
    }
    Ok(())
}

/// Adds a path.
pub(crate) fn put_path(out: &mut Vec<u8>, path: &Path) -> Result<(), NoMemory>
    ensures { OnOk result (out.new.items ≡ out.old.items ++ path_text path.now) }
{
    match path.as_slice() {
        [] => put(out, "/"),
        names => put_steps(out, names),
    }
}
