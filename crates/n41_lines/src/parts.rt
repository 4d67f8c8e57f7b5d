// Parts of a line.
ghost use Rattle.std.specs.Prelude.{◌≡◌, ◌++◌, codes, OnOk, IfOk, string_bytes};
ghost use Rattle.std.specs.Fmt.{decimal};
ghost use Rattle.n41_lines.specs.Lines.{outcome_text, begins, hex_or_dash, refuses, bad};

use n41_types::NoMemory;
use std::alloc::Global;
use std::fmt::Write;

pub(crate) fn put_number(text: &mut String, number: u32) -> Result<(), NoMemory>
    ensures { OnOk result (string_bytes text.new ≡ string_bytes text.old ++ (codes " " ++ decimal number)) }
{
    write!(text, " {number}")
}

pub(crate) fn put_outcome(text: &mut String, number: u32, status: u32) -> Result<(), NoMemory>
    ensures { OnOk result (string_bytes text.new ≡ string_bytes text.old ++ outcome_text number status) }
{
    write!(text, " {number}:{status}")
}

pub(crate) fn put_begin(text: &mut String, kind: &str, xid: u32) -> Result<(), NoMemory>
    ensures { OnOk result (string_bytes text.new ≡ string_bytes text.old ++ begins kind.now xid) }
{
    write!(text, "{kind} xid {xid}")
}

/// The head of a message that tells the outcomes of its operations.
pub(crate) fn put_status(
    text: &mut String,
    kind: &str,
    xid: u32,
    status: u32,
) -> Result<(), NoMemory>
    ensures { OnOk result (string_bytes text.new ≡ string_bytes text.old ++ (begins kind.now xid ++ (codes " status " ++ (decimal status ++ codes " ops")))) }
{
    put_begin(text, kind, xid)?;
    write!(text, " status {status} ops")
}

pub(crate) fn put_refusal(
    text: &mut String,
    kind: &str,
    xid: u32,
    number: u32,
) -> Result<(), NoMemory>
    ensures { OnOk result (string_bytes text.new ≡ string_bytes text.old ++ refuses kind.now xid number) }
{
    put_begin(text, kind, xid)?;
    put_number(text, number)
}

fn hex_or_dash(alloc: Global, bytes: &[u8]) -> Result<String, NoMemory>
    ensures { IfOk result (λ text. string_bytes text ≡ hex_or_dash bytes.now) }
{
    match bytes {
        [] => String::from_str(alloc, "-"),
        [_, ..] => hex::encode(alloc, bytes),
    }
}

pub(crate) fn put_bad(alloc: Global, text: &mut String, bytes: &[u8]) -> Result<(), NoMemory>
    ensures { OnOk result (string_bytes text.new ≡ string_bytes text.old ++ bad bytes.now) }
{
    let digits = hex_or_dash(alloc, bytes)?;
    write!(text, "bad {digits}")
}
