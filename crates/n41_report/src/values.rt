// The words for what a command gave. Each call adds them at the end of a text.
ghost use Rattle.std.specs.Prelude.{◌≡◌, ◌++◌, ◌∷◌, [], ◌<◌, ◌/◌, ◌%◌, ◌==◌, ◌||◌, nat_lt, slice_index, false, codes, OnOk, IfOk, string_bytes};
ghost use Rattle.hex.specs.Hex.{upper_digits};
ghost use Rattle.std.specs.List.{flat_map};
ghost use Rattle.std.specs.Fmt.{decimal, digits};
ghost use Rattle.n41_calls.specs.Text.{hex_or_dash, decimal_or_dash, padded, mode_text, name_byte, name_text, end_text, value_text};

use n41_types::{Bytes, NoMemory, Texts, Value};
use std::alloc::Global;

/// Adds these words at the end of a text.
pub fn put(out: &mut Vec<u8>, words: &str) -> Result<(), NoMemory>
    ensures { OnOk result (out.new.items ≡ out.old.items ++ words.now) }
{
    out.extend_from_slice(words.as_bytes())
}

/// Adds a number in decimal at the end of a text.
pub fn put_decimal(alloc: Global, out: &mut Vec<u8>, number: u64) -> Result<(), NoMemory>
    ensures { OnOk result (out.new.items ≡ out.old.items ++ decimal number) }
{
    let digits = number.to_string(alloc)?;
    put(out, digits.as_str())
}

fn put_decimal_or_dash(
    alloc: Global,
    out: &mut Vec<u8>,
    number: Option<u64>,
) -> Result<(), NoMemory>
    ensures { OnOk result (out.new.items ≡ out.old.items ++ decimal_or_dash number) }
{
    match number {
        Some(number) => put_decimal(alloc, out, number),
        None => put(out, "-"),
    }
}

/// Adds bytes in hexadecimal, a dash for none.
fn put_hex(alloc: Global, out: &mut Vec<u8>, bytes: &[u8]) -> Result<(), NoMemory>
    ensures { OnOk result (out.new.items ≡ out.old.items ++ hex_or_dash bytes.now) }
{
    match bytes {
        [] => put(out, "-"),
        [_, ..] => {
            let digits = hex::encode(alloc, bytes)?;
            put(out, digits.as_str())
        }
    }
}

fn octal(alloc: Global, mode: u32) -> Result<String, NoMemory>
    ensures { IfOk result (λ text. string_bytes text ≡ padded 4 (digits 8 false mode)) }
{
    let text = format!(in alloc; "{mode:04o}")?;
    Ok(text)
}

/// Adds a mode in octal.
fn put_mode(alloc: Global, out: &mut Vec<u8>, mode: Option<u32>) -> Result<(), NoMemory>
    ensures { OnOk result (out.new.items ≡ out.old.items ++ mode_text mode) }
{
    match mode {
        Some(mode) => {
            let digits = octal(alloc, mode)?;
            put(out, digits.as_str())
        }
        None => put(out, "-"),
    }
}

/// Adds what `stat` gave.
fn put_stat(
    alloc: Global,
    out: &mut Vec<u8>,
    kind: u32,
    size: u64,
    fileid: Option<u64>,
    mode: Option<u32>,
) -> Result<(), NoMemory>
    ensures { OnOk result (out.new.items ≡ out.old.items ++ value_text (Value.Stat kind size fileid mode)) }
{
    put(out, "stat type ")?;
    put_decimal(alloc, out, u64::from(kind))?;
    put(out, " size ")?;
    put_decimal(alloc, out, size)?;
    put(out, " fileid ")?;
    put_decimal_or_dash(alloc, out, fileid)?;
    put(out, " mode ")?;
    put_mode(alloc, out, mode)
}

/// Adds what `read` gave.
fn put_data(alloc: Global, out: &mut Vec<u8>, bytes: &[u8], last: bool) -> Result<(), NoMemory>
    ensures { OnOk result (out.new.items ≡ out.old.items ++ codes "data " ++ hex_or_dash bytes.now ++ end_text last) }
{
    put(out, "data ")?;
    put_hex(alloc, out, bytes)?;
    put(out, if last { " end" } else { " more" })
}

/// The upper hexadecimal digit of a number below 16.
fn digit_of(number: u8) -> u8
    requires { number < 16 }
    ensures { result ≡ slice_index upper_digits number }
{
    b"0123456789ABCDEF"[number as usize]
}

/// Whether a byte of a name is told by two digits.
fn is_escaped(byte: u8) -> bool
    ensures { result ≡ (nat_lt byte 33 || nat_lt 126 byte || (byte == 37)) }
{
    byte < 0x21 || byte > 0x7e || byte == b'%'
}

/// Adds a byte as `%` and two digits.
fn put_escaped(out: &mut Vec<u8>, byte: u8) -> Result<(), NoMemory>
    ensures { OnOk result (out.new.items ≡ out.old.items ++ 37 ∷ slice_index upper_digits (byte / 16) ∷ slice_index upper_digits (byte % 16) ∷ []) }
{
    out.extend_from_slice(&[b'%', digit_of(byte / 16), digit_of(byte % 16)])
}

/// Adds a byte of a name.
#[tactic(auto, unfolding(hex::specs::Hex::encode_with))]
fn put_name_byte(out: &mut Vec<u8>, byte: u8) -> Result<(), NoMemory>
    ensures { OnOk result (out.new.items ≡ out.old.items ++ name_byte byte) }
{
    if is_escaped(byte) {
        return put_escaped(out, byte);
    }
    out.extend_from_slice(&[byte])
}

/// Adds a name behind a space.
fn put_name(out: &mut Vec<u8>, name: &[u8]) -> Result<(), NoMemory>
    ensures { OnOk result (out.new.items ≡ out.old.items ++ codes " " ++ name_text name.now) }
{
    put(out, " ")?;
    for byte in name {
        put_name_byte(out, *byte)?;
    }
    Ok(())
}

fn put_each_name(out: &mut Vec<u8>, names: &[Bytes]) -> Result<(), NoMemory>
    ensures { OnOk result (out.new.items ≡ out.old.items ++ flat_map (λ n. codes " " ++ name_text n) names.now) }
{
    for name in names {
        put_name(out, name.as_slice())?;
    }
    Ok(())
}

/// Adds what `list` gave.
fn put_names(alloc: Global, out: &mut Vec<u8>, names: &Texts, more: bool) -> Result<(), NoMemory>
    ensures { OnOk result (out.new.items ≡ out.old.items ++ value_text (Value.Names names.now more)) }
{
    put(out, "names ")?;
    put_decimal(alloc, out, names.len() as u64)?;
    put_each_name(out, names.as_slice())?;
    put(out, if more { " more" } else { "" })
}

/// Adds what `write` gave.
fn put_wrote(alloc: Global, out: &mut Vec<u8>, count: u32) -> Result<(), NoMemory>
    ensures { OnOk result (out.new.items ≡ out.old.items ++ codes "wrote " ++ decimal count) }
{
    put(out, "wrote ")?;
    put_decimal(alloc, out, u64::from(count))
}

/// Adds the words for a value.
pub(crate) fn put_value(alloc: Global, out: &mut Vec<u8>, value: &Value) -> Result<(), NoMemory>
    ensures { OnOk result (out.new.items ≡ out.old.items ++ value_text value.now) }
{
    match value {
        Value::Opened => put(out, "opened"),
        Value::Got { bytes, last } => put_data(alloc, out, bytes.as_slice(), *last),
        Value::Wrote(count) => put_wrote(alloc, out, *count),
        Value::Locked => put(out, "locked"),
        Value::Unlocked => put(out, "unlocked"),
        Value::Free => put(out, "free"),
        Value::Truncated => put(out, "truncated"),
        Value::Closed => put(out, "closed"),
        Value::Stat {
            kind,
            size,
            fileid,
            mode,
        } => put_stat(alloc, out, *kind, *size, *fileid, *mode),
        Value::Names { names, more } => put_names(alloc, out, names, *more),
        Value::Made => put(out, "made"),
        Value::Removed => put(out, "removed"),
        Value::Renamed => put(out, "renamed"),
        Value::Paused => put(out, "paused"),
    }
}
