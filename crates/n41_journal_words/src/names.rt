// Names of files, in which some bytes are told by two digits.
ghost use Rattle.std.specs.Prelude.{◌≡◌, ◌≢◌, ◌<◌, [], length, MatchResult, IfOk, IfSome, Ok, Err};
ghost use Rattle.n41_words.specs.Faults.{Gives};
ghost use Rattle.n41_journal_words.specs.Names.{is_plain, plain, digit, pair, escaped, in_front, name_of};

use n41_types::Bytes;
use n41_words::{LineFault, LineKind};
use std::alloc::Global;

/// Whether a byte stands for itself.
fn is_plain(byte: u8) -> bool
    ensures { result ≡ is_plain byte }
{
    byte > 0x20 && byte < 0x7f && byte != b'%'
}

/// A byte that stands for itself.
fn plain(byte: u8) -> Result<u8, LineKind>
    ensures { result ≡ plain byte }
{
    if is_plain(byte) {
        Ok(byte)
    } else {
        Err(LineKind::Command)
    }
}

/// What an upper hexadecimal digit says.
fn digit(byte: u8) -> Option<usize>
    ensures says { result ≡ digit byte }
    ensures below { IfSome result (λ n. n < 16) }
{
    b"0123456789ABCDEF".iter().position(|digit| *digit == byte)
}

/// A byte by its two digits.
fn pair(high: u8, low: u8) -> Option<u8>
    ensures { result ≡ pair (digit high) (digit low) }
{
    let high = digit(high)?;
    let low = digit(low)?;
    Some((16 * high + low) as u8)
}

/// A byte that is told by two digits, since it does not stand for itself.
fn escaped(high: u8, low: u8) -> Result<u8, LineKind>
    ensures { result ≡ escaped (pair (digit high) (digit low)) }
{
    match pair(high, low) {
        Some(byte) if !is_plain(byte) => Ok(byte),
        _ => Err(LineKind::Command),
    }
}

/// The first byte that a text tells, and the text behind it.
fn first_byte(text: &[u8]) -> Result<(u8, &[u8]), LineKind>
    requires { text.now ≢ [] }
    ensures byte { MatchResult result (λ x. name_of text.now ≡ in_front (Ok x.0) (name_of x.1.now)) (λ k. name_of text.now ≡ Err k) }
    ensures less { IfOk result (λ x. length x.1.now < length text.now) }
{
    match text {
        [b'%', high, low, behind @ ..] => Ok((escaped(*high, *low)?, behind)),
        [byte, behind @ ..] => Ok((plain(*byte)?, behind)),
        [] => Err(LineKind::Command),
    }
}

/// The name that a word tells, of any bytes.
pub(crate) fn name(alloc: Global, word: &[u8]) -> Result<Bytes, LineFault>
    ensures { Gives result (name_of word.now) }
{
    let mut bytes = Vec::new(alloc);
    let mut rest = word;
    while !rest.is_empty() {
        let (byte, behind) = first_byte(rest)?;
        bytes.push(byte)?;
        rest = behind;
    }
    Ok(Bytes::from_vec(bytes)?)
}
