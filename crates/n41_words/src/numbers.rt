// Numbers as they are written, in decimal and in octal.
ghost use Rattle.std.specs.Prelude.{◌≡◌, ◌≤◌, ◌+◌, ◌-◌, ◌*◌, true};
ghost use Rattle.std.specs.List.{list_all};
ghost use Rattle.n41_words.specs.Numbers.{is_digit, is_decimal, is_octal, spelled, at_most, number, octal};

use crate::fault::LineKind;

fn has_digits(base: u8, word: &[u8]) -> bool
    requires { base ≤ 10 }
    ensures { result ≡ list_all (is_digit base) word.now }
{
    word.iter().all(|byte| *byte >= b'0' && *byte < b'0' + base)
}

/// Whether the word is a number in decimal.
fn is_decimal(word: &[u8]) -> bool
    ensures { result ≡ is_decimal word.now }
{
    match word {
        [] => false,
        [b'0', _, ..] => false,
        _ => has_digits(10, word),
    }
}

/// Whether the word is a number in octal.
fn is_octal(word: &[u8]) -> bool
    ensures { result ≡ is_octal word.now }
{
    match word {
        [b'0', _, _, _, _, ..] => false,
        [_, _, _, _, ..] => has_digits(8, word),
        _ => false,
    }
}

/// The number with one digit more, unless it is above this one.
fn grown(base: u8, number: u64, digit: u8, most: u64) -> Option<u64>
    requires { is_digit base digit ≡ true }
    ensures { result ≡ at_most most (number * base + (digit - 48)) }
{
    let grown = number
        .checked_mul(u64::from(base))?
        .checked_add(u64::from(digit - b'0'))?;
    if grown > most { None } else { Some(grown) }
}

/// The number that digits spell, unless it is above this one.
fn value(base: u8, digits: &[u8], most: u64) -> Option<u64>
    requires base { 1 ≤ base }
    requires digits { list_all (is_digit base) digits.now ≡ true }
    ensures { result ≡ at_most most (spelled base 0 digits.now) }
{
    let mut value = 0;
    let mut left = digits;
    while let [digit, behind @ ..] = left {
        value = grown(base, value, *digit, most)?;
        left = behind;
    }
    Some(value)
}

/// The number that a word is in decimal, which is this one at most.
pub fn number(word: &[u8], most: u64) -> Result<u64, LineKind>
    ensures { result ≡ number (most + 1) word.now }
{
    if !is_decimal(word) {
        return Err(LineKind::Number);
    }
    value(10, word, most).ok_or(LineKind::Number)
}

/// The number that a word is in octal, which is this one at most.
pub fn octal(word: &[u8], most: u32) -> Result<u32, LineKind>
    ensures { result ≡ octal (most + 1) word.now }
{
    if !is_octal(word) {
        return Err(LineKind::Number);
    }
    match value(8, word, u64::from(most)) {
        Some(value) => Ok(value as u32),
        None => Err(LineKind::Number),
    }
}
