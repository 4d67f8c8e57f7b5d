// The words of a line, cut off one after another.
ghost use Rattle.std.specs.Prelude.{◌≡◌, ◌≤◌, ◌∷◌, [], not, true, length, drop, MatchOption};
ghost use Rattle.std.specs.List.{position};
ghost use Rattle.n41_words.specs.Lines.{words, is_space, word_begins};
ghost use Rattle.n41_words.specs.Words.{has_control, same, missing};

use crate::fault::LineKind;

/// The text from a place on.
pub(crate) fn rest_of(text: &[u8], at: usize) -> &[u8]
    requires { at ≤ length text.now }
    ensures { result.now ≡ drop at text.now }
{
    &text[at..]
}

/// The place of the first byte of a word.
fn word_at(text: &[u8]) -> Option<usize>
    ensures { result ≡ position (λ b. not (is_space b)) text.now }
{
    text.iter().position(|byte| *byte != b' ')
}

/// The place of the first space.
fn space_at(text: &[u8]) -> Option<usize>
    ensures { result ≡ position is_space text.now }
{
    text.iter().position(|byte| *byte == b' ')
}

/// The word at the front, and what stands behind it.
fn around_word(text: &[u8]) -> (&[u8], &[u8])
    requires { word_begins text.now ≡ true }
    ensures { words text.now ≡ result.0.now ∷ words result.1.now }
{
    match space_at(text) {
        Some(place) => text.split_at(place),
        None => (text, &[]),
    }
}

/// The first word and what stands behind it. None where there is no word.
pub fn next_word(text: &[u8]) -> Option<(&[u8], &[u8])>
    ensures { MatchOption result (words text.now ≡ []) (λ x. words text.now ≡ x.0.now ∷ words x.1.now) }
{
    match word_at(text) {
        Some(place) => Some(around_word(rest_of(text, place))),
        None => None,
    }
}

/// Whether the word has a byte that stands in none.
pub fn has_control(word: &[u8]) -> bool
    ensures { result ≡ has_control word.now }
{
    word.iter().any(|byte| *byte < 0x20 || *byte == 0x7f)
}

/// Whether the word is this one.
pub fn is_word(word: &[u8], other: &[u8]) -> bool
    ensures { result ≡ same word.now other.now }
{
    word == other
}

/// What is wrong where a word is missing, in a line that is too long or not.
pub fn missing(long: bool, kind: LineKind) -> LineKind
    ensures { result ≡ missing long kind }
{
    if long { LineKind::Limit } else { kind }
}
