// The lines of a text, cut off one after another.
ghost use Rattle.std.specs.Prelude.{◌≡◌, ◌==◌, ◌∷◌, ◌<◌, [], length, MatchOption};
ghost use Rattle.std.specs.List.{position};
ghost use Rattle.n41_words.specs.Lines.{lines, is_skipped};

use crate::words::{next_word, rest_of};

/// The place of the first line end.
fn end_of(text: &[u8]) -> Option<usize>
    ensures { result ≡ position (λ b. b == 10) text.now }
{
    text.iter().position(|byte| *byte == b'\n')
}

/// The first line and what stands behind it. None where there is no line.
pub fn next_line(text: &[u8]) -> Option<(&[u8], &[u8])>
    ensures lines { MatchOption result (lines text.now ≡ []) (λ x. lines text.now ≡ x.0.now ∷ lines x.1.now) }
    ensures less { MatchOption result (text.now ≡ []) (λ x. length x.1.now < length text.now) }
{
    if text.is_empty() {
        return None;
    }
    match end_of(text) {
        Some(place) => {
            let behind = rest_of(text, place + 1);
            Some((&text[..place], behind))
        }
        None => Some((text, &[])),
    }
}

/// Whether a line says nothing.
pub fn is_skipped(line: &[u8]) -> bool
    ensures { result ≡ is_skipped line.now }
{
    match line {
        [b'#', ..] => true,
        _ => next_word(line).is_none(),
    }
}
