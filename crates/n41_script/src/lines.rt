// The part of a line that is read.
ghost use Rattle.std.specs.Prelude.{◌≡◌, reverse};
ghost use Rattle.std.specs.List.{position};
ghost use Rattle.n41_words.specs.Lines.{is_space};
ghost use Rattle.n41_script.specs.Lines.{is_long, readable, to_last_space};

/// The bytes that a line may have.
const LINE_LIMIT: usize = 140_000;

/// Whether a line has more bytes than one may have.
pub(crate) fn is_long(line: &[u8]) -> bool
    ensures { result ≡ is_long line.now }
{
    line.len() > LINE_LIMIT
}

/// How many bytes stand behind the last space.
fn behind_last_space(text: &[u8]) -> Option<usize>
    ensures { result ≡ position is_space (reverse text.now) }
{
    text.iter().rev().position(|byte| *byte == b' ')
}

/// A line without the word at its end.
fn to_last_space(text: &[u8]) -> &[u8]
    ensures { result.now ≡ to_last_space text.now }
{
    match behind_last_space(text) {
        Some(count) => &text[..text.len() - count],
        None => &[],
    }
}

/// The part of a line whose words are looked at.
pub(crate) fn readable(line: &[u8]) -> &[u8]
    ensures { result.now ≡ readable line.now }
{
    if is_long(line) {
        return to_last_space(&line[..LINE_LIMIT + 1]);
    }
    line
}
