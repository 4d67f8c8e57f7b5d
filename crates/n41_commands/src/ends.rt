// The end of a line.
ghost use Rattle.std.specs.Prelude.{◌≡◌, List, ℕ};
ghost use Rattle.n41_words.specs.Lines.{words};
ghost use Rattle.n41_words.specs.Faults.{unless};
ghost use Rattle.n41_commands.specs.Commands.{ended};

use crate::heads::Ids;
use n41_types::Command;
use n41_words::{LineKind, has_control, next_word};

/// What is wrong where the words of a line are to end, if anything is. Where the line has more bytes than one may have, behind this text, it is `long`.
pub fn end_fault(long: bool, text: &[u8]) -> Option<LineKind>
    ensures command { (c : Command) → ended long (words text.now) c ≡ unless result c }
    ensures ids { (i : Ids) → ended long (words text.now) i ≡ unless result i }
    ensures text { (t : List ℕ) → ended long (words text.now) t ≡ unless result t }
{
    match next_word(text) {
        Some((word, _)) => Some(if has_control(word) {
            LineKind::Byte
        } else {
            LineKind::Words
        }),
        None => if long { Some(LineKind::Limit) } else { None },
    }
}
