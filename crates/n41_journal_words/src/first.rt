ghost use Rattle.std.specs.Prelude.{◌≡◌};
ghost use Rattle.n41_journal_words.specs.Answers.{first_text, first_of};

use n41_words::{LineKind, is_word};

/// What kind of answer it is, which its first word says.
#[derive(Clone, Copy, Debug, PartialEq, Eq)]
pub(crate) enum First {
    Opened,
    Data,
    Wrote,
    Locked,
    Unlocked,
    Free,
    Truncated,
    Closed,
    Stat,
    Names,
    Made,
    Removed,
    Renamed,
    Paused,
    Refused,
    Unknown,
    Lost,
    Unreachable,
    /// That the label names no open handle, which has two words.
    Not,
    Breach,
}

const FIRSTS: [First; 20] = [
    First::Opened,
    First::Data,
    First::Wrote,
    First::Locked,
    First::Unlocked,
    First::Free,
    First::Truncated,
    First::Closed,
    First::Stat,
    First::Names,
    First::Made,
    First::Removed,
    First::Renamed,
    First::Paused,
    First::Refused,
    First::Unknown,
    First::Lost,
    First::Unreachable,
    First::Not,
    First::Breach,
];

impl First {
    /// Its word.
    fn text(self) -> &'static [u8]
        ensures { result.now ≡ first_text self }
    {
        match self {
            First::Opened => b"opened",
            First::Data => b"data",
            First::Wrote => b"wrote",
            First::Locked => b"locked",
            First::Unlocked => b"unlocked",
            First::Free => b"free",
            First::Truncated => b"truncated",
            First::Closed => b"closed",
            First::Stat => b"stat",
            First::Names => b"names",
            First::Made => b"made",
            First::Removed => b"removed",
            First::Renamed => b"renamed",
            First::Paused => b"paused",
            First::Refused => b"refused",
            First::Unknown => b"unknown",
            First::Lost => b"lost",
            First::Unreachable => b"unreachable",
            First::Not => b"not",
            First::Breach => b"breach",
        }
    }
}

/// The kind of answer that a word is the first of.
pub(crate) fn read_first(word: &[u8]) -> Result<First, LineKind>
    ensures { result ≡ first_of word.now }
{
    for first in FIRSTS {
        if is_word(word, first.text()) {
            return Ok(first);
        }
    }
    Err(LineKind::Command)
}
