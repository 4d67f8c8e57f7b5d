ghost use Rattle.std.specs.Prelude.{◌≡◌};
ghost use Rattle.n41_journal_reader.specs.Events.{first_text, first_of};

use n41_words::{LineKind, is_word};

/// What kind of event it is, which the first word of its line says.
#[derive(Clone, Copy, Debug, PartialEq, Eq)]
pub(crate) enum First {
    Began,
    /// A request.
    Put,
    /// A reply.
    Took,
    /// A callback.
    CbTook,
    /// The reply to a callback.
    CbPut,
    Dialed,
    DialFailed,
    Broke,
    Ticked,
    Answered,
    Quit,
}

const FIRSTS: [First; 11] = [
    First::Began,
    First::Put,
    First::Took,
    First::CbTook,
    First::CbPut,
    First::Dialed,
    First::DialFailed,
    First::Broke,
    First::Ticked,
    First::Answered,
    First::Quit,
];

impl First {
    /// Its word.
    fn text(self) -> &'static [u8]
        ensures { result.now ≡ first_text self }
    {
        match self {
            First::Began => b"began",
            First::Put => b"put",
            First::Took => b"took",
            First::CbTook => b"cbtook",
            First::CbPut => b"cbput",
            First::Dialed => b"dialed",
            First::DialFailed => b"dialfailed",
            First::Broke => b"broke",
            First::Ticked => b"ticked",
            First::Answered => b"answered",
            First::Quit => b"quit",
        }
    }
}

/// The kind of event that a word is the first of.
pub(crate) fn read_first(word: &[u8]) -> Result<First, LineKind>
    ensures { result ≡ first_of word.now }
{
    for first in FIRSTS {
        if is_word(word, first.text()) {
            return Ok(first);
        }
    }
    Err(LineKind::Command)
}
