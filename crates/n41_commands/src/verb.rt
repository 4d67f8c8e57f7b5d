ghost use Rattle.std.specs.Prelude.{◌≡◌};
ghost use Rattle.n41_commands.specs.Commands.{verb_text, verb_of};

use n41_words::{LineKind, is_word};

/// What a command does, which its first word says.
#[derive(Clone, Copy, Debug, PartialEq, Eq)]
pub enum Verb {
    Create,
    /// Creates a file that is not there yet.
    New,
    Open,
    Read,
    Write,
    Lock,
    Unlock,
    TestLock,
    Truncate,
    Close,
    Stat,
    List,
    MakeDir,
    Remove,
    Rename,
    Pause,
}

const VERBS: [Verb; 16] = [
    Verb::Create,
    Verb::New,
    Verb::Open,
    Verb::Read,
    Verb::Write,
    Verb::Lock,
    Verb::Unlock,
    Verb::TestLock,
    Verb::Truncate,
    Verb::Close,
    Verb::Stat,
    Verb::List,
    Verb::MakeDir,
    Verb::Remove,
    Verb::Rename,
    Verb::Pause,
];

impl Verb {
    /// Its word.
    pub fn text(self) -> &'static [u8]
        ensures { result.now ≡ verb_text self }
    {
        match self {
            Verb::Create => b"create",
            Verb::New => b"new",
            Verb::Open => b"open",
            Verb::Read => b"read",
            Verb::Write => b"write",
            Verb::Lock => b"lock",
            Verb::Unlock => b"unlock",
            Verb::TestLock => b"testlock",
            Verb::Truncate => b"truncate",
            Verb::Close => b"close",
            Verb::Stat => b"stat",
            Verb::List => b"list",
            Verb::MakeDir => b"mkdir",
            Verb::Remove => b"remove",
            Verb::Rename => b"rename",
            Verb::Pause => b"pause",
        }
    }
}

/// The verb that a word is.
pub fn read_verb(word: &[u8]) -> Result<Verb, LineKind>
    ensures { result ≡ verb_of word.now }
{
    for verb in VERBS {
        if is_word(word, verb.text()) {
            return Ok(verb);
        }
    }
    Err(LineKind::Command)
}
