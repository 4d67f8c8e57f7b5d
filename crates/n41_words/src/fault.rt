ghost use Rattle.std.specs.Prelude.{◌≡◌};
ghost use Rattle.n41_words.specs.Faults.{at_line};
ghost use Rattle.n41_words.specs.declared.fault.LineFault.TheVariants.{Kind, NoMemory};

use std::alloc::{AllocError, AllocFailed};
use thiserror::Error;

/// The first fault of a line of a script.
#[derive(Clone, Copy, Debug, PartialEq, Eq)]
pub enum LineKind {
    /// A byte below 0x20, or 0x7F.
    Byte,
    /// More bytes, callers or commands than a script may have.
    Limit,
    /// A line of the plan, of the user or of the owner, out of form or out of place.
    Plan,
    /// The first word is no caller's name.
    Caller,
    /// There is no such command.
    Command,
    /// A word is missing, or one too many.
    Words,
    /// A word is no name of a handle.
    Name,
    /// A caller opens one name twice.
    Twice,
    /// A word is no path.
    Path,
    /// A word is no number, or one out of range.
    Number,
    /// A word is no bytes in hexadecimal.
    Hex,
}

/// Why a text is no script.
#[derive(Clone, Copy, Debug, PartialEq, Eq, Error)]
pub enum ScriptFault {
    /// The number, from 1, of the first line that is refused, and its first fault. A text that is too long has line 0.
    #[error("line {line} is refused")]
    Line { line: u64, kind: LineKind },
    #[error("there is no memory left")]
    NoMemory,
}

/// Why a line is refused.
#[derive(Clone, Copy)]
pub enum LineFault {
    Kind(LineKind),
    NoMemory,
}

impl From<LineKind> for LineFault {
    ghost from_gives = { λ k e. e ≡ Kind k };

    fn from(kind: LineKind) -> LineFault {
        LineFault::Kind(kind)
    }
}

impl From<AllocError> for LineFault {
    ghost from_gives = { λ _ e. e ≡ NoMemory };

    fn from(_fault: AllocError) -> LineFault {
        LineFault::NoMemory
    }
}

impl<T: Drop> From<AllocFailed<T>> for LineFault {
    ghost from_gives = { λ _ e. e ≡ NoMemory };

    fn from(_fault: AllocFailed<T>) -> LineFault {
        LineFault::NoMemory
    }
}

impl LineFault {
    /// The fault of a script whose line of this number has this fault.
    pub fn at(self, line: u64) -> ScriptFault
        ensures { result ≡ at_line line self }
    {
        match self {
            LineFault::Kind(kind) => ScriptFault::Line { line, kind },
            LineFault::NoMemory => ScriptFault::NoMemory,
        }
    }
}
