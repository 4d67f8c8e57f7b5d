ghost use Rattle.std.specs.Prelude.{◌≡◌};
ghost use Rattle.n41_run.specs.Causes.{kind_text};

use n41_script::LineKind;
use std::fmt;

/// Why a call of the program failed. Its text is the line that the program prints.
#[derive(Clone, Copy, Debug, PartialEq, Eq)]
pub enum RunFault {
    /// The place, from 1, of the first word that fits no form; one past the last where a word is missing.
    Words(usize),
    /// The line with this number, from 1, is the first of the script or journal that is refused, for this. A script, a journal or a stream that is too long has line 0.
    Script(u64, LineKind),
    /// The source failed.
    ReadFault,
    /// The sink failed.
    WriteFault,
    /// This many rounds in a row brought no reply.
    Unreachable(u64),
    /// The reply of this event breaks the rules. A probe has event 0 alone.
    Breach(u64),
    /// There is no memory left.
    NoMemory,
}

impl RunFault {
    ghost use Rattle.std.specs.Prelude.{◌≡◌};
    ghost use Rattle.n41_run.specs.Causes.{number};

    /// The status that the program ends with.
    pub fn status(self) -> u8
        ensures { result ≡ number self }
    {
        match self {
            RunFault::Words(_) => 2,
            RunFault::Script(_, _) => 3,
            RunFault::ReadFault => 4,
            RunFault::WriteFault => 5,
            RunFault::Unreachable(_) => 6,
            RunFault::Breach(_) => 7,
            RunFault::NoMemory => 8,
        }
    }
}

/// The word for what is wrong with a line of a script.
fn kind_word(kind: LineKind) -> &'static str
    ensures { result.now ≡ kind_text kind }
{
    match kind {
        LineKind::Byte => "byte",
        LineKind::Limit => "limit",
        LineKind::Plan => "plan",
        LineKind::Caller => "caller",
        LineKind::Command => "command",
        LineKind::Words => "words",
        LineKind::Name => "name",
        LineKind::Twice => "twice",
        LineKind::Path => "path",
        LineKind::Number => "number",
        LineKind::Hex => "hex",
    }
}

impl fmt::Display for RunFault {
    ghost use Rattle.std.specs.Prelude.{Some};
    ghost use Rattle.n41_run.specs.Causes.{fault_text};

    ghost output = { λ fault. Some (fault_text fault) };

    fn fmt<W: fmt::Write>(&self, f: &mut fmt::Formatter<W>) -> fmt::Result {
        match self {
            RunFault::Words(place) => write!(f, "bad word at {place}"),
            RunFault::Script(line, kind) => write!(f, "line {line}: {}", kind_word(*kind)),
            RunFault::ReadFault => write!(f, "read fault"),
            RunFault::WriteFault => write!(f, "write fault"),
            RunFault::Unreachable(rounds) => write!(f, "unreachable after {rounds} rounds"),
            RunFault::Breach(event) => write!(f, "breach at event {event}"),
            RunFault::NoMemory => write!(f, "no memory"),
        }
    }
}
