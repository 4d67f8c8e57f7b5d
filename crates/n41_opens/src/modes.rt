ghost use Rattle.std.specs.Prelude.{◌≡◌, ◌+◌, ◌<◌, ◌^◌};
ghost use Rattle.n41_opens.specs.Modes.{joined, is_less};
ghost use Rattle.n41_opens.specs.Inside.{nothing, amount, more, fewer, union_of};

use n41_types::Mode;

/// What two opens let do, taken together.
pub(crate) fn joined(a: Mode, b: Mode) -> Mode
    ensures { result ≡ joined a b }
{
    match (a, b) {
        (Mode::Read, Mode::Read) => Mode::Read,
        (Mode::Write, Mode::Write) => Mode::Write,
        _ => Mode::Both,
    }
}

/// Whether the first lets do less than the second.
pub(crate) fn is_less(a: Mode, b: Mode) -> bool
    ensures { result ≡ is_less a b }
{
    match (a, b) {
        (Mode::Read | Mode::Write, Mode::Both) => true,
        _ => false,
    }
}

/// How many handles a record has in each mode.
#[derive(Clone, Copy, Debug)]
pub(crate) struct Tally {
    pub(crate) read: u64,
    pub(crate) write: u64,
    pub(crate) both: u64,
}

impl Tally {
    pub(crate) fn nothing() -> Tally
        ensures { result ≡ nothing }
    {
        Tally {
            read: 0,
            write: 0,
            both: 0,
        }
    }

    /// With one more in this mode.
    pub(crate) fn more(self, mode: Mode) -> Tally
        requires { amount mode self + 1 < 2 ^ 64 }
        ensures { result ≡ more mode self }
    {
        match mode {
            Mode::Read => Tally {
                read: self.read + 1,
                write: self.write,
                both: self.both,
            },
            Mode::Write => Tally {
                read: self.read,
                write: self.write + 1,
                both: self.both,
            },
            Mode::Both => Tally {
                read: self.read,
                write: self.write,
                both: self.both + 1,
            },
        }
    }

    /// With one fewer in this mode.
    pub(crate) fn fewer(self, mode: Mode) -> Tally
        ensures { result ≡ fewer mode self }
    {
        match mode {
            Mode::Read => Tally {
                read: self.read.saturating_sub(1),
                write: self.write,
                both: self.both,
            },
            Mode::Write => Tally {
                read: self.read,
                write: self.write.saturating_sub(1),
                both: self.both,
            },
            Mode::Both => Tally {
                read: self.read,
                write: self.write,
                both: self.both.saturating_sub(1),
            },
        }
    }

    /// What they let do, taken together. None where there are none.
    pub(crate) fn union(self) -> Option<Mode>
        ensures { result ≡ union_of self }
    {
        match (0 < self.read, 0 < self.write, 0 < self.both) {
            (_, _, true) | (true, true, false) => Some(Mode::Both),
            (true, false, false) => Some(Mode::Read),
            (false, true, false) => Some(Mode::Write),
            (false, false, false) => None,
        }
    }
}
