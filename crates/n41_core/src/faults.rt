use n41_results::Shape;

/// A command that was given: its caller, from 0, and its number among that caller's commands, from 1.
#[derive(Clone, Copy, Debug, PartialEq, Eq)]
pub struct Ticket {
    pub caller: u32,
    pub number: u64,
}

/// Why a command does not begin.
#[derive(Clone, Copy, Debug, PartialEq, Eq)]
pub enum PostFault {
    /// There is no such caller.
    NoCaller,
    /// The caller's command of this number is unanswered.
    Busy(u64),
    /// No more commands come.
    Quitting,
    NoMemory,
}

/// Why what came is not taken.
#[derive(Clone, Copy, Debug, PartialEq, Eq)]
pub enum TookFault {
    /// This connection does not stand.
    Gone(u64),
    /// It is not at the next place of its connection.
    Misplaced { want: u64, have: u64 },
    /// It is no reply to what was asked, and the connection is broken.
    Shape(Shape),
    /// Memory is wanting, and the connection is broken.
    NoMemory,
}
