// The two directions of a connection, and what makes connections.
ghost use Rattle.std.specs.Prelude.{◌≡◌, ℕ, List, IfOk};
ghost use Rattle.std.specs.declared.option.Option.{Option};
ghost use Rattle.n41_link.specs.Counts.{Counts, is_failed};
ghost use Rattle.n41_link.specs.Flow.{BringsAtMost, Brings, ReadsAhead, TakesIn, TakesPrefix, is_quiet, is_end};
ghost use Rattle.n41_link.specs.Links.{IsUnread, IsUnwritten};

use crate::stream::Failed;

/// What a read of a connection brought.
#[derive(Clone, Copy, Debug, PartialEq, Eq)]
pub enum Came {
    /// So many bytes, at the front of the buffer.
    Bytes(usize),
    /// The other side has ended.
    End,
    /// Nothing came for a while.
    Quiet,
}

/// What the other side sends.
pub trait Inflow {
    /// The bytes that were read from it, where they are told.
    ghost got: { Self → Option (List ℕ) };

    /// The pieces that are to come, where they are told: an empty one is a quiet, and after the last comes the end.
    ghost ahead: { Self → Option (List (List ℕ)) };

    /// How often it has failed.
    ghost faults: { Self → ℕ };

    /// How often it was quiet.
    ghost quiets: { Self → ℕ };

    /// How often it has told its end.
    ghost ends: { Self → ℕ };

    /// Moves the next bytes to the front of the buffer, one at least where there is room. A call that brings none moves none.
    fn read(&mut self, buf: &mut [u8]) -> Result<Came, Failed>
        ensures bound { BringsAtMost result buf.new }
        ensures bytes { Brings (got self.old) (got self.new) result buf.new }
        ensures plan { ReadsAhead (ahead self.old) (ahead self.new) result buf.new }
        ensures cause { Counts (faults self.old) (faults self.new) (is_failed result) }
        ensures quiet { Counts (quiets self.old) (quiets self.new) (is_quiet result) }
        ensures ended { Counts (ends self.old) (ends self.new) (is_end result) };
}

/// What is sent to the other side.
pub trait Outflow {
    /// The bytes that were written to it, where they are told.
    ghost put: { Self → Option (List ℕ) };

    /// How often it has failed.
    ghost faults: { Self → ℕ };

    /// Takes a prefix of the piece and says how long it is: one byte at least, where there is one. A call that fails takes none.
    fn write(&mut self, piece: &[u8]) -> Result<usize, Failed>
        ensures bound { TakesPrefix result piece.now }
        ensures bytes { TakesIn (put self.old) (put self.new) result piece.now }
        ensures cause { Counts (faults self.old) (faults self.new) (is_failed result) };
}

/// Makes connections to an address.
pub trait Dialer {
    type I: Inflow + Send;

    type O: Outflow + Send;

    /// How often it has failed.
    ghost faults: { Self → ℕ };

    /// Makes a connection, from which nothing was read and to which nothing was written.
    fn dial(&mut self, addr: &str) -> Result<(Self::I, Self::O), Failed>
        ensures cause { Counts (faults self.old) (faults self.new) (is_failed result) }
        ensures unread { IfOk result (λ link. IsUnread (Self.I.got link.0) (Self.I.faults link.0) (Self.I.quiets link.0) (Self.I.ends link.0)) }
        ensures unwritten { IfOk result (λ link. IsUnwritten (Self.O.put link.1) (Self.O.faults link.1)) };
}

/// Takes connections at an address.
pub trait Listener {
    type I: Inflow;

    type O: Outflow;

    /// How often it has failed.
    ghost faults: { Self → ℕ };

    /// Takes a connection, from which nothing was read and to which nothing was written.
    fn accept(&mut self, addr: &str) -> Result<(Self::I, Self::O), Failed>
        ensures cause { Counts (faults self.old) (faults self.new) (is_failed result) }
        ensures unread { IfOk result (λ link. IsUnread (Self.I.got link.0) (Self.I.faults link.0) (Self.I.quiets link.0) (Self.I.ends link.0)) }
        ensures unwritten { IfOk result (λ link. IsUnwritten (Self.O.put link.1) (Self.O.faults link.1)) };
}
