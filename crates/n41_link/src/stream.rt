// What a program reads from and writes to.
ghost use Rattle.std.specs.Prelude.{◌≡◌, ℕ, List};
ghost use Rattle.std.specs.declared.option.Option.{Option};
ghost use Rattle.n41_link.specs.Counts.{Counts, is_failed};
ghost use Rattle.n41_link.specs.Flow.{FitsIn, TakesPrefix, GivesOut, TakesIn};

/// The outside failed.
#[derive(Clone, Copy, Debug, PartialEq, Eq)]
pub struct Failed;

/// Gives bytes in order, up to an end.
pub trait Source {
    /// The bytes that are left, where they are told.
    ghost left: { Self → Option (List ℕ) };

    /// How often it has failed.
    ghost faults: { Self → ℕ };

    /// Moves the next bytes to the front of the buffer and says how many, 0 at the end. A call that fails moves none.
    fn read(&mut self, buf: &mut [u8]) -> Result<usize, Failed>
        ensures bound { FitsIn result buf.new }
        ensures bytes { GivesOut (left self.old) (left self.new) result buf.new }
        ensures cause { Counts (faults self.old) (faults self.new) (is_failed result) };
}

/// Takes bytes in order.
pub trait Sink {
    /// The bytes that it has taken, where they are told.
    ghost taken: { Self → Option (List ℕ) };

    /// How often it has failed.
    ghost faults: { Self → ℕ };

    /// Takes a prefix of the piece and says how long it is: one byte at least, where there is one. A call that fails takes none.
    fn write(&mut self, piece: &[u8]) -> Result<usize, Failed>
        ensures bound { TakesPrefix result piece.now }
        ensures bytes { TakesIn (taken self.old) (taken self.new) result piece.now }
        ensures cause { Counts (faults self.old) (faults self.new) (is_failed result) };
}
