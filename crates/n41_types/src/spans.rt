ghost use Rattle.std.specs.Prelude.{◌≡◌};
ghost use Rattle.n41_types.specs.Spans.{length_on_wire};

use std::marker::Model;

/// How a file is open.
#[derive(Clone, Copy, Debug, PartialEq, Eq)]
pub enum Mode {
    Read,
    Write,
    Both,
}

/// How bytes are locked: shared for reading, or alone for writing.
#[derive(Clone, Copy, Debug, PartialEq, Eq)]
pub enum LockKind {
    Read,
    Write,
}

/// The bytes from an offset on: so many, or with None all to the end of the file.
#[derive(Clone, Copy, Debug, PartialEq, Eq)]
pub struct Span {
    pub from: u64,
    pub len: Option<u64>,
}

impl Model for Span {
    ghost use Rattle.n41_types.specs.Spans.{Extent, IsLength};

    ghost Value = { Extent };

    ghost view = { λ s. record { from = s.from; len = s.len } };

    ghost invariant = { λ s. IsLength s.len };

    ghost inverse = { λ e. record { from = e.from; len = e.len } };
}

impl Span {
    /// The span of an offset and a length on the wire.
    pub fn of_wire(offset: u64, length: u64) -> Span
        ensures from { result.from ≡ offset }
        ensures len { length_on_wire result.len ≡ length }
    {
        let len = if length == u64::MAX {
            None
        } else {
            Some(length)
        };
        Span { from: offset, len }
    }

    /// Its length on the wire, where all ones is to the end.
    pub fn wire_length(self) -> u64
        ensures { result ≡ length_on_wire self.len }
    {
        self.len.unwrap_or(u64::MAX)
    }
}
