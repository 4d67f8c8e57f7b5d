ghost use Rattle.std.specs.Prelude.{◌≡◌};
ghost use Rattle.n41_opens.specs.declared.answers.AttachFault.TheVariants.{NoMemory};

use n41_types::{Mode, Stateid};
use std::alloc::AllocError;

/// Why the answer to an open is not taken.
#[derive(Clone, Copy, Debug, PartialEq, Eq)]
pub enum AttachFault {
    /// The record was told this seqid before, or a newer one.
    Seq(u32),
    NoMemory,
}

impl From<AllocError> for AttachFault {
    ghost from_gives = { λ _ e. e ≡ NoMemory };

    fn from(_e: AllocError) -> AttachFault {
        AttachFault::NoMemory
    }
}

/// What the close of a handle sends.
#[derive(Clone, Copy, Debug, PartialEq, Eq)]
pub enum Shrink {
    /// Nothing: the other handles of the record need all that it lets do.
    Keep,
    /// An OPEN_DOWNGRADE to what the other handles need.
    Downgrade(Mode, Stateid),
    /// A CLOSE: no other handle has the record.
    Close(Stateid),
}
