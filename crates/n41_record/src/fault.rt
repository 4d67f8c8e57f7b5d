//! Why a stream is refused.
ghost use Rattle.std.specs.Prelude.{◌≡◌};
ghost use Rattle.n41_record.specs.declared.fault.GatherFault.TheVariants.{NoMemory};

use std::alloc::{AllocError, AllocFailed};
use thiserror::Error;

/// Why no more records are gathered.
#[derive(Clone, Copy, Debug, PartialEq, Eq, Error)]
pub enum GatherFault {
    /// A record has more than 1,114,112 bytes: the lengths of its fragments up to this header make so many.
    #[error("a record of {0} bytes or more")]
    TooLong(u64),
    /// A record has more than 4,096 fragments.
    #[error("a record of more than 4096 fragments")]
    TooMany,
    /// Want of memory.
    #[error("out of memory")]
    NoMemory,
}

impl From<AllocError> for GatherFault {
    ghost from_gives = { λ _ e. e ≡ NoMemory };

    fn from(_e: AllocError) -> GatherFault {
        GatherFault::NoMemory
    }
}

impl<T: Drop> From<AllocFailed<T>> for GatherFault {
    ghost from_gives = { λ _ e. e ≡ NoMemory };

    fn from(_e: AllocFailed<T>) -> GatherFault {
        GatherFault::NoMemory
    }
}
