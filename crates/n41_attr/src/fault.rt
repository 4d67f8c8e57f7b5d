ghost use Rattle.std.specs.Prelude.{◌≡◌};
ghost use Rattle.n41_attr.specs.declared.fault.AttrFault.TheVariants as attr;
ghost use Rattle.n41_attr.specs.declared.fault.BitmapFault.TheVariants as bitmap;
ghost use Rattle.n41_attr.specs.declared.fault.OpFault.TheVariants as op;
ghost use Rattle.n41_attr.specs.Faults.{attr_of_bitmap, op_of_bitmap, op_of_attr};

use n41_xdr::XdrFault;
use std::alloc::{AllocError, AllocFailed};
use thiserror::Error;

/// Why no bitmap is read.
#[derive(Debug, Clone, Copy, PartialEq, Eq, Error)]
pub enum BitmapFault {
    /// The bytes are no XDR.
    #[error("{0}")]
    Xdr(XdrFault),
    #[error("out of memory")]
    NoMemory,
}

/// Why no attributes are read.
#[derive(Debug, Clone, Copy, PartialEq, Eq, Error)]
pub enum AttrFault {
    /// The bitmap or the opaque is no XDR.
    #[error("{0}")]
    Xdr(XdrFault),
    /// The least attribute of the bitmap that is none of type 1, change 3, size 4, lease_time 10, fileid 20 and mode 33.
    #[error("attribute {0} is not known")]
    Unknown(u32),
    /// The opaque has fewer or more bytes than the values of the bitmap take.
    #[error("the values have another length")]
    Length,
    #[error("out of memory")]
    NoMemory,
}

/// Why no operation, or no result of one, is read.
#[derive(Debug, Clone, Copy, PartialEq, Eq, Error)]
pub enum OpFault {
    /// The bytes are no XDR of it.
    #[error("{0}")]
    Xdr(XdrFault),
    /// Its attributes cannot be read.
    #[error("{0}")]
    Attr(AttrFault),
    /// No operation has this number.
    #[error("no operation has the number {0}")]
    Illegal(u32),
    #[error("out of memory")]
    NoMemory,
}

impl From<XdrFault> for BitmapFault {
    ghost from_gives = { λ f e. e ≡ bitmap.Xdr f };

    fn from(fault: XdrFault) -> BitmapFault {
        BitmapFault::Xdr(fault)
    }
}

impl From<AllocError> for BitmapFault {
    ghost from_gives = { λ _ e. e ≡ bitmap.NoMemory };

    fn from(_fault: AllocError) -> BitmapFault {
        BitmapFault::NoMemory
    }
}

impl<T: Drop> From<AllocFailed<T>> for BitmapFault {
    ghost from_gives = { λ _ e. e ≡ bitmap.NoMemory };

    fn from(_fault: AllocFailed<T>) -> BitmapFault {
        BitmapFault::NoMemory
    }
}

impl From<XdrFault> for AttrFault {
    ghost from_gives = { λ f e. e ≡ attr.Xdr f };

    fn from(fault: XdrFault) -> AttrFault {
        AttrFault::Xdr(fault)
    }
}

impl From<BitmapFault> for AttrFault {
    ghost from_gives = { λ f e. e ≡ attr_of_bitmap f };

    fn from(fault: BitmapFault) -> AttrFault {
        match fault {
            BitmapFault::Xdr(fault) => AttrFault::Xdr(fault),
            BitmapFault::NoMemory => AttrFault::NoMemory,
        }
    }
}

impl From<XdrFault> for OpFault {
    ghost from_gives = { λ f e. e ≡ op.Xdr f };

    fn from(fault: XdrFault) -> OpFault {
        OpFault::Xdr(fault)
    }
}

impl From<AllocError> for OpFault {
    ghost from_gives = { λ _ e. e ≡ op.NoMemory };

    fn from(_fault: AllocError) -> OpFault {
        OpFault::NoMemory
    }
}

impl<T: Drop> From<AllocFailed<T>> for OpFault {
    ghost from_gives = { λ _ e. e ≡ op.NoMemory };

    fn from(_fault: AllocFailed<T>) -> OpFault {
        OpFault::NoMemory
    }
}

impl From<BitmapFault> for OpFault {
    ghost from_gives = { λ f e. e ≡ op_of_bitmap f };

    fn from(fault: BitmapFault) -> OpFault {
        match fault {
            BitmapFault::Xdr(fault) => OpFault::Xdr(fault),
            BitmapFault::NoMemory => OpFault::NoMemory,
        }
    }
}

impl From<AttrFault> for OpFault {
    ghost from_gives = { λ f e. e ≡ op_of_attr f };

    fn from(fault: AttrFault) -> OpFault {
        match fault {
            AttrFault::NoMemory => OpFault::NoMemory,
            fault => OpFault::Attr(fault),
        }
    }
}
