ghost use Rattle.std.specs.Prelude.{◌≡◌};
ghost use Rattle.n41_rpc.specs.declared.fault.RpcFault.TheVariants.{NoMemory, Xdr};

use n41_xdr::XdrFault;
use std::alloc::AllocError;
use thiserror::Error;

/// Why no head is read.
#[derive(Debug, Clone, Copy, PartialEq, Eq, Error)]
pub enum RpcFault {
    /// The bytes are no XDR of a head: a version of the calls other than 2, and an unknown kind of reply, acceptance or denial,
    /// are a BadArm.
    #[error("{0}")]
    Xdr(XdrFault),
    /// The message is neither a call, 0, nor a reply, 1.
    #[error("no message has the kind {0}")]
    BadKind(u32),
    #[error("out of memory")]
    NoMemory,
}

impl From<XdrFault> for RpcFault {
    ghost from_gives = { λ f e. e ≡ Xdr f };

    fn from(fault: XdrFault) -> RpcFault {
        RpcFault::Xdr(fault)
    }
}

impl From<AllocError> for RpcFault {
    ghost from_gives = { λ _ e. e ≡ NoMemory };

    fn from(_fault: AllocError) -> RpcFault {
        RpcFault::NoMemory
    }
}
