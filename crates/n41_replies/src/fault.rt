ghost use Rattle.std.specs.Prelude.{◌≡◌};
ghost use Rattle.n41_replies.specs.declared.fault.MsgFault.TheVariants.{NoMemory};
ghost use Rattle.n41_replies.specs.Faults.{of_rpc, of_xdr};

use n41_attr::OpFault;
use n41_rpc::RpcFault;
use n41_xdr::XdrFault;
use std::alloc::{AllocError, AllocFailed};
use thiserror::Error;

/// Why no message is read.
#[derive(Debug, Clone, Copy, PartialEq, Eq, Error)]
pub enum MsgFault {
    /// The head is none of a reply, or what stands between it and the first result is no XDR. A call has the kind 0.
    #[error("{0}")]
    Rpc(RpcFault),
    /// What stands at this place, counted from 0, is no result.
    #[error("result {place}: {fault}")]
    Op { place: u32, fault: OpFault },
    /// There are results, and the last of them has another status than the message.
    #[error("the status is {status}, and that of the last result {last}")]
    Count { status: u32, last: u32 },
    /// This many bytes are left behind the message.
    #[error("{0} bytes are left over")]
    Left(usize),
    #[error("out of memory")]
    NoMemory,
}

impl From<RpcFault> for MsgFault {
    ghost from_gives = { λ f e. e ≡ of_rpc f };

    fn from(fault: RpcFault) -> MsgFault {
        match fault {
            RpcFault::NoMemory => MsgFault::NoMemory,
            fault => MsgFault::Rpc(fault),
        }
    }
}

impl From<XdrFault> for MsgFault {
    ghost from_gives = { λ f e. e ≡ of_xdr f };

    fn from(fault: XdrFault) -> MsgFault {
        MsgFault::Rpc(RpcFault::Xdr(fault))
    }
}

impl From<AllocError> for MsgFault {
    ghost from_gives = { λ _ e. e ≡ NoMemory };

    fn from(_fault: AllocError) -> MsgFault {
        MsgFault::NoMemory
    }
}

impl<T: Drop> From<AllocFailed<T>> for MsgFault {
    ghost from_gives = { λ _ e. e ≡ NoMemory };

    fn from(_fault: AllocFailed<T>) -> MsgFault {
        MsgFault::NoMemory
    }
}
