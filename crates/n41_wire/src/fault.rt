ghost use Rattle.std.specs.Prelude.{◌≡◌};
ghost use Rattle.n41_wire.specs.Faults.{of_ear, of_msg};

use n41_link::EarFault;
use n41_record::GatherFault;
use n41_replies::MsgFault;

/// Why an inlet hears no more.
#[derive(Debug, Clone, Copy, PartialEq, Eq)]
pub enum InFault {
    /// What it reads from failed.
    Failed,
    /// A record passes a limit. It is not its want of memory.
    Gather(GatherFault),
    /// A record is no reply. It is not the want of memory of its reading.
    Garbled(MsgFault),
    NoMemory,
}

impl From<EarFault> for InFault {
    ghost from_gives = { λ f e. e ≡ of_ear f };

    fn from(fault: EarFault) -> InFault {
        match fault {
            EarFault::Failed => InFault::Failed,
            EarFault::Gather(fault) => InFault::Gather(fault),
            EarFault::NoMemory => InFault::NoMemory,
        }
    }
}

impl From<MsgFault> for InFault {
    ghost from_gives = { λ f e. e ≡ of_msg f };

    fn from(fault: MsgFault) -> InFault {
        match fault {
            MsgFault::NoMemory => InFault::NoMemory,
            fault => InFault::Garbled(fault),
        }
    }
}
