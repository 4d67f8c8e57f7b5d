ghost use Rattle.std.specs.Prelude.{◌≡◌};

use crate::names::Path;
use crate::sequence::Sequence;
use std::alloc::AllocError;

/// What happens beside the script, by a plan line.
#[derive(Drop, PartialEq, Eq)]
pub enum PlanEvent {
    Break,
    Restart,
    /// A restart that does not keep the state on one file.
    RestartWithout(Path),
    DropSession,
    DropClient,
    /// A recall of the delegation on a file.
    Recall(Path),
    /// The state on a file is taken away.
    Revoke(Path),
}

impl Clone for PlanEvent {
    ghost is_clone = { λ x y. y ≡ x };

    fn clone(&self) -> Result<PlanEvent, AllocError> {
        Ok(match self {
            PlanEvent::Break => PlanEvent::Break,
            PlanEvent::Restart => PlanEvent::Restart,
            PlanEvent::RestartWithout(path) => PlanEvent::RestartWithout(path.clone()?),
            PlanEvent::DropSession => PlanEvent::DropSession,
            PlanEvent::DropClient => PlanEvent::DropClient,
            PlanEvent::Recall(path) => PlanEvent::Recall(path.clone()?),
            PlanEvent::Revoke(path) => PlanEvent::Revoke(path.clone()?),
        })
    }
}

/// A line of a script that says: at the `nth` operation with the number `op` that is answered OK, this happens.
#[derive(Drop, PartialEq, Eq)]
pub struct PlanLine {
    pub nth: u64,
    pub op: u32,
    pub event: PlanEvent,
}

impl Clone for PlanLine {
    ghost is_clone = { λ x y. y ≡ x };

    fn clone(&self) -> Result<PlanLine, AllocError> {
        Ok(PlanLine {
            nth: self.nth,
            op: self.op,
            event: self.event.clone()?,
        })
    }
}

/// The plan lines of a script, in its order.
pub type Plans = Sequence<PlanLine>;
