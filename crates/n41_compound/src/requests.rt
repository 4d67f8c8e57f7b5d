ghost use Rattle.std.specs.Prelude.{◌≡◌, Some, IfOk, IfSome, IfNone};
ghost use Rattle.n41_types.specs.declared.plans.Request.{Request};
ghost use Rattle.n41_compound.specs.Calls.{IsLawful, IsSpelledBy};

use crate::heads::{behind_slot, caller_of, slot_in};
use crate::plans::plan_of;
use n41_seen::CallSeen;
use n41_types::{NoMemory, Request};
use std::alloc::Global;

/// The request that a call is spelled from: a whole COMPOUND by AUTH_SYS, as this client makes it, with the operations of one plan. None
/// where there is no such request. What the call does not keep, the verifier and the tag, is not looked at.
pub fn request_of(alloc: Global, call: &CallSeen) -> Result<Option<Request>, NoMemory>
    // The call is spelled from what is found.
    ensures found { IfOk result (λ o. IfSome o (λ q. IsSpelledBy call.now q)) }
    // From what a call is spelled is found, unless memory runs out.
    ensures only { (q : Request) → IsLawful q → IsSpelledBy call.now q → IfOk result (λ o. o ≡ Some q) }
    ensures none { IfOk result (λ o. IfNone o ((q : Request) → IsLawful q → IsSpelledBy call.now q → ⊥)) }
{
    let Some((uid, gid)) = caller_of(call) else {
        return Ok(None);
    };
    let args = call.list.as_slice();
    match plan_of(alloc, behind_slot(args))? {
        Some(plan) => Ok(Some(Request {
            xid: call.xid,
            uid,
            gid,
            minor: call.minor,
            slot: slot_in(args),
            plan,
        })),
        None => Ok(None),
    }
}
