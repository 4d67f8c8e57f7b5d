ghost use Rattle.std.specs.Prelude.{◌≤◌};

use crate::Slots;
use n41_types::{NoMemory, Plan, SessionId};
use std::alloc::Global;

/// Puts a plan that only reads out; the number of its slot, or None where it came back.
fn take(slots: &mut Slots, xid: u32) -> Option<u32> {
    match slots.take(1000, 1000, 1, xid, Plan::Renew) {
        Ok(slot) => Some(slot),
        Err(plan) => {
            drop(plan);
            None
        }
    }
}

/// Puts a plan that the server is asked to keep out.
fn take_kept(slots: &mut Slots, xid: u32) -> Option<u32> {
    match slots.take(1000, 1000, 1, xid, Plan::Complete) {
        Ok(slot) => Some(slot),
        Err(plan) => {
            drop(plan);
            None
        }
    }
}

/// The turn and the highest slot that the request on a slot tells, and whether its reply is to be kept.
fn told(slots: &Slots, slot: u32) -> Option<(u32, u32, bool)> {
    let used = slots.request(slot)?.slot?;
    Some((used.turn, used.highest, used.cache))
}

/// The xid of the request that leaves a slot.
fn release(slots: &mut Slots, slot: u32, used: bool) -> Option<u32> {
    let request = slots.release(slot, used)?;
    let xid = request.xid;
    drop(request);
    Some(xid)
}

fn new(alloc: Global, n: u32, target: u32) -> Result<Slots, NoMemory>
    requires some { 1 ≤ n }
    requires few { n ≤ 64 }
{
    Slots::new(alloc, SessionId([1; 16]), n, target)
}

/// The turn of the last request, whether it was released, and what becomes of the next plan.
fn last_turn(alloc: Global) -> Option<(u32, bool, Option<u32>)> {
    let Ok(mut slots) = Slots::resume(alloc, SessionId([1; 16]), 0, &[0xFFFF_FFFE]) else {
        return None;
    };
    let slot = take(&mut slots, 1)?;
    let told = told(&slots, slot)?;
    let released = release(&mut slots, slot, true).is_some();
    Some((told.0, released, take(&mut slots, 2)))
}

#[test]
fn a_spent_slot_is_not_used(rt: HostRuntime) {
    assert_eq!(rt; last_turn(rt.alloc()), Some((0xFFFF_FFFF, true, None)));
}

/// Two takes once the target was lowered to the first slot.
fn lowered(alloc: Global) -> Option<(Option<u32>, Option<u32>, u32)> {
    let Ok(mut slots) = new(alloc, 4, 3) else {
        return None;
    };
    slots.set_target(0);
    let first = take(&mut slots, 1);
    let second = take(&mut slots, 2);
    Some((first, second, slots.out()))
}

#[test]
fn no_slot_above_the_target_is_used(rt: HostRuntime) {
    assert_eq!(rt; lowered(rt.alloc()), Some((Some(0), None, 1)));
}

/// What two requests tell, of which the second is to be kept.
fn two_told(alloc: Global) -> Option<((u32, u32, bool), (u32, u32, bool))> {
    let Ok(mut slots) = new(alloc, 4, 3) else {
        return None;
    };
    let first = take(&mut slots, 1)?;
    let second = take_kept(&mut slots, 2)?;
    Some((told(&slots, first)?, told(&slots, second)?))
}

#[test]
fn requests_tell_turn_and_highest_slot(rt: HostRuntime) {
    assert_eq!(rt; two_told(rt.alloc()), Some(((1, 0, false), (1, 1, true))));
}

/// What the next request on the first slot tells, below one that is out, once the last was released so.
fn next_told(alloc: Global, used: bool) -> Option<(u32, u32, bool)> {
    let Ok(mut slots) = new(alloc, 2, 1) else {
        return None;
    };
    let first = take(&mut slots, 1)?;
    let _second = take(&mut slots, 2)?;
    let _xid = release(&mut slots, first, used)?;
    let again = take(&mut slots, 3)?;
    told(&slots, again)
}

#[test]
fn a_turn_that_was_not_used_comes_again(rt: HostRuntime) {
    assert_eq!(rt; next_told(rt.alloc(), true), Some((2, 1, false)));
    assert_eq!(rt; next_told(rt.alloc(), false), Some((1, 1, false)));
}

/// What leaves a slot at first, and then.
fn left(alloc: Global) -> Option<(Option<u32>, Option<u32>, Option<u32>, u32)> {
    let Ok(mut slots) = new(alloc, 1, 0) else {
        return None;
    };
    let slot = take(&mut slots, 7)?;
    let first = release(&mut slots, slot, true);
    let second = release(&mut slots, slot, true);
    let beyond = release(&mut slots, 64, true);
    Some((first, second, beyond, slots.out()))
}

#[test]
fn a_request_leaves_once(rt: HostRuntime) {
    assert_eq!(rt; left(rt.alloc()), Some((Some(7), None, None, 0)));
}
