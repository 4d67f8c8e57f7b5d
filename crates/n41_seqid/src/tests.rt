ghost use Rattle.std.specs.Prelude.{◌≢◌};

use crate::{Front, SeqFault, newer, next};
use std::alloc::Global;

#[test]
fn seqids_turn_round(rt: HostRuntime) {
    assert!(rt; newer(1, 0xFFFF_FFFF));
    assert_eq!(rt; next(0xFFFF_FFFF), 1);
    assert!(rt; !newer(7, 7));
    assert_eq!(rt; next(1), 2);
}

#[test]
fn half_of_the_others_are_newer(rt: HostRuntime) {
    assert!(rt; newer(0x8000_0000, 1));
    assert!(rt; !newer(0x8000_0001, 1));
    assert!(rt; !newer(1, 0x8000_0000));
    assert!(rt; newer(1, 0x8000_0001));
    assert!(rt; newer(2, 1));
    assert!(rt; !newer(1, 2));
}

/// The seqid and the item that come back as told twice.
fn twice(front: &mut Front<u64>, seqid: u32, item: u64) -> Option<(u32, u64)>
    requires { seqid ≢ 0 }
{
    match front.put(seqid, item) {
        Err(SeqFault::Twice(told, back)) => Some((told, back)),
        _ => None,
    }
}

/// What comes back and what leaves, where 3 is put twice, and then 2.
fn crossed(alloc: Global) -> Option<(Option<(u32, u64)>, Option<u64>, Option<u64>, Option<u64>)> {
    let Ok(mut front) = Front::new(alloc, 1, 4) else {
        return None;
    };
    if twice(&mut front, 3, 30).is_some() {
        return None;
    }
    let back = twice(&mut front, 3, 31);
    let early = front.pop();
    if twice(&mut front, 2, 20).is_some() {
        return None;
    }
    let first = front.pop();
    let second = front.pop();
    Some((back, early, first, second))
}

#[test]
fn items_leave_in_the_order_of_their_seqids(rt: HostRuntime) {
    assert_eq!(rt;
        crossed(rt.alloc()),
        Some((Some((3, 31)), None, Some(20), Some(30)))
    );
}

/// The front after these seqids, and how many wait then; each is put, the front moves as far as it can, and the last is where it is reset.
fn front_after(alloc: Global, at: u32, seqids: &[u32]) -> Option<(u32, usize)>
    requires { at ≢ 0 }
{
    let Ok(mut front) = Front::new(alloc, at, 0) else {
        return None;
    };
    for seqid in seqids {
        if *seqid == 0 || front.put(*seqid, ()).is_err() {
            return None;
        }
    }
    front.drain();
    Some((front.at(), front.waiting()))
}

#[test]
fn a_front_moves_over_what_is_told(rt: HostRuntime) {
    assert_eq!(rt;
        front_after(rt.alloc(), 0xFFFF_FFFE, &[2, 1, 0xFFFF_FFFF, 4]),
        Some((2, 1))
    );
    assert_eq!(rt; front_after(rt.alloc(), 5, &[7, 8]), Some((5, 2)));
    assert_eq!(rt; front_after(rt.alloc(), 5, &[5]), None);
    assert_eq!(rt; front_after(rt.alloc(), 5, &[4]), None);
}

/// Where a front is after a reset, and what waits.
fn reset(alloc: Global) -> Option<(u32, usize, bool)> {
    let Ok(mut front) = Front::new(alloc, 1, 1) else {
        return None;
    };
    if front.put(3, 30).is_err() || front.reserve().is_err() {
        return None;
    }
    front.reset(9);
    Some((front.at(), front.waiting(), front.is_new(10)))
}

#[test]
fn a_reset_drops_what_waits(rt: HostRuntime) {
    assert_eq!(rt; reset(rt.alloc()), Some((9, 0, true)));
}
