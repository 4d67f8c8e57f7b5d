// Links that end in the middle, and links that go on.

use crate::answers::{LOOK, SCRIPT, TEXT, four_and};
use crate::journals::turns;
use crate::messages::{Says, Told, part, record, records};
use crate::runs::{Outside, Seen, are_of, over, see};
use n41_journal::Cause;
use n41_types::{Bytes, NoMemory};
use std::alloc::Global;
use std::sync::Wait;
use std::test::Fail;
use std::thread::Threads;

/// What a server answers behind a break at the fifth reply: the connection is bound, and the request goes again.
static AGAIN: [Says; 4] = [
    (6, Told::Bound),
    (5, Told::Root(0, 3, 1)),
    (7, Told::SessionGone),
    (8, Told::ClientGone),
];

/// Whether the first link broke by this cause, and the look went again on the second with its xid and turn.
fn went_again(alloc: Global, seen: &Seen, cause: Cause) -> Result<bool, NoMemory> {
    let turns = turns(alloc, &seen.journal, 5)?;
    Ok(
        seen.status == 0
            && seen.sink.bytes() == TEXT
            && seen.dials == (2, 0)
            && seen.causes.as_slice() == [cause].as_slice()
            && are_of(&seen.first, &LOOK[..5])
            && are_of(&seen.second, &AGAIN)
            && turns.as_slice() == [3, 3].as_slice(),
    )
}

#[test]
fn a_request_goes_again_behind_a_bad_reply(rt: HostRuntime) -> Result<(), Fail> {
    let alloc = rt.alloc();
    let reply = record(alloc, LOOK[4])?;
    for (piece, cause) in [
        // A part of its reply.
        (part(alloc, &reply, 10)?, Cause::Ended),
        // A reply with more results than any has bytes.
        (
            record(alloc, (5, Told::Counted(0xffff_ffff)))?,
            Cause::Garbled,
        ),
        // A record of more bytes than one may have.
        (Bytes::copy_from_slice(alloc, &[0xff; 4])?, Cause::BadRecord),
    ] {
        let first = four_and(alloc, piece)?;
        let second = records(alloc, &AGAIN)?;
        let links = [first.as_slice(), second.as_slice()];
        let seen = see(&rt, alloc, over(SCRIPT, &links))?;
        let again = went_again(alloc, &seen, cause)?;
        assert!(rt; again, "{cause:?}");
    }
    Ok(())
}

#[test]
fn a_request_goes_again_behind_a_fault_of_the_link(rt: HostRuntime) -> Result<(), Fail> {
    let alloc = rt.alloc();
    let fifth: &[u64] = &[5];
    for (reads, writes) in [(fifth, &fifth[..0]), (&fifth[..0], fifth)] {
        let first = records(alloc, &LOOK[..4])?;
        let second = records(alloc, &AGAIN)?;
        let links = [first.as_slice(), second.as_slice()];
        let outside = Outside {
            reads,
            writes,
            ..over(SCRIPT, &links)
        };
        let seen = see(&rt, alloc, outside)?;
        let again = went_again(alloc, &seen, Cause::Link)?;
        assert!(rt; again);
    }
    Ok(())
}

/// What a server answers to the looks of two callers.
static LOOKS: [Says; 8] = [
    (1, Told::Named),
    (2, Told::Made(4)),
    (3, Told::Complete(0, 1)),
    (4, Told::Lease(0, 2)),
    (5, Told::Root(0, 3, 1)),
    (6, Told::Root(1, 1, 2)),
    (7, Told::SessionGone),
    (8, Told::ClientGone),
];

pub(crate) const BOTH: &[u8] = b"a stat /\nb stat /\n";

pub(crate) const BOTH_TOLD: &[u8] =
    b"1 a stat type 2 size 0 fileid 1 mode 0755\n2 b stat type 2 size 0 fileid 2 mode 0755\n";

/// How many requests were put on the first link, where it ended in the reply at this place: both looks go out at once.
fn count_by(place: usize) -> u32 {
    match [1, 2, 3, 4, 6, 6, 7, 8].get(place) {
        Some(count) => *count,
        None => 8,
    }
}

/// The replies on the second link, where the first ended in the reply at this place. Once there is a session the connection is bound first,
/// which takes an xid; what was out goes again with its own. Behind both looks no other link is asked for.
fn behind(alloc: Global, place: usize) -> Result<Vec<Says>, NoMemory> {
    let mut list = Vec::new(alloc);
    if place > 5 {
        return Ok(list);
    }
    let put = count_by(place);
    let mut shift = 0;
    if place > 1 {
        list.push((put.saturating_add(1), Told::Bound))?;
        shift = 1;
    }
    for (xid, told) in LOOKS.iter().skip(place) {
        let later = if *xid > put { shift } else { 0 };
        list.push((xid.saturating_add(later), *told))?;
    }
    Ok(list)
}

/// So many whole replies, and then so many bytes of the next.
fn cut(alloc: Global, place: usize, len: usize) -> Result<Vec<Bytes>, NoMemory> {
    let mut pieces = Vec::new(alloc);
    for says in LOOKS.iter().take(place) {
        pieces.push(record(alloc, *says)?)?;
    }
    if let Some(says) = LOOKS.get(place) {
        let reply = record(alloc, *says)?;
        pieces.push(part(alloc, &reply, len)?)?;
    }
    Ok(pieces)
}

/// Whether both callers are told, and the requests are put as they should be, where the first link ends so and the second goes on.
fn is_told<R: Threads + Wait + Sync>(
    rt: &R,
    alloc: Global,
    place: usize,
    len: usize,
) -> Result<bool, Fail> {
    let replies = behind(alloc, place)?;
    let first = cut(alloc, place, len)?;
    let second = records(alloc, &replies)?;
    let links = [first.as_slice(), second.as_slice()];
    let used = if replies.is_empty() { 1 } else { 2 };
    let seen = see(rt, alloc, over(BOTH, &links[..used]))?;
    let put = &LOOKS[..LOOKS.len().min(count_by(place) as usize)];
    Ok(
        seen.status == 0
            && seen.sink.bytes() == BOTH_TOLD
            && seen.dials == (used as u64, 0)
            && are_of(&seen.first, put)
            && are_of(&seen.second, &replies),
    )
}

/// How many runs told both callers, one for each byte of the reply at this place at which the first link may end.
fn told<R: Threads + Wait + Sync>(rt: &R, alloc: Global, place: usize) -> Result<usize, Fail> {
    let mut runs: usize = 0;
    let whole = match LOOKS.get(place) {
        Some(says) => record(alloc, *says)?.len(),
        None => 0,
    };
    for len in 0..whole {
        if is_told(rt, alloc, place, len)? {
            runs = runs.saturating_add(1);
        }
    }
    Ok(runs)
}

#[test]
fn looks_are_answered_where_the_link_ends_before_them_or_behind(
    rt: HostRuntime,
) -> Result<(), Fail> {
    assert_eq!(rt; told(&rt, rt.alloc(), 0)?, 96);
    assert_eq!(rt; told(&rt, rt.alloc(), 1)?, 128);
    assert_eq!(rt; told(&rt, rt.alloc(), 6)?, 48);
    assert_eq!(rt; told(&rt, rt.alloc(), 7)?, 48);
    Ok(())
}

#[test]
fn looks_are_answered_where_the_link_ends_before_the_lease(rt: HostRuntime) -> Result<(), Fail> {
    assert_eq!(rt; told(&rt, rt.alloc(), 2)?, 92);
    assert_eq!(rt; told(&rt, rt.alloc(), 3)?, 116);
    Ok(())
}

#[test]
fn looks_are_answered_where_the_link_ends_in_a_look(rt: HostRuntime) -> Result<(), Fail> {
    assert_eq!(rt; told(&rt, rt.alloc(), 4)?, 140);
    assert_eq!(rt; told(&rt, rt.alloc(), 5)?, 140);
    Ok(())
}
