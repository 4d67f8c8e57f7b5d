// Statuses that a server answers in the place of what was asked.

use crate::answers::{LOOK, SCRIPT, TEXT, four_and};
use crate::journals::moments;
use crate::messages::{Says, Told, record, records};
use crate::runs::{Outside, are_of, over, see};
use n41_run::RunFault;
use n41_types::{Bytes, NoMemory};
use std::alloc::Global;
use std::test::Fail;

const DELAY: u32 = 10008;

const GRACE: u32 = 10013;

/// The reply to the look, and then these, behind the first four.
fn replies(alloc: Global, told: Told, more: &[Says]) -> Result<Vec<Says>, NoMemory> {
    let mut list = Vec::new(alloc);
    list.extend_from_slice(&LOOK[..4])?;
    list.push((5, told))?;
    list.extend_from_slice(more)?;
    Ok(list)
}

/// Whether each request up to the look was put at moment 5, and each behind it at this moment.
fn are_at(moments: &[u64], later: u64) -> bool {
    moments.iter().take(5).all(|moment| *moment == 5)
        && moments.iter().skip(5).all(|moment| *moment == later)
}

/// What is told behind a status of the operation that leads to a new request.
static LATER: [Says; 3] = [
    (6, Told::Root(0, 4, 1)),
    (7, Told::SessionGone),
    (8, Told::ClientGone),
];

#[test]
fn a_delay_leads_to_another_attempt_two_seconds_later(rt: HostRuntime) -> Result<(), Fail> {
    let alloc = rt.alloc();
    let io: &[u8] = b"1 a refused 5\n";
    for (told, more, text, later) in [
        // Of SEQUENCE: the same request.
        (Told::Refused(DELAY), &LOOK[4..], TEXT, 7),
        // Of the operation: a new one.
        (Told::NoRoot(0, 3, DELAY), &LATER[..], TEXT, 7),
        (Told::NoRoot(0, 3, GRACE), &LATER[..], TEXT, 7),
        // Another status is an answer.
        (Told::NoRoot(0, 3, 5), &LOOK[5..], io, 5),
    ] {
        let replies = replies(alloc, told, more)?;
        let pieces = records(alloc, &replies)?;
        let links = [pieces.as_slice()];
        let outside = Outside {
            moments: &[5, 6, 7, 8, 9, 10, 11],
            ..over(SCRIPT, &links)
        };
        let seen = see(&rt, alloc, outside)?;
        assert_eq!(rt; seen.status, 0);
        assert_eq!(rt; seen.sink.bytes(), text);
        assert!(rt; are_of(&seen.first, &replies));
        assert!(rt; are_at(&moments(alloc, &seen.journal)?, later));
    }
    Ok(())
}

/// Each attempt is put off, the first on turn 3 of the slot, and behind so many the session and the client id are given up.
fn put_off(alloc: Global, attempts: u32) -> Result<Vec<Bytes>, NoMemory> {
    let mut pieces = records(alloc, &LOOK[..4])?;
    for attempt in 0..attempts {
        let xid = attempt.saturating_add(5);
        let turn = attempt.saturating_add(3);
        pieces.push(record(alloc, (xid, Told::NoRoot(0, turn, DELAY)))?)?;
    }
    let xid = attempts.saturating_add(5);
    pieces.push(record(alloc, (xid, Told::SessionGone))?)?;
    pieces.push(record(alloc, (xid.saturating_add(1), Told::ClientGone))?)?;
    Ok(pieces)
}

/// Moments two seconds apart.
const TWOS: [u64; 66] = [
    5, 7, 9, 11, 13, 15, 17, 19, 21, 23, 25, 27, 29, 31, 33, 35, 37, 39, 41, 43, 45, 47, 49, 51,
    53, 55, 57, 59, 61, 63, 65, 67, 69, 71, 73, 75, 77, 79, 81, 83, 85, 87, 89, 91, 93, 95, 97, 99,
    101, 103, 105, 107, 109, 111, 113, 115, 117, 119, 121, 123, 125, 127, 129, 131, 133, 135,
];

#[test]
fn the_last_of_64_attempts_is_an_answer(rt: HostRuntime) -> Result<(), Fail> {
    let alloc = rt.alloc();
    let pieces = put_off(alloc, 64)?;
    let links = [pieces.as_slice()];
    let outside = Outside {
        moments: &TWOS,
        ..over(SCRIPT, &links)
    };
    let seen = see(&rt, alloc, outside)?;
    assert_eq!(rt; seen.status, 0);
    assert_eq!(rt; seen.sink.bytes(), b"1 a refused 10008\n".as_slice());
    assert_eq!(rt; seen.first.len(), 70);
    Ok(())
}

#[test]
fn a_reply_that_breaks_the_rules_ends_a_run(rt: HostRuntime) -> Result<(), Fail> {
    let alloc = rt.alloc();
    for told in [
        // BADSESSION, BADSLOT, SEQ_MISORDERED, SEQ_FALSE_RETRY and DEADSESSION.
        Told::Refused(10052),
        Told::Refused(10053),
        Told::Refused(10063),
        Told::Refused(10076),
        Told::Refused(10078),
        // RETRY_UNCACHED_REP, though nothing was sent twice.
        Told::Refused(10068),
        // Another slot, and another turn.
        Told::Root(1, 3, 1),
        Told::Root(0, 2, 1),
    ] {
        let pieces = four_and(alloc, record(alloc, (5, told))?)?;
        let seen = see(&rt, alloc, over(SCRIPT, &[pieces.as_slice()]))?;
        assert_eq!(rt; seen.status, 7);
        assert_eq!(rt; seen.fault, Some(RunFault::Breach(13)));
        assert_eq!(rt; seen.sink.bytes(), b"1 a breach 13\n".as_slice());
        assert!(rt; are_of(&seen.first, &LOOK[..5]));
        assert_eq!(rt; seen.dials, (1, 0));
    }
    let text = RunFault::Breach(13).to_string(alloc)?;
    assert_eq!(rt; text.as_str(), "breach at event 13");
    Ok(())
}
