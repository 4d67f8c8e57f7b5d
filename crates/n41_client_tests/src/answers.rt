// A look at the root, over links that bring whole replies or parts of them.

use crate::messages::{Says, Told, part, record, records};
use crate::runs::{Outside, are_of, over, see};
use n41_journal::{Cause, Event};
use n41_types::{Bytes, NoMemory};
use std::alloc::Global;
use std::test::Fail;

/// What a server answers to one look at the root.
pub(crate) static LOOK: [Says; 7] = [
    (1, Told::Named),
    (2, Told::Made(4)),
    (3, Told::Complete(0, 1)),
    (4, Told::Lease(0, 2)),
    (5, Told::Root(0, 3, 1)),
    (6, Told::SessionGone),
    (7, Told::ClientGone),
];

pub(crate) const SCRIPT: &[u8] = b"a stat /\n";

pub(crate) const TEXT: &[u8] = b"1 a stat type 2 size 0 fileid 1 mode 0755\n";

pub(crate) const UNREACHABLE: &[u8] = b"1 a unreachable\n";

#[test]
fn a_look_at_the_root_takes_seven_replies(rt: HostRuntime) -> Result<(), Fail> {
    let alloc = rt.alloc();
    for count in 0..=LOOK.len() {
        let text = if count > 4 { TEXT } else { UNREACHABLE };
        let status = if count > 4 { 0 } else { 6 };
        // The round in which no reply came at all counts among the sixteen.
        let failed = match count {
            0 => 15,
            1..=4 => 16,
            _ => 0,
        };
        let pieces = records(alloc, &LOOK[..count])?;
        let seen = see(&rt, alloc, over(SCRIPT, &[pieces.as_slice()]))?;
        assert_eq!(rt; seen.status, status);
        assert_eq!(rt; seen.sink.bytes(), text);
        assert_eq!(rt; seen.dials, (1, failed));
        assert!(rt; are_of(&seen.first, &LOOK[..LOOK.len().min(count + 1)]));
        let broke: &[Cause] = if count < 7 { &[Cause::Ended] } else { &[] };
        assert_eq!(rt; seen.causes.as_slice(), broke);
    }
    Ok(())
}

#[test]
fn sixteen_dials_that_fail_leave_no_server(rt: HostRuntime) -> Result<(), Fail> {
    let alloc = rt.alloc();
    let seen = see(&rt, alloc, over(SCRIPT, &[]))?;
    assert_eq!(rt; seen.status, 6);
    assert_eq!(rt; seen.sink.bytes(), UNREACHABLE);
    assert_eq!(rt; seen.dials, (0, 16));
    let pieces = records(alloc, &LOOK)?;
    let dials = [1, 2, 3, 4, 5, 6, 7, 8, 9, 10, 11, 12, 13, 14, 15];
    let links = [pieces.as_slice()];
    let outside = Outside {
        dials: &dials,
        ..over(SCRIPT, &links)
    };
    let seen = see(&rt, alloc, outside)?;
    assert_eq!(rt; seen.status, 0);
    assert_eq!(rt; seen.sink.bytes(), TEXT);
    assert_eq!(rt; seen.dials, (1, 15));
    Ok(())
}

/// The first four replies, and then this piece.
pub(crate) fn four_and(alloc: Global, piece: Bytes) -> Result<Vec<Bytes>, NoMemory> {
    let mut pieces = records(alloc, &LOOK[..4])?;
    pieces.push(piece)?;
    Ok(pieces)
}

#[test]
fn a_reply_that_is_cut_is_no_answer(rt: HostRuntime) -> Result<(), Fail> {
    let alloc = rt.alloc();
    let reply = record(alloc, LOOK[4])?;
    assert_eq!(rt; reply.len(), 140);
    for len in 0..reply.len() {
        let pieces = four_and(alloc, part(alloc, &reply, len)?)?;
        let seen = see(&rt, alloc, over(SCRIPT, &[pieces.as_slice()]))?;
        assert_eq!(rt; seen.status, 6, "{len}");
        assert_eq!(rt; seen.sink.bytes(), UNREACHABLE, "{len}");
        assert_eq!(rt; seen.causes.as_slice(), [Cause::Ended].as_slice(), "{len}");
    }
    Ok(())
}

#[test]
fn a_reply_to_something_else_is_no_answer(rt: HostRuntime) -> Result<(), Fail> {
    let alloc = rt.alloc();
    for other in [
        // Another xid: one that is not out yet, one that was answered, and none of the client's.
        (6, Told::Root(0, 3, 1)),
        (4, Told::Root(0, 3, 1)),
        (0, Told::Root(0, 3, 1)),
        // The results of another plan.
        (5, Told::Complete(0, 3)),
        (5, Told::Lease(0, 3)),
        (5, Told::Named),
        (5, Told::SessionGone),
    ] {
        let pieces = four_and(alloc, record(alloc, other)?)?;
        let seen = see(&rt, alloc, over(SCRIPT, &[pieces.as_slice()]))?;
        assert_eq!(rt; seen.status, 6);
        assert_eq!(rt; seen.sink.bytes(), UNREACHABLE);
        assert_eq!(rt; seen.causes.as_slice(), [Cause::Garbled].as_slice());
    }
    Ok(())
}

#[test]
fn a_reply_in_two_hundred_pieces_is_whole(rt: HostRuntime) -> Result<(), Fail> {
    let alloc = rt.alloc();
    let mut pieces = records(alloc, &LOOK[..4])?;
    let reply = record(alloc, LOOK[4])?;
    // Its 140 bytes, with quiet behind each of the first 60.
    for (place, byte) in reply.as_slice().iter().enumerate() {
        pieces.push(Bytes::copy_from_slice(alloc, &[*byte])?)?;
        if place < 60 {
            pieces.push(Bytes::new())?;
        }
    }
    assert_eq!(rt; pieces.len(), 204);
    pieces.push(record(alloc, LOOK[5])?)?;
    pieces.push(record(alloc, LOOK[6])?)?;
    let seen = see(&rt, alloc, over(SCRIPT, &[pieces.as_slice()]))?;
    assert_eq!(rt; seen.status, 0);
    assert_eq!(rt; seen.sink.bytes(), TEXT);
    Ok(())
}

#[test]
fn a_script_without_commands_asks_nothing(rt: HostRuntime) -> Result<(), Fail> {
    let alloc = rt.alloc();
    let scripts: [&[u8]; 4] = [b"", b"\n", b"# nothing\n", b"\n  \n# a stat /\n\n#\n"];
    for script in scripts {
        let pieces = records(alloc, &LOOK)?;
        let seen = see(&rt, alloc, over(script, &[pieces.as_slice()]))?;
        assert_eq!(rt; seen.status, 0);
        assert!(rt; seen.sink.bytes().is_empty());
        // There is no dial: the client notes that no more commands come, and the moment.
        assert!(rt;
            seen.journal.as_slice() == [Event::Quit, Event::Ticked { moment: 5 }].as_slice()
        );
    }
    Ok(())
}
