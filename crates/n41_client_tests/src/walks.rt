// Walks, and what changes directories, over links that bring whole replies.

use crate::messages::{From, Says, Told, record, records};
use crate::runs::{Outside, are_of, over, see};
use n41_journal::Cause;
use n41_types::{Bytes, NoMemory};
use std::alloc::Global;
use std::test::Fail;

/// What a server answers until commands go out.
pub(crate) const BEGIN: [Says; 4] = [
    (1, Told::Named),
    (2, Told::Made(4)),
    (3, Told::Complete(0, 1)),
    (4, Told::Lease(0, 2)),
];

/// A script, what the server answers to its requests, and what is printed.
struct Case {
    script: &'static [u8],
    replies: &'static [Says],
    text: &'static [u8],
}

static CASES: [Case; 5] = [
    Case {
        script: b"a stat /d/e\n",
        replies: &[
            (5, Told::Walked(0, 3, From::Root, 2)),
            (6, Told::Reached(0, 4, 7)),
        ],
        text: b"1 a stat type 2 size 0 fileid 7 mode 0755\n",
    },
    Case {
        script: b"a stat /d\n",
        replies: &[(5, Told::Lost(0, 3))],
        text: b"1 a refused 2\n",
    },
    Case {
        script: b"a mkdir /d\na rename /d /e\na remove /e\n",
        replies: &[
            (5, Told::DirectoryMade(0, 3, From::Root)),
            (6, Told::Renamed(0, 4)),
            (7, Told::Removed(0, 5, From::Root)),
        ],
        text: b"1 a made\n2 a renamed\n3 a removed\n",
    },
    Case {
        script: b"a mkdir /d/e\na remove /d/e\n",
        replies: &[
            (5, Told::Walked(0, 3, From::Root, 1)),
            (6, Told::DirectoryMade(0, 4, From::Handle)),
            (7, Told::Walked(0, 5, From::Root, 1)),
            (8, Told::Removed(0, 6, From::Handle)),
        ],
        text: b"1 a made\n2 a removed\n",
    },
    Case {
        // A session of 8 operations leaves 5 names to a walk.
        script: b"a stat /1/2/3/4/5/6/7\n",
        replies: &[
            (5, Told::Walked(0, 3, From::Root, 5)),
            (6, Told::Walked(0, 4, From::Handle, 2)),
            (7, Told::Reached(0, 5, 7)),
        ],
        text: b"1 a stat type 2 size 0 fileid 7 mode 0755\n",
    },
];

/// All replies to commands, of which these answer the requests: before them a session is made, and behind them it is given up.
pub(crate) fn all_around(alloc: Global, replies: &[Says]) -> Result<Vec<Bytes>, NoMemory> {
    let mut pieces = records(alloc, &BEGIN)?;
    let mut xid: u32 = 5;
    for piece in records(alloc, replies)? {
        pieces.push(piece)?;
        xid = xid.saturating_add(1);
    }
    pieces.push(record(alloc, (xid, Told::SessionGone))?)?;
    pieces.push(record(alloc, (xid.saturating_add(1), Told::ClientGone))?)?;
    Ok(pieces)
}

#[test]
fn commands_walk_to_their_files(rt: HostRuntime) -> Result<(), Fail> {
    let alloc = rt.alloc();
    for case in &CASES {
        let pieces = all_around(alloc, case.replies)?;
        let seen = see(&rt, alloc, over(case.script, &[pieces.as_slice()]))?;
        assert_eq!(rt; seen.sink.bytes(), case.text);
        assert_eq!(rt; seen.status, 0);
        assert_eq!(rt; seen.first.len(), pieces.len());
    }
    Ok(())
}

#[test]
fn a_change_is_unknown_where_its_reply_was_lost(rt: HostRuntime) -> Result<(), Fail> {
    let alloc = rt.alloc();
    // The connection ends behind the request, and no dial succeeds any more. In the round that so ended replies were taken.
    let pieces = records(alloc, &BEGIN)?;
    let seen = see(&rt, alloc, over(b"a mkdir /d\n", &[pieces.as_slice()]))?;
    assert_eq!(rt; seen.status, 6);
    assert_eq!(rt; seen.sink.bytes(), b"1 a unknown\n".as_slice());
    assert_eq!(rt; seen.dials, (1, 16));
    assert_eq!(rt; seen.causes.as_slice(), [Cause::Ended].as_slice());
    // It was never put where no dial succeeds at all.
    let seen = see(&rt, alloc, over(b"a mkdir /d\n", &[]))?;
    assert_eq!(rt; seen.status, 6);
    assert_eq!(rt; seen.sink.bytes(), b"1 a unreachable\n".as_slice());
    Ok(())
}

#[test]
fn a_change_goes_again_as_it_was(rt: HostRuntime) -> Result<(), Fail> {
    let alloc = rt.alloc();
    let first = records(alloc, &BEGIN)?;
    let replies = [
        (6, Told::Bound),
        (5, Told::DirectoryMade(0, 3, From::Root)),
        (7, Told::SessionGone),
        (8, Told::ClientGone),
    ];
    let second = records(alloc, &replies)?;
    let links: [&[Bytes]; 2] = [first.as_slice(), second.as_slice()];
    let outside: Outside<'_> = over(b"a mkdir /d\n", &links);
    let seen = see(&rt, alloc, outside)?;
    assert_eq!(rt; seen.status, 0);
    assert_eq!(rt; seen.sink.bytes(), b"1 a made\n".as_slice());
    assert!(rt; are_of(&seen.second, &replies));
    Ok(())
}
