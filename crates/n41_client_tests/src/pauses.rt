// Pauses, by the moments of a clock.

use crate::journals::answered;
use crate::messages::{Told, record, records};
use crate::runs::{Outside, over, see};
use crate::walks::BEGIN;
use n41_types::{Bytes, NoMemory};
use std::alloc::Global;
use std::test::Fail;

/// The replies by which a session is made, then quiet for three reads, and then the replies by which it is given up.
fn quiet_between(alloc: Global) -> Result<Vec<Bytes>, NoMemory> {
    let mut pieces = records(alloc, &BEGIN)?;
    for _ in 0..3 {
        pieces.push(Bytes::new())?;
    }
    pieces.push(record(alloc, (5, Told::SessionGone))?)?;
    pieces.push(record(alloc, (6, Told::ClientGone))?)?;
    Ok(pieces)
}

#[test]
fn a_pause_ends_with_its_seconds(rt: HostRuntime) -> Result<(), Fail> {
    let alloc = rt.alloc();
    // A script, the moments of the clock, what is printed, and the moments of the answers.
    let cases: [(&[u8], &[u64], &[u8], &[u64]); 5] = [
        (b"a pause 2\n", &[5, 6, 7, 8], b"1 a paused\n", &[7]),
        // The clock passes over the moment.
        (b"a pause 2\n", &[5, 6, 9], b"1 a paused\n", &[9]),
        (b"a pause 600\n", &[5, 604, 605], b"1 a paused\n", &[605]),
        (
            b"a pause 1\na pause 0\na pause 2\n",
            &[5, 6, 7, 8],
            b"1 a paused\n2 a paused\n3 a paused\n",
            &[6, 6, 8],
        ),
        (
            b"a pause 3\nb pause 1\n",
            &[5, 6, 7, 8],
            b"1 a paused\n2 b paused\n",
            &[6, 8],
        ),
    ];
    for (script, moments, text, at) in cases {
        assert!(rt; !moments.is_empty());
        let pieces = quiet_between(alloc)?;
        let links = [pieces.as_slice()];
        let outside = Outside {
            moments,
            ..over(script, &links)
        };
        let seen = see(&rt, alloc, outside)?;
        assert_eq!(rt; seen.sink.bytes(), text);
        assert_eq!(rt; seen.status, 0);
        assert_eq!(rt; answered(alloc, &seen.journal)?.as_slice(), at);
        assert!(rt; seen.causes.is_empty());
    }
    Ok(())
}

#[test]
fn a_pause_that_is_not_over_ends_with_sixteen_dials(rt: HostRuntime) -> Result<(), Fail> {
    let alloc = rt.alloc();
    let cases: [(&[u8], &[u8], u8, u64); 2] = [
        // One dial is tried beside it, before no more commands come.
        (b"a pause 0\n", b"1 a paused\n", 0, 1),
        (b"a pause 2\n", b"1 a unreachable\n", 6, 16),
    ];
    for (script, text, status, failed) in cases {
        let seen = see(&rt, alloc, over(script, &[]))?;
        assert_eq!(rt; seen.sink.bytes(), text);
        assert_eq!(rt; seen.status, status);
        assert_eq!(rt; seen.dials, (0, failed));
    }
    Ok(())
}
