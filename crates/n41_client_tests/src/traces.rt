// The journal of a run, as `trace` prints it.

use crate::messages::Told;
use crate::runs::{over, see_by};
use crate::walks::all_around;
use std::test::Fail;

/// How the lines begin of the journal of one look at the root: of a message its connection, its place there, its xid, and whether it is a reply.
const JOURNAL: [&[u8]; 19] = [
    b"ticked 5",
    b"began 0 1 5 stat /",
    b"dialed 1",
    b"put 1 0 0000000100000000",
    b"took 1 0 0000000100000001",
    b"put 1 1 0000000200000000",
    b"took 1 1 0000000200000001",
    b"put 1 2 0000000300000000",
    b"took 1 2 0000000300000001",
    b"put 1 3 0000000400000000",
    b"took 1 3 0000000400000001",
    b"put 1 4 0000000500000000",
    b"took 1 4 0000000500000001",
    b"answered 0 1 stat type 2 size 0 fileid 7 mode 0755",
    b"quit",
    b"put 1 5 0000000600000000",
    b"took 1 5 0000000600000001",
    b"put 1 6 0000000700000000",
    b"took 1 6 0000000700000001",
];

/// Whether the lines of the text begin so, and there are no others.
fn begin_so(text: &[u8], wanted: &[&[u8]]) -> bool {
    let mut place = 0;
    for line in text.split(|byte| *byte == b'\n') {
        match wanted.get(place) {
            Some(begin) if line.starts_with(begin) => place += 1,
            _ => return line.is_empty() && place == wanted.len(),
        }
    }
    false
}

#[test]
fn a_trace_tells_the_journal(rt: HostRuntime) -> Result<(), Fail> {
    let alloc = rt.alloc();
    let pieces = all_around(alloc, &[(5, Told::Root(0, 3, 7))])?;
    let links = [pieces.as_slice()];
    let outside = over(b"a stat /\n", &links);
    let traced = see_by(&rt, alloc, "trace", outside)?;
    assert_eq!(rt; traced.status, 0);
    assert!(rt; begin_so(traced.sink.bytes(), &JOURNAL));
    // It did what a run does.
    let ran = see_by(&rt, alloc, "run", outside)?;
    assert_eq!(rt;
        ran.sink.bytes(),
        b"1 a stat type 2 size 0 fileid 7 mode 0755\n".as_slice()
    );
    assert!(rt; ran.journal.as_slice() == traced.journal.as_slice());
    Ok(())
}

#[test]
fn what_is_traced_has_the_status_of_a_run(rt: HostRuntime) -> Result<(), Fail> {
    let alloc = rt.alloc();
    let lost = see_by(&rt, alloc, "trace", over(b"a stat /\n", &[]))?;
    assert_eq!(rt; lost.status, 6);
    assert!(rt;
        lost.sink
            .bytes()
            .starts_with(b"ticked 5\nbegan 0 1 5 stat /\ndialfailed\n")
    );
    let refused = see_by(&rt, alloc, "trace", over(b"a look /\n", &[]))?;
    assert_eq!(rt; refused.status, 3);
    assert!(rt; refused.sink.bytes().is_empty());
    Ok(())
}
