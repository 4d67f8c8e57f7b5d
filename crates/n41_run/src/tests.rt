use super::*;
use n41_lines::Side;
use n41_link::{Clock, Sink};
use n41_mem::{
    MemClock, MemDialer, MemInflow, MemOutflow, MemSink, MemSource, SureListener, SureSink,
    SureSource,
};
use n41_types::Bytes;
use std::alloc::Global;
use std::sync::Wait;
use std::test::Fail;
use std::thread::Threads;

// The call of a probe at moment 5, with its mark.
const CALL: &[u8] = &[
    0x80, 0, 0, 0x6c, 0, 0, 0, 1, 0, 0, 0, 0, 0, 0, 0, 2, 0, 1, 0x86, 0xa3, 0, 0, 0, 4, 0, 0, 0, 1,
    0, 0, 0, 1, 0, 0, 0, 0x18, 0, 0, 0, 0, 0, 0, 0, 3, 0x6e, 0x34, 0x31, 0, 0, 0, 3, 0xe8, 0, 0, 3,
    0xe8, 0, 0, 0, 0, 0, 0, 0, 0, 0, 0, 0, 0, 0, 0, 0, 0, 0, 0, 0, 1, 0, 0, 0, 1, 0, 0, 0, 0x2a, 0,
    0, 0, 0, 0, 0, 0, 5, 0, 0, 0, 3, 0x6e, 0x34, 0x31, 0, 0, 0, 0, 0, 0, 0, 0, 0, 0, 0, 0, 0,
];

// Its reply: client id 7, sequence 1, no confirmed id, and the names srv.
const REPLY: &[u8] = &[
    0x80, 0, 0, 0x5c, 0, 0, 0, 1, 0, 0, 0, 1, 0, 0, 0, 0, 0, 0, 0, 0, 0, 0, 0, 0, 0, 0, 0, 0, 0, 0,
    0, 0, 0, 0, 0, 0, 0, 0, 0, 1, 0, 0, 0, 0x2a, 0, 0, 0, 0, 0, 0, 0, 0, 0, 0, 0, 7, 0, 0, 0, 1, 0,
    1, 0, 0, 0, 0, 0, 0, 0, 0, 0, 0, 0, 0, 0, 0, 0, 0, 0, 3, 0x73, 0x72, 0x76, 0, 0, 0, 0, 3, 0x73,
    0x72, 0x76, 0, 0, 0, 0, 0,
];

const LINE: &[u8] = b"client 7, sequence 1, confirmed no, server 737276, scope 737276\n";

// The reply with status NFS4ERR_DELAY and no body of a result.
const DELAY: &[u8] = &[
    0x80, 0, 0, 0x2c, 0, 0, 0, 1, 0, 0, 0, 1, 0, 0, 0, 0, 0, 0, 0, 0, 0, 0, 0, 0, 0, 0, 0, 0, 0, 0,
    0x27, 0x18, 0, 0, 0, 0, 0, 0, 0, 1, 0, 0, 0, 0x2a, 0, 0, 0x27, 0x18,
];

type Ended = Finish<MemDialer, SureListener, MemClock>;

// A run over one connection that brings this, where the dials with these numbers fail.
fn run_on<R: Threads + Wait + Sync, K: Sink>(
    rt: &R,
    alloc: Global,
    words: &[&str],
    piece: &[u8],
    dials: &[u64],
    sink: &mut K,
) -> Result<Ended, Fail> {
    let texts = texts_of(alloc, words)?;
    let mut brought = Vec::new(alloc);
    brought.push(Bytes::copy_from_slice(alloc, piece)?)?;
    let inflow = MemInflow::new(alloc, &brought, &[])?;
    let outflow = MemOutflow::new(alloc, &[])?;
    let mut links = Vec::new(alloc);
    links.push((inflow, outflow))?;
    let mut source = SureSource::new(alloc, &[])?;
    Ok(run(
        rt,
        alloc,
        &texts,
        &mut source,
        sink,
        MemDialer::new(alloc, links, dials)?,
        SureListener::new(Vec::new(alloc)),
        MemClock::new(alloc, &[5])?,
    ))
}

#[test]
fn a_probe_prints_what_the_reply_says(rt: HostRuntime) -> Result<(), Fail> {
    let words = ["probe", "x:2049"];
    let mut sink = SureSink::new(rt.alloc());
    let ended = run_on(&rt, rt.alloc(), &words, REPLY, &[], &mut sink)?;
    assert_eq!(rt; ended.status, 0);
    assert_eq!(rt; ended.fault, None);
    assert_eq!(rt; sink.bytes(), LINE);
    assert!(rt; ended.clock.gave(5) && !ended.clock.gave(6));
    let talk = ended.probed.ok_or("there was a connection")?;
    assert_eq!(rt; talk.mouth.outflow().inner().bytes(), CALL);
    Ok(())
}

#[test]
fn each_fault_has_its_status(rt: HostRuntime) -> Result<(), Fail> {
    let asked: &[&str] = &["probe", "x:2049"];
    let none: &[u64] = &[];
    let first: &[u64] = &[1];
    for (words, piece, dials, sinks, fault) in [
        (&asked[..0], REPLY, none, none, RunFault::Words(1)),
        (&asked[..1], REPLY, none, none, RunFault::Words(2)),
        (&["probe", "x:0"], REPLY, none, none, RunFault::Words(2)),
        (
            &["probe", "x:1", "x"],
            REPLY,
            none,
            none,
            RunFault::Words(3),
        ),
        (asked, REPLY, none, first, RunFault::WriteFault),
        (asked, REPLY, first, none, RunFault::Unreachable(1)),
        (asked, DELAY, none, none, RunFault::Breach(0)),
    ] {
        let mut sink = MemSink::new(rt.alloc(), sinks)?;
        let ended = run_on(&rt, rt.alloc(), words, piece, dials, &mut sink)?;
        assert_eq!(rt; ended.status, fault.status());
        assert_eq!(rt; ended.fault, Some(fault));
        assert!(rt; sink.inner().bytes().is_empty());
    }
    Ok(())
}

#[test]
fn a_failing_source_is_told(rt: HostRuntime) -> Result<(), Fail> {
    let alloc = rt.alloc();
    let mut source = MemSource::new(alloc, CALL, &[1])?;
    let mut sink = SureSink::new(alloc);
    let (status, fault) = dump(alloc, Side::Client, &mut source, &mut sink);
    assert_eq!(rt; status, 4);
    assert_eq!(rt; fault, Some(RunFault::ReadFault));
    Ok(())
}

#[test]
fn a_fault_is_one_line(rt: HostRuntime) -> Result<(), Fail> {
    for (fault, status, text) in [
        (RunFault::Words(1), 2, "bad word at 1"),
        (RunFault::ReadFault, 4, "read fault"),
        (RunFault::WriteFault, 5, "write fault"),
        (RunFault::Unreachable(1), 6, "unreachable after 1 rounds"),
        (RunFault::Breach(0), 7, "breach at event 0"),
        (RunFault::NoMemory, 8, "no memory"),
    ] {
        assert_eq!(rt; fault.status(), status);
        assert_eq!(rt; fault.to_string(rt.alloc())?.as_str(), text);
    }
    Ok(())
}

// What a run without a connection prints for its words and its input, and its status.
fn printed<R: Threads + Wait + Sync>(
    rt: &R,
    alloc: Global,
    words: &[String],
    given: &[u8],
    sink: &mut SureSink,
) -> Result<u8, Fail> {
    let mut source = SureSource::new(alloc, given)?;
    let dialer = MemDialer::new(alloc, Vec::new(alloc), &[])?;
    let clock = MemClock::new(alloc, &[5])?;
    let house: SureListener = SureListener::new(Vec::new(alloc));
    Ok(run(rt, alloc, words, &mut source, sink, dialer, house, clock).status)
}

fn texts_of(alloc: Global, words: &[&str]) -> Result<Vec<String>, Fail> {
    let mut texts = Vec::new(alloc);
    for word in words {
        texts.push(String::from_str(alloc, word)?)?;
    }
    Ok(texts)
}

#[test]
fn streams_are_dumped_and_an_empty_script_asks_nothing(rt: HostRuntime) -> Result<(), Fail> {
    let alloc = rt.alloc();
    // A header that claims four bytes, of which none is a message, and then a rest.
    let bad: &[u8] = &[0x80, 0, 0, 4, 0, 0, 0, 9, 0x80];
    let rows: [([&str; 2], &[u8], u8, &[u8]); 6] = [
        (
            ["dump", "client"],
            CALL,
            0,
            b"1 call xid 1 ops 42\nrest 0\n",
        ),
        (
            ["dump", "server"],
            REPLY,
            0,
            b"1 reply xid 1 status 0 ops 42:0\nrest 0\n",
        ),
        (["dump", "client"], bad, 0, b"1 bad 00000009\nrest 1\n"),
        (["dump", "clients"], CALL, 2, b""),
        (["run", "x:2049"], b"# nothing\n", 0, b""),
        (["run", "x:2049"], b"a stat /\nb look /\n", 3, b""),
    ];
    for (words, given, status, text) in rows {
        let mut sink = SureSink::new(alloc);
        let words = texts_of(alloc, &words)?;
        assert_eq!(rt; printed(&rt, alloc, &words, given, &mut sink)?, status);
        assert_eq!(rt; sink.bytes(), text);
    }
    Ok(())
}

#[test]
fn a_journal_is_replayed(rt: HostRuntime) -> Result<(), Fail> {
    let alloc = rt.alloc();
    let rows: [(&[&str], &[u8], u8, &[u8]); 6] = [
        (&["replay"], b"", 0, b"ok 0\n"),
        (
            &["replay"],
            b"began 0 1 5 pause 0\nanswered 0 1 paused\n",
            0,
            b"ok 2\n",
        ),
        (
            &["replay"],
            b"began 0 1 5 pause 0\nanswered 0 1 paused\nanswered 0 1 paused\n",
            1,
            b"event 3 breaks answers\n",
        ),
        (&["replay"], b"quit\nwent\n", 3, b""),
        (&["replay", "x:1"], b"quit\n", 2, b""),
        (&["replays"], b"quit\n", 2, b""),
    ];
    for (words, given, status, text) in rows {
        let mut sink = SureSink::new(alloc);
        let words = texts_of(alloc, words)?;
        assert_eq!(rt; printed(&rt, alloc, &words, given, &mut sink)?, status);
        assert_eq!(rt; sink.bytes(), text);
    }
    Ok(())
}

#[test]
fn a_broken_rule_is_no_fault(rt: HostRuntime) -> Result<(), Fail> {
    let alloc = rt.alloc();
    let none: &[u64] = &[];
    let first: &[u64] = &[1];
    // The reads and the writes that fail.
    for (reads, writes, status, fault) in [
        (none, none, 1, None),
        (first, none, 4, Some(RunFault::ReadFault)),
        (none, first, 5, Some(RunFault::WriteFault)),
    ] {
        let mut source = MemSource::new(alloc, b"answered 0 1 paused\n", reads)?;
        let mut sink = MemSink::new(alloc, writes)?;
        let ended = replay(alloc, &mut source, &mut sink);
        assert_eq!(rt; ended.0, status);
        assert_eq!(rt; ended.1, fault);
    }
    Ok(())
}
