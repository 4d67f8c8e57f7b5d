use super::*;
use n41_mem::{MemSink, MemSource, SureSink, SureSource};
use n41_types::NoMemory;
use n41_words::LineKind;
use std::alloc::Global;
use std::test::Fail;

/// What a replay of this text answers, and what it prints.
fn replayed(
    alloc: Global,
    text: &[u8],
    sink: &mut SureSink,
) -> Result<Option<(u64, Rule)>, ReplayFault> {
    let Ok(mut source) = SureSource::new(alloc, text) else {
        return Err(ReplayFault::NoMemory);
    };
    replay(alloc, &mut source, sink)
}

const BEGAN: &str = "began 0 1 5 pause 0\n";

const PAUSED: &str = "answered 0 1 paused\n";

#[test]
fn each_verdict_is_one_line(rt: HostRuntime) -> Result<(), Fail> {
    let alloc = rt.alloc();
    let rows: [(&[&str], Option<(u64, Rule)>, &[u8]); 7] = [
        (&[], None, b"ok 0\n"),
        (&["# began\n", "\n", "quit\n"], None, b"ok 1\n"),
        (&[BEGAN, PAUSED], None, b"ok 2\n"),
        (
            &[BEGAN, PAUSED, PAUSED],
            Some((3, Rule::Answers)),
            b"event 3 breaks answers\n",
        ),
        (
            &[PAUSED, PAUSED],
            Some((1, Rule::Answers)),
            b"event 1 breaks answers\n",
        ),
        (
            &[BEGAN, "answered 0 1 unknown\n", "quit\n"],
            Some((2, Rule::Causes)),
            b"event 2 breaks causes\n",
        ),
        (
            &[BEGAN, "answered 1 1 unreachable 16\n"],
            Some((2, Rule::Causes)),
            b"event 2 breaks causes\n",
        ),
    ];
    for (lines, found, printed) in rows {
        let mut text = String::new(alloc);
        for line in lines {
            text.push_str(line)?;
        }
        let mut sink = SureSink::new(alloc);
        assert!(rt; replayed(alloc, text.as_bytes(), &mut sink) == Ok(found));
        assert_eq!(rt; sink.bytes(), printed);
    }
    Ok(())
}

// A call, between its xid and its turn: AUTH_SYS with user and group 1000, and SEQUENCE alone in the compound, with a session of ones.
const CALL: &str =
    "0000000000000002000186a30000000400000001000000010000001800000000000000036e343100000003e8000003e80000000000000000000000000000000000000001000000010000003501010101010101010101010101010101";

/// The line of a call on slot 0 with this xid, turn and highest slot.
fn put(alloc: Global, xid: u32, turn: u32, highest: u32) -> Result<String, NoMemory> {
    let call = CALL;
    format!(in alloc; "put 1 0 {xid:08x}{call}{turn:08x}00000000{highest:08x}00000000\n")
}

#[test]
fn requests_keep_to_their_slots(rt: HostRuntime) -> Result<(), Fail> {
    let alloc = rt.alloc();
    // Two requests, each by its xid, its turn and its highest slot.
    let rows: [((u32, u32, u32), (u32, u32, u32), Option<(u64, Rule)>, &[u8]); 5] = [
        ((1, 1, 0), (1, 1, 0), None, b"ok 2\n"),
        (
            (1, 1, 0),
            (2, 2, 0),
            Some((2, Rule::Slots)),
            b"event 2 breaks slots\n",
        ),
        // The request breaks the rule of retries too.
        (
            (1, 1, 0),
            (2, 1, 0),
            Some((2, Rule::Slots)),
            b"event 2 breaks slots\n",
        ),
        (
            (1, 1, 0),
            (1, 1, 7),
            Some((2, Rule::Retries)),
            b"event 2 breaks retries\n",
        ),
        (
            (1, 2, 0),
            (1, 2, 0),
            Some((1, Rule::Turns)),
            b"event 1 breaks turns\n",
        ),
    ];
    for (one, other, found, printed) in rows {
        let mut text = put(alloc, one.0, one.1, one.2)?;
        text.push_str(&put(alloc, other.0, other.1, other.2)?)?;
        let mut sink = SureSink::new(alloc);
        assert!(rt; replayed(alloc, text.as_bytes(), &mut sink) == Ok(found));
        assert_eq!(rt; sink.bytes(), printed);
    }
    Ok(())
}

#[test]
fn a_text_that_is_no_journal_is_refused(rt: HostRuntime) -> Result<(), Fail> {
    let alloc = rt.alloc();
    let rows: [(&[u8], u64, LineKind); 7] = [
        (b"quit 1\n", 1, LineKind::Words),
        (b"began 0 1 5 pause\n", 1, LineKind::Words),
        (b"quit\n\nticked 05\n", 3, LineKind::Number),
        (b"# put\nput 1 0 zz", 2, LineKind::Hex),
        (b"put 1 0 00\nwent\n", 1, LineKind::Hex),
        (b"went\n", 1, LineKind::Command),
        (b"ticked \x01\n", 1, LineKind::Byte),
    ];
    for (text, line, kind) in rows {
        let mut sink = SureSink::new(alloc);
        assert!(rt; replayed(alloc, text, &mut sink) == Err(ReplayFault::Script(line, kind)));
        assert!(rt; sink.bytes().is_empty());
    }
    Ok(())
}

#[test]
fn a_longer_text_is_refused(rt: HostRuntime) -> Result<(), Fail> {
    let alloc = rt.alloc();
    let text = vec![in alloc; b'\n'; 16_777_217]?;
    let mut sink = SureSink::new(alloc);
    let fault = ReplayFault::Script(0, LineKind::Limit);
    assert!(rt; replayed(alloc, &text, &mut sink) == Err(fault));
    assert!(rt; sink.bytes().is_empty());
    Ok(())
}

#[test]
fn failures_of_the_outside_are_told(rt: HostRuntime) -> Result<(), Fail> {
    let alloc = rt.alloc();
    // A text, and the reads and the writes that fail.
    let rows: [(&str, &[u64], &[u64], ReplayFault); 4] = [
        ("quit\n", &[1], &[], ReplayFault::ReadFault),
        ("quit\n", &[2], &[1], ReplayFault::ReadFault),
        ("quit\n", &[], &[1], ReplayFault::WriteFault),
        (PAUSED, &[], &[1], ReplayFault::WriteFault),
    ];
    for (text, fails, faults, fault) in rows {
        let mut source = MemSource::new(alloc, text.as_bytes(), fails)?;
        let mut sink = MemSink::new(alloc, faults)?;
        assert!(rt; replay(alloc, &mut source, &mut sink) == Err(fault));
        assert!(rt; sink.inner().bytes().is_empty());
    }
    Ok(())
}
