use crate::{LineKind, ScriptFault, read_journal};
use n41_journal::{Cause, Event};
use n41_results::{CbBody, Reply, ReplyBody, Tail};
use n41_types::{Answer, Command, NoMemory, Place, Plan, Request, Status, Value};
use std::alloc::Global;

// The call of a Stat at the root with xid 5.
const STAT: &[u8] =
    b"000000050000000000000002000186a30000000400000001000000010000001800000000000000036e343100000003e8\
000003e800000000000000000000000000000000000000010000000300000035000102030405060708090a0b0c0d0e0f\
000000010000000000000000000000000000001800000009000000020010001a00000002";

// A reply to it with the status of a stale handle.
const STALE: &[u8] =
    b"0000000500000001000000000000000000000000000000000000004600000000000000010000001800000046";

// A callback with xid 9, which asks for slots.
const RECALL: &[u8] =
    b"000000090000000000000002400000000000000100000001000000000000000000000000000000000000000000000001\
00000000000000010000000a00000005";

// A reply to it without results.
const DONE: &[u8] = b"000000090000000100000000000000000000000000000000000000000000000000000000";

fn line_of(alloc: Global, parts: &[&[u8]]) -> Result<Vec<u8>, NoMemory> {
    let mut line = Vec::new(alloc);
    for part in parts {
        line.extend_from_slice(part)?;
    }
    Ok(line)
}

// The event of a text that says one.
fn event_of(alloc: Global, text: &[u8]) -> Option<Event> {
    match read_journal(alloc, text) {
        Ok(journal) => match journal.as_slice() {
            [event] => event.clone().ok(),
            _ => None,
        },
        Err(_) => None,
    }
}

fn fault_of(alloc: Global, text: &[u8]) -> Option<(u64, LineKind)> {
    match read_journal(alloc, text) {
        Err(ScriptFault::Line { line, kind }) => Some((line, kind)),
        _ => None,
    }
}

fn says(alloc: Global, text: &[u8], want: &Event) -> bool {
    match event_of(alloc, text) {
        Some(event) => event == *want,
        None => false,
    }
}

#[test]
fn plain_events_are_read(rt: HostRuntime) {
    let cases: [(&[u8], Event); 13] = [
        (b"dialed 7\n", Event::Dialed { conn: 7 }),
        (b"dialfailed\n", Event::DialFailed),
        (
            b"broke 1 link",
            Event::Broke {
                conn: 1,
                cause: Cause::Link,
            },
        ),
        (
            b"broke 1 ended",
            Event::Broke {
                conn: 1,
                cause: Cause::Ended,
            },
        ),
        (
            b"broke 1 record",
            Event::Broke {
                conn: 1,
                cause: Cause::BadRecord,
            },
        ),
        (
            b"broke 1 garbled",
            Event::Broke {
                conn: 1,
                cause: Cause::Garbled,
            },
        ),
        (
            b"broke 1 old 4294967295",
            Event::Broke {
                conn: 1,
                cause: Cause::Old(u32::MAX),
            },
        ),
        (
            b"broke 1 memory",
            Event::Broke {
                conn: 1,
                cause: Cause::NoMemory,
            },
        ),
        (
            b"ticked 18446744073709551615",
            Event::Ticked { moment: u64::MAX },
        ),
        (b" \n#\x01\n\n  quit  \n", Event::Quit),
        (
            b"began 0 1 5 pause 600",
            Event::Began {
                caller: 0,
                number: 1,
                command: Command::Pause { seconds: 600 },
                moment: 5,
            },
        ),
        (
            b"answered 3 2 paused",
            Event::Answered {
                caller: 3,
                number: 2,
                answer: Answer::Done(Value::Paused),
            },
        ),
        (
            b"answered 4294967295 2 unreachable 16",
            Event::Answered {
                caller: u32::MAX,
                number: 2,
                answer: Answer::Unreachable(16),
            },
        ),
    ];
    for (text, want) in cases {
        assert!(rt; says(rt.alloc(), text, &want));
    }
}

fn is_stat(request: &Request) -> bool {
    request.xid == 5
        && request.uid == 1000
        && request.slot.is_some()
        && matches!(&request.plan, Plan::Stat { at: Place::Root })
}

fn is_request(event: &Event) -> bool {
    match event {
        Event::Put {
            conn,
            place,
            request,
        } => *conn == 1 && *place == 0 && is_stat(request),
        _ => false,
    }
}

fn is_stale(reply: &Reply) -> bool {
    match &reply.body {
        ReplyBody::Results { status, list } => {
            reply.xid == 5 && *status == Status::STALE && list.len() == 1
        }
        _ => false,
    }
}

fn is_reply(event: &Event) -> bool {
    match event {
        Event::Took { conn, place, reply } => *conn == 1 && *place == 9 && is_stale(reply),
        _ => false,
    }
}

fn is_callback(event: &Event) -> bool {
    match event {
        Event::CbTook { conn, place, call } => {
            *conn == 2 && *place == 0 && call.xid == 9 && call.ops.tail == Tail::Whole
        }
        _ => false,
    }
}

fn is_callback_reply(event: &Event) -> bool {
    match event {
        Event::CbPut { conn, place, reply } => {
            *conn == 2
                && *place == 1
                && reply.xid == 9
                && matches!(&reply.body, CbBody::Results { .. })
        }
        _ => false,
    }
}

#[test]
fn messages_are_read(rt: HostRuntime) -> Result<(), NoMemory> {
    let alloc = rt.alloc();
    let put = line_of(alloc, &[b"put 1 0 ", STAT])?;
    let took = line_of(alloc, &[b"took 1 9 ", STALE])?;
    let asked = line_of(alloc, &[b"cbtook 2 0 ", RECALL])?;
    let answered = line_of(alloc, &[b"cbput 2 1 ", DONE])?;
    match event_of(alloc, &put) {
        Some(event) => assert!(rt; is_request(&event)),
        None => assert!(rt; false),
    }
    match event_of(alloc, &took) {
        Some(event) => assert!(rt; is_reply(&event)),
        None => assert!(rt; false),
    }
    match event_of(alloc, &asked) {
        Some(event) => assert!(rt; is_callback(&event)),
        None => assert!(rt; false),
    }
    match event_of(alloc, &answered) {
        Some(event) => assert!(rt; is_callback_reply(&event)),
        None => assert!(rt; false),
    }
    Ok(())
}

fn is_no_message(alloc: Global, first: &[u8], word: &[u8]) -> Result<bool, NoMemory> {
    let line = line_of(alloc, &[first, word])?;
    Ok(fault_of(alloc, &line) == Some((1, LineKind::Hex)))
}

#[test]
fn other_messages_are_refused(rt: HostRuntime) -> Result<(), NoMemory> {
    let alloc = rt.alloc();
    assert!(rt; is_no_message(alloc, b"put 1 0 ", STALE)?);
    assert!(rt; is_no_message(alloc, b"put 1 0 ", RECALL)?);
    assert!(rt; is_no_message(alloc, b"took 1 0 ", STAT)?);
    assert!(rt; is_no_message(alloc, b"took 1 0 ", RECALL)?);
    assert!(rt; is_no_message(alloc, b"cbtook 1 0 ", DONE)?);
    assert!(rt; is_no_message(alloc, b"cbput 1 0 ", RECALL)?);
    Ok(())
}

const REFUSED: [(&[u8], LineKind); 45] = [
    (b"\t", LineKind::Byte),
    (b"qu\x7fit", LineKind::Byte),
    (b"quit \x00", LineKind::Byte),
    (b"quit\r", LineKind::Byte),
    (b"Quit", LineKind::Command),
    (b"a stat /", LineKind::Command),
    (b" # quit", LineKind::Command),
    (b"quit now", LineKind::Words),
    (b"dialed", LineKind::Words),
    (b"dialed 1 2", LineKind::Words),
    (b"dialed x", LineKind::Number),
    (b"dialed 01", LineKind::Number),
    (b"dialed 18446744073709551616", LineKind::Number),
    (b"dialfailed 1", LineKind::Words),
    (b"ticked -1", LineKind::Number),
    (b"broke 1", LineKind::Words),
    (b"broke 1 gone", LineKind::Command),
    (b"broke 1 link x", LineKind::Words),
    (b"broke 1 old", LineKind::Words),
    (b"broke 1 old 4294967296", LineKind::Number),
    (b"broke x gone", LineKind::Number),
    (b"put 1", LineKind::Words),
    (b"put 1 0", LineKind::Words),
    (b"put 1 0 0g", LineKind::Hex),
    (b"put 1 0 00 x", LineKind::Hex),
    (b"put 1 x 0g", LineKind::Number),
    (b"took 1 0 000", LineKind::Hex),
    (b"took 1 0 -", LineKind::Hex),
    (b"cbtook 1 0 00000000", LineKind::Hex),
    (b"cbput 1 0 00000000", LineKind::Hex),
    (b"began 4294967296 1 5 stat /", LineKind::Number),
    (b"began 0 1 stat /", LineKind::Number),
    (b"began 0 1 5", LineKind::Command),
    (b"began 0 1 5 look /", LineKind::Command),
    (b"began 0 1 5 stat", LineKind::Words),
    (b"began 0 1 5 stat /a//b", LineKind::Command),
    (b"began 0 1 5 mkdir /", LineKind::Command),
    (b"began 0 1 5 close H", LineKind::Command),
    (b"began 0 1 5 pause 601", LineKind::Number),
    (b"began 0 1 5 write h 0 0", LineKind::Hex),
    (b"began 0 1 5 stat / /", LineKind::Words),
    (b"answered 0 1", LineKind::Words),
    (b"answered 0 1 done", LineKind::Command),
    (b"answered 0 x done", LineKind::Number),
    (b"answered 0 1 data 0 end", LineKind::Hex),
];

#[test]
fn lines_are_refused(rt: HostRuntime) {
    for (line, kind) in REFUSED {
        assert_eq!(rt; fault_of(rt.alloc(), line), Some((1, kind)));
    }
}

fn repeated(alloc: Global, line: &[u8], times: usize) -> Result<Vec<u8>, NoMemory> {
    let mut text = Vec::new(alloc);
    for _ in 0..times {
        text.extend_from_slice(line)?;
    }
    Ok(text)
}

#[test]
fn the_last_line_of_many_is_refused(rt: HostRuntime) -> Result<(), NoMemory> {
    let alloc = rt.alloc();
    for (line, kind) in REFUSED {
        let mut text = repeated(alloc, b"# a tick\n\nticked 5\n", 100)?;
        text.extend_from_slice(line)?;
        assert_eq!(rt; fault_of(alloc, &text), Some((301, kind)));
    }
    Ok(())
}

fn count_of(alloc: Global, text: &[u8]) -> Option<u64> {
    match read_journal(alloc, text) {
        Ok(journal) => Some(journal.len()),
        Err(_) => None,
    }
}

#[test]
fn a_line_has_no_bound(rt: HostRuntime) -> Result<(), NoMemory> {
    let alloc = rt.alloc();
    let names = repeated(alloc, b" name", 30_000)?;
    let text = line_of(alloc, &[b"answered 0 1 names 30000", &names, b" more\n"])?;
    assert_eq!(rt; count_of(alloc, &text), Some(1));
    let lines = repeated(alloc, b"quit\n", 100_001)?;
    assert_eq!(rt; count_of(alloc, &lines), Some(100_001));
    Ok(())
}

#[test]
fn a_long_text_is_refused(rt: HostRuntime) -> Result<(), NoMemory> {
    let alloc = rt.alloc();
    let most = vec![in alloc; b'#'; 1 << 24]?;
    assert_eq!(rt; count_of(alloc, &most), Some(0));
    let text = vec![in alloc; b'x'; (1 << 24) + 1]?;
    assert_eq!(rt; fault_of(alloc, &text), Some((0, LineKind::Limit)));
    Ok(())
}
