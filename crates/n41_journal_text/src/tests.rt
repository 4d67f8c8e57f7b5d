ghost use Rattle.std.specs.Prelude.{IfOk, OnOk};
ghost use Rattle.n41_requests.specs.Requests.{IsSpellable};
ghost use Rattle.n41_tellable.specs.Tellable.{IsTellable, AllTellable};

use crate::journal_text;
use n41_cbmsg::{read_answer, read_call};
use n41_journal::{Cause, Event, Journal};
use n41_replies::read_reply;
use n41_tellable::replies_that_are_read_are_tellable;
use n41_types::{
    Answer, Bytes, Command, Label, Loss, Name, NoMemory, Path, Place, Plan, Request, Sequence,
    SessionId, SlotUse, Status, Texts, Value,
};
use std::alloc::Global;

/// A look at the root, behind the first SEQUENCE of slot 0.
const LOOK: &str =
    "000000050000000000000002000186a30000000400000001000000010000001800000000000000036e343100000003e8000003e800000000000000000000000000000000000000010000000300000035000102030405060708090a0b0c0d0e0f000000010000000000000000000000000000001800000009000000020010001a00000002";

/// The answer to an EXCHANGE_ID.
const NAMED: &str =
    "0000000100000001000000000000000000000000000000000000000000000000000000010000002a00000000000000000000000700000001000100000000000000000000000000000000000373727600000000037372760000000000";

/// A callback of the null procedure.
const NULL: &str =
    "00000001000000000000000240000000000000010000000000000000000000000000000000000000";

/// The reply to a CB_SEQUENCE and a CB_RECALL.
const RECALLED: &str =
    "0000000900000001000000000000000000000000000000000000000000000000000000020000000b00000000000102030405060708090a0b0c0d0e0f000000010000000000000003000000030000000400000000";

#[tactic(auto, using(crate::proofs::Reversed::all_more))]
fn add(journal: &mut Journal, event: Event) -> Result<(), NoMemory>
    requires all { AllTellable journal.old.events }
    requires one { IsTellable event }
    ensures { OnOk result (AllTellable journal.new.events) }
{
    journal.reserve(1)?;
    journal.add(event);
    Ok(())
}

/// Whether this is the text of a journal.
fn is_text(alloc: Global, journal: &Journal, want: &[u8]) -> bool
    requires { AllTellable journal.now.events }
{
    match journal_text(alloc, journal) {
        Ok(text) => text.as_slice() == want,
        Err(_) => false,
    }
}

/// Whether a journal of this event alone has this text.
fn is_line(alloc: Global, event: Event, want: &[u8]) -> bool
    requires { IsTellable event }
{
    let mut journal = Journal::new(alloc);
    match add(&mut journal, event) {
        Ok(()) => is_text(alloc, &journal, want),
        Err(_) => false,
    }
}

#[test]
fn connections_are_told(rt: HostRuntime) {
    let alloc = rt.alloc();
    assert!(rt; is_text(alloc, &Journal::new(alloc), b""));
    assert!(rt;
        is_line(
            alloc,
            Event::Dialed { conn: u64::MAX },
            b"dialed 18446744073709551615\n"
        )
    );
    assert!(rt; is_line(alloc, Event::DialFailed, b"dialfailed\n"));
    assert!(rt; is_line(alloc, Event::Ticked { moment: 0 }, b"ticked 0\n"));
    assert!(rt; is_line(alloc, Event::Quit, b"quit\n"));
    let causes: [(Cause, &[u8]); 6] = [
        (Cause::Link, b"broke 2 link\n"),
        (Cause::Ended, b"broke 2 ended\n"),
        (Cause::BadRecord, b"broke 2 record\n"),
        (Cause::Garbled, b"broke 2 garbled\n"),
        (Cause::Old(u32::MAX), b"broke 2 old 4294967295\n"),
        (Cause::NoMemory, b"broke 2 memory\n"),
    ];
    for (cause, want) in causes {
        assert!(rt; is_line(alloc, Event::Broke { conn: 2, cause }, want));
    }
}

fn is_answer(alloc: Global, answer: Answer, want: &[u8]) -> bool {
    let event = Event::Answered {
        caller: 3,
        number: 7,
        answer,
    };
    is_line(alloc, event, want)
}

fn is_value(alloc: Global, value: Value, want: &[u8]) -> bool {
    is_answer(alloc, Answer::Done(value), want)
}

#[test]
fn answers_are_told(rt: HostRuntime) {
    let alloc = rt.alloc();
    assert!(rt;
        is_answer(
            alloc,
            Answer::Refused(Status::NOENT),
            b"answered 3 7 refused 2\n"
        )
    );
    assert!(rt; is_answer(alloc, Answer::Unknown, b"answered 3 7 unknown\n"));
    let loss = Loss(Status::NO_GRACE);
    assert!(rt; is_answer(alloc, Answer::StateLost(loss), b"answered 3 7 lost 10033\n"));
    assert!(rt;
        is_answer(
            alloc,
            Answer::Unreachable(16),
            b"answered 3 7 unreachable 16\n"
        )
    );
    assert!(rt; is_answer(alloc, Answer::NotOpen, b"answered 3 7 not open\n"));
    assert!(rt; is_answer(alloc, Answer::Breach(18), b"answered 3 7 breach 18\n"));
}

#[test]
fn plain_values_are_told(rt: HostRuntime) {
    let alloc = rt.alloc();
    assert!(rt; is_value(alloc, Value::Opened, b"answered 3 7 opened\n"));
    assert!(rt; is_value(alloc, Value::Wrote(65_536), b"answered 3 7 wrote 65536\n"));
    assert!(rt; is_value(alloc, Value::Locked, b"answered 3 7 locked\n"));
    assert!(rt; is_value(alloc, Value::Unlocked, b"answered 3 7 unlocked\n"));
    assert!(rt; is_value(alloc, Value::Free, b"answered 3 7 free\n"));
    assert!(rt; is_value(alloc, Value::Truncated, b"answered 3 7 truncated\n"));
    assert!(rt; is_value(alloc, Value::Closed, b"answered 3 7 closed\n"));
    assert!(rt; is_value(alloc, Value::Made, b"answered 3 7 made\n"));
    assert!(rt; is_value(alloc, Value::Removed, b"answered 3 7 removed\n"));
    assert!(rt; is_value(alloc, Value::Renamed, b"answered 3 7 renamed\n"));
    assert!(rt; is_value(alloc, Value::Paused, b"answered 3 7 paused\n"));
}

#[test]
fn values_are_told(rt: HostRuntime) -> Result<(), NoMemory> {
    let alloc = rt.alloc();
    let bytes = Bytes::copy_from_slice(alloc, b"\x00hi\xff")?;
    let got = Value::Got { bytes, last: false };
    assert!(rt; is_value(alloc, got, b"answered 3 7 data 006869ff more\n"));
    let nothing = Value::Got {
        bytes: Bytes::new(),
        last: true,
    };
    assert!(rt; is_value(alloc, nothing, b"answered 3 7 data - end\n"));
    let stat = Value::Stat {
        kind: 2,
        size: u64::MAX,
        fileid: None,
        mode: Some(0o755),
    };
    assert!(rt;
        is_value(
            alloc,
            stat,
            b"answered 3 7 stat type 2 size 18446744073709551615 fileid - mode 0755\n"
        )
    );
    let mut names = Vec::new(alloc);
    names.push(Bytes::copy_from_slice(alloc, b"a")?)?;
    names.push(Bytes::copy_from_slice(alloc, b"\n%\xab")?)?;
    let listed = Value::Names {
        names: Texts::from_vec(names),
        more: true,
    };
    assert!(rt; is_value(alloc, listed, b"answered 3 7 names 2 a %0A%25%AB more\n"));
    Ok(())
}

/// The line with these words and this message.
fn line_of(alloc: Global, what: &[u8], message: &str) -> Result<Vec<u8>, NoMemory> {
    let mut line = Vec::new(alloc);
    line.extend_from_slice(what)?;
    line.extend_from_slice(message.as_bytes())?;
    line.extend_from_slice(b"\n")?;
    Ok(line)
}

fn is_told(alloc: Global, event: Event, what: &[u8], message: &str) -> bool
    requires { IsTellable event }
{
    match line_of(alloc, what, message) {
        Ok(line) => is_line(alloc, event, line.as_slice()),
        Err(_) => false,
    }
}

fn look() -> Request
    ensures { IsSpellable result }
{
    Request {
        xid: 5,
        uid: 1000,
        gid: 1000,
        minor: 1,
        slot: Some(SlotUse {
            sid: SessionId([0, 1, 2, 3, 4, 5, 6, 7, 8, 9, 10, 11, 12, 13, 14, 15]),
            slot: 0,
            turn: 1,
            highest: 0,
            cache: false,
        }),
        plan: Plan::Stat { at: Place::Root },
    }
}

#[test]
fn a_request_is_told(rt: HostRuntime) {
    let put = Event::Put {
        conn: 1,
        place: 4,
        request: look(),
    };
    assert!(rt; is_told(rt.alloc(), put, b"put 1 4 ", LOOK));
}

/// Whether a reply with these bytes, taken, is told by them.
fn is_reply_told(alloc: Global, message: &str) -> bool {
    let Ok(bytes) = hex::decode(alloc, message) else {
        return false;
    };
    let Ok(reply) = read_reply(alloc, bytes.as_slice()) else {
        return false;
    };
    replies_that_are_read_are_tellable();
    let took = Event::Took {
        conn: 2,
        place: 0,
        reply,
    };
    is_told(alloc, took, b"took 2 0 ", message)
}

fn is_callback_told(alloc: Global, message: &str) -> bool {
    let Ok(bytes) = hex::decode(alloc, message) else {
        return false;
    };
    let Ok(call) = read_call(alloc, bytes.as_slice()) else {
        return false;
    };
    let took = Event::CbTook {
        conn: 2,
        place: 1,
        call,
    };
    is_told(alloc, took, b"cbtook 2 1 ", message)
}

fn is_callback_reply_told(alloc: Global, message: &str) -> bool {
    let Ok(bytes) = hex::decode(alloc, message) else {
        return false;
    };
    let Ok(reply) = read_answer(alloc, bytes.as_slice()) else {
        return false;
    };
    let put = Event::CbPut {
        conn: 2,
        place: 3,
        reply,
    };
    is_told(alloc, put, b"cbput 2 3 ", message)
}

#[test]
fn messages_are_told(rt: HostRuntime) {
    let alloc = rt.alloc();
    assert!(rt; is_reply_told(alloc, NAMED));
    assert!(rt; is_callback_told(alloc, NULL));
    assert!(rt; is_callback_reply_told(alloc, RECALLED));
}

fn path_of(alloc: Global, name: &[u8]) -> Result<Path, NoMemory> {
    let mut path = Vec::new(alloc);
    if let Ok(name) = Name::of(alloc, name) {
        path.push(name)?;
    }
    Sequence::from_vec(alloc, path)
}

fn add_beginnings(alloc: Global, journal: &mut Journal) -> Result<(), NoMemory>
    requires { AllTellable journal.old.events }
    ensures { OnOk result (AllTellable journal.new.events) }
{
    let path = path_of(alloc, b"a")?;
    let stat = Event::Began {
        caller: 0,
        number: 1,
        command: Command::Stat { path },
        moment: 5,
    };
    add(journal, stat)?;
    let label = Label::new(Bytes::copy_from_slice(alloc, b"h1")?);
    let bytes = Bytes::copy_from_slice(alloc, b"\x00\xaf")?;
    let write = Event::Began {
        caller: 1,
        number: 12,
        command: Command::Write {
            label,
            offset: 10,
            bytes,
        },
        moment: 6,
    };
    add(journal, write)
}

fn add_endings(journal: &mut Journal) -> Result<(), NoMemory>
    requires { AllTellable journal.old.events }
    ensures { OnOk result (AllTellable journal.new.events) }
{
    add(journal, Event::Ticked { moment: 6 })?;
    add(journal, Event::DialFailed)?;
    add(journal, Event::Quit)?;
    let answered = Event::Answered {
        caller: 0,
        number: 1,
        answer: Answer::Unreachable(1),
    };
    add(journal, answered)
}

/// Whether a journal with these events is told, a line for each, the oldest first.
fn is_journal_told(alloc: Global) -> Result<bool, NoMemory> {
    let mut journal = Journal::new(alloc);
    add_beginnings(alloc, &mut journal)?;
    add_endings(&mut journal)?;
    let want =
        b"began 0 1 5 stat /a\nbegan 1 12 6 write h1 10 00af\nticked 6\ndialfailed\nquit\nanswered 0 1 unreachable 1\n";
    Ok(is_text(alloc, &journal, want))
}

#[test]
fn a_journal_is_told(rt: HostRuntime) -> Result<(), NoMemory> {
    assert!(rt; is_journal_told(rt.alloc())?);
    Ok(())
}

fn ticked(journal: &mut Journal, moments: u64) -> Result<(), NoMemory>
    requires { AllTellable journal.old.events }
    ensures { OnOk result (AllTellable journal.new.events) }
{
    for moment in 0..moments {
        add(journal, Event::Ticked { moment })?;
    }
    Ok(())
}

/// The bytes of the text of so many moments.
fn length_of(alloc: Global, moments: u64) -> Result<usize, NoMemory> {
    let mut journal = Journal::new(alloc);
    ticked(&mut journal, moments)?;
    let text = journal_text(alloc, &journal)?;
    Ok(text.len())
}

#[test]
fn a_long_journal_is_told(rt: HostRuntime) -> Result<(), NoMemory> {
    assert_eq!(rt; length_of(rt.alloc(), 100_000)?, 1_288_890);
    Ok(())
}
