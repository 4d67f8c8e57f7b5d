ghost use Rattle.std.specs.Prelude.{OnOk};
ghost use Rattle.n41_requests.specs.Requests.{IsSpellable};
ghost use Rattle.n41_tellable.specs.Tellable.{IsTellable, AllTellable};

use n41_cbmsg::{read_answer, read_call};
use n41_journal::{Cause, Event, Journal};
use n41_journal_reader::read_journal;
use n41_journal_text::journal_text;
use n41_replies::read_reply;
use n41_tellable::replies_that_are_read_are_tellable;
use n41_types::{
    Answer, Bytes, Command, Label, Loss, NoMemory, Place, Plan, Request, SessionId, SlotUse,
    Status, Texts, Value,
};
use std::alloc::Global;

/// The answer to an EXCHANGE_ID.
const NAMED: &str =
    "0000000100000001000000000000000000000000000000000000000000000000000000010000002a00000000000000000000000700000001000100000000000000000000000000000000000373727600000000037372760000000000";

/// A callback of the null procedure.
const NULL: &str =
    "00000001000000000000000240000000000000010000000000000000000000000000000000000000";

/// The reply to a CB_SEQUENCE and a CB_RECALL.
const RECALLED: &str =
    "0000000900000001000000000000000000000000000000000000000000000000000000020000000b00000000000102030405060708090a0b0c0d0e0f000000010000000000000003000000030000000400000000";

#[tactic(auto, using(n41_journal_text::proofs::Reversed::all_more))]
fn add(journal: &mut Journal, event: Event) -> Result<(), NoMemory>
    requires all { AllTellable journal.old.events }
    requires one { IsTellable event }
    ensures { OnOk result (AllTellable journal.new.events) }
{
    journal.reserve(1)?;
    journal.add(event);
    Ok(())
}

/// Whether the text of a journal says the same events.
fn comes_back(alloc: Global, journal: &Journal) -> Result<bool, NoMemory>
    requires { AllTellable journal.now.events }
{
    let text = journal_text(alloc, journal)?;
    match read_journal(alloc, text.as_slice()) {
        Ok(again) => Ok(again.as_slice() == journal.as_slice()),
        Err(_) => Ok(false),
    }
}

/// Whether a journal of this event alone comes back.
fn is_kept(alloc: Global, event: Event) -> Result<bool, NoMemory>
    requires { IsTellable event }
{
    let mut journal = Journal::new(alloc);
    add(&mut journal, event)?;
    comes_back(alloc, &journal)
}

#[test]
fn plain_events_come_back(rt: HostRuntime) -> Result<(), NoMemory> {
    let alloc = rt.alloc();
    assert!(rt; comes_back(alloc, &Journal::new(alloc))?);
    assert!(rt; is_kept(alloc, Event::Dialed { conn: u64::MAX })?);
    assert!(rt; is_kept(alloc, Event::DialFailed)?);
    assert!(rt; is_kept(alloc, Event::Ticked { moment: 0 })?);
    assert!(rt; is_kept(alloc, Event::Quit)?);
    let causes = [
        Cause::Link,
        Cause::Ended,
        Cause::BadRecord,
        Cause::Garbled,
        Cause::Old(u32::MAX),
        Cause::NoMemory,
    ];
    for cause in causes {
        assert!(rt; is_kept(alloc, Event::Broke { conn: 2, cause })?);
    }
    Ok(())
}

fn is_answer_kept(alloc: Global, answer: Answer) -> Result<bool, NoMemory> {
    let event = Event::Answered {
        caller: u32::MAX,
        number: 7,
        answer,
    };
    is_kept(alloc, event)
}

fn is_value_kept(alloc: Global, value: Value) -> Result<bool, NoMemory> {
    is_answer_kept(alloc, Answer::Done(value))
}

#[test]
fn answers_come_back(rt: HostRuntime) -> Result<(), NoMemory> {
    let alloc = rt.alloc();
    assert!(rt; is_answer_kept(alloc, Answer::Refused(Status::NOENT))?);
    assert!(rt; is_answer_kept(alloc, Answer::Unknown)?);
    assert!(rt; is_answer_kept(alloc, Answer::StateLost(Loss(Status::NO_GRACE)))?);
    assert!(rt; is_answer_kept(alloc, Answer::Unreachable(16))?);
    assert!(rt; is_answer_kept(alloc, Answer::NotOpen)?);
    assert!(rt; is_answer_kept(alloc, Answer::Breach(u64::MAX))?);
    assert!(rt; is_value_kept(alloc, Value::Opened)?);
    assert!(rt; is_value_kept(alloc, Value::Wrote(65_536))?);
    assert!(rt; is_value_kept(alloc, Value::Locked)?);
    assert!(rt; is_value_kept(alloc, Value::Unlocked)?);
    assert!(rt; is_value_kept(alloc, Value::Free)?);
    assert!(rt; is_value_kept(alloc, Value::Truncated)?);
    assert!(rt; is_value_kept(alloc, Value::Closed)?);
    assert!(rt; is_value_kept(alloc, Value::Made)?);
    assert!(rt; is_value_kept(alloc, Value::Removed)?);
    assert!(rt; is_value_kept(alloc, Value::Renamed)?);
    assert!(rt; is_value_kept(alloc, Value::Paused)?);
    Ok(())
}

fn is_data_kept(alloc: Global, bytes: &[u8], last: bool) -> Result<bool, NoMemory> {
    let bytes = Bytes::copy_from_slice(alloc, bytes)?;
    is_value_kept(alloc, Value::Got { bytes, last })
}

fn is_stat_kept(alloc: Global, fileid: Option<u64>, mode: Option<u32>) -> Result<bool, NoMemory> {
    let value = Value::Stat {
        kind: 2,
        size: u64::MAX,
        fileid,
        mode,
    };
    is_value_kept(alloc, value)
}

#[test]
fn values_come_back(rt: HostRuntime) -> Result<(), NoMemory> {
    let alloc = rt.alloc();
    assert!(rt; is_data_kept(alloc, b"", true)?);
    assert!(rt; is_data_kept(alloc, b"\x00hi\xff", false)?);
    assert!(rt; is_stat_kept(alloc, None, None)?);
    assert!(rt; is_stat_kept(alloc, Some(0), Some(0))?);
    assert!(rt; is_stat_kept(alloc, Some(u64::MAX), Some(u32::MAX))?);
    Ok(())
}

/// The names of one byte, each, and one of all.
fn all_names(alloc: Global) -> Result<Texts, NoMemory> {
    let mut names = Vec::new(alloc);
    let mut whole = Vec::new(alloc);
    for byte in 0..=255u8 {
        names.push(Bytes::copy_from_slice(alloc, &[byte])?)?;
        whole.push(byte)?;
    }
    names.push(Bytes::from_vec(whole)?)?;
    Ok(Texts::from_vec(names))
}

#[test]
fn names_come_back(rt: HostRuntime) -> Result<(), NoMemory> {
    let alloc = rt.alloc();
    for more in [false, true] {
        let names = all_names(alloc)?;
        assert!(rt; is_value_kept(alloc, Value::Names { names, more })?);
    }
    Ok(())
}

fn look() -> Request
    ensures { IsSpellable result }
{
    Request {
        xid: 5,
        uid: 1000,
        gid: 1000,
        minor: 1,
        slot: Some(SlotUse {
            sid: SessionId([0, 1, 2, 3, 4, 5, 6, 7, 8, 9, 10, 11, 12, 13, 14, 15]),
            slot: 0,
            turn: 1,
            highest: 0,
            cache: false,
        }),
        plan: Plan::Stat { at: Place::Root },
    }
}

#[test]
fn a_request_comes_back(rt: HostRuntime) -> Result<(), NoMemory> {
    let put = Event::Put {
        conn: 1,
        place: 4,
        request: look(),
    };
    assert!(rt; is_kept(rt.alloc(), put)?);
    Ok(())
}

fn is_reply_kept(alloc: Global, message: &str) -> Result<bool, NoMemory> {
    let Ok(bytes) = hex::decode(alloc, message) else {
        return Ok(false);
    };
    let Ok(reply) = read_reply(alloc, bytes.as_slice()) else {
        return Ok(false);
    };
    replies_that_are_read_are_tellable();
    let took = Event::Took {
        conn: 2,
        place: 0,
        reply,
    };
    is_kept(alloc, took)
}

fn is_callback_kept(alloc: Global, message: &str) -> Result<bool, NoMemory> {
    let Ok(bytes) = hex::decode(alloc, message) else {
        return Ok(false);
    };
    let Ok(call) = read_call(alloc, bytes.as_slice()) else {
        return Ok(false);
    };
    let took = Event::CbTook {
        conn: 2,
        place: 1,
        call,
    };
    is_kept(alloc, took)
}

fn is_callback_reply_kept(alloc: Global, message: &str) -> Result<bool, NoMemory> {
    let Ok(bytes) = hex::decode(alloc, message) else {
        return Ok(false);
    };
    let Ok(reply) = read_answer(alloc, bytes.as_slice()) else {
        return Ok(false);
    };
    let put = Event::CbPut {
        conn: 2,
        place: 3,
        reply,
    };
    is_kept(alloc, put)
}

#[test]
fn messages_come_back(rt: HostRuntime) -> Result<(), NoMemory> {
    let alloc = rt.alloc();
    assert!(rt; is_reply_kept(alloc, NAMED)?);
    assert!(rt; is_callback_kept(alloc, NULL)?);
    assert!(rt; is_callback_reply_kept(alloc, RECALLED)?);
    Ok(())
}

fn add_some(alloc: Global, journal: &mut Journal) -> Result<(), NoMemory>
    requires { AllTellable journal.old.events }
    ensures { OnOk result (AllTellable journal.new.events) }
{
    let label = Label::new(Bytes::copy_from_slice(alloc, b"h1")?);
    let bytes = Bytes::copy_from_slice(alloc, b"\x00\xaf")?;
    let write = Event::Began {
        caller: 1,
        number: 12,
        command: Command::Write {
            label,
            offset: 10,
            bytes,
        },
        moment: 6,
    };
    add(journal, write)?;
    add(journal, Event::Dialed { conn: 1 })?;
    add(journal, Event::Quit)
}

fn is_journal_kept(alloc: Global) -> Result<bool, NoMemory> {
    let mut journal = Journal::new(alloc);
    add_some(alloc, &mut journal)?;
    comes_back(alloc, &journal)
}

#[test]
fn a_journal_comes_back(rt: HostRuntime) -> Result<(), NoMemory> {
    assert!(rt; is_journal_kept(rt.alloc())?);
    Ok(())
}
