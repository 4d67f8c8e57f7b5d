// The words of an event. Each call adds them at the end of a text.
ghost use Rattle.std.specs.Prelude.{◌≡◌, ◌++◌, OnOk};
ghost use Rattle.n41_journal.specs.declared.events.Event.TheVariants as event;
ghost use Rattle.n41_tellable.specs.Tellable.{IsTellable};
ghost use Rattle.n41_journal_text.specs.Text.{cause_text, answer_text, message, event_text, event_line};
ghost use Rattle.n41_journal_text.specs.Words.{IsLegible, IsSayable};
ghost use Rattle.hex.specs.Hex.{IsBytes};

use crate::messages::{put_callback, put_callback_reply, put_reply, put_request};
use crate::numbered::{put_numbered, put_pair};
use crate::typed::event_is_typed;
use n41_journal::{Cause, Event};
use n41_report::{put, put_answer, put_decimal};
use n41_types::{Answer, Command, NoMemory};
use n41_written::put_command;
use std::alloc::Global;

fn put_began(
    alloc: Global,
    out: &mut Vec<u8>,
    caller: u32,
    number: u64,
    command: &Command,
    moment: u64,
) -> Result<(), NoMemory>
    ensures { OnOk result (out.new.items ≡ out.old.items ++ event_text (event.Began caller number command.now moment)) }
{
    put_pair(alloc, out, "began", u64::from(caller), number)?;
    put_decimal(alloc, out, moment)?;
    put(out, " ")?;
    put_command(alloc, out, command)
}

fn put_cause(alloc: Global, out: &mut Vec<u8>, cause: Cause) -> Result<(), NoMemory>
    ensures { OnOk result (out.new.items ≡ out.old.items ++ cause_text cause) }
{
    match cause {
        Cause::Link => put(out, "link"),
        Cause::Ended => put(out, "ended"),
        Cause::BadRecord => put(out, "record"),
        Cause::Garbled => put(out, "garbled"),
        Cause::Old(xid) => put_numbered(alloc, out, "old", u64::from(xid)),
        Cause::NoMemory => put(out, "memory"),
    }
}

fn put_broke(alloc: Global, out: &mut Vec<u8>, conn: u64, cause: Cause) -> Result<(), NoMemory>
    ensures { OnOk result (out.new.items ≡ out.old.items ++ event_text (event.Broke conn cause)) }
{
    put_numbered(alloc, out, "broke", conn)?;
    put(out, " ")?;
    put_cause(alloc, out, cause)
}

/// Adds the words for an answer, and the number of one that did not come.
fn put_told(alloc: Global, out: &mut Vec<u8>, answer: &Answer) -> Result<(), NoMemory>
    ensures { OnOk result (out.new.items ≡ out.old.items ++ answer_text answer.now) }
{
    match answer {
        Answer::Unreachable(number) => put_numbered(alloc, out, "unreachable", *number),
        _ => put_answer(alloc, out, answer),
    }
}

fn put_answered(
    alloc: Global,
    out: &mut Vec<u8>,
    caller: u32,
    number: u64,
    answer: &Answer,
) -> Result<(), NoMemory>
    ensures { OnOk result (out.new.items ≡ out.old.items ++ event_text (event.Answered caller number answer.now)) }
{
    put_pair(alloc, out, "answered", u64::from(caller), number)?;
    put_told(alloc, out, answer)
}

fn put_event(alloc: Global, out: &mut Vec<u8>, event: &Event) -> Result<(), NoMemory>
    requires { IsTellable event.now }
    ensures told { OnOk result (out.new.items ≡ out.old.items ++ event_text event.now) }
    ensures bytes { OnOk result (IsBytes (message event.now)) }
{
    match event {
        Event::Began {
            caller,
            number,
            command,
            moment,
        } => put_began(alloc, out, *caller, *number, command, *moment),
        Event::Put {
            conn,
            place,
            request,
        } => put_request(alloc, out, *conn, *place, request),
        Event::Took { conn, place, reply } => put_reply(alloc, out, *conn, *place, reply),
        Event::CbTook { conn, place, call } => put_callback(alloc, out, *conn, *place, call),
        Event::CbPut { conn, place, reply } => {
            put_callback_reply(alloc, out, *conn, *place, reply)
        }
        Event::Dialed { conn } => put_numbered(alloc, out, "dialed", *conn),
        Event::DialFailed => put(out, "dialfailed"),
        Event::Broke { conn, cause } => put_broke(alloc, out, *conn, *cause),
        Event::Ticked { moment } => put_numbered(alloc, out, "ticked", *moment),
        Event::Answered {
            caller,
            number,
            answer,
        } => put_answered(alloc, out, *caller, *number, answer),
        Event::Quit => put(out, "quit"),
    }
}

/// Adds the line of an event.
pub(crate) fn put_line(alloc: Global, out: &mut Vec<u8>, event: &Event) -> Result<(), NoMemory>
    requires { IsTellable event.now }
    ensures told { OnOk result (out.new.items ≡ out.old.items ++ event_line event.now) }
    ensures legible { OnOk result (IsSayable event.now → IsLegible event.now) }
{
    event_is_typed(event);
    put_event(alloc, out, event)?;
    put(out, "\n")
}
