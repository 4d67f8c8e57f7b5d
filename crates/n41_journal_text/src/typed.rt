// What the types of an event's parts say of it.
ghost use Rattle.std.specs.Prelude.{◌<◌, ◌^◌, All, IfSome};
ghost use Rattle.hex.specs.Hex.{IsBytes};
ghost use Rattle.n41_journal_text.specs.Text.{message};
ghost use Rattle.n41_journal_text.specs.Words.{HasFullNames, IsFull, IsLegible, IsLegibleAnswer, IsLegibleCause, IsLegibleValue, IsSayable, IsSayableAnswer, IsToldName};

use n41_journal::{Cause, Event};
use n41_types::{Answer, Bytes, Value};

pub(crate) fn are_bytes(bytes: &[u8])
    ensures { IsBytes bytes.now }
{}

fn is_u32(number: u32)
    ensures { number < 2 ^ 32 }
{}

fn all_are_u32(number: Option<u32>)
    ensures { IfSome number (λ n. n < 2 ^ 32) }
{
    if let Some(number) = number {
        is_u32(number);
    }
}

fn is_u64(number: u64)
    ensures { number < 2 ^ 64 }
{}

fn all_are_u64(number: Option<u64>)
    ensures { IfSome number (λ n. n < 2 ^ 64) }
{
    if let Some(number) = number {
        is_u64(number);
    }
}

fn is_place(conn: u64, place: u64)
    ensures conn { conn < 2 ^ 64 }
    ensures place { place < 2 ^ 64 }
{}

fn names_are_bytes(names: &[Bytes])
    ensures { All IsBytes names.now }
{
    for name in names {
        are_bytes(name.as_slice());
    }
}

#[tactic(auto, using(crate::proofs::Names::told_names))]
fn names_are_told(names: &[Bytes])
    ensures { All IsFull names.now → All IsToldName names.now }
{
    names_are_bytes(names);
}

fn value_is_legible(value: &Value)
    ensures { HasFullNames value.now → IsLegibleValue value.now }
{
    match value {
        Value::Got { bytes, .. } => are_bytes(bytes.as_slice()),
        Value::Wrote(count) => is_u32(*count),
        Value::Stat {
            kind,
            size,
            fileid,
            mode,
        } => {
            is_u32(*kind);
            is_u64(*size);
            all_are_u64(*fileid);
            all_are_u32(*mode);
        }
        Value::Names { names, .. } => {
            is_u64(names.len() as u64);
            names_are_told(names.as_slice());
        }
        _ => {}
    }
}

fn answer_is_legible(answer: &Answer)
    ensures { IsSayableAnswer answer.now → IsLegibleAnswer answer.now }
{
    match answer {
        Answer::Done(value) => value_is_legible(value),
        Answer::Refused(status) => is_u32(status.0),
        Answer::StateLost(loss) => is_u32(loss.0.0),
        Answer::Unreachable(number) => is_u64(*number),
        Answer::Breach(place) => is_u64(*place),
        _ => {}
    }
}

fn cause_is_legible(cause: Cause)
    ensures { IsLegibleCause cause }
{
    if let Cause::Old(xid) = cause {
        is_u32(xid);
    }
}

/// What an event's types say of it, where its message has bytes.
pub(crate) fn event_is_typed(event: &Event)
    ensures { IsSayable event.now → IsBytes (message event.now) → IsLegible event.now }
{
    match event {
        Event::Began {
            caller,
            number,
            moment,
            ..
        } => {
            is_u32(*caller);
            is_u64(*number);
            is_u64(*moment);
        }
        Event::Put { conn, place, .. } => is_place(*conn, *place),
        Event::Took { conn, place, .. } => is_place(*conn, *place),
        Event::CbTook { conn, place, .. } => is_place(*conn, *place),
        Event::CbPut { conn, place, .. } => is_place(*conn, *place),
        Event::Dialed { conn } => is_u64(*conn),
        Event::Broke { conn, cause } => {
            is_u64(*conn);
            cause_is_legible(*cause);
        }
        Event::Ticked { moment } => is_u64(*moment),
        Event::Answered {
            caller,
            number,
            answer,
        } => {
            is_u32(*caller);
            is_u64(*number);
            answer_is_legible(answer);
        }
        Event::DialFailed | Event::Quit => {}
    }
}
