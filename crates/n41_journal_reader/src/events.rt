// The events of lines.
ghost use Rattle.std.specs.Prelude.{◌≡◌, false};
ghost use Rattle.n41_words.specs.Lines.{words};
ghost use Rattle.n41_words.specs.Numbers.{hex_bytes};
ghost use Rattle.n41_words.specs.Faults.{Gives};
ghost use Rattle.n41_commands.specs.Commands.{command_of};
ghost use Rattle.n41_journal_words.specs.Reading.{form_at, Reads};
ghost use Rattle.n41_journal.specs.declared.events.Event.TheVariants as event;
ghost use Rattle.n41_journal_reader.specs.Messages.{reply_of, callback_of, callback_reply_of};
ghost use Rattle.n41_journal_reader.specs.Events.{journal_kind, as_journal, began_of, place_at, message_of, broke_of, answered_of, bytes_at, put_of, first_of, SaysPut, SaysBehind, Says, Tells};

use crate::causes::read_cause;
use crate::first::{First, read_first};
use crate::messages::{callback, callback_reply, reply, request_in};
use n41_commands::read_command;
use n41_journal::Event;
use n41_journal_words::{Words, read_answer};
use n41_types::{Bytes, Command, Request};
use n41_words::{LineFault, LineKind, hex_bytes};
use std::alloc::Global;

/// The fault of a command, by the kinds that a journal has.
fn journal_kind(kind: LineKind) -> LineKind
    ensures { result ≡ journal_kind kind }
{
    match kind {
        LineKind::Byte | LineKind::Words | LineKind::Number | LineKind::Hex => kind,
        _ => LineKind::Command,
    }
}

/// The command that the words to the end of a line say.
fn command(alloc: Global, words: &Words<'_>) -> Result<Command, LineFault>
    ensures { Gives result (as_journal (command_of false words.now)) }
{
    match read_command(alloc, false, words.rest()) {
        Ok(command) => Ok(command),
        Err(LineFault::Kind(kind)) => Err(LineFault::Kind(journal_kind(kind))),
        Err(LineFault::NoMemory) => Err(LineFault::NoMemory),
    }
}

fn began(alloc: Global, words: &mut Words<'_>) -> Result<Event, LineFault>
    ensures { Gives result (began_of words.old) }
{
    let caller = words.number32()?;
    let number = words.number64()?;
    let moment = words.number64()?;
    let command = command(alloc, words)?;
    Ok(Event::Began {
        caller,
        number,
        command,
        moment,
    })
}

/// A connection, and a place among its messages.
fn place(words: &mut Words<'_>) -> Result<(u64, u64), LineFault>
    ensures { Reads (λ at. at) result words.new (place_at words.old) }
{
    let conn = words.number64()?;
    let place = words.number64()?;
    Ok((conn, place))
}

fn took(alloc: Global, words: &mut Words<'_>) -> Result<Event, LineFault>
    ensures { Gives result (message_of reply_of event.Took words.old) }
{
    let (conn, place) = place(words)?;
    let word = words.word()?;
    let reply = reply(alloc, word)?;
    words.end_with(Event::Took { conn, place, reply })
}

fn callback_took(alloc: Global, words: &mut Words<'_>) -> Result<Event, LineFault>
    ensures { Gives result (message_of callback_of event.CbTook words.old) }
{
    let (conn, place) = place(words)?;
    let word = words.word()?;
    let call = callback(alloc, word)?;
    words.end_with(Event::CbTook { conn, place, call })
}

fn callback_put(alloc: Global, words: &mut Words<'_>) -> Result<Event, LineFault>
    ensures { Gives result (message_of callback_reply_of event.CbPut words.old) }
{
    let (conn, place) = place(words)?;
    let word = words.word()?;
    let reply = callback_reply(alloc, word)?;
    words.end_with(Event::CbPut { conn, place, reply })
}

fn broke(words: &mut Words<'_>) -> Result<Event, LineFault>
    ensures { Gives result (broke_of words.old) }
{
    let conn = words.number64()?;
    let cause = read_cause(words)?;
    Ok(Event::Broke { conn, cause })
}

fn answered(alloc: Global, words: &mut Words<'_>) -> Result<Event, LineFault>
    ensures { Gives result (answered_of words.old) }
{
    let caller = words.number32()?;
    let number = words.number64()?;
    let answer = read_answer(alloc, words)?;
    Ok(Event::Answered {
        caller,
        number,
        answer,
    })
}

/// The place of a request and its bytes.
fn placed_bytes(alloc: Global, words: &mut Words<'_>) -> Result<((u64, u64), Bytes), LineFault>
    ensures { Reads (λ x. x) result words.new (bytes_at words.old) }
{
    let at = place(words)?;
    let word = words.word()?;
    let bytes = hex_bytes(alloc, word)?;
    Ok((at, bytes))
}

/// The event of a request that was found at a place, where the words end here.
fn found_event(
    words: &Words<'_>,
    at: (u64, u64),
    found: Option<Request>,
) -> Result<Event, LineFault>
    ensures { Gives result (put_of found at words.now) }
{
    match found {
        Some(request) => words.end_with(Event::Put {
            conn: at.0,
            place: at.1,
            request,
        }),
        None => Err(LineFault::Kind(LineKind::Hex)),
    }
}

fn put(alloc: Global, words: &mut Words<'_>) -> Result<Event, LineFault>
    ensures { Tells result (SaysPut (bytes_at words.old)) }
{
    let placed = placed_bytes(alloc, words)?;
    let found = request_in(alloc, &placed.1)?;
    found_event(words, placed.0, found)
}

/// The event that the words behind its first word say.
fn read_behind(alloc: Global, first: First, words: &mut Words<'_>) -> Result<Event, LineFault>
    ensures { Tells result (SaysBehind first words.old) }
{
    match first {
        First::Began => began(alloc, words),
        First::Put => put(alloc, words),
        First::Took => took(alloc, words),
        First::CbTook => callback_took(alloc, words),
        First::CbPut => callback_put(alloc, words),
        First::Dialed => Ok(Event::Dialed {
            conn: words.last_number64()?,
        }),
        First::DialFailed => words.end_with(Event::DialFailed),
        First::Broke => broke(words),
        First::Ticked => Ok(Event::Ticked {
            moment: words.last_number64()?,
        }),
        First::Answered => answered(alloc, words),
        First::Quit => words.end_with(Event::Quit),
    }
}

/// The kind of event that the next word says.
fn first(words: &mut Words<'_>) -> Result<First, LineFault>
    ensures { Reads (λ first. first) result words.new (form_at first_of words.old) }
{
    let word = words.word()?;
    Ok(read_first(word)?)
}

/// The event that words say, or their first fault.
pub(crate) fn read_event(alloc: Global, words: &mut Words<'_>) -> Result<Event, LineFault>
    ensures { Tells result (Says words.old) }
{
    let first = first(words)?;
    read_behind(alloc, first, words)
}
