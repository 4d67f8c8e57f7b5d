ghost use Rattle.std.specs.Prelude.{◌≡◌};

use n41_results::{CbCall, CbReply, Reply};
use n41_types::{Answer, Command, Request};
use std::alloc::AllocError;

/// Why a connection broke.
#[derive(Clone, Copy, Debug, PartialEq, Eq)]
pub enum Cause {
    /// A read or a write failed.
    Link,
    /// The other side closed it.
    Ended,
    /// Its bytes were no records.
    BadRecord,
    /// A record was no message, or no answer to what was asked.
    Garbled,
    /// The request with this xid had no reply on it for 60 seconds.
    Old(u32),
    NoMemory,
}

/// What the client did or met. Callers are numbered from 0, commands of a caller and connections from 1, and messages of one
/// direction of a connection from 0. A moment is in seconds.
#[derive(Drop, PartialEq, Eq)]
pub enum Event {
    /// A caller gave a command.
    Began {
        caller: u32,
        number: u64,
        command: Command,
        moment: u64,
    },
    /// A request was handed to a connection.
    Put {
        conn: u64,
        place: u64,
        request: Request,
    },
    /// A reply was taken.
    Took {
        conn: u64,
        place: u64,
        reply: Reply,
    },
    /// A callback was taken.
    CbTook {
        conn: u64,
        place: u64,
        call: CbCall,
    },
    /// The reply to a callback was handed to a connection.
    CbPut {
        conn: u64,
        place: u64,
        reply: CbReply,
    },
    /// A connection was made.
    Dialed {
        conn: u64,
    },
    /// No connection could be made.
    DialFailed,
    Broke {
        conn: u64,
        cause: Cause,
    },
    /// The clock showed this moment.
    Ticked {
        moment: u64,
    },
    /// A command was answered.
    Answered {
        caller: u32,
        number: u64,
        answer: Answer,
    },
    /// No more commands come.
    Quit,
}

impl Clone for Event {
    ghost is_clone = { λ x y. y ≡ x };

    fn clone(&self) -> Result<Event, AllocError> {
        Ok(match self {
            Event::Began {
                caller,
                number,
                command,
                moment,
            } => Event::Began {
                caller: *caller,
                number: *number,
                command: command.clone()?,
                moment: *moment,
            },
            Event::Put {
                conn,
                place,
                request,
            } => Event::Put {
                conn: *conn,
                place: *place,
                request: request.clone()?,
            },
            Event::Took { conn, place, reply } => Event::Took {
                conn: *conn,
                place: *place,
                reply: reply.clone()?,
            },
            Event::CbTook { conn, place, call } => Event::CbTook {
                conn: *conn,
                place: *place,
                call: call.clone()?,
            },
            Event::CbPut { conn, place, reply } => Event::CbPut {
                conn: *conn,
                place: *place,
                reply: reply.clone()?,
            },
            Event::Dialed { conn } => Event::Dialed { conn: *conn },
            Event::DialFailed => Event::DialFailed,
            Event::Broke { conn, cause } => Event::Broke {
                conn: *conn,
                cause: *cause,
            },
            Event::Ticked { moment } => Event::Ticked { moment: *moment },
            Event::Answered {
                caller,
                number,
                answer,
            } => Event::Answered {
                caller: *caller,
                number: *number,
                answer: answer.clone()?,
            },
            Event::Quit => Event::Quit,
        })
    }
}
