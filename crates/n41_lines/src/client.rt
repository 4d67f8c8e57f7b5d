// What a client writes.
ghost use Rattle.std.specs.Prelude.{◌≡◌, ◌++◌, codes, map, OnOk, string_bytes};
ghost use Rattle.std.specs.List.{flat_map};
ghost use Rattle.n41_seen.specs.Calls as calls;
ghost use Rattle.n41_cbmsg.specs.Answers.{answer_at};
ghost use Rattle.n41_lines.specs.Lines.{numbers, arg_number, cb_res_text, begins, call_text, answer_text, answer_or_bad, of_client};

use crate::parts::{put_bad, put_begin, put_number, put_outcome, put_refusal, put_status};
use n41_args::Arg;
use n41_cbmsg::read_answer;
use n41_results::{CbBody, CbReply, CbRes};
use n41_seen::{CallSeen, SeenTail, read_request};
use n41_types::NoMemory;
use std::alloc::{AllocError, Global};

fn put_args(text: &mut String, list: &[Arg]) -> Result<(), NoMemory>
    ensures { OnOk result (string_bytes text.new ≡ string_bytes text.old ++ numbers (map arg_number list.now)) }
{
    for arg in list {
        put_number(text, arg.operation().number())?;
    }
    Ok(())
}

/// A call with the operations of its list.
fn put_listed(text: &mut String, xid: u32, list: &[Arg]) -> Result<(), NoMemory>
    ensures { OnOk result (string_bytes text.new ≡ string_bytes text.old ++ (begins (codes "call") xid ++ (codes " ops" ++ numbers (map arg_number list.now)))) }
{
    put_begin(text, "call", xid)?;
    text.push_str(" ops")?;
    put_args(text, list)
}

fn put_call(alloc: Global, text: &mut String, call: &CallSeen, bytes: &[u8]) -> Result<(), NoMemory>
    ensures { OnOk result (string_bytes text.new ≡ string_bytes text.old ++ call_text call.now.tail call.now bytes.now) }
{
    match call.tail {
        SeenTail::Whole => put_listed(text, call.xid, call.list.as_slice()),
        SeenTail::Unknown(number) | SeenTail::BadArgs(number) => {
            put_listed(text, call.xid, call.list.as_slice())?;
            put_number(text, number)
        }
        SeenTail::Garbage | SeenTail::Unread => put_bad(alloc, text, bytes),
    }
}

fn put_results(text: &mut String, list: &[CbRes]) -> Result<(), NoMemory>
    ensures { OnOk result (string_bytes text.new ≡ string_bytes text.old ++ flat_map cb_res_text list.now) }
{
    for outcome in list {
        put_outcome(text, outcome.number(), outcome.status().0)?;
    }
    Ok(())
}

fn put_answer(text: &mut String, answer: &CbReply) -> Result<(), NoMemory>
    ensures { OnOk result (string_bytes text.new ≡ string_bytes text.old ++ answer_text answer.now.xid answer.now.body) }
{
    match &answer.body {
        CbBody::NoProgram => put_refusal(text, "rejected", answer.xid, 1),
        CbBody::Mismatch => put_refusal(text, "rejected", answer.xid, 2),
        CbBody::NoProcedure => put_refusal(text, "rejected", answer.xid, 3),
        CbBody::Garbage => put_refusal(text, "rejected", answer.xid, 4),
        CbBody::Null => put_status(text, "cbreply", answer.xid, 0),
        CbBody::Results { status, list } => {
            put_status(text, "cbreply", answer.xid, status.0)?;
            put_results(text, list.as_slice())
        }
    }
}

fn put_answer_or_bad(alloc: Global, text: &mut String, bytes: &[u8]) -> Result<(), NoMemory>
    ensures { OnOk result (string_bytes text.new ≡ string_bytes text.old ++ answer_or_bad (answer_at bytes.now) bytes.now) }
{
    match read_answer(alloc, bytes) {
        Ok(answer) => put_answer(text, &answer),
        Err(n41_cbmsg::MsgFault::NoMemory) => Err(AllocError),
        Err(_) => put_bad(alloc, text, bytes),
    }
}

/// What a record of a client is.
pub(crate) fn put_of_client(alloc: Global, text: &mut String, bytes: &[u8]) -> Result<(), NoMemory>
    ensures { OnOk result (string_bytes text.new ≡ string_bytes text.old ++ of_client (calls.call_at bytes.now) bytes.now) }
{
    match read_request(alloc, bytes) {
        Ok(call) => put_call(alloc, text, &call, bytes),
        Err(n41_replies::MsgFault::NoMemory) => Err(AllocError),
        Err(_) => put_answer_or_bad(alloc, text, bytes),
    }
}
