// What a server writes.
ghost use Rattle.std.specs.Prelude.{◌≡◌, ◌++◌, codes, map, OnOk, string_bytes};
ghost use Rattle.std.specs.List.{flat_map};
ghost use Rattle.n41_replies.specs.Replies.{reply_at};
ghost use Rattle.n41_cbmsg.specs.Calls as callbacks;
ghost use Rattle.n41_lines.specs.Lines.{numbers, cb_arg_number, res_text, begins, callback_text, reply_text, callback_or_bad, of_server};

use crate::parts::{put_bad, put_begin, put_number, put_outcome, put_refusal, put_status};
use n41_cbmsg::read_call;
use n41_replies::read_reply;
use n41_results::{CbArg, CbCall, Reply, ReplyBody, Res, Tail};
use n41_types::NoMemory;
use std::alloc::{AllocError, Global};

fn cb_arg_number(arg: &CbArg) -> u32
    ensures { result ≡ cb_arg_number arg.now }
{
    match arg {
        CbArg::Recall(_) => 4,
        CbArg::RecallAny(_) => 8,
        CbArg::RecallSlot(_) => 10,
        CbArg::Sequence(_) => 11,
    }
}

fn put_args(text: &mut String, list: &[CbArg]) -> Result<(), NoMemory>
    ensures { OnOk result (string_bytes text.new ≡ string_bytes text.old ++ numbers (map cb_arg_number list.now)) }
{
    for arg in list {
        put_number(text, cb_arg_number(arg))?;
    }
    Ok(())
}

/// A callback with the operations of its list.
fn put_listed(text: &mut String, xid: u32, list: &[CbArg]) -> Result<(), NoMemory>
    ensures { OnOk result (string_bytes text.new ≡ string_bytes text.old ++ (begins (codes "callback") xid ++ (codes " ops" ++ numbers (map cb_arg_number list.now)))) }
{
    put_begin(text, "callback", xid)?;
    text.push_str(" ops")?;
    put_args(text, list)
}

fn put_callback(
    alloc: Global,
    text: &mut String,
    call: &CbCall,
    bytes: &[u8],
) -> Result<(), NoMemory>
    ensures { OnOk result (string_bytes text.new ≡ string_bytes text.old ++ callback_text call.now.ops.tail call.now bytes.now) }
{
    match call.ops.tail {
        Tail::Whole => put_listed(text, call.xid, call.ops.list.as_slice()),
        Tail::Unknown(number) => {
            put_listed(text, call.xid, call.ops.list.as_slice())?;
            put_number(text, number)
        }
        Tail::Garbage | Tail::Unread => put_bad(alloc, text, bytes),
    }
}

fn put_results(text: &mut String, list: &[Res]) -> Result<(), NoMemory>
    ensures { OnOk result (string_bytes text.new ≡ string_bytes text.old ++ flat_map res_text list.now) }
{
    for outcome in list {
        put_outcome(text, outcome.operation().number(), outcome.status().0)?;
    }
    Ok(())
}

fn put_reply(text: &mut String, reply: &Reply) -> Result<(), NoMemory>
    ensures { OnOk result (string_bytes text.new ≡ string_bytes text.old ++ reply_text reply.now.xid reply.now.body) }
{
    match &reply.body {
        ReplyBody::Denied(number) => put_refusal(text, "denied", reply.xid, *number),
        ReplyBody::Rejected(number) => put_refusal(text, "rejected", reply.xid, *number),
        ReplyBody::Results { status, list } => {
            put_status(text, "reply", reply.xid, status.0)?;
            put_results(text, list.as_slice())
        }
    }
}

fn put_callback_or_bad(alloc: Global, text: &mut String, bytes: &[u8]) -> Result<(), NoMemory>
    ensures { OnOk result (string_bytes text.new ≡ string_bytes text.old ++ callback_or_bad (callbacks.call_at bytes.now) bytes.now) }
{
    match read_call(alloc, bytes) {
        Ok(call) => put_callback(alloc, text, &call, bytes),
        Err(n41_cbmsg::MsgFault::NoMemory) => Err(AllocError),
        Err(_) => put_bad(alloc, text, bytes),
    }
}

/// What a record of a server is.
pub(crate) fn put_of_server(alloc: Global, text: &mut String, bytes: &[u8]) -> Result<(), NoMemory>
    ensures { OnOk result (string_bytes text.new ≡ string_bytes text.old ++ of_server (reply_at bytes.now) bytes.now) }
{
    match read_reply(alloc, bytes) {
        Ok(reply) => put_reply(text, &reply),
        Err(n41_replies::MsgFault::NoMemory) => Err(AllocError),
        Err(_) => put_callback_or_bad(alloc, text, bytes),
    }
}
