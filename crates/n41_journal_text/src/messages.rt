// What happened to a message. Each call adds it at the end of a text.
ghost use Rattle.std.specs.Prelude.{◌≡◌, ◌++◌, codes, OnOk};
ghost use Rattle.hex.specs.Hex.{IsBytes, encode_lower};
ghost use Rattle.n41_requests.specs.Requests as requests;
ghost use Rattle.n41_replies.specs.Replies as replies;
ghost use Rattle.n41_cbmsg.specs.Calls.{CallFits, written_call};
ghost use Rattle.n41_cbmsg.specs.Answers.{AnswerFits, written_answer};
ghost use Rattle.n41_journal_text.specs.Text.{message_text};

use crate::numbered::put_pair;
use crate::typed::are_bytes;
use n41_cbmsg::{spell_answer, spell_call};
use n41_replies::spell_reply;
use n41_report::put;
use n41_results::{CbCall, CbReply, Reply};
use n41_spell::spell;
use n41_types::{NoMemory, Request};
use std::alloc::Global;

/// Adds bytes in hexadecimal.
fn put_hex(alloc: Global, out: &mut Vec<u8>, bytes: &[u8]) -> Result<(), NoMemory>
    ensures { OnOk result (out.new.items ≡ out.old.items ++ encode_lower bytes.now) }
{
    let digits = hex::encode(alloc, bytes)?;
    put(out, digits.as_str())
}

fn put_message(
    alloc: Global,
    out: &mut Vec<u8>,
    what: &str,
    conn: u64,
    place: u64,
    bytes: &[u8],
) -> Result<(), NoMemory>
    ensures told { OnOk result (out.new.items ≡ out.old.items ++ message_text what.now conn place bytes.now) }
    ensures bytes { IsBytes bytes.now }
{
    are_bytes(bytes);
    put_pair(alloc, out, what, conn, place)?;
    put_hex(alloc, out, bytes)
}

pub(crate) fn put_request(
    alloc: Global,
    out: &mut Vec<u8>,
    conn: u64,
    place: u64,
    request: &Request,
) -> Result<(), NoMemory>
    requires { requests.IsSpellable request.now }
    ensures told { OnOk result (out.new.items ≡ out.old.items ++ message_text (codes "put") conn place (requests.spelled request.now)) }
    ensures bytes { OnOk result (IsBytes (requests.spelled request.now)) }
{
    let bytes = spell(alloc, request)?;
    put_message(alloc, out, "put", conn, place, bytes.as_slice())
}

pub(crate) fn put_reply(
    alloc: Global,
    out: &mut Vec<u8>,
    conn: u64,
    place: u64,
    reply: &Reply,
) -> Result<(), NoMemory>
    requires { replies.IsSpellable reply.now }
    ensures told { OnOk result (out.new.items ≡ out.old.items ++ message_text (codes "took") conn place (replies.written reply.now)) }
    ensures bytes { OnOk result (IsBytes (replies.written reply.now)) }
{
    let bytes = spell_reply(alloc, reply)?;
    put_message(alloc, out, "took", conn, place, bytes.as_slice())
}

/// Adds a callback that was taken.
pub(crate) fn put_callback(
    alloc: Global,
    out: &mut Vec<u8>,
    conn: u64,
    place: u64,
    call: &CbCall,
) -> Result<(), NoMemory>
    requires { CallFits call.now }
    ensures told { OnOk result (out.new.items ≡ out.old.items ++ message_text (codes "cbtook") conn place (written_call call.now)) }
    ensures bytes { OnOk result (IsBytes (written_call call.now)) }
{
    let bytes = spell_call(alloc, call)?;
    put_message(alloc, out, "cbtook", conn, place, bytes.as_slice())
}

/// Adds the reply to a callback.
pub(crate) fn put_callback_reply(
    alloc: Global,
    out: &mut Vec<u8>,
    conn: u64,
    place: u64,
    reply: &CbReply,
) -> Result<(), NoMemory>
    requires { AnswerFits reply.now }
    ensures told { OnOk result (out.new.items ≡ out.old.items ++ message_text (codes "cbput") conn place (written_answer reply.now)) }
    ensures bytes { OnOk result (IsBytes (written_answer reply.now)) }
{
    let bytes = spell_answer(alloc, reply)?;
    put_message(alloc, out, "cbput", conn, place, bytes.as_slice())
}
