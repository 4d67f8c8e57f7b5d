// Messages, each of the bytes of one word.
ghost use Rattle.std.specs.Prelude.{◌≡◌, ℕ, List, Ok, IfOk};
ghost use Rattle.n41_seen.specs.Calls.{call_at};
ghost use Rattle.n41_words.specs.Faults.{Gives};
ghost use Rattle.n41_journal_reader.specs.Messages.{reply_of, callback_of, callback_reply_of, seen, IsFoundIn};

use crate::lawful::request_is_lawful;
use n41_cbmsg::{read_answer, read_call};
use n41_compound::{CallSeen, read_reply, read_request, request_of};
use n41_results::{CbCall, CbReply, Reply};
use n41_types::{Bytes, NoMemory, Request};
use n41_words::{LineFault, LineKind, hex_bytes};
use std::alloc::{AllocError, Global};

/// The call that bytes are.
fn call_in(alloc: Global, bytes: &Bytes) -> Result<Option<CallSeen>, NoMemory>
    ensures { IfOk result (λ call. call ≡ seen (call_at bytes.now)) }
{
    match read_request(alloc, bytes.as_slice()) {
        Ok(call) => Ok(Some(call)),
        Err(n41_replies::MsgFault::NoMemory) => Err(AllocError),
        Err(_) => Ok(None),
    }
}

/// The request that a call is of.
fn request_in_call(alloc: Global, call: &CallSeen) -> Result<Option<Request>, NoMemory>
    ensures { IfOk result (λ found. (bytes : List ℕ) → call_at bytes ≡ Ok call.now → IsFoundIn bytes found) }
{
    let found = request_of(alloc, call)?;
    match found {
        Some(request) => {
            request_is_lawful(&request);
            Ok(Some(request))
        }
        None => Ok(None),
    }
}

/// The request of which bytes are a call.
pub(crate) fn request_in(alloc: Global, bytes: &Bytes) -> Result<Option<Request>, NoMemory>
    ensures { IfOk result (λ found. IsFoundIn bytes.now found) }
{
    let call = call_in(alloc, bytes)?;
    match call {
        Some(call) => request_in_call(alloc, &call),
        None => Ok(None),
    }
}

/// The reply that a word spells.
pub(crate) fn reply(alloc: Global, word: &[u8]) -> Result<Reply, LineFault>
    ensures { Gives result (reply_of word.now) }
{
    let bytes = hex_bytes(alloc, word)?;
    match read_reply(alloc, bytes.as_slice()) {
        Ok(reply) => Ok(reply),
        Err(n41_replies::MsgFault::NoMemory) => Err(LineFault::NoMemory),
        Err(_) => Err(LineFault::Kind(LineKind::Hex)),
    }
}

/// The callback that a word spells.
pub(crate) fn callback(alloc: Global, word: &[u8]) -> Result<CbCall, LineFault>
    ensures { Gives result (callback_of word.now) }
{
    let bytes = hex_bytes(alloc, word)?;
    match read_call(alloc, bytes.as_slice()) {
        Ok(call) => Ok(call),
        Err(n41_cbmsg::MsgFault::NoMemory) => Err(LineFault::NoMemory),
        Err(_) => Err(LineFault::Kind(LineKind::Hex)),
    }
}

/// The reply to a callback that a word spells.
pub(crate) fn callback_reply(alloc: Global, word: &[u8]) -> Result<CbReply, LineFault>
    ensures { Gives result (callback_reply_of word.now) }
{
    let bytes = hex_bytes(alloc, word)?;
    match read_answer(alloc, bytes.as_slice()) {
        Ok(reply) => Ok(reply),
        Err(n41_cbmsg::MsgFault::NoMemory) => Err(LineFault::NoMemory),
        Err(_) => Err(LineFault::Kind(LineKind::Hex)),
    }
}
