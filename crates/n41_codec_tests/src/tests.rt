ghost use Rattle.std.specs.Prelude.{◌<◌, length};
ghost use Rattle.n41_args.specs.Args.{told_arg, written_arg};
ghost use Rattle.n41_replies.specs.Replies as replies;
ghost use Rattle.n41_requests.specs.Requests.{IsSpellable};

use n41_args::{Arg, read_arg, write_arg};
use n41_compound::{CallSeen, SeenTail, read_reply, read_request, request_of, spell, spell_reply};
use n41_results::Reply;
use n41_types::{Plan, Request};
use n41_xdr::{Reader, Writer};
use std::alloc::{AllocError, Global};

/// Each operation with its arguments.
const OPERATIONS: [&[u8]; 33] = [
    // CLOSE.
    b"\0\0\0\x04\0\0\0\0\0\0\0\x01open-stateid",
    // COMMIT.
    b"\0\0\0\x05\0\0\0\0\0\0\0\x07\0\0\0\t",
    // CREATE of a directory.
    b"\0\0\0\x06\0\0\0\x02\0\0\0\x01d\0\0\0\0\0\0\x02\0\0\0\0\0\0\0\x02\0\0\0\x04\0\0\x01\xed",
    // DELEGRETURN.
    b"\0\0\0\x08\0\0\0\x01open-stateid",
    // GETATTR.
    b"\0\0\0\t\0\0\0\x02\0\x10\0\x1a\0\0\0\x02",
    // GETFH.
    b"\0\0\0\n",
    // LOCK by an owner that is new.
    b"\0\0\0\x0c\0\0\0\x02\0\0\0\0\0\0\0\0\0\0\0\x01\xff\xff\xff\xff\xff\xff\xff\xff\0\0\0\x01\0\0\0\0\0\0\0\x01open-stateid\0\0\0\0\0\0\0\0\0\0\0\0\0\0\0\x01o\0\0\0",
    // LOCK by a lock stateid.
    b"\0\0\0\x0c\0\0\0\x01\0\0\0\x01\0\0\0\0\0\0\0\x01\0\0\0\0\0\0\0\x02\0\0\0\0\0\0\0\x02lock-stateid\0\0\0\0",
    // LOCKT.
    b"\0\0\0\r\0\0\0\x01\0\0\0\0\0\0\0\x01\0\0\0\0\0\0\0\x02\0\0\0\0\0\0\0\0\0\0\0\x01o\0\0\0",
    // LOCKU.
    b"\0\0\0\x0e\0\0\0\x02\0\0\0\0\0\0\0\x02lock-stateid\0\0\0\0\0\0\0\x01\0\0\0\0\0\0\0\x02",
    // LOOKUP.
    b"\0\0\0\x0f\0\0\0\x04name",
    // OPEN of a file that is made.
    b"\0\0\0\x12\0\0\0\0\0\0\0\x03\0\0\0\0\0\0\0\0\0\0\0\0\0\0\0\x01o\0\0\0\0\0\0\x01\0\0\0\x01\0\0\0\x02\0\0\0\0\0\0\0\x02\0\0\0\x04\0\0\x01\xed\0\0\0\0\0\0\0\x01f\0\0\0",
    // OPEN of a file that is there.
    b"\0\0\0\x12\0\0\0\0\0\0\0\x01\0\0\0\0\0\0\0\0\0\0\0\0\0\0\0\x01o\0\0\0\0\0\0\0\0\0\0\x04",
    // OPEN_DOWNGRADE.
    b"\0\0\0\x15\0\0\0\x01open-stateid\0\0\0\0\0\0\0\x01\0\0\0\0",
    // PUTFH.
    b"\0\0\0\x16\0\0\0\x06handle\0\0",
    // PUTROOTFH.
    b"\0\0\0\x18",
    // READ.
    b"\0\0\0\x19\0\0\0\x01open-stateid\0\0\0\0\0\0\0\x03\0\0\0\x04",
    // READDIR.
    b"\0\0\0\x1a\0\0\0\0\0\0\0\0verifier\0\0\x02\0\0\0\x02\0\0\0\0\0",
    // REMOVE.
    b"\0\0\0\x1c\0\0\0\x04name",
    // RENAME.
    b"\0\0\0\x1d\0\0\0\x03old\0\0\0\0\x03new\0",
    // SAVEFH.
    b"\0\0\0 ",
    // SETATTR.
    b"\0\0\0\"\0\0\0\x01open-stateid\0\0\0\x01\0\0\0\x10\0\0\0\x08\0\0\0\0\0\0\0\t",
    // WRITE.
    b"\0\0\0&\0\0\0\x01open-stateid\0\0\0\0\0\0\0\x03\0\0\0\x02\0\0\0\x05bytes\0\0\0",
    // BIND_CONN_TO_SESSION.
    b"\0\0\0)\0\x01\x02\x03\x04\x05\x06\x07\x08\t\n\x0b\x0c\r\x0e\x0f\0\0\0\x01\0\0\0\0",
    // EXCHANGE_ID.
    b"\0\0\0*verifier\0\0\0\x03n41\0\0\0\0\0\0\0\0\0\0\0\0\0",
    // CREATE_SESSION.
    b"\0\0\0+\0\0\0\0\0\0\0\x07\0\0\0\x01\0\0\0\0\0\0\0\0\0\x01\x10\0\0\x01\x10\0\0\0\x10\0\0\0\0 \0\0\0@\0\0\0\0\0\0\0\0\0\x01\x10\0\0\x01\x10\0\0\0\x10\0\0\0\0 \0\0\0@\0\0\0\0@\0\0\0\0\0\0\x01\0\0\0\0",
    // DESTROY_SESSION.
    b"\0\0\0,\0\x01\x02\x03\x04\x05\x06\x07\x08\t\n\x0b\x0c\r\x0e\x0f",
    // FREE_STATEID.
    b"\0\0\0-\0\0\0\x01open-stateid",
    // SEQUENCE.
    b"\0\0\05\0\x01\x02\x03\x04\x05\x06\x07\x08\t\n\x0b\x0c\r\x0e\x0f\0\0\0\x01\0\0\0\0\0\0\0\0\0\0\0\x01",
    // TEST_STATEID.
    b"\0\0\07\0\0\0\x02\0\0\0\x01open-stateid\0\0\0\x02lock-stateid",
    // DESTROY_CLIENTID.
    b"\0\0\09\0\0\0\0\0\0\0\x07",
    // RECLAIM_COMPLETE.
    b"\0\0\0:\0\0\0\0",
    // ILLEGAL.
    b"\0\0'<",
];

/// An EXCHANGE_ID of the owner `n41` with verifier 5.
const EXCHANGE: &[u8] =
    b"\0\0\0\x01\0\0\0\0\0\0\0\x02\0\x01\x86\xa3\0\0\0\x04\0\0\0\x01\0\0\0\x01\0\0\0\x18\0\0\0\0\0\0\0\x03n41\0\0\0\x03\xe8\0\0\x03\xe8\0\0\0\0\0\0\0\0\0\0\0\0\0\0\0\0\0\0\0\x01\0\0\0\x01\0\0\0*\0\0\0\0\0\0\0\x05\0\0\0\x03n41\0\0\0\0\0\0\0\0\0\0\0\0\0";

/// A look at the root, behind the first SEQUENCE of slot 0.
const LOOK: &[u8] =
    b"\0\0\0\x05\0\0\0\0\0\0\0\x02\0\x01\x86\xa3\0\0\0\x04\0\0\0\x01\0\0\0\x01\0\0\0\x18\0\0\0\0\0\0\0\x03n41\0\0\0\x03\xe8\0\0\x03\xe8\0\0\0\0\0\0\0\0\0\0\0\0\0\0\0\0\0\0\0\x01\0\0\0\x03\0\0\x005\0\x01\x02\x03\x04\x05\x06\x07\x08\t\n\x0b\x0c\r\x0e\x0f\0\0\0\x01\0\0\0\0\0\0\0\0\0\0\0\0\0\0\0\x18\0\0\0\t\0\0\0\x02\0\x10\0\x1a\0\0\0\x02";

/// What a server answers to an EXCHANGE_ID: client 7, sequence 1, and the major id and the scope `srv`.
const EXCHANGED: &[u8] =
    b"\0\0\0\x01\0\0\0\x01\0\0\0\0\0\0\0\0\0\0\0\0\0\0\0\0\0\0\0\0\0\0\0\0\0\0\0\x01\0\0\0*\0\0\0\0\0\0\0\0\0\0\0\x07\0\0\0\x01\0\x01\0\0\0\0\0\0\0\0\0\0\0\0\0\0\0\0\0\x03srv\0\0\0\0\x03srv\0\0\0\0\0";

/// Whether these bytes are what is written of an operation.
fn is_written(alloc: Global, arg: &Arg, want: &[u8]) -> bool
    requires { told_arg.Fits (written_arg arg.now) }
{
    let mut writer = Writer::new(alloc);
    match write_arg(&mut writer, arg) {
        Ok(()) => writer.as_slice() == want,
        Err(_) => false,
    }
}

/// Whether the bytes are read as an operation, of which the same bytes are written.
#[tactic(auto, using(crate::proofs::Again::read_fits))]
fn is_same(alloc: Global, bytes: &[u8]) -> bool {
    let mut reader = Reader::new(bytes);
    match read_arg(alloc, &mut reader) {
        Ok(arg) => reader.is_empty() && is_written(alloc, &arg, bytes),
        Err(_) => false,
    }
}

/// Whether no operation can be read of the bytes, and none of them is taken.
fn is_refused(alloc: Global, bytes: &[u8]) -> bool {
    let mut reader = Reader::new(bytes);
    let refused = read_arg(alloc, &mut reader).is_err();
    refused && reader.len() == bytes.len()
}

/// Whether no operation can be read of any part that the bytes begin with.
fn is_refused_where_cut(alloc: Global, bytes: &[u8]) -> bool {
    for end in 0..bytes.len() {
        if !is_refused(alloc, &bytes[..end]) {
            return false;
        }
    }
    true
}

#[test]
fn operations_are_read_and_written(rt: HostRuntime) {
    for bytes in OPERATIONS {
        let same = is_same(rt.alloc(), bytes);
        assert!(rt; same);
    }
}

#[test]
fn operations_are_refused_where_they_are_cut(rt: HostRuntime) {
    for bytes in OPERATIONS {
        let refused = is_refused_where_cut(rt.alloc(), bytes);
        assert!(rt; refused);
    }
}

/// The bytes with other bits at a place.
pub(crate) fn with_other(
    alloc: Global,
    bytes: &[u8],
    place: usize,
    bits: u8,
) -> Result<Vec<u8>, AllocError>
    requires { place < length bytes.now }
{
    let mut all = Vec::new(alloc);
    all.extend_from_slice(&bytes[..place])?;
    all.push(bytes[place] ^ bits)?;
    all.extend_from_slice(&bytes[place + 1..])?;
    Ok(all)
}

/// Whether a whole call of COMPOUND is read.
fn is_whole(alloc: Global, bytes: &[u8]) -> bool {
    match read_request(alloc, bytes) {
        Ok(call) => call.tail == SeenTail::Whole,
        Err(_) => false,
    }
}

/// Whether no part that the bytes begin with is a whole call.
fn is_no_call_where_cut(alloc: Global, bytes: &[u8]) -> bool {
    for end in 0..bytes.len() {
        if is_whole(alloc, &bytes[..end]) {
            return false;
        }
    }
    true
}

/// Whether these are the bytes of a request.
fn is_text(alloc: Global, q: &Request, bytes: &[u8]) -> bool
    requires { IsSpellable q.now }
{
    match spell(alloc, q) {
        Ok(text) => text.as_slice() == bytes,
        Err(_) => false,
    }
}

/// Whether this is a look or an exchange, and is spelled so.
fn is_spelled(alloc: Global, q: &Request, bytes: &[u8]) -> bool {
    match &q.plan {
        Plan::Stat { .. } => is_text(alloc, q, bytes),
        Plan::ExchangeId { owner, .. } => owner.len() <= 1024 && is_text(alloc, q, bytes),
        _ => false,
    }
}

/// Whether the request of a call, where it has one, is spelled so.
fn request_is_spelled(alloc: Global, call: &CallSeen, bytes: &[u8]) -> bool {
    match request_of(alloc, call) {
        Ok(Some(q)) => is_spelled(alloc, &q, bytes),
        Ok(None) => true,
        Err(_) => false,
    }
}

/// Whether the bytes are those of a request, or of none.
fn is_request_or_none(alloc: Global, bytes: &[u8]) -> bool {
    match read_request(alloc, bytes) {
        Ok(call) => request_is_spelled(alloc, &call, bytes),
        Err(_) => true,
    }
}

/// The same of bytes with other bits at a place.
fn is_request_with(alloc: Global, bytes: &[u8], place: usize, bits: u8) -> bool
    requires { place < length bytes.now }
{
    match with_other(alloc, bytes, place, bits) {
        Ok(other) => is_request_or_none(alloc, other.as_slice()),
        Err(_) => false,
    }
}

/// The same of each place, save those of the flavor of the verifier, which is not kept.
fn is_request_with_any(alloc: Global, bytes: &[u8], bits: u8) -> bool {
    for place in 0..bytes.len() {
        if !(56..60).contains(&place) && !is_request_with(alloc, bytes, place, bits) {
            return false;
        }
    }
    true
}

#[test]
fn no_part_of_a_call_is_whole(rt: HostRuntime) {
    let exchange = is_no_call_where_cut(rt.alloc(), EXCHANGE);
    assert!(rt; exchange);
    let look = is_no_call_where_cut(rt.alloc(), LOOK);
    assert!(rt; look);
}

#[test]
fn calls_with_another_byte_are_those_of_their_requests(rt: HostRuntime) {
    for bits in [0x00, 0x01, 0x80, 0xff] {
        let exchange = is_request_with_any(rt.alloc(), EXCHANGE, bits);
        assert!(rt; exchange);
        let look = is_request_with_any(rt.alloc(), LOOK, bits);
        assert!(rt; look);
    }
}

/// Whether a reply is spelled so.
fn reply_is_spelled(alloc: Global, reply: &Reply, bytes: &[u8]) -> bool
    requires { replies.IsSpellable reply.now }
{
    match spell_reply(alloc, reply) {
        Ok(text) => text.as_slice() == bytes,
        Err(_) => false,
    }
}

/// Whether the bytes are refused, or are those of the reply that is read.
#[tactic(auto, using(crate::proofs::Answered::reply_fits))]
fn is_reply_or_refused(alloc: Global, bytes: &[u8]) -> bool {
    match read_reply(alloc, bytes) {
        Ok(reply) => reply_is_spelled(alloc, &reply, bytes),
        Err(_) => true,
    }
}

/// Whether no part that the bytes begin with is a reply.
fn is_no_reply_where_cut(alloc: Global, bytes: &[u8]) -> bool {
    for end in 0..bytes.len() {
        if read_reply(alloc, &bytes[..end]).is_ok() {
            return false;
        }
    }
    true
}

/// Whether the bytes with other bits at a place are refused, or are those of the reply that is read.
fn is_reply_with(alloc: Global, bytes: &[u8], place: usize, bits: u8) -> bool
    requires { place < length bytes.now }
{
    match with_other(alloc, bytes, place, bits) {
        Ok(other) => is_reply_or_refused(alloc, other.as_slice()),
        Err(_) => false,
    }
}

/// The same of each place, save those of the flavor of the verifier, which is not kept.
fn is_reply_with_any(alloc: Global, bytes: &[u8], bits: u8) -> bool {
    for place in 0..bytes.len() {
        if !(12..16).contains(&place) && !is_reply_with(alloc, bytes, place, bits) {
            return false;
        }
    }
    true
}

#[test]
fn no_part_of_a_reply_is_one(rt: HostRuntime) {
    let refused = is_no_reply_where_cut(rt.alloc(), EXCHANGED);
    assert!(rt; refused);
}

#[test]
fn replies_with_another_byte_are_spelled_so(rt: HostRuntime) {
    for bits in [0x00, 0x01, 0x80, 0xff] {
        let same = is_reply_with_any(rt.alloc(), EXCHANGED, bits);
        assert!(rt; same);
    }
}
