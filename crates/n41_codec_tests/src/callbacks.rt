// Callbacks and the answers to them: cut at each byte, and with each byte changed.
ghost use Rattle.std.specs.Prelude.{◌<◌, length};

use crate::tests::with_other;
use n41_cbmsg::{read_answer, read_call, spell_answer, spell_call};
use n41_results::{CbCall, Tail};
use std::alloc::Global;

/// A callback with all four operations.
const WHOLE: &[u8] =
    b"\0\0\0\x01\0\0\0\0\0\0\0\x02@\0\0\0\0\0\0\x01\0\0\0\x01\0\0\0\0\0\0\0\0\0\0\0\0\0\0\0\0\0\0\0\0\0\0\0\x01\0\0\0\0\0\0\0\x04\0\0\0\x0b\0\x01\x02\x03\x04\x05\x06\x07\x08\x09\x0a\x0b\x0c\x0d\x0e\x0f\0\0\0\x01\0\0\0\0\0\0\0\x03\0\0\0\x01\0\0\0\x01\0\x01\x02\x03\x04\x05\x06\x07\x08\x09\x0a\x0b\x0c\x0d\x0e\x0f\0\0\0\x01\0\0\0\x05\0\0\0\x02\0\0\0\x04\0\0\0\x01abcdefghijkl\0\0\0\x01\0\0\0\x03abc\0\0\0\0\x08\0\0\0\x07\0\0\0\x01\0\0\0\x03\0\0\0\x0a\0\0\0\x02";

/// The answer to a CB_SEQUENCE and a CB_RECALL.
const RECALLED: &[u8] =
    b"\0\0\0\x09\0\0\0\x01\0\0\0\0\0\0\0\0\0\0\0\0\0\0\0\0\0\0\0\0\0\0\0\0\0\0\0\x02\0\0\0\x0b\0\0\0\0\0\x01\x02\x03\x04\x05\x06\x07\x08\x09\x0a\x0b\x0c\x0d\x0e\x0f\0\0\0\x01\0\0\0\0\0\0\0\x03\0\0\0\x03\0\0\0\x04\0\0\0\0";

/// A result of each operation: the first four of those that are served, the others of those that are not.
const RESULTS: &[u8] =
    b"\0\0\0\x07\0\0\0\x01\0\0\0\0\0\0\0\0\0\0\0\0\0\0\0\0\0\0'<\0\0\0\0\0\0\0\x0d\0\0\0\x04\0\0\0\0\0\0\0\x08\0\0\0\0\0\0\0\x0a\0\0'\x18\0\0\0\x0b\0\0'D\0\0\0\x03\0\0'\x14\0\0\0\x05\0\0'\x14\0\0\0\x06\0\0'\x14\0\0\0\x07\0\0'\x14\0\0\0\x09\0\0'\x14\0\0\0\x0c\0\0'\x14\0\0\0\x0d\0\0'\x14\0\0\0\x0e\0\0'\x14\0\0'<\0\0'<";

/// Whether the bytes are refused as an answer, or are those of the answer that is read.
fn is_answer_or_refused(alloc: Global, bytes: &[u8]) -> bool {
    match read_answer(alloc, bytes) {
        Ok(reply) => match spell_answer(alloc, &reply) {
            Ok(text) => text.as_slice() == bytes,
            Err(_) => false,
        },
        Err(_) => true,
    }
}

/// Whether bytes are read as this callback.
fn is_read_as(alloc: Global, bytes: &[u8], call: &CbCall) -> bool {
    match read_call(alloc, bytes) {
        Ok(read) => read == *call,
        Err(_) => false,
    }
}

/// Whether the bytes are refused as a callback, or what is read of them is written so that the same is read again.
fn is_call_or_refused(alloc: Global, bytes: &[u8]) -> bool {
    match read_call(alloc, bytes) {
        Ok(call) => match spell_call(alloc, &call) {
            Ok(text) => is_read_as(alloc, text.as_slice(), &call),
            Err(_) => false,
        },
        Err(_) => true,
    }
}

/// Whether no part that the bytes begin with is an answer, but for the first 24 bytes: they are the answer to a callback of the null procedure.
fn is_no_answer_where_cut(alloc: Global, bytes: &[u8]) -> bool {
    for end in 0..bytes.len() {
        if end != 24 && read_answer(alloc, &bytes[..end]).is_ok() {
            return false;
        }
    }
    true
}

/// Whether no part that the bytes begin with is a whole callback.
fn is_no_call_where_cut(alloc: Global, bytes: &[u8]) -> bool {
    for end in 0..bytes.len() {
        if let Ok(call) = read_call(alloc, &bytes[..end]) {
            if call.ops.tail == Tail::Whole {
                return false;
            }
        }
    }
    true
}

/// Whether the bytes with other bits at a place are refused, or are those of the answer that is read.
fn is_answer_with(alloc: Global, bytes: &[u8], place: usize, bits: u8) -> bool
    requires { place < length bytes.now }
{
    match with_other(alloc, bytes, place, bits) {
        Ok(other) => is_answer_or_refused(alloc, other.as_slice()),
        Err(_) => false,
    }
}

/// The same of each place, save those of the flavor of the verifier, which is not kept.
fn is_answer_with_any(alloc: Global, bytes: &[u8], bits: u8) -> bool {
    for place in 0..bytes.len() {
        if !(12..16).contains(&place) && !is_answer_with(alloc, bytes, place, bits) {
            return false;
        }
    }
    true
}

/// Whether the bytes with other bits at a place are refused as a callback, or are read as one that is written and read again.
fn is_call_with(alloc: Global, bytes: &[u8], place: usize, bits: u8) -> bool
    requires { place < length bytes.now }
{
    match with_other(alloc, bytes, place, bits) {
        Ok(other) => is_call_or_refused(alloc, other.as_slice()),
        Err(_) => false,
    }
}

fn is_call_with_any(alloc: Global, bytes: &[u8], bits: u8) -> bool {
    for place in 0..bytes.len() {
        if !is_call_with(alloc, bytes, place, bits) {
            return false;
        }
    }
    true
}

#[test]
fn no_part_of_a_callback_or_of_an_answer_is_whole(rt: HostRuntime) {
    let call = is_no_call_where_cut(rt.alloc(), WHOLE);
    assert!(rt; call);
    let recalled = is_no_answer_where_cut(rt.alloc(), RECALLED);
    assert!(rt; recalled);
    let results = is_no_answer_where_cut(rt.alloc(), RESULTS);
    assert!(rt; results);
}

#[test]
fn callbacks_and_answers_with_another_byte_are_spelled_so(rt: HostRuntime) {
    for bits in [0x00, 0x01, 0x80, 0xff] {
        let call = is_call_with_any(rt.alloc(), WHOLE, bits);
        assert!(rt; call);
        let recalled = is_answer_with_any(rt.alloc(), RECALLED, bits);
        assert!(rt; recalled);
        let results = is_answer_with_any(rt.alloc(), RESULTS, bits);
        assert!(rt; results);
    }
}
