use super::*;
use std::alloc::Global;
use std::process::Abort;

/// The record has this line, as the third one of this side.
fn see_line(rt: &impl Abort, alloc: Global, side: Side, record: &[u8], want: &str) {
    match line(alloc, side, 3, record) {
        Ok(text) => assert_eq!(rt; text.as_str(), want),
        Err(_) => assert_eq!(rt; record.len(), usize::MAX),
    }
}

/// A call with xid 9 of COMPOUND: PUTROOTFH and GETFH.
const CALL: &[u8] =
    b"\0\0\0\x09\0\0\0\0\0\0\0\x02\0\x01\x86\xa3\0\0\0\x04\0\0\0\x01\0\0\0\0\0\0\0\0\0\0\0\0\0\0\0\0\0\0\0\0\0\0\0\x01\0\0\0\x02\0\0\0\x18\0\0\0\x0a";

/// The same, where a third operation is told of: 99.
const UNKNOWN: &[u8] =
    b"\0\0\0\x09\0\0\0\0\0\0\0\x02\0\x01\x86\xa3\0\0\0\x04\0\0\0\x01\0\0\0\0\0\0\0\0\0\0\0\0\0\0\0\0\0\0\0\0\0\0\0\x01\0\0\0\x03\0\0\0\x18\0\0\0\x0a\0\0\0c";

/// A reply with xid 9: PUTROOTFH with OK, and GETFH with STALE.
const REPLY: &[u8] =
    b"\0\0\0\x09\0\0\0\x01\0\0\0\0\0\0\0\0\0\0\0\0\0\0\0\0\0\0\0\x46\0\0\0\0\0\0\0\x02\0\0\0\x18\0\0\0\0\0\0\0\x0a\0\0\0\x46";

/// A callback with xid 9: CB_RECALL_SLOT, and then the operation 3.
const CALLBACK: &[u8] =
    b"\0\0\0\x09\0\0\0\0\0\0\0\x02\x40\0\0\0\0\0\0\x01\0\0\0\x01\0\0\0\0\0\0\0\0\0\0\0\0\0\0\0\0\0\0\0\0\0\0\0\x01\0\0\0\0\0\0\0\x02\0\0\0\x0a\0\0\0\x05\0\0\0\x03";

/// An answer with xid 9: CB_RECALL_SLOT with OK, and CB_ILLEGAL with 10044.
const ANSWER: &[u8] =
    b"\0\0\0\x09\0\0\0\x01\0\0\0\0\0\0\0\0\0\0\0\0\0\0\0\0\0\0\x27\x3c\0\0\0\0\0\0\0\x02\0\0\0\x0a\0\0\0\0\0\0\x27\x3c\0\0\x27\x3c";

/// A head of a reply that was accepted, and no result.
const SUCCESS: &[u8] = b"\0\0\0\x09\0\0\0\x01\0\0\0\0\0\0\0\0\0\0\0\0\0\0\0\0";

/// PROG_MISMATCH, with the versions 3 and 4.
const MISMATCH: &[u8] =
    b"\0\0\0\x09\0\0\0\x01\0\0\0\0\0\0\0\0\0\0\0\0\0\0\0\x02\0\0\0\x03\0\0\0\x04";

/// AUTH_ERROR, with the number 13.
const DENIED: &[u8] = b"\0\0\0\x09\0\0\0\x01\0\0\0\x01\0\0\0\x01\0\0\0\x0d";

/// A call of the null procedure.
const NULL: &[u8] =
    b"\0\0\0\x09\0\0\0\0\0\0\0\x02\0\x01\x86\xa3\0\0\0\x04\0\0\0\0\0\0\0\0\0\0\0\0\0\0\0\0\0\0\0\0";

#[test]
fn calls_have_their_lines(rt: HostRuntime) {
    let alloc = rt.alloc();
    see_line(&rt, alloc, Side::Client, CALL, "3 call xid 9 ops 24 10\n");
    see_line(
        &rt,
        alloc,
        Side::Client,
        UNKNOWN,
        "3 call xid 9 ops 24 10 99\n",
    );
    see_line(
        &rt,
        alloc,
        Side::Server,
        CALLBACK,
        "3 callback xid 9 ops 10 3\n",
    );
}

#[test]
fn replies_have_their_lines(rt: HostRuntime) {
    let alloc = rt.alloc();
    see_line(
        &rt,
        alloc,
        Side::Server,
        REPLY,
        "3 reply xid 9 status 70 ops 24:0 10:70\n",
    );
    see_line(
        &rt,
        alloc,
        Side::Client,
        ANSWER,
        "3 cbreply xid 9 status 10044 ops 10:0 10044:10044\n",
    );
    see_line(
        &rt,
        alloc,
        Side::Client,
        SUCCESS,
        "3 cbreply xid 9 status 0 ops\n",
    );
}

#[test]
fn refusals_have_their_lines(rt: HostRuntime) {
    let alloc = rt.alloc();
    see_line(&rt, alloc, Side::Server, MISMATCH, "3 rejected xid 9 2\n");
    see_line(&rt, alloc, Side::Client, MISMATCH, "3 rejected xid 9 2\n");
    see_line(&rt, alloc, Side::Server, DENIED, "3 denied xid 9 1\n");
}

#[test]
fn what_is_no_message_is_bad(rt: HostRuntime) {
    let alloc = rt.alloc();
    see_line(&rt, alloc, Side::Client, b"", "3 bad -\n");
    see_line(&rt, alloc, Side::Server, b"\0\x0a\xff", "3 bad 000aff\n");
    see_line(
        &rt,
        alloc,
        Side::Client,
        DENIED,
        "3 bad 000000090000000100000001000000010000000d\n",
    );
    see_line(
        &rt,
        alloc,
        Side::Client,
        NULL,
        "3 bad 000000090000000000000002000186a3000000040000000000000000000000000000000000000000\n",
    );
}

fn see_last(rt: &impl Abort, alloc: Global, last: Last, want: &str) {
    match last_line(alloc, last) {
        Ok(text) => assert_eq!(rt; text.as_str(), want),
        Err(_) => assert_eq!(rt; want.len(), usize::MAX),
    }
}

#[test]
fn last_lines(rt: HostRuntime) {
    let alloc = rt.alloc();
    see_last(&rt, alloc, Last::Rest(17), "rest 17\n");
    see_last(&rt, alloc, Last::Long, "stop long\n");
    see_last(&rt, alloc, Last::Many, "stop many\n");
}
