use super::*;
use n41_args::{Arg, ExchangeIdArgs};
use n41_replies::MsgFault;
use n41_rpc::RpcFault;
use n41_types::{Bytes, NoMemory};
use std::alloc::Global;
use std::process::Abort;
use std::test::Fail;

/// A call with xid 1 of a COMPOUND that is one EXCHANGE_ID, with verifier 5 and owner `n41`.
const EXCHANGE: &[u8] =
    b"\0\0\0\x01\0\0\0\0\0\0\0\x02\0\x01\x86\xa3\0\0\0\x04\0\0\0\x01\0\0\0\x01\0\0\0\x18\0\0\0\0\0\0\0\x03n41\0\0\0\x03\xe8\0\0\x03\xe8\0\0\0\0\0\0\0\0\0\0\0\0\0\0\0\0\0\0\0\x01\0\0\0\x01\0\0\0*\0\0\0\0\0\0\0\x05\0\0\0\x03n41\0\0\0\0\0\0\0\0\0\0\0\0\0";

/// A call of another program, with bytes behind its head.
const OTHER_PROGRAM: &[u8] =
    b"\0\0\0\x01\0\0\0\0\0\0\0\x02\0\x01\x86\xa0\0\0\0\x04\0\0\0\x01\0\0\0\0\0\0\0\0\0\0\0\0\0\0\0\0\0\0\0\x07";

/// A call of version 3.
const OTHER_VERSION: &[u8] =
    b"\0\0\0\x01\0\0\0\0\0\0\0\x02\0\x01\x86\xa3\0\0\0\x03\0\0\0\x01\0\0\0\0\0\0\0\0\0\0\0\0\0\0\0\0";

/// A call of the null procedure.
const NULL: &[u8] =
    b"\0\0\0\x01\0\0\0\0\0\0\0\x02\0\x01\x86\xa3\0\0\0\x04\0\0\0\0\0\0\0\0\0\0\0\0\0\0\0\0\0\0\0\0";

/// PUTROOTFH, and then the operation 99, behind which nothing is read.
const UNKNOWN: &[u8] =
    b"\0\0\0\x01\0\0\0\0\0\0\0\x02\0\x01\x86\xa3\0\0\0\x04\0\0\0\x01\0\0\0\0\0\0\0\0\0\0\0\0\0\0\0\0\0\0\0\0\0\0\0\x01\0\0\0\x03\0\0\0\x18\0\0\0c\x01";

/// PUTROOTFH, and then RECLAIM_COMPLETE with the bool 2, behind which there is GETFH.
const BAD_BOOL: &[u8] =
    b"\0\0\0\x01\0\0\0\0\0\0\0\x02\0\x01\x86\xa3\0\0\0\x04\0\0\0\x01\0\0\0\0\0\0\0\0\0\0\0\0\0\0\0\0\0\0\0\0\0\0\0\x01\0\0\0\x03\0\0\0\x18\0\0\0:\0\0\0\x02\0\0\0\x0a";

/// PUTROOTFH, with a byte behind it.
const LEFT: &[u8] =
    b"\0\0\0\x01\0\0\0\0\0\0\0\x02\0\x01\x86\xa3\0\0\0\x04\0\0\0\x01\0\0\0\0\0\0\0\0\0\0\0\0\0\0\0\0\0\0\0\0\0\0\0\x01\0\0\0\x01\0\0\0\x18\0";

/// PUTROOTFH, where 4,294,967,295 operations are told of.
const CUT: &[u8] =
    b"\0\0\0\x01\0\0\0\0\0\0\0\x02\0\x01\x86\xa3\0\0\0\x04\0\0\0\x01\0\0\0\0\0\0\0\0\0\0\0\0\0\0\0\0\0\0\0\0\0\0\0\x01\xff\xff\xff\xff\0\0\0\x18";

/// The head of a reply.
const REPLY: &[u8] = b"\0\0\0\x01\0\0\0\x01\0\0\0\0\0\0\0\0\0\0\0\0\0\0\0\0";

fn exchange(alloc: Global) -> Result<Arg, NoMemory> {
    Ok(Arg::ExchangeId(ExchangeIdArgs {
        verifier: [0, 0, 0, 0, 0, 0, 0, 5],
        owner: Bytes::copy_from_slice(alloc, b"n41")?,
        flags: 0,
        implementation: None,
    }))
}

/// A call of COMPOUND is read, with this minor version, so many operations and this tail.
fn see_call(
    rt: &impl Abort,
    alloc: Global,
    bytes: &[u8],
    minor: u32,
    count: usize,
    tail: SeenTail,
) {
    match read_request(alloc, bytes) {
        Ok(call) => {
            assert_eq!(rt; call.xid, 1);
            assert_eq!(rt; call.minor, minor);
            assert_eq!(rt; call.list.len(), count);
            assert_eq!(rt; call.tail, tail);
        }
        Err(fault) => assert_eq!(rt; fault, MsgFault::Left(bytes.len())),
    }
}

#[test]
fn an_exchange_is_read(rt: HostRuntime) -> Result<(), Fail> {
    let alloc = rt.alloc();
    see_call(&rt, alloc, EXCHANGE, 1, 1, SeenTail::Whole);
    let want = exchange(alloc)?;
    match read_request(alloc, EXCHANGE) {
        Ok(call) => {
            assert_eq!(rt; call.cred.flavor, 1);
            assert_eq!(rt; call.cred.body.len(), 24);
            let copy = call.clone()?;
            assert!(rt; copy.list.as_slice() == [want].as_slice());
        }
        Err(fault) => assert_eq!(rt; fault, MsgFault::Left(EXCHANGE.len())),
    }
    Ok(())
}

#[test]
fn tails_tell_what_is_not_read(rt: HostRuntime) {
    let alloc = rt.alloc();
    see_call(&rt, alloc, OTHER_PROGRAM, 0, 0, SeenTail::Unread);
    see_call(&rt, alloc, OTHER_VERSION, 0, 0, SeenTail::Unread);
    see_call(&rt, alloc, NULL, 0, 0, SeenTail::Unread);
    see_call(&rt, alloc, UNKNOWN, 1, 1, SeenTail::Unknown(99));
    see_call(&rt, alloc, BAD_BOOL, 1, 1, SeenTail::BadArgs(58));
    see_call(&rt, alloc, LEFT, 0, 0, SeenTail::Garbage);
    see_call(&rt, alloc, CUT, 0, 0, SeenTail::Garbage);
    match read_request(alloc, REPLY) {
        Ok(_) => assert_eq!(rt; REPLY.len(), 0),
        Err(fault) => assert_eq!(rt; fault, MsgFault::Rpc(RpcFault::BadKind(1))),
    }
}
