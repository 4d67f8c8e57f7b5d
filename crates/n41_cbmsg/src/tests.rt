use super::*;
use n41_results::{CbBody, CbReply, CbRes, CbResults, Sequenced, Tail};
use n41_rpc::RpcFault;
use n41_types::{NoMemory, SessionId, Status};
use n41_xdr::XdrFault;
use std::alloc::Global;
use std::process::Abort;
use std::test::Fail;

/// The answer to a CB_SEQUENCE and a CB_RECALL, with xid 9.
const RECALLED: &[u8] =
    b"\0\0\0\x09\0\0\0\x01\0\0\0\0\0\0\0\0\0\0\0\0\0\0\0\0\0\0\0\0\0\0\0\0\0\0\0\x02\0\0\0\x0b\0\0\0\0\0\x01\x02\x03\x04\x05\x06\x07\x08\x09\x0a\x0b\x0c\x0d\x0e\x0f\0\0\0\x01\0\0\0\0\0\0\0\x03\0\0\0\x03\0\0\0\x04\0\0\0\0";

/// A callback with all four operations.
const WHOLE: &[u8] =
    b"\0\0\0\x01\0\0\0\0\0\0\0\x02@\0\0\0\0\0\0\x01\0\0\0\x01\0\0\0\0\0\0\0\0\0\0\0\0\0\0\0\0\0\0\0\0\0\0\0\x01\0\0\0\0\0\0\0\x04\0\0\0\x0b\0\x01\x02\x03\x04\x05\x06\x07\x08\x09\x0a\x0b\x0c\x0d\x0e\x0f\0\0\0\x01\0\0\0\0\0\0\0\x03\0\0\0\x01\0\0\0\x01\0\x01\x02\x03\x04\x05\x06\x07\x08\x09\x0a\x0b\x0c\x0d\x0e\x0f\0\0\0\x01\0\0\0\x05\0\0\0\x02\0\0\0\x04\0\0\0\x01abcdefghijkl\0\0\0\x01\0\0\0\x03abc\0\0\0\0\x08\0\0\0\x07\0\0\0\x01\0\0\0\x03\0\0\0\x0a\0\0\0\x02";

/// A CB_RECALL, and then operation 6, with the arguments of which nothing is done.
const UNSERVED: &[u8] =
    b"\0\0\0\x01\0\0\0\0\0\0\0\x02@\0\0\0\0\0\0\x01\0\0\0\x01\0\0\0\0\0\0\0\0\0\0\0\0\0\0\0\0\0\0\0\0\0\0\0\x01\0\0\0\0\0\0\0\x02\0\0\0\x04\0\0\0\x01abcdefghijkl\0\0\0\x01\0\0\0\x03abc\0\0\0\0\x06";

/// The head of a CB_COMPOUND.
const HEAD: &[u8] =
    b"\0\0\0\x01\0\0\0\0\0\0\0\x02@\0\0\0\0\0\0\x01\0\0\0\x01\0\0\0\0\0\0\0\0\0\0\0\0\0\0\0\0";

/// A call of the null procedure.
const NULL: &[u8] =
    b"\0\0\0\x01\0\0\0\0\0\0\0\x02@\0\0\0\0\0\0\x01\0\0\0\0\0\0\0\0\0\0\0\0\0\0\0\0\0\0\0\0";

/// An answer is read, and written as the same bytes.
fn see_answer(rt: &impl Abort, alloc: Global, bytes: &[u8]) -> Result<(), NoMemory> {
    match read_answer(alloc, bytes) {
        Ok(reply) => {
            let text = spell_answer(alloc, &reply)?;
            assert_eq!(rt; text.as_slice(), bytes);
        }
        Err(fault) => assert_eq!(rt; fault, MsgFault::Left(bytes.len())),
    }
    Ok(())
}

fn see_fault(rt: &impl Abort, alloc: Global, bytes: &[u8], want: MsgFault) {
    match read_answer(alloc, bytes) {
        Ok(_) => assert_eq!(rt; bytes.len(), 0),
        Err(fault) => assert_eq!(rt; fault, want),
    }
}

/// A callback is read with so many operations and this tail, and written as the same bytes.
fn see_call(
    rt: &impl Abort,
    alloc: Global,
    bytes: &[u8],
    count: usize,
    tail: Tail,
) -> Result<(), NoMemory> {
    match read_call(alloc, bytes) {
        Ok(call) => {
            assert_eq!(rt; call.ops.list.len(), count);
            assert!(rt; call.ops.tail == tail);
            let text = spell_call(alloc, &call)?;
            assert_eq!(rt; text.as_slice(), bytes);
        }
        Err(fault) => assert_eq!(rt; fault, MsgFault::Left(bytes.len())),
    }
    Ok(())
}

#[test]
fn the_answer_to_a_recall_is_read_and_written(rt: HostRuntime) -> Result<(), Fail> {
    let alloc = rt.alloc();
    let mut list = Vec::new(alloc);
    list.push(CbRes::Sequence(Ok(Sequenced {
        sid: SessionId([0, 1, 2, 3, 4, 5, 6, 7, 8, 9, 10, 11, 12, 13, 14, 15]),
        turn: 1,
        slot: 0,
        highest: 3,
        target: 3,
        flags: 0,
    })))?;
    list.push(CbRes::Recall(Status::OK))?;
    let want = CbReply {
        xid: 9,
        body: CbBody::Results {
            status: Status::OK,
            list: CbResults::from_vec(alloc, list)?,
        },
    };
    match read_answer(alloc, RECALLED) {
        Ok(reply) => assert!(rt; reply == want),
        Err(fault) => assert_eq!(rt; fault, MsgFault::NoMemory),
    }
    see_answer(&rt, alloc, RECALLED)?;
    Ok(())
}

/// Every result, and every answer that has none.
#[test]
fn answers_are_read_and_written(rt: HostRuntime) -> Result<(), Fail> {
    let alloc = rt.alloc();
    let table: [&[u8]; 6] = [
        b"\0\0\0\x07\0\0\0\x01\0\0\0\0\0\0\0\0\0\0\0\0\0\0\0\0\0\0'<\0\0\0\0\0\0\0\x0d\0\0\0\x04\0\0\0\0\0\0\0\x08\0\0\0\0\0\0\0\x0a\0\0'\x18\0\0\0\x0b\0\0'D\0\0\0\x03\0\0'\x14\0\0\0\x05\0\0'\x14\0\0\0\x06\0\0'\x14\0\0\0\x07\0\0'\x14\0\0\0\x09\0\0'\x14\0\0\0\x0c\0\0'\x14\0\0\0\x0d\0\0'\x14\0\0\0\x0e\0\0'\x14\0\0'<\0\0'<",
        b"\0\0\0\x07\0\0\0\x01\0\0\0\0\0\0\0\0\0\0\0\0\0\0\0\x01",
        b"\0\0\0\x07\0\0\0\x01\0\0\0\0\0\0\0\0\0\0\0\0\0\0\0\x02\0\0\0\x01\0\0\0\x04",
        b"\0\0\0\x07\0\0\0\x01\0\0\0\0\0\0\0\0\0\0\0\0\0\0\0\x03",
        b"\0\0\0\x07\0\0\0\x01\0\0\0\0\0\0\0\0\0\0\0\0\0\0\0\x04",
        b"\0\0\0\x07\0\0\0\x01\0\0\0\0\0\0\0\0\0\0\0\0\0\0\0\0",
    ];
    for bytes in table {
        see_answer(&rt, alloc, bytes)?;
    }
    Ok(())
}

#[test]
fn answers_are_refused(rt: HostRuntime) {
    let alloc = rt.alloc();
    see_fault(&rt, alloc, HEAD, MsgFault::Rpc(RpcFault::BadKind(0)));
    // SYSTEM_ERR, and a denial.
    see_fault(
        &rt,
        alloc,
        b"\0\0\0\x07\0\0\0\x01\0\0\0\0\0\0\0\0\0\0\0\0\0\0\0\x05",
        MsgFault::Rpc(RpcFault::Xdr(XdrFault::BadArm(5))),
    );
    see_fault(
        &rt,
        alloc,
        b"\0\0\0\x07\0\0\0\x01\0\0\0\x01\0\0\0\x01\0\0\0\x01",
        MsgFault::Rpc(RpcFault::Xdr(XdrFault::BadArm(1))),
    );
    // A count of results takes no memory before they are there.
    see_fault(
        &rt,
        alloc,
        b"\0\0\0\x07\0\0\0\x01\0\0\0\0\0\0\0\0\0\0\0\0\0\0\0\0\0\0\0\0\0\0\0\0\xff\xff\xff\xff",
        MsgFault::Op {
            place: 0,
            fault: XdrFault::Short { need: 4, have: 0 },
        },
    );
    // A second result of operation 15, which there is not.
    see_fault(
        &rt,
        alloc,
        b"\0\0\0\x07\0\0\0\x01\0\0\0\0\0\0\0\0\0\0\0\0\0\0\0\0\0\0\0\0\0\0\0\0\0\0\0\x02\0\0\0\x04\0\0\0\0\0\0\0\x0f\0\0\0\0",
        MsgFault::Op {
            place: 1,
            fault: XdrFault::BadArm(15),
        },
    );
    see_fault(
        &rt,
        alloc,
        b"\0\0\0\x07\0\0\0\x01\0\0\0\0\0\0\0\0\0\0\0\0\0\0\0\0\0\0\0\0\0\0\0\0\0\0\0\x01\0\0\0\x04\0\0'\x18",
        MsgFault::Count {
            status: 0,
            last: 10008,
        },
    );
    see_fault(
        &rt,
        alloc,
        b"\0\0\0\x07\0\0\0\x01\0\0\0\0\0\0\0\0\0\0\0\0\0\0\0\0\0\0\0\0\0\0\0\0\0\0\0\x01\0\0\0\x04\0\0\0\0\0\0\0\0",
        MsgFault::Left(4),
    );
}

#[test]
fn callbacks_are_read_and_written(rt: HostRuntime) -> Result<(), Fail> {
    let alloc = rt.alloc();
    see_call(&rt, alloc, WHOLE, 4, Tail::Whole)?;
    see_call(&rt, alloc, UNSERVED, 1, Tail::Unknown(6))?;
    see_call(&rt, alloc, HEAD, 0, Tail::Garbage)?;
    see_call(&rt, alloc, NULL, 0, Tail::Unread)?;
    match read_call(alloc, RECALLED) {
        Ok(_) => assert_eq!(rt; RECALLED.len(), 0),
        Err(fault) => assert_eq!(rt; fault, MsgFault::Rpc(RpcFault::BadKind(1))),
    }
    Ok(())
}
