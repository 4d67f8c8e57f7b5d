use crate::{
    Ace, CbArg, CbArgs, CbBody, CbCall, CbOps, CbRecall, CbReply, CbRes, CbResults, ChangeInfo,
    Delegation, Limit, LockDenied, LockRefusal, LockType, Opened, Reply, ReplyBody, Res, Results,
    Tail, Unserved,
};
use n41_types::{Bitmap, Bytes, Fh, Operation, Owner, Stateid, Status};
use std::alloc::AllocError;

const STATEID: Stateid = Stateid {
    seqid: 1,
    other: [7; 12],
};

#[test]
fn a_copy_of_a_reply_is_equal(rt: HostRuntime) -> Result<(), AllocError> {
    let alloc = rt.alloc();
    let bytes = Bytes::copy_from_slice(alloc, b"abc")?;
    let opened = Res::Open(Ok(Opened {
        stateid: STATEID,
        change: ChangeInfo {
            atomic: true,
            before: 1,
            after: 2,
        },
        flags: 0,
        set: Bitmap::from_vec(alloc, Vec::new(alloc))?,
        delegation: Delegation::Write {
            stateid: STATEID,
            recall: false,
            limit: Limit::Size(u64::MAX),
            ace: Ace {
                kind: 0,
                flags: 0,
                mask: 0,
                who: bytes.clone()?,
            },
        },
    }));
    let denied = Res::Lock(Err(LockRefusal::Denied(LockDenied {
        offset: 0,
        length: 5,
        kind: LockType::Write,
        client: 9,
        owner: Owner::new(bytes),
    })));
    assert_eq!(rt; opened.operation(), Operation::Open);
    assert_eq!(rt; opened.status(), Status::OK);
    assert_eq!(rt; denied.status(), Status::DENIED);
    assert!(rt; denied.clone()? == denied);
    let mut list = Vec::new(alloc);
    list.push(opened)?;
    list.push(denied)?;
    let reply = Reply {
        xid: 4,
        body: ReplyBody::Results {
            status: Status::DENIED,
            list: Results::from_vec(alloc, list)?,
        },
    };
    assert!(rt; reply.clone()? == reply);
    assert!(rt; reply.body != ReplyBody::Denied(1));
    Ok(())
}

#[test]
fn a_copy_of_a_callback_is_equal(rt: HostRuntime) -> Result<(), AllocError> {
    let alloc = rt.alloc();
    let mut list = Vec::new(alloc);
    list.push(CbArg::Recall(CbRecall {
        stateid: STATEID,
        truncate: false,
        fh: Fh::new(Bytes::copy_from_slice(alloc, b"abc")?),
    }))?;
    let call = CbCall {
        xid: 1,
        prog: 2,
        vers: 3,
        procedure: 4,
        minor: 1,
        ops: CbOps {
            list: CbArgs::from_vec(alloc, list)?,
            tail: Tail::Whole,
        },
    };
    assert!(rt; call.clone()? == call);
    let mut results = Vec::new(alloc);
    results.push(CbRes::Unserved {
        op: Unserved::Notify,
        status: Status::NOTSUPP,
    })?;
    let reply = CbReply {
        xid: 1,
        body: CbBody::Results {
            status: Status::NOTSUPP,
            list: CbResults::from_vec(alloc, results)?,
        },
    };
    assert!(rt; reply.clone()? == reply);
    Ok(())
}
