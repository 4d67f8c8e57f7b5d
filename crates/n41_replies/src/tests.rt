ghost use Rattle.std.specs.Prelude.{◌≡◌, IfOk};
ghost use Rattle.n41_results.specs.Results.{status_of, ok};
ghost use Rattle.n41_ops.specs.Results.{told_res, written_res};
ghost use Rattle.n41_replies.specs.Replies.{IsSpellable};

use super::*;
use n41_attr::OpFault;
use n41_results::{Identity, Reply, ReplyBody, Res, Results};
use n41_rpc::RpcFault;
use n41_types::{Bytes, NoMemory, Status};
use n41_xdr::XdrFault;
use std::alloc::Global;
use std::process::Abort;
use std::test::Fail;

/// What a server answers to an EXCHANGE_ID with xid 1: client 7, sequence 1, and the major id and the scope `srv`.
const EXCHANGED: &[u8] =
    b"\0\0\0\x01\0\0\0\x01\0\0\0\0\0\0\0\0\0\0\0\0\0\0\0\0\0\0\0\0\0\0\0\0\0\0\0\x01\0\0\0*\0\0\0\0\0\0\0\0\0\0\0\x07\0\0\0\x01\0\x01\0\0\0\0\0\0\0\0\0\0\0\0\0\0\0\0\0\x03srv\0\0\0\0\x03srv\0\0\0\0\0";

#[tactic(auto, unfolding(n41_ops::specs::Results::told_res, n41_ops::specs::Sessions::identity, n41_shared::specs::Sessions::impl_option, n41_attr::specs::Parts::owner_bytes, n41_attr::specs::Parts::always_zero))]
fn identity(alloc: Global) -> Result<Res, NoMemory>
    ensures fits { IfOk result (λ x. told_res.Fits (written_res x)) }
    ensures well { IfOk result (λ x. status_of x ≡ ok) }
{
    Ok(Res::ExchangeId(Ok(Identity {
        client: 7,
        sequence: 1,
        flags: 0x10000,
        minor: 0,
        major: Bytes::copy_from_slice(alloc, b"srv")?,
        scope: Bytes::copy_from_slice(alloc, b"srv")?,
        implementation: None,
    })))
}

fn exchanged(alloc: Global) -> Result<Reply, NoMemory>
    ensures { IfOk result (λ r. IsSpellable r) }
{
    let mut list = Vec::new(alloc);
    list.push(identity(alloc)?)?;
    Ok(Reply {
        xid: 1,
        body: ReplyBody::Results {
            status: Status::OK,
            list: Results::from_vec(alloc, list)?,
        },
    })
}

fn see_reply(rt: &impl Abort, alloc: Global, bytes: &[u8], want: &Reply) {
    match read_reply(alloc, bytes) {
        Ok(reply) => assert!(rt; reply == *want),
        Err(fault) => assert_eq!(rt; fault, MsgFault::NoMemory),
    }
}

fn see_fault(rt: &impl Abort, alloc: Global, bytes: &[u8], want: MsgFault) {
    match read_reply(alloc, bytes) {
        Ok(_) => assert_eq!(rt; bytes.len(), 0),
        Err(fault) => assert_eq!(rt; fault, want),
    }
}

#[test]
fn the_reply_of_an_exchange_is_read_and_written(rt: HostRuntime) -> Result<(), Fail> {
    let alloc = rt.alloc();
    let reply = exchanged(alloc)?;
    see_reply(&rt, alloc, EXCHANGED, &reply);
    let text = spell_reply(alloc, &reply)?;
    assert_eq!(rt; text.as_slice(), EXCHANGED);
    Ok(())
}

#[test]
fn refusals_are_read(rt: HostRuntime) {
    let alloc = rt.alloc();
    let rejected = Reply {
        xid: 5,
        body: ReplyBody::Rejected(2),
    };
    see_reply(
        &rt,
        alloc,
        b"\0\0\0\x05\0\0\0\x01\0\0\0\0\0\0\0\0\0\0\0\0\0\0\0\x02\0\0\0\x03\0\0\0\x03",
        &rejected,
    );
    let denied = Reply {
        xid: 5,
        body: ReplyBody::Denied(1),
    };
    see_reply(
        &rt,
        alloc,
        b"\0\0\0\x05\0\0\0\x01\0\0\0\x01\0\0\0\x01\0\0\0\x0d",
        &denied,
    );
}

#[test]
fn bad_replies_are_refused(rt: HostRuntime) {
    let alloc = rt.alloc();
    // A count of 2^32 - 1, and nothing behind it.
    see_fault(
        &rt,
        alloc,
        b"\0\0\0\x05\0\0\0\x01\0\0\0\0\0\0\0\0\0\0\0\0\0\0\0\0\0\0\0\0\0\0\0\0\xff\xff\xff\xff",
        MsgFault::Op {
            place: 0,
            fault: OpFault::Xdr(XdrFault::Short { need: 4, have: 0 }),
        },
    );
    // An OK of PUTFH, and then operation 99.
    see_fault(
        &rt,
        alloc,
        b"\0\0\0\x05\0\0\0\x01\0\0\0\0\0\0\0\0\0\0\0\0\0\0\0\0\0\0\0\0\0\0\0\0\0\0\0\x02\0\0\0\x16\0\0\0\0\0\0\0\x63",
        MsgFault::Op {
            place: 1,
            fault: OpFault::Illegal(99),
        },
    );
    // The status is OK, and that of PUTFH is STALE.
    see_fault(
        &rt,
        alloc,
        b"\0\0\0\x05\0\0\0\x01\0\0\0\0\0\0\0\0\0\0\0\0\0\0\0\0\0\0\0\0\0\0\0\0\0\0\0\x01\0\0\0\x16\0\0\0\x46",
        MsgFault::Count {
            status: 0,
            last: 70,
        },
    );
    // A byte behind a denial.
    see_fault(
        &rt,
        alloc,
        b"\0\0\0\x05\0\0\0\x01\0\0\0\x01\0\0\0\x01\0\0\0\x0d\0",
        MsgFault::Left(1),
    );
    // The fill of the tag.
    see_fault(
        &rt,
        alloc,
        b"\0\0\0\x05\0\0\0\x01\0\0\0\0\0\0\0\0\0\0\0\0\0\0\0\0\0\0\0\0\0\0\0\x01x\0\0\x01\0\0\0\0",
        MsgFault::Rpc(RpcFault::Xdr(XdrFault::BadPad)),
    );
    // A call.
    see_fault(
        &rt,
        alloc,
        b"\0\0\0\x05\0\0\0\0\0\0\0\x02\0\x01\x86\xa3\0\0\0\x04\0\0\0\x01\0\0\0\0\0\0\0\0\0\0\0\0\0\0\0\0",
        MsgFault::Rpc(RpcFault::BadKind(0)),
    );
}
