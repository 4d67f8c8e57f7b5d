ghost use Rattle.std.specs.Prelude.{◌≡◌, IfOk, Ok};
ghost use Rattle.n41_xdr.specs.Format.{fault_as, made};
ghost use Rattle.n41_results.specs.declared.replies.Reply.{Reply};
ghost use Rattle.n41_ops.specs.Results.{told_res, res_of};
ghost use Rattle.n41_replies.specs.Faults.{Reads, Gives, of_op};
ghost use Rattle.n41_replies.specs.Replies.{last_status, results_at, body_at, behind, reply_at, Spells};

use crate::fault::MsgFault;
use n41_attr::OpFault;
use n41_ops::read_res;
use n41_results::{Reply, ReplyBody, Res, Results};
use n41_rpc::{Head, HeadBody, RpcFault, read_head};
use n41_types::{Sequence, Status};
use n41_xdr::Reader;
use std::alloc::Global;

/// The status of the last result, or this one where there is none.
fn last_status(status: u32, list: &[Res]) -> u32
    ensures { result ≡ last_status status list.now }
{
    let mut last = status;
    for answer in list {
        last = answer.status().0;
    }
    last
}

/// The result at a place, from 0.
fn read_result(alloc: Global, r: &mut Reader, place: u32) -> Result<Res, MsgFault>
    ensures { Reads (λ x. x) result r.new (fault_as (of_op place) (made res_of told_res r.old)) }
{
    match read_res(alloc, r) {
        Ok(answer) => Ok(answer),
        Err(OpFault::NoMemory) => Err(MsgFault::NoMemory),
        Err(fault) => Err(MsgFault::Op { place, fault }),
    }
}

/// So many results. Room is taken for a result only once it is there.
fn read_results(alloc: Global, r: &mut Reader, count: u32) -> Result<Results, MsgFault>
    ensures { Reads (λ x. x) result r.new (results_at 0 count r.old) }
{
    let mut list = Vec::new(alloc);
    for place in 0..count {
        let next = read_result(alloc, r, place)?;
        list.push(next)?;
    }
    Ok(Sequence::from_vec(alloc, list)?)
}

/// The status, the tag and the results.
#[tactic(auto, unfolding(crate::specs::Replies::body_at))]
fn read_body(alloc: Global, r: &mut Reader) -> Result<ReplyBody, MsgFault>
    ensures { Reads (λ x. x) result r.new (body_at r.old) }
{
    let status = r.u32()?;
    let _tag = r.opaque(65536)?;
    let count = r.u32()?;
    let list = read_results(alloc, r, count)?;
    let last = last_status(status, list.as_slice());
    if last != status {
        return Err(MsgFault::Count { status, last });
    }
    Ok(ReplyBody::Results {
        status: Status(status),
        list,
    })
}

/// What stands behind the head.
fn read_behind(alloc: Global, r: &mut Reader, xid: u32, body: HeadBody) -> Result<Reply, MsgFault>
    ensures { Reads (λ x. x) result r.new (behind xid body r.old) }
{
    match body {
        HeadBody::Denied(number) => Ok(Reply {
            xid,
            body: ReplyBody::Denied(number),
        }),
        HeadBody::Rejected(number) => Ok(Reply {
            xid,
            body: ReplyBody::Rejected(number),
        }),
        HeadBody::Success => Ok(Reply {
            xid,
            body: read_body(alloc, r)?,
        }),
    }
}

#[tactic(auto, unfolding(crate::specs::Replies::reply_at))]
fn read_whole(alloc: Global, bytes: &[u8]) -> Result<Reply, MsgFault>
    ensures { Gives result (reply_at bytes.now) }
{
    let mut r = Reader::new(bytes);
    match read_head(alloc, &mut r)? {
        Head::Call(_) => Err(MsgFault::Rpc(RpcFault::BadKind(0))),
        Head::Reply(head) => {
            let reply = read_behind(alloc, &mut r, head.xid, head.body)?;
            let left = r.len();
            if left != 0 {
                return Err(MsgFault::Left(left));
            }
            Ok(reply)
        }
    }
}

/// Reads the reply to a COMPOUND (RFC 5531, reply_body; RFC 8881, COMPOUND4res). The verifier, the tag, and what stands behind a refusal
/// are not kept. A count of results takes no memory before they are there.
pub fn read_reply(alloc: Global, bytes: &[u8]) -> Result<Reply, MsgFault>
    // What is read is spelled so.
    ensures found { IfOk result (λ r. Spells r bytes.now) }
    // What is spelled so is read, unless memory runs out.
    ensures only { (r : Reply) → Spells r bytes.now → Gives result (Ok r) }
    // Which fault it is.
    ensures exact { Gives result (reply_at bytes.now) }
{
    read_whole(alloc, bytes)
}
