//! Answers to callbacks.

ghost use Rattle.std.specs.Prelude.{◌≡◌, ◌++◌, ◌<◌, ◌^◌, [], length, IfOk, OnOk};
ghost use Rattle.std.specs.List.{flat_map, AllByRecursion};
ghost use Rattle.n41_xdr.specs.Spelling as spelling;
ghost use Rattle.n41_xdr.specs.Format.{◌&◌, made, fault_as};
ghost use Rattle.n41_rpc.specs.Heads.{head, reply, accepted, mismatch, accept, cred, no_auth, written_verdict, IsBody};
ghost use Rattle.n41_cbmsg.specs.Outcomes.{outcome, outcomes_at};
ghost use Rattle.n41_cbmsg.specs.Answers.{last_status, results, results_body, ended, succeeded, rejection, body_at, answer_at, written_accept, written_results, BodyFits, AnswerFits, written_answer};
ghost use Rattle.n41_cbmsg.specs.Reading.{Gives, IsRead, of_op};

use crate::fault::MsgFault;
use crate::outcomes::{read_outcome, write_outcome};
use n41_results::{CbBody, CbReply, CbRes, CbResults};
use n41_rpc::{Head, HeadBody, ReplyHead, RpcFault, read_head, write_reply};
use n41_types::{Bytes, NoMemory, Sequence, Status};
use n41_xdr::{Reader, Writer, XdrFault};
use std::alloc::Global;

/// The lowest version of the callback program that is served.
const LOWEST: u32 = 1;

/// The highest version of the callback program that is served.
const HIGHEST: u32 = 4;

/// The status of the last result, or this one where there is none.
fn last_status(status: Status, list: &[CbRes]) -> Status
    ensures { result ≡ last_status status list.now }
{
    let mut last = status;
    for x in list {
        last = x.status();
    }
    last
}

/// The result at a place.
fn read_result(r: &mut Reader, place: u32) -> Result<CbRes, MsgFault>
    ensures { Gives (λ x. x) result r.new (fault_as (of_op place) (outcome.read r.old)) }
{
    match read_outcome(r) {
        Ok(x) => Ok(x),
        Err(fault) => Err(MsgFault::Op { place, fault }),
    }
}

/// So many results. Room is taken for a result only once it is there.
fn read_list(alloc: Global, r: &mut Reader, count: u32) -> Result<Vec<CbRes>, MsgFault>
    ensures { Gives (λ list. list.items) result r.new (outcomes_at 0 count r.old) }
{
    let mut list = Vec::new(alloc);
    for place in 0..count {
        let next = read_result(r, place)?;
        list.push(next)?;
    }
    Ok(list)
}

/// The status, the tag and the results.
#[tactic(auto, unfolding(crate::specs::Answers::results, crate::specs::Answers::told))]
fn read_results(alloc: Global, r: &mut Reader) -> Result<CbBody, MsgFault>
    ensures { Gives (λ x. x) result r.new (made results_body results r.old) }
{
    let status = r.u32()?;
    let _tag = r.opaque(65536)?;
    let count = r.u32()?;
    let list = read_list(alloc, r, count)?;
    let last = last_status(Status(status), list.as_slice());
    if last.0 != status {
        return Err(MsgFault::Count {
            status,
            last: last.0,
        });
    }
    Ok(CbBody::Results {
        status: Status(status),
        list: Sequence::from_vec(alloc, list)?,
    })
}

/// The body, behind which nothing may be left.
fn ended(r: &Reader, body: CbBody) -> Result<CbBody, MsgFault>
    ensures { IsRead result (ended (Ok (body, r.now))) }
{
    let left = r.len();
    if left == 0 {
        Ok(body)
    } else {
        Err(MsgFault::Left(left))
    }
}

fn read_success(alloc: Global, r: &mut Reader) -> Result<CbBody, MsgFault>
    ensures { IsRead result (succeeded r.old) }
{
    if r.len() == 0 {
        return Ok(CbBody::Null);
    }
    let body = read_results(alloc, r)?;
    ended(r, body)
}

fn rejection(number: u32) -> Result<CbBody, MsgFault>
    ensures { IsRead result (rejection number) }
{
    match number {
        1 => Ok(CbBody::NoProgram),
        2 => Ok(CbBody::Mismatch),
        3 => Ok(CbBody::NoProcedure),
        4 => Ok(CbBody::Garbage),
        number => Err(MsgFault::Rpc(RpcFault::Xdr(XdrFault::BadArm(number)))),
    }
}

/// What stands behind the head of a reply.
fn read_body(alloc: Global, r: &mut Reader, body: HeadBody) -> Result<CbBody, MsgFault>
    ensures { IsRead result (body_at body r.old) }
{
    match body {
        HeadBody::Success => read_success(alloc, r),
        HeadBody::Rejected(number) => {
            let body = rejection(number)?;
            ended(r, body)
        }
        HeadBody::Denied(_) => Err(MsgFault::Rpc(RpcFault::Xdr(XdrFault::BadArm(1)))),
    }
}

#[tactic(auto, unfolding(crate::specs::Answers::answer_at))]
fn read_whole(alloc: Global, bytes: &[u8]) -> Result<CbReply, MsgFault>
    ensures { IsRead result (answer_at bytes.now) }
{
    let mut r = Reader::new(bytes);
    match read_head(alloc, &mut r)? {
        Head::Call(_) => Err(MsgFault::Rpc(RpcFault::BadKind(0))),
        Head::Reply(head) => Ok(CbReply {
            xid: head.xid,
            body: read_body(alloc, &mut r, head.body)?,
        }),
    }
}

/// Reads the answer to a callback (RFC 5531, reply_body; RFC 8881, CB_COMPOUND4res). The verifier, the tag and the versions behind
/// PROG_MISMATCH are not kept. An accepted reply of no bytes behind its head is Null.
pub fn read_answer(alloc: Global, bytes: &[u8]) -> Result<CbReply, MsgFault>
    ensures read { IsRead result (answer_at bytes.now) }
    ensures fits { IfOk result (λ r. AnswerFits r) }
{
    read_whole(alloc, bytes)
}

/// The verifier AUTH_NONE, and PROG_MISMATCH with the versions that are served.
#[tactic(auto, unfolding(n41_rpc::specs::Heads::accept, n41_rpc::specs::Heads::cred))]
fn write_acceptance(w: &mut Writer) -> Result<(), NoMemory>
    ensures { OnOk result (w.new ≡ w.old ++ (cred & accept).spell (no_auth, mismatch 1 4)) }
{
    w.put_u32(0)?;
    w.put_opaque(&[])?;
    w.put_u32(2)?;
    w.put_u32(LOWEST)?;
    w.put_u32(HIGHEST)
}

/// The head of the answer to a version that is not served.
#[tactic(auto, unfolding(n41_rpc::specs::Heads::spoken, n41_rpc::specs::Heads::verdict))]
fn write_mismatch(w: &mut Writer, xid: u32) -> Result<(), NoMemory>
    ensures { OnOk result (w.new ≡ w.old ++ head.spell (xid, reply (accepted no_auth (mismatch 1 4)))) }
{
    w.put_u32(xid)?;
    w.put_u32(1)?;
    w.put_u32(0)?;
    write_acceptance(w)
}

fn write_head(w: &mut Writer, xid: u32, body: HeadBody) -> Result<(), NoMemory>
    requires { IsBody body }
    ensures { OnOk result (w.new ≡ w.old ++ head.spell (xid, reply (written_verdict body))) }
{
    write_reply(w, &ReplyHead { xid, body })
}

#[tactic(auto, unfolding(crate::specs::Answers::results, crate::specs::Answers::told))]
fn write_results(w: &mut Writer, status: Status, list: &CbResults) -> Result<(), NoMemory>
    requires { results.Fits (status.0, ([], list.now)) }
    ensures { OnOk result (w.new ≡ w.old ++ results.spell (status.0, ([], list.now))) }
{
    w.put_u32(status.0)?;
    w.put_opaque(&[])?;
    let list = list.as_slice();
    w.put_u32(list.len() as u32)?;
    write_list(w, list)
}

fn write_list(w: &mut Writer, list: &[CbRes]) -> Result<(), NoMemory>
    requires { AllByRecursion outcome.Fits list.now }
    ensures { OnOk result (w.new ≡ w.old ++ flat_map outcome.spell list.now) }
{
    for x in list {
        write_outcome(w, x)?;
    }
    Ok(())
}

fn write_answer(w: &mut Writer, xid: u32, body: &CbBody) -> Result<(), NoMemory>
    requires { BodyFits body.now }
    ensures { OnOk result (w.new ≡ w.old ++ (head.spell (xid, reply (accepted no_auth (written_accept body.now))) ++ written_results body.now)) }
{
    match body {
        CbBody::Mismatch => write_mismatch(w, xid),
        CbBody::NoProgram => write_head(w, xid, HeadBody::Rejected(1)),
        CbBody::NoProcedure => write_head(w, xid, HeadBody::Rejected(3)),
        CbBody::Garbage => write_head(w, xid, HeadBody::Rejected(4)),
        CbBody::Null => write_head(w, xid, HeadBody::Success),
        CbBody::Results { status, list } => {
            write_head(w, xid, HeadBody::Success)?;
            write_results(w, *status, list)
        }
    }
}

/// Writes the answer to a callback, with the verifier AUTH_NONE and an empty tag. PROG_MISMATCH tells that the versions 1 to 4 are
/// served.
pub fn spell_answer(alloc: Global, r: &CbReply) -> Result<Bytes, NoMemory>
    requires { AnswerFits r.now }
    ensures { IfOk result (λ bytes. bytes ≡ written_answer r.now) }
{
    let mut w = Writer::new(alloc);
    write_answer(&mut w, r.xid, &r.body)?;
    Ok(Bytes::from_vec(w.into_bytes())?)
}
