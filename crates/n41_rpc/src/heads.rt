ghost use Rattle.std.specs.Prelude.{◌≡◌};
ghost use Rattle.n41_xdr.specs.Format.{made};
ghost use Rattle.n41_rpc.specs.Heads.{cred, head, head_of, kept, spoken, written_call, written_reply, IsBody};
ghost use Rattle.n41_rpc.specs.Reading.{Reads, Gives, Writes};

use crate::calls::{read_called, write_called};
use crate::fault::RpcFault;
use crate::replies::{read_verdict, write_verdict};
use n41_types::{Bytes, NoMemory};
use n41_xdr::{Reader, Writer};
use std::alloc::Global;

/// Who calls: a flavor and a body of at most 400 bytes, which is not looked into (RFC 5531, opaque_auth).
#[derive(Debug, Drop)]
pub struct Cred {
    pub flavor: u32,
    pub body: Bytes,
}

/// The head of a call (RFC 5531, call_body).
#[derive(Debug, Drop)]
pub struct CallHead {
    pub xid: u32,
    pub prog: u32,
    pub vers: u32,
    pub procedure: u32,
    pub cred: Cred,
}

/// What the head of a reply says.
#[derive(Clone, Copy, Debug, PartialEq, Eq)]
pub enum HeadBody {
    /// The results follow.
    Success,
    /// PROG_UNAVAIL 1, PROG_MISMATCH 2, PROC_UNAVAIL 3, GARBAGE_ARGS 4 or SYSTEM_ERR 5 (RFC 5531, accept_stat).
    Rejected(u32),
    /// RPC_MISMATCH 0 or AUTH_ERROR 1 (RFC 5531, reject_stat).
    Denied(u32),
}

/// The head of a reply (RFC 5531, reply_body).
#[derive(Clone, Copy, Debug, PartialEq, Eq)]
pub struct ReplyHead {
    pub xid: u32,
    pub body: HeadBody,
}

/// The head of a message (RFC 5531, rpc_msg).
#[derive(Debug, Drop)]
pub enum Head {
    Call(CallHead),
    Reply(ReplyHead),
}

/// What stands behind an xid.
#[tactic(auto, unfolding(crate::specs::Heads::spoken))]
fn read_spoken(alloc: Global, r: &mut Reader, xid: u32) -> Result<Head, RpcFault>
    ensures { Gives (λ head. head) result r.new (made (kept xid) spoken r.old) }
{
    match r.u32()? {
        0 => Ok(Head::Call(read_called(alloc, r, xid)?)),
        1 => Ok(Head::Reply(ReplyHead {
            xid,
            body: read_verdict(r)?,
        })),
        kind => Err(RpcFault::BadKind(kind)),
    }
}

fn read_whole(alloc: Global, r: &mut Reader) -> Result<Head, RpcFault>
    ensures { Gives (λ head. head) result r.new (made head_of head r.old) }
{
    let xid = r.u32()?;
    read_spoken(alloc, r, xid)
}

/// Reads the head of a call or of a reply. A verifier may have any flavor, and is not kept. A fault leaves the reader as it was.
pub fn read_head(alloc: Global, r: &mut Reader) -> Result<Head, RpcFault>
    ensures { Reads (λ head. head) result r.old r.new (made head_of head r.old) }
{
    let start = r.rest();
    match read_whole(alloc, r) {
        Ok(head) => Ok(head),
        Err(fault) => {
            *r = Reader::new(start);
            Err(fault)
        }
    }
}

/// Writes the head of a call, with the verifier AUTH_NONE.
#[tactic(auto, unfolding(crate::specs::Heads::spoken))]
pub fn write_call(w: &mut Writer, call: &CallHead) -> Result<(), NoMemory>
    requires { cred.Fits call.now.cred }
    ensures { Writes result w.old w.new (head.spell (written_call call.now)) }
{
    w.put_u32(call.xid)?;
    w.put_u32(0)?;
    write_called(w, call)?;
    Ok(())
}

/// Writes the head of a reply, with the verifier AUTH_NONE.
#[tactic(auto, unfolding(crate::specs::Heads::spoken))]
pub fn write_reply(w: &mut Writer, reply: &ReplyHead) -> Result<(), NoMemory>
    requires { IsBody reply.now.body }
    ensures { Writes result w.old w.new (head.spell (written_reply reply.now)) }
{
    w.put_u32(reply.xid)?;
    w.put_u32(1)?;
    write_verdict(w, reply.body)?;
    Ok(())
}
