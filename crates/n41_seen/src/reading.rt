ghost use Rattle.std.specs.Prelude.{◌≡◌, IfOk, Ok};
ghost use Rattle.n41_replies.specs.Faults.{Gives};
ghost use Rattle.n41_seen.specs.declared.calls.CallSeen.{CallSeen};
ghost use Rattle.n41_seen.specs.Calls.{call_at, SpellsCall};

use crate::calls::CallSeen;
use crate::compounds::read_behind;
use n41_replies::MsgFault;
use n41_rpc::{Head, RpcFault, read_head};
use n41_xdr::Reader;
use std::alloc::Global;

#[tactic(auto, unfolding(crate::specs::Calls::call_at))]
fn read_whole(alloc: Global, bytes: &[u8]) -> Result<CallSeen, MsgFault>
    ensures { Gives result (call_at bytes.now) }
{
    let mut r = Reader::new(bytes);
    match read_head(alloc, &mut r)? {
        Head::Reply(_) => Err(MsgFault::Rpc(RpcFault::BadKind(1))),
        Head::Call(head) => {
            let compound = read_behind(alloc, &mut r, &head)?;
            Ok(CallSeen {
                xid: head.xid,
                prog: head.prog,
                vers: head.vers,
                procedure: head.procedure,
                cred: head.cred,
                minor: compound.minor,
                list: compound.ops.list,
                tail: compound.ops.tail,
            })
        }
    }
}

/// Reads a call as a server sees it (RFC 5531, call_body; RFC 8881, COMPOUND4args). Only a bad head is refused, with Rpc: what cannot be
/// read behind it is told by the tail. The verifier and the tag are not kept. A count of operations takes no memory before they are there.
pub fn read_request(alloc: Global, bytes: &[u8]) -> Result<CallSeen, MsgFault>
    // What is read is spelled so.
    ensures found { IfOk result (λ c. SpellsCall c bytes.now) }
    // What is spelled so is read, unless memory runs out.
    ensures only { (c : CallSeen) → SpellsCall c bytes.now → Gives result (Ok c) }
    // Which fault it is.
    ensures exact { Gives result (call_at bytes.now) }
{
    read_whole(alloc, bytes)
}
