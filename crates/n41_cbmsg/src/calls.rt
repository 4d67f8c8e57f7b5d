//! Callbacks.

ghost use Rattle.std.specs.Prelude.{◌≡◌, IfOk};
ghost use Rattle.n41_cbmsg.specs.Calls.{call_at, CallFits, written_call};
ghost use Rattle.n41_cbmsg.specs.Reading.{IsRead};

use crate::compounds::{read_behind, write_behind};
use crate::fault::MsgFault;
use n41_results::CbCall;
use n41_rpc::{CallHead, Cred, Head, RpcFault, read_head, write_call};
use n41_types::{Bytes, NoMemory};
use n41_xdr::{Reader, Writer};
use std::alloc::Global;

#[tactic(auto, unfolding(crate::specs::Calls::call_at))]
fn read_whole(alloc: Global, bytes: &[u8]) -> Result<CbCall, MsgFault>
    ensures { IsRead result (call_at bytes.now) }
{
    let mut r = Reader::new(bytes);
    match read_head(alloc, &mut r)? {
        Head::Reply(_) => Err(MsgFault::Rpc(RpcFault::BadKind(1))),
        Head::Call(head) => {
            let arguments = read_behind(alloc, &mut r, &head)?;
            Ok(CbCall {
                xid: head.xid,
                prog: head.prog,
                vers: head.vers,
                procedure: head.procedure,
                minor: arguments.minor,
                ops: arguments.ops,
            })
        }
    }
}

/// Reads a callback (RFC 5531, call_body; RFC 8881, CB_COMPOUND4args). Only a bad head is refused. The credential, the verifier, the
/// tag and the callback_ident are not kept; from an operation that is not served on, nothing is read.
pub fn read_call(alloc: Global, bytes: &[u8]) -> Result<CbCall, MsgFault>
    ensures read { IsRead result (call_at bytes.now) }
    ensures fits { IfOk result (λ c. CallFits c) }
{
    read_whole(alloc, bytes)
}

/// Writes a callback, with AUTH_NONE as credential and verifier, an empty tag and callback_ident 0. Behind an operation that is not
/// served nothing is written, and of a tail that is Garbage or Unread the head alone.
#[tactic(auto, unfolding(n41_rpc::specs::Heads::cred))]
pub fn spell_call(alloc: Global, c: &CbCall) -> Result<Bytes, NoMemory>
    requires { CallFits c.now }
    ensures { IfOk result (λ bytes. bytes ≡ written_call c.now) }
{
    let mut w = Writer::new(alloc);
    let head = CallHead {
        xid: c.xid,
        prog: c.prog,
        vers: c.vers,
        procedure: c.procedure,
        cred: Cred {
            flavor: 0,
            body: Bytes::new(),
        },
    };
    write_call(&mut w, &head)?;
    write_behind(&mut w, c.minor, &c.ops)?;
    Ok(Bytes::from_vec(w.into_bytes())?)
}
