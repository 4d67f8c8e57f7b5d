// What the reply to a probe says.
ghost use Rattle.std.specs.Prelude.{◌≡◌, ◌∷◌, [], Ok, IfOk, IfErr, IfSome, IfNone, IsErrOf};
ghost use Rattle.n41_results.specs.declared.replies.Reply.{Reply};
ghost use Rattle.n41_results.specs.declared.results.Res.TheVariants as res;
ghost use Rattle.n41_results.specs.declared.sessions.Identity.{Identity};
ghost use Rattle.n41_probe.specs.Probes.{reply_with, Reads};

use crate::ProbeFault;
use n41_replies::{MsgFault, read_reply};
use n41_results::{Identity, Reply, ReplyBody, Res};
use std::alloc::Global;

/// The reply that the bytes are.
pub(crate) fn read(alloc: Global, bytes: &[u8]) -> Result<Reply, ProbeFault>
    ensures { Reads result bytes.now }
{
    match read_reply(alloc, bytes) {
        Ok(reply) => Ok(reply),
        Err(MsgFault::NoMemory) => Err(ProbeFault::NoMemory),
        Err(_) => Err(ProbeFault::Breach),
    }
}

/// What the one result of EXCHANGE_ID says.
fn one_identity(list: &[Res]) -> Option<&Identity>
    ensures some { IfSome result (λ x. list.now ≡ res.ExchangeId (Ok x.now) ∷ []) }
    ensures none { IfNone result ((x : Identity) → list.now ≡ res.ExchangeId (Ok x) ∷ [] → ⊥) }
{
    match list {
        [Res::ExchangeId(Ok(identity))] => Some(identity),
        _ => None,
    }
}

/// What a reply to a probe says. None exactly where it is no such reply.
pub(crate) fn identity_of(reply: &Reply) -> Option<&Identity>
    ensures some { IfSome result (λ x. reply.now ≡ reply_with x.now) }
    ensures none { IfNone result ((x : Identity) → reply.now ≡ reply_with x → ⊥) }
{
    let ReplyBody::Results { status, list } = &reply.body else {
        return None;
    };
    if reply.xid != 1 || status.0 != 0 {
        return None;
    }
    one_identity(list.as_slice())
}
