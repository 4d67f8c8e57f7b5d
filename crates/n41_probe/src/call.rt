// The one call of a probe.
ghost use Rattle.std.specs.Prelude.{◌≡◌, ◌≤◌, length, IfOk};
ghost use Rattle.n41_probe.specs.Probes.{probe_request, request};
ghost use Rattle.n41_requests.specs.Requests.{IsSmall, IsSpellable};

use n41_spell::spell;
use n41_types::{Bytes, NoMemory, Plan, Request};
use std::alloc::Global;

/// The request of a probe at this moment.
#[tactic(auto, unfolding(n41_xdr::specs::Spelling::hyper))]
fn make_request(alloc: Global, moment: u64) -> Result<Request, NoMemory>
    ensures request { IfOk result (λ q. q ≡ probe_request moment) }
    ensures spellable { IfOk result (λ q. IsSpellable q) }
    ensures small { IfOk result (λ q. IsSmall q.plan) }
{
    let owner = Bytes::copy_from_slice(alloc, b"n41")?;
    Ok(Request {
        xid: 1,
        uid: 1000,
        gid: 1000,
        minor: 1,
        slot: None,
        plan: Plan::ExchangeId {
            verifier: moment.to_be_bytes(),
            owner,
        },
    })
}

/// The bytes of the call of a probe at this moment.
#[tactic(auto, unfolding(crate::specs::Probes::request))]
pub(crate) fn call_of(alloc: Global, moment: u64) -> Result<Bytes, NoMemory>
    ensures spelled { IfOk result (λ call. call ≡ request moment) }
    ensures short { IfOk result (λ call. length call ≤ 4000) }
{
    let q = make_request(alloc, moment)?;
    spell(alloc, &q)
}
