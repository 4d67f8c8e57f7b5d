// The client of a script.
ghost use Rattle.std.specs.Prelude.{◌≡◌, ◌≤◌, [], length, IfOk};
ghost use Rattle.n41_perform.specs.Performs.{IsClientOf, callers_of};

use n41_core::Core;
use n41_model::Setup;
use n41_script::Script;
use n41_types::NoMemory;
use std::alloc::Global;

/// How many callers the client of so many has: one at least.
pub(crate) fn callers_of(script: &Script) -> u32
    requires few { length script.now.callers ≤ 64 }
    ensures { result ≡ callers_of script.now }
{
    match script.callers.len() {
        0 => 1,
        count => count as u32,
    }
}

#[tactic(auto, unfolding(n41_xdr::specs::Spelling::hyper))]
/// A client for the callers of a script, which has done nothing yet.
pub(crate) fn make_client(alloc: Global, script: &Script, moment: u64) -> Result<Core, NoMemory>
    requires few { length script.now.callers ≤ 64 }
    requires owner { length script.now.owner ≤ 1024 }
    ensures { IfOk result (λ c. IsClientOf script.now moment c.setup × (c.events ≡ [])) }
{
    let setup = Setup {
        callers: callers_of(script),
        uid: script.uid,
        gid: script.gid,
        owner: script.owner.clone()?,
        verifier: moment.to_be_bytes(),
    };
    Core::new(alloc, setup)
}
