ghost use Rattle.std.specs.Prelude.{◌≡◌};
ghost use Rattle.n41_xdr.specs.Format.{made};
ghost use Rattle.n41_rpc.specs.Heads.{cred, no_auth, system, system_of};
ghost use Rattle.n41_rpc.specs.Reading.{Gives, Writes};

use crate::fault::RpcFault;
use crate::heads::Cred;
use n41_types::{Bytes, NoMemory};
use n41_xdr::{Reader, Writer};
use std::alloc::Global;

#[tactic(auto, unfolding(crate::specs::Heads::cred))]
pub(crate) fn read_cred(alloc: Global, r: &mut Reader) -> Result<Cred, RpcFault>
    ensures { Gives (λ cred. cred) result r.new (cred.read r.old) }
{
    let flavor = r.u32()?;
    let body = r.opaque(400)?;
    Ok(Cred {
        flavor,
        body: Bytes::copy_from_slice(alloc, body)?,
    })
}

/// Passes over a verifier.
#[tactic(auto, unfolding(crate::specs::Heads::cred))]
pub(crate) fn skip_cred(r: &mut Reader) -> Result<(), RpcFault>
    ensures { Gives (λ _. tt {0}) result r.new (made (λ _. tt {0}) cred r.old) }
{
    let _flavor = r.u32()?;
    let _body = r.opaque(400)?;
    Ok(())
}

#[tactic(auto, unfolding(crate::specs::Heads::cred))]
pub(crate) fn write_cred(w: &mut Writer, who: &Cred) -> Result<(), NoMemory>
    requires { cred.Fits who.now }
    ensures { Writes result w.old w.new (cred.spell who.now) }
{
    w.put_u32(who.flavor)?;
    w.put_opaque(who.body.as_slice())
}

#[tactic(auto, unfolding(crate::specs::Heads::cred))]
pub(crate) fn write_no_auth(w: &mut Writer) -> Result<(), NoMemory>
    ensures { Writes result w.old w.new (cred.spell no_auth) }
{
    w.put_u32(0)?;
    w.put_opaque(&[])
}

/// Writes the body of an AUTH_SYS credential (RFC 5531, appendix A): stamp 0, the name `n41`, the two ids and no further gids.
/// The flavor of AUTH_SYS is 1.
#[tactic(auto, unfolding(crate::specs::Heads::system))]
pub fn write_system_body(w: &mut Writer, uid: u32, gid: u32) -> Result<(), NoMemory>
    ensures { Writes result w.old w.new (system.spell (system_of uid gid)) }
{
    w.put_u32(0)?;
    w.put_opaque(b"n41")?;
    w.put_u32(uid)?;
    w.put_u32(gid)?;
    w.put_u32(0)
}
