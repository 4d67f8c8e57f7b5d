ghost use Rattle.std.specs.Prelude.{◌≡◌, ◌≤◌};
ghost use Rattle.n41_xdr.specs.Format.{made};
ghost use Rattle.n41_rpc.specs.Heads.{accept, accept_body, denial, denial_body, verdict, verdict_body, written_accept, written_verdict, versions, auth, IsBody};
ghost use Rattle.n41_rpc.specs.Reading.{Gives, Writes};

use crate::credentials::{skip_cred, write_no_auth};
use crate::fault::RpcFault;
use crate::heads::HeadBody;
use n41_types::NoMemory;
use n41_xdr::{Reader, Writer, XdrFault};

#[tactic(auto, unfolding(crate::specs::Heads::accept))]
fn read_accept(r: &mut Reader) -> Result<HeadBody, RpcFault>
    ensures { Gives (λ x. x) result r.new (made accept_body accept r.old) }
{
    match r.u32()? {
        0 => Ok(HeadBody::Success),
        1 => Ok(HeadBody::Rejected(1)),
        2 => {
            let _low = r.u32()?;
            let _high = r.u32()?;
            Ok(HeadBody::Rejected(2))
        }
        3 => Ok(HeadBody::Rejected(3)),
        4 => Ok(HeadBody::Rejected(4)),
        5 => Ok(HeadBody::Rejected(5)),
        number => Err(RpcFault::Xdr(XdrFault::BadArm(number))),
    }
}

#[tactic(auto, unfolding(crate::specs::Heads::denial))]
fn read_denial(r: &mut Reader) -> Result<HeadBody, RpcFault>
    ensures { Gives (λ x. x) result r.new (made denial_body denial r.old) }
{
    match r.u32()? {
        0 => {
            let _low = r.u32()?;
            let _high = r.u32()?;
            Ok(HeadBody::Denied(0))
        }
        1 => {
            let _why = r.u32()?;
            Ok(HeadBody::Denied(1))
        }
        number => Err(RpcFault::Xdr(XdrFault::BadArm(number))),
    }
}

#[tactic(auto, unfolding(crate::specs::Heads::verdict))]
pub(crate) fn read_verdict(r: &mut Reader) -> Result<HeadBody, RpcFault>
    ensures { Gives (λ x. x) result r.new (made verdict_body verdict r.old) }
{
    match r.u32()? {
        0 => {
            skip_cred(r)?;
            read_accept(r)
        }
        1 => read_denial(r),
        number => Err(RpcFault::Xdr(XdrFault::BadArm(number))),
    }
}

/// A number of 1 to 5, and the versions behind PROG_MISMATCH.
#[tactic(auto, unfolding(crate::specs::Heads::accept))]
fn write_rejection(w: &mut Writer, number: u32) -> Result<(), NoMemory>
    requires { (1 ≤ number) × (number ≤ 5) }
    ensures { Writes result w.old w.new (accept.spell (written_accept number)) }
{
    w.put_u32(number)?;
    if number == 2 {
        w.put_u32(4)?;
        w.put_u32(4)?;
    }
    Ok(())
}

#[tactic(auto, unfolding(crate::specs::Heads::denial))]
fn write_versions(w: &mut Writer) -> Result<(), NoMemory>
    ensures { Writes result w.old w.new (denial.spell (versions 2 2)) }
{
    w.put_u32(0)?;
    w.put_u32(2)?;
    w.put_u32(2)
}

#[tactic(auto, unfolding(crate::specs::Heads::denial))]
fn write_auth_error(w: &mut Writer) -> Result<(), NoMemory>
    ensures { Writes result w.old w.new (denial.spell (auth 1)) }
{
    w.put_u32(1)?;
    w.put_u32(1)
}

#[tactic(auto, unfolding(crate::specs::Heads::verdict, crate::specs::Heads::accept))]
pub(crate) fn write_verdict(w: &mut Writer, body: HeadBody) -> Result<(), NoMemory>
    requires { IsBody body }
    ensures { Writes result w.old w.new (verdict.spell (written_verdict body)) }
{
    match body {
        HeadBody::Success => {
            w.put_u32(0)?;
            write_no_auth(w)?;
            w.put_u32(0)
        }
        HeadBody::Rejected(number) => {
            w.put_u32(0)?;
            write_no_auth(w)?;
            write_rejection(w, number)?;
            Ok(())
        }
        HeadBody::Denied(0) => {
            w.put_u32(1)?;
            write_versions(w)?;
            Ok(())
        }
        HeadBody::Denied(_) => {
            w.put_u32(1)?;
            write_auth_error(w)?;
            Ok(())
        }
    }
}
