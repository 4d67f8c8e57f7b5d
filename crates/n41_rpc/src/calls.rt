ghost use Rattle.std.specs.Prelude.{◌≡◌, ◌++◌};
ghost use Rattle.n41_xdr.specs.Spelling.{word};
ghost use Rattle.n41_xdr.specs.Format.{made, lifted, only};
ghost use Rattle.n41_rpc.specs.declared.fault.RpcFault.TheVariants.{Xdr};
ghost use Rattle.n41_rpc.specs.Heads.{cred, called, no_auth};
ghost use Rattle.n41_rpc.specs.Reading.{Gives, Writes};

use crate::credentials::{read_cred, skip_cred, write_cred, write_no_auth};
use crate::fault::RpcFault;
use crate::heads::CallHead;
use n41_types::NoMemory;
use n41_xdr::{Reader, Writer, XdrFault};
use std::alloc::Global;

/// The version of remote calls, which is 2.
fn read_version(r: &mut Reader) -> Result<(), RpcFault>
    ensures { Gives (λ _. tt {0}) result r.new ((lifted Xdr (only 2)).read r.old) }
{
    match r.u32()? {
        2 => Ok(()),
        number => Err(RpcFault::Xdr(XdrFault::BadArm(number))),
    }
}

#[tactic(auto, unfolding(crate::specs::Heads::called))]
pub(crate) fn read_called(alloc: Global, r: &mut Reader, xid: u32) -> Result<CallHead, RpcFault>
    ensures { Gives (λ x. x) result r.new (made (λ x. record { xid = xid; prog = x.1.0; vers = x.1.1.0; procedure = x.1.1.1.0; cred = x.1.1.1.1.0 }) called r.old) }
{
    read_version(r)?;
    let prog = r.u32()?;
    let vers = r.u32()?;
    let procedure = r.u32()?;
    let cred = read_cred(alloc, r)?;
    skip_cred(r)?;
    Ok(CallHead {
        xid,
        prog,
        vers,
        procedure,
        cred,
    })
}

/// Version 2, and the procedure that is called.
fn write_procedure(w: &mut Writer, head: &CallHead) -> Result<(), NoMemory>
    ensures { Writes result w.old w.new (word 2 ++ word head.now.prog ++ word head.now.vers ++ word head.now.procedure) }
{
    w.put_u32(2)?;
    w.put_u32(head.prog)?;
    w.put_u32(head.vers)?;
    w.put_u32(head.procedure)
}

#[tactic(auto, unfolding(crate::specs::Heads::called))]
pub(crate) fn write_called(w: &mut Writer, head: &CallHead) -> Result<(), NoMemory>
    requires { cred.Fits head.now.cred }
    ensures { Writes result w.old w.new (called.spell (tt, (head.now.prog, (head.now.vers, (head.now.procedure, (head.now.cred, no_auth)))))) }
{
    write_procedure(w, head)?;
    write_cred(w, &head.cred)?;
    write_no_auth(w)?;
    Ok(())
}
