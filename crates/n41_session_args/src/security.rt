//! By what security the callbacks of a session come (RFC 8881, callback_sec_parms4).

ghost use Rattle.std.specs.Prelude.{◌≡◌, ◌++◌, OnOk};
ghost use Rattle.n41_xdr.specs.Format.{many_at};
ghost use Rattle.n41_attr.specs.Operations.{Gives};
ghost use Rattle.n41_attr.specs.Parts.{word};
ghost use Rattle.n41_session_args.specs.Security.{gids, system_auth, callback_security, securities};

use n41_attr::OpFault;
use n41_attr::parts::write_set;
use n41_types::{Bytes, NoMemory, Sequence};
use n41_xdr::{Reader, Writer, XdrFault};
use std::alloc::{AllocError, Global};

/// The body of AUTH_SYS (RFC 5531, appendix A), with at most 16 gids.
#[derive(Drop, PartialEq, Eq)]
pub struct SystemAuth {
    pub stamp: u32,
    pub machine: Bytes,
    pub uid: u32,
    pub gid: u32,
    pub gids: Sequence<u32>,
}

impl Clone for SystemAuth {
    ghost is_clone = { λ x y. y ≡ x };

    fn clone(&self) -> Result<SystemAuth, AllocError> {
        Ok(SystemAuth {
            stamp: self.stamp,
            machine: self.machine.clone()?,
            uid: self.uid,
            gid: self.gid,
            gids: self.gids.clone()?,
        })
    }
}

/// How a server may say who it is in a callback: by AUTH_NONE, or by AUTH_SYS.
#[derive(Drop, PartialEq, Eq)]
pub enum Security {
    None,
    System(SystemAuth),
}

impl Clone for Security {
    ghost is_clone = { λ x y. y ≡ x };

    fn clone(&self) -> Result<Security, AllocError> {
        Ok(match self {
            Security::None => Security::None,
            Security::System(auth) => Security::System(auth.clone()?),
        })
    }
}

/// A list of ways to say who one is.
pub type Securities = Sequence<Security>;

fn read_gid(r: &mut Reader) -> Result<u32, OpFault>
    ensures { Gives (λ x. x) result r.new (word.read r.old) }
{
    Ok(r.u32()?)
}

/// So many gids. Room is taken for one only once it is there.
fn read_gid_count(alloc: Global, r: &mut Reader, count: u32) -> Result<Vec<u32>, OpFault>
    ensures { Gives (λ list. list.items) result r.new (many_at word count r.old) }
{
    let mut list = Vec::new(alloc);
    for _ in 0..count {
        let next = read_gid(r)?;
        list.push(next)?;
    }
    Ok(list)
}

#[tactic(auto, unfolding(crate::specs::Security::gids))]
fn read_gids(alloc: Global, r: &mut Reader) -> Result<Sequence<u32>, OpFault>
    ensures { Gives (λ x. x) result r.new (gids.read r.old) }
{
    let count = r.u32()?;
    if count > 16 {
        return Err(OpFault::Xdr(XdrFault::TooLong {
            len: count,
            max: 16,
        }));
    }
    let list = read_gid_count(alloc, r, count)?;
    Ok(Sequence::from_vec(alloc, list)?)
}

#[tactic(auto, unfolding(crate::specs::Security::gids, n41_attr::specs::Parts::bitmap, n41_attr::specs::Bitmaps::bitmap))]
fn write_gids(w: &mut Writer, x: &Sequence<u32>) -> Result<(), NoMemory>
    requires { gids.Fits x.now }
    ensures { OnOk result (w.new ≡ w.old ++ gids.spell x.now) }
{
    write_set(w, x)
}

#[tactic(auto, unfolding(crate::specs::Security::system_auth))]
fn read_system_auth(alloc: Global, r: &mut Reader) -> Result<SystemAuth, OpFault>
    ensures { Gives (λ x. x) result r.new (system_auth.read r.old) }
{
    let stamp = r.u32()?;
    let machine = Bytes::copy_from_slice(alloc, r.opaque(255)?)?;
    let uid = r.u32()?;
    let gid = r.u32()?;
    let gids = read_gids(alloc, r)?;
    Ok(SystemAuth {
        stamp,
        machine,
        uid,
        gid,
        gids,
    })
}

#[tactic(auto, unfolding(crate::specs::Security::system_auth))]
fn write_system_auth(w: &mut Writer, x: &SystemAuth) -> Result<(), NoMemory>
    requires { system_auth.Fits x.now }
    ensures { OnOk result (w.new ≡ w.old ++ system_auth.spell x.now) }
{
    w.put_u32(x.stamp)?;
    w.put_opaque(x.machine.as_slice())?;
    w.put_u32(x.uid)?;
    w.put_u32(x.gid)?;
    write_gids(w, &x.gids)
}

#[tactic(auto, unfolding(crate::specs::Security::callback_security))]
fn read_security(alloc: Global, r: &mut Reader) -> Result<Security, OpFault>
    ensures { Gives (λ x. x) result r.new (callback_security.read r.old) }
{
    match r.u32()? {
        0 => Ok(Security::None),
        1 => Ok(Security::System(read_system_auth(alloc, r)?)),
        number => Err(OpFault::Xdr(XdrFault::BadArm(number))),
    }
}

#[tactic(auto, unfolding(crate::specs::Security::callback_security))]
fn write_security(w: &mut Writer, x: &Security) -> Result<(), NoMemory>
    requires { callback_security.Fits x.now }
    ensures { OnOk result (w.new ≡ w.old ++ callback_security.spell x.now) }
{
    match x {
        Security::None => w.put_u32(0),
        Security::System(auth) => {
            w.put_u32(1)?;
            write_system_auth(w, auth)
        }
    }
}

/// So many ways. Room is taken for one only once it is there.
fn read_security_count(alloc: Global, r: &mut Reader, count: u32) -> Result<Vec<Security>, OpFault>
    ensures { Gives (λ list. list.items) result r.new (many_at callback_security count r.old) }
{
    let mut list = Vec::new(alloc);
    for _ in 0..count {
        let next = read_security(alloc, r)?;
        list.push(next)?;
    }
    Ok(list)
}

#[tactic(auto, unfolding(crate::specs::Security::securities))]
pub fn read_securities(alloc: Global, r: &mut Reader) -> Result<Securities, OpFault>
    ensures { Gives (λ x. x) result r.new (securities.read r.old) }
{
    let count = r.u32()?;
    let list = read_security_count(alloc, r, count)?;
    Ok(Sequence::from_vec(alloc, list)?)
}

#[tactic(auto, unfolding(crate::specs::Security::securities))]
pub fn write_securities(w: &mut Writer, x: &Securities) -> Result<(), NoMemory>
    requires { securities.Fits x.now }
    ensures { OnOk result (w.new ≡ w.old ++ securities.spell x.now) }
{
    let list = x.as_slice();
    w.put_u32(list.len() as u32)?;
    for next in list {
        write_security(w, next)?;
    }
    Ok(())
}
