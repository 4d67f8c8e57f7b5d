//! What LOCK and LOCKT answer (RFC 8881, sections 18.10 and 18.11).

ghost use Rattle.std.specs.Prelude.{◌≡◌, ◌++◌, OnOk};
ghost use Rattle.n41_xdr.specs.Format.{nothing};
ghost use Rattle.n41_attr.specs.Operations.{Gives};
ghost use Rattle.n41_attr.specs.Parts.{owner_bytes, stateid};
ghost use Rattle.n41_ops.specs.Locks.{lock_denied, lock_outcome};

use n41_attr::OpFault;
use n41_attr::parts::{read_stateid, write_stateid};
use n41_results::{LockDenied, LockRefusal};
use n41_shared::locks::{read_lock_type, write_lock_type};
use n41_types::{Bytes, NoMemory, Owner, Stateid, Status};
use n41_xdr::{Reader, Writer};
use std::alloc::Global;

#[tactic(auto, unfolding(n41_attr::specs::Parts::owner_bytes))]
fn read_owner(alloc: Global, r: &mut Reader) -> Result<Owner, OpFault>
    ensures { Gives (λ x. x) result r.new (owner_bytes.read r.old) }
{
    let bytes = r.opaque(1024)?;
    Ok(Owner::new(Bytes::copy_from_slice(alloc, bytes)?))
}

#[tactic(auto, unfolding(n41_attr::specs::Parts::owner_bytes))]
fn write_owner(w: &mut Writer, x: &Owner) -> Result<(), NoMemory>
    ensures { OnOk result (w.new ≡ w.old ++ owner_bytes.spell x.now) }
{
    w.put_opaque(x.as_slice())
}

#[tactic(auto, unfolding(crate::specs::Locks::lock_denied))]
fn read_lock_denied(alloc: Global, r: &mut Reader) -> Result<LockDenied, OpFault>
    ensures { Gives (λ x. x) result r.new (lock_denied.read r.old) }
{
    let offset = r.u64()?;
    let length = r.u64()?;
    let kind = read_lock_type(r)?;
    let client = r.u64()?;
    let owner = read_owner(alloc, r)?;
    Ok(LockDenied {
        offset,
        length,
        kind,
        client,
        owner,
    })
}

#[tactic(auto, unfolding(crate::specs::Locks::lock_denied))]
fn write_lock_denied(w: &mut Writer, x: &LockDenied) -> Result<(), NoMemory>
    ensures { OnOk result (w.new ≡ w.old ++ lock_denied.spell x.now) }
{
    w.put_u64(x.offset)?;
    w.put_u64(x.length)?;
    write_lock_type(w, x.kind)?;
    w.put_u64(x.client)?;
    write_owner(w, &x.owner)
}

pub(crate) fn read_lock(
    alloc: Global,
    r: &mut Reader,
) -> Result<Result<Stateid, LockRefusal>, OpFault>
    ensures { Gives (λ x. x) result r.new ((lock_outcome stateid).read r.old) }
{
    match r.u32()? {
        0 => Ok(Ok(read_stateid(r)?)),
        10010 => Ok(Err(LockRefusal::Denied(read_lock_denied(alloc, r)?))),
        number => Ok(Err(LockRefusal::Other(Status(number)))),
    }
}

pub(crate) fn write_lock(w: &mut Writer, x: &Result<Stateid, LockRefusal>) -> Result<(), NoMemory>
    requires { (lock_outcome stateid).Fits x.now }
    ensures { OnOk result (w.new ≡ w.old ++ (lock_outcome stateid).spell x.now) }
{
    match x {
        Ok(stateid) => {
            w.put_u32(0)?;
            write_stateid(w, stateid)
        }
        Err(LockRefusal::Denied(lock)) => {
            w.put_u32(10010)?;
            write_lock_denied(w, lock)
        }
        Err(LockRefusal::Other(status)) => w.put_u32(status.0),
    }
}

pub(crate) fn read_lock_test(
    alloc: Global,
    r: &mut Reader,
) -> Result<Result<(), LockRefusal>, OpFault>
    ensures { Gives (λ x. x) result r.new ((lock_outcome nothing).read r.old) }
{
    match r.u32()? {
        0 => Ok(Ok(())),
        10010 => Ok(Err(LockRefusal::Denied(read_lock_denied(alloc, r)?))),
        number => Ok(Err(LockRefusal::Other(Status(number)))),
    }
}

pub(crate) fn write_lock_test(w: &mut Writer, x: &Result<(), LockRefusal>) -> Result<(), NoMemory>
    requires { (lock_outcome nothing).Fits x.now }
    ensures { OnOk result (w.new ≡ w.old ++ (lock_outcome nothing).spell x.now) }
{
    match x {
        Ok(()) => w.put_u32(0),
        Err(LockRefusal::Denied(lock)) => {
            w.put_u32(10010)?;
            write_lock_denied(w, lock)
        }
        Err(LockRefusal::Other(status)) => w.put_u32(status.0),
    }
}
