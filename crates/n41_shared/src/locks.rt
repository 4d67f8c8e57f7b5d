//! Kinds of locks (RFC 8881, section 3.3.18, nfs_lock_type4).

ghost use Rattle.std.specs.Prelude.{◌≡◌, ◌++◌, OnOk};
ghost use Rattle.n41_attr.specs.Operations.{Gives};
ghost use Rattle.n41_shared.specs.Locks.{lock_type};

use n41_attr::OpFault;
use n41_results::LockType;
use n41_types::NoMemory;
use n41_xdr::{Reader, Writer, XdrFault};

/// The kind of a lock (RFC 8881, nfs_lock_type4).
#[tactic(auto, unfolding(crate::specs::Locks::lock_type))]
pub fn read_lock_type(r: &mut Reader) -> Result<LockType, OpFault>
    ensures { Gives (λ x. x) result r.new (lock_type.read r.old) }
{
    match r.u32()? {
        1 => Ok(LockType::Read),
        2 => Ok(LockType::Write),
        3 => Ok(LockType::ReadWaiting),
        4 => Ok(LockType::WriteWaiting),
        number => Err(OpFault::Xdr(XdrFault::BadArm(number))),
    }
}

/// The kind of a lock, written at the end.
#[tactic(auto, unfolding(crate::specs::Locks::lock_type))]
pub fn write_lock_type(w: &mut Writer, x: LockType) -> Result<(), NoMemory>
    ensures { OnOk result (w.new ≡ w.old ++ lock_type.spell x) }
{
    match x {
        LockType::Read => w.put_u32(1),
        LockType::Write => w.put_u32(2),
        LockType::ReadWaiting => w.put_u32(3),
        LockType::WriteWaiting => w.put_u32(4),
    }
}
