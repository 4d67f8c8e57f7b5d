//! What LOCK, LOCKT and LOCKU take (RFC 8881, sections 18.10 to 18.12).

ghost use Rattle.std.specs.Prelude.{◌≡◌, ◌++◌, OnOk};
ghost use Rattle.n41_xdr.specs.Format.{made};
ghost use Rattle.n41_attr.specs.Operations.{Gives};
ghost use Rattle.n41_args.specs.declared.locks.LockerArgs.TheVariants.{New, Old};
ghost use Rattle.n41_args.specs.Locks.{new_locker, old_locker, locker, lock, lock_test, unlock};

use crate::owners::{StateOwner, read_owner, write_owner};
use n41_attr::OpFault;
use n41_attr::parts::{read_stateid, write_stateid};
use n41_results::LockType;
use n41_shared::locks::{read_lock_type, write_lock_type};
use n41_types::{NoMemory, Stateid};
use n41_xdr::{Reader, Writer, XdrFault};
use std::alloc::{AllocError, Global};

/// Who locks (RFC 8881, locker4): a lock owner that has no lock on the file yet, or the holder of a lock stateid.
#[derive(Drop, PartialEq, Eq)]
pub enum LockerArgs {
    New {
        seqid: u32,
        opener: Stateid,
        lock_seqid: u32,
        owner: StateOwner,
    },
    Old {
        stateid: Stateid,
        seqid: u32,
    },
}

impl Clone for LockerArgs {
    ghost is_clone = { λ x y. y ≡ x };

    fn clone(&self) -> Result<LockerArgs, AllocError> {
        Ok(match self {
            LockerArgs::New {
                seqid,
                opener,
                lock_seqid,
                owner,
            } => LockerArgs::New {
                seqid: *seqid,
                opener: *opener,
                lock_seqid: *lock_seqid,
                owner: owner.clone()?,
            },
            LockerArgs::Old { stateid, seqid } => LockerArgs::Old {
                stateid: *stateid,
                seqid: *seqid,
            },
        })
    }
}

/// What LOCK takes (RFC 8881, LOCK4args). A length of all ones is to the end.
#[derive(Drop, PartialEq, Eq)]
pub struct LockArgs {
    pub kind: LockType,
    pub reclaim: bool,
    pub offset: u64,
    pub length: u64,
    pub locker: LockerArgs,
}

impl Clone for LockArgs {
    ghost is_clone = { λ x y. y ≡ x };

    fn clone(&self) -> Result<LockArgs, AllocError> {
        Ok(LockArgs {
            kind: self.kind,
            reclaim: self.reclaim,
            offset: self.offset,
            length: self.length,
            locker: self.locker.clone()?,
        })
    }
}

/// What LOCKT takes (RFC 8881, LOCKT4args).
#[derive(Drop, PartialEq, Eq)]
pub struct LockTestArgs {
    pub kind: LockType,
    pub offset: u64,
    pub length: u64,
    pub owner: StateOwner,
}

impl Clone for LockTestArgs {
    ghost is_clone = { λ x y. y ≡ x };

    fn clone(&self) -> Result<LockTestArgs, AllocError> {
        Ok(LockTestArgs {
            kind: self.kind,
            offset: self.offset,
            length: self.length,
            owner: self.owner.clone()?,
        })
    }
}

/// What LOCKU takes (RFC 8881, LOCKU4args).
#[derive(Clone, Copy, PartialEq, Eq)]
pub struct UnlockArgs {
    pub kind: LockType,
    pub seqid: u32,
    pub stateid: Stateid,
    pub offset: u64,
    pub length: u64,
}

#[tactic(auto, unfolding(crate::specs::Locks::new_locker))]
fn read_new_locker(alloc: Global, r: &mut Reader) -> Result<LockerArgs, OpFault>
    ensures { Gives (λ x. x) result r.new (made (λ x. New x.0 x.1.0 x.1.1.0 x.1.1.1) new_locker r.old) }
{
    let seqid = r.u32()?;
    let opener = read_stateid(r)?;
    let lock_seqid = r.u32()?;
    let owner = read_owner(alloc, r)?;
    Ok(LockerArgs::New {
        seqid,
        opener,
        lock_seqid,
        owner,
    })
}

#[tactic(auto, unfolding(crate::specs::Locks::old_locker))]
fn read_old_locker(r: &mut Reader) -> Result<LockerArgs, OpFault>
    ensures { Gives (λ x. x) result r.new (made (λ x. Old x.0 x.1) old_locker r.old) }
{
    let stateid = read_stateid(r)?;
    let seqid = r.u32()?;
    Ok(LockerArgs::Old { stateid, seqid })
}

#[tactic(auto, unfolding(crate::specs::Locks::locker))]
fn read_locker(alloc: Global, r: &mut Reader) -> Result<LockerArgs, OpFault>
    ensures { Gives (λ x. x) result r.new (locker.read r.old) }
{
    match r.u32()? {
        0 => read_old_locker(r),
        1 => read_new_locker(alloc, r),
        number => Err(OpFault::Xdr(XdrFault::BadBool(number))),
    }
}

#[tactic(auto, unfolding(crate::specs::Locks::locker, crate::specs::Locks::new_locker, crate::specs::Locks::old_locker))]
fn write_locker(w: &mut Writer, x: &LockerArgs) -> Result<(), NoMemory>
    ensures { OnOk result (w.new ≡ w.old ++ locker.spell x.now) }
{
    match x {
        LockerArgs::New {
            seqid,
            opener,
            lock_seqid,
            owner,
        } => {
            w.put_u32(1)?;
            w.put_u32(*seqid)?;
            write_stateid(w, opener)?;
            w.put_u32(*lock_seqid)?;
            write_owner(w, owner)
        }
        LockerArgs::Old { stateid, seqid } => {
            w.put_u32(0)?;
            write_stateid(w, stateid)?;
            w.put_u32(*seqid)
        }
    }
}

#[tactic(auto, unfolding(crate::specs::Locks::lock))]
pub(crate) fn read_lock(alloc: Global, r: &mut Reader) -> Result<LockArgs, OpFault>
    ensures { Gives (λ x. x) result r.new (lock.read r.old) }
{
    let kind = read_lock_type(r)?;
    let reclaim = r.boolean()?;
    let offset = r.u64()?;
    let length = r.u64()?;
    let locker = read_locker(alloc, r)?;
    Ok(LockArgs {
        kind,
        reclaim,
        offset,
        length,
        locker,
    })
}

#[tactic(auto, unfolding(crate::specs::Locks::lock))]
pub(crate) fn write_lock(w: &mut Writer, x: &LockArgs) -> Result<(), NoMemory>
    ensures { OnOk result (w.new ≡ w.old ++ lock.spell x.now) }
{
    write_lock_type(w, x.kind)?;
    w.put_bool(x.reclaim)?;
    w.put_u64(x.offset)?;
    w.put_u64(x.length)?;
    write_locker(w, &x.locker)
}

#[tactic(auto, unfolding(crate::specs::Locks::lock_test))]
pub(crate) fn read_lock_test(alloc: Global, r: &mut Reader) -> Result<LockTestArgs, OpFault>
    ensures { Gives (λ x. x) result r.new (lock_test.read r.old) }
{
    let kind = read_lock_type(r)?;
    let offset = r.u64()?;
    let length = r.u64()?;
    let owner = read_owner(alloc, r)?;
    Ok(LockTestArgs {
        kind,
        offset,
        length,
        owner,
    })
}

#[tactic(auto, unfolding(crate::specs::Locks::lock_test))]
pub(crate) fn write_lock_test(w: &mut Writer, x: &LockTestArgs) -> Result<(), NoMemory>
    ensures { OnOk result (w.new ≡ w.old ++ lock_test.spell x.now) }
{
    write_lock_type(w, x.kind)?;
    w.put_u64(x.offset)?;
    w.put_u64(x.length)?;
    write_owner(w, &x.owner)
}

#[tactic(auto, unfolding(crate::specs::Locks::unlock))]
pub(crate) fn read_unlock(r: &mut Reader) -> Result<UnlockArgs, OpFault>
    ensures { Gives (λ x. x) result r.new (unlock.read r.old) }
{
    let kind = read_lock_type(r)?;
    let seqid = r.u32()?;
    let stateid = read_stateid(r)?;
    let offset = r.u64()?;
    let length = r.u64()?;
    Ok(UnlockArgs {
        kind,
        seqid,
        stateid,
        offset,
        length,
    })
}

#[tactic(auto, unfolding(crate::specs::Locks::unlock))]
pub(crate) fn write_unlock(w: &mut Writer, x: &UnlockArgs) -> Result<(), NoMemory>
    ensures { OnOk result (w.new ≡ w.old ++ unlock.spell x.now) }
{
    write_lock_type(w, x.kind)?;
    w.put_u32(x.seqid)?;
    write_stateid(w, &x.stateid)?;
    w.put_u64(x.offset)?;
    w.put_u64(x.length)
}
