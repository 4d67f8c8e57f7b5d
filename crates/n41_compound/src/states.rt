//! The plans that change opens, locks and delegations, by the operation behind PUTFH.

ghost use Rattle.std.specs.Prelude.{◌≡◌, IfOk};
ghost use Rattle.n41_compound.specs.Parts.{claim_in, fh_in, mode_in};
ghost use Rattle.n41_compound.specs.States.{close_of, downgrade_of, is_write_lock, lock_of, open_at, return_at, unlock_of};

use crate::parts::{claim_in, fh_in, kind_in, locker_in, mode_in, span_of};
use n41_args::{Arg, CloseArgs, DowngradeArgs, LockArgs, OpenArgs, UnlockArgs};
use n41_results::LockType;
use n41_types::{NoMemory, Plan, Stateid};

/// OPEN of what is there.
pub(crate) fn open_of(put: &Arg, args: &OpenArgs) -> Result<Option<Plan>, NoMemory>
    ensures { IfOk result (λ plan. plan ≡ open_at (mode_in args.now.access) (claim_in args.now.claim) (fh_in put.now) args.now) }
{
    let Some(mode) = mode_in(args.access) else {
        return Ok(None);
    };
    let Some(claim) = claim_in(&args.claim) else {
        return Ok(None);
    };
    match fh_in(put)? {
        Some(fh) => Ok(Some(Plan::OpenAt {
            fh,
            mode,
            owner: args.owner.owner.clone()?,
            claim,
        })),
        None => Ok(None),
    }
}

/// OPEN_DOWNGRADE.
pub(crate) fn downgrade_of(put: &Arg, args: &DowngradeArgs) -> Result<Option<Plan>, NoMemory>
    ensures { IfOk result (λ plan. plan ≡ downgrade_of put.now args.now) }
{
    if args.seqid != 0 || args.deny != 0 {
        return Ok(None);
    }
    let Some(mode) = mode_in(args.access) else {
        return Ok(None);
    };
    match fh_in(put)? {
        Some(fh) => Ok(Some(Plan::Downgrade {
            fh,
            stateid: args.stateid,
            mode,
        })),
        None => Ok(None),
    }
}

/// CLOSE.
pub(crate) fn close_of(put: &Arg, args: &CloseArgs) -> Result<Option<Plan>, NoMemory>
    ensures { IfOk result (λ plan. plan ≡ close_of put.now args.now) }
{
    if args.seqid != 0 {
        return Ok(None);
    }
    match fh_in(put)? {
        Some(fh) => Ok(Some(Plan::CloseState {
            fh,
            stateid: args.stateid,
        })),
        None => Ok(None),
    }
}

/// LOCK.
pub(crate) fn lock_of(put: &Arg, args: &LockArgs) -> Result<Option<Plan>, NoMemory>
    ensures { IfOk result (λ plan. plan ≡ lock_of put.now args.now) }
{
    let Some(kind) = kind_in(args.kind) else {
        return Ok(None);
    };
    let Some(fh) = fh_in(put)? else {
        return Ok(None);
    };
    match locker_in(&args.locker)? {
        Some(locker) => Ok(Some(Plan::LockBytes {
            fh,
            kind,
            span: span_of(args.offset, args.length),
            reclaim: args.reclaim,
            locker,
        })),
        None => Ok(None),
    }
}

fn is_write_lock(kind: LockType) -> bool
    ensures { result ≡ is_write_lock kind }
{
    matches!(kind, LockType::Write)
}

/// LOCKU.
pub(crate) fn unlock_of(put: &Arg, args: &UnlockArgs) -> Result<Option<Plan>, NoMemory>
    ensures { IfOk result (λ plan. plan ≡ unlock_of put.now args.now) }
{
    if args.seqid != 0 || !is_write_lock(args.kind) {
        return Ok(None);
    }
    match fh_in(put)? {
        Some(fh) => Ok(Some(Plan::UnlockBytes {
            fh,
            span: span_of(args.offset, args.length),
            stateid: args.stateid,
        })),
        None => Ok(None),
    }
}

/// DELEGRETURN.
pub(crate) fn return_of(put: &Arg, stateid: &Stateid) -> Result<Option<Plan>, NoMemory>
    ensures { IfOk result (λ plan. plan ≡ return_at (fh_in put.now) stateid.now) }
{
    match fh_in(put)? {
        Some(fh) => Ok(Some(Plan::ReturnDeleg {
            fh,
            stateid: *stateid,
        })),
        None => Ok(None),
    }
}
