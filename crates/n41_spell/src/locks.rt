//! Locks of bytes.

ghost use Rattle.std.specs.Prelude.{◌≡◌, ◌++◌, IfOk, OnOk};
ghost use Rattle.n41_requests.specs.Plans.{args_of, lock_type_of, locker_of, owner_of};
ghost use Rattle.n41_requests.specs.Requests.{args_text, AllFit};

use crate::places::write_put_fh;
use n41_args::{Arg, LockArgs, LockTestArgs, LockerArgs, StateOwner, UnlockArgs, write_arg};
use n41_results::LockType;
use n41_types::{Fh, LockKind, Locker, NoMemory, Owner, Plan, Span, Stateid};
use n41_xdr::Writer;

fn lock_type(kind: LockKind) -> LockType
    ensures { result ≡ lock_type_of kind }
{
    match kind {
        LockKind::Read => LockType::Read,
        LockKind::Write => LockType::Write,
    }
}

/// An owner on the wire.
pub(crate) fn state_owner(owner: &Owner) -> Result<StateOwner, NoMemory>
    ensures { IfOk result (λ x. x ≡ owner_of owner.now) }
{
    Ok(StateOwner {
        client: 0,
        owner: owner.clone()?,
    })
}

fn locker_args(locker: &Locker) -> Result<LockerArgs, NoMemory>
    ensures { IfOk result (λ x. x ≡ locker_of locker.now) }
{
    Ok(match locker {
        Locker::New { opener, owner } => LockerArgs::New {
            seqid: 0,
            opener: *opener,
            lock_seqid: 0,
            owner: state_owner(owner)?,
        },
        Locker::Old(stateid) => LockerArgs::Old {
            stateid: *stateid,
            seqid: 0,
        },
    })
}

pub(crate) fn write_lock(
    w: &mut Writer,
    fh: &Fh,
    kind: LockKind,
    span: Span,
    reclaim: bool,
    locker: &Locker,
) -> Result<(), NoMemory>
    requires { AllFit (args_of (Plan.LockBytes fh.now kind span reclaim locker.now)) }
    ensures { OnOk result (w.new ≡ w.old ++ args_text (args_of (Plan.LockBytes fh.now kind span reclaim locker.now))) }
{
    write_put_fh(w, fh)?;
    let args = LockArgs {
        kind: lock_type(kind),
        reclaim,
        offset: span.from,
        length: span.wire_length(),
        locker: locker_args(locker)?,
    };
    write_arg(w, &Arg::Lock(args))
}

pub(crate) fn write_test_lock(
    w: &mut Writer,
    fh: &Fh,
    kind: LockKind,
    span: Span,
    owner: &Owner,
) -> Result<(), NoMemory>
    requires { AllFit (args_of (Plan.TestLock fh.now kind span owner.now)) }
    ensures { OnOk result (w.new ≡ w.old ++ args_text (args_of (Plan.TestLock fh.now kind span owner.now))) }
{
    write_put_fh(w, fh)?;
    let args = LockTestArgs {
        kind: lock_type(kind),
        offset: span.from,
        length: span.wire_length(),
        owner: state_owner(owner)?,
    };
    write_arg(w, &Arg::LockTest(args))
}

pub(crate) fn write_unlock(
    w: &mut Writer,
    fh: &Fh,
    span: Span,
    stateid: &Stateid,
) -> Result<(), NoMemory>
    requires { AllFit (args_of (Plan.UnlockBytes fh.now span stateid.now)) }
    ensures { OnOk result (w.new ≡ w.old ++ args_text (args_of (Plan.UnlockBytes fh.now span stateid.now))) }
{
    write_put_fh(w, fh)?;
    let args = UnlockArgs {
        kind: LockType::Write,
        seqid: 0,
        stateid: *stateid,
        offset: span.from,
        length: span.wire_length(),
    };
    write_arg(w, &Arg::Unlock(args))
}
