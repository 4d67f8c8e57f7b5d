//! The parts of plans, as operations tell them; None where no part is told so.

ghost use Rattle.std.specs.Prelude.{◌≡◌, IfOk};
ghost use Rattle.n41_compound.specs.Nameless.{IsNameless};
ghost use Rattle.n41_compound.specs.Parts.{claim_in, fh_in, kind_in, locker_in, mode_in, name_of, place_in, span_of};

use n41_args::{Arg, LockerArgs, OpenClaim};
use n41_results::LockType;
use n41_types::{Bytes, Claim, Fh, LockKind, Locker, Mode, Name, NameFault, NoMemory, Place, Span};
use std::alloc::{AllocError, Global};

/// The place that PUTROOTFH or PUTFH makes the current filehandle.
pub(crate) fn place_in(arg: &Arg) -> Result<Option<Place>, NoMemory>
    ensures { IfOk result (λ place. place ≡ place_in arg.now) }
{
    match arg {
        Arg::PutRootFh => Ok(Some(Place::Root)),
        Arg::PutFh(fh) => Ok(Some(Place::At(fh.clone()?))),
        _ => Ok(None),
    }
}

/// The filehandle that PUTFH makes the current one.
pub(crate) fn fh_in(arg: &Arg) -> Result<Option<Fh>, NoMemory>
    ensures { IfOk result (λ fh. fh ≡ fh_in arg.now) }
{
    match arg {
        Arg::PutFh(fh) => Ok(Some(fh.clone()?)),
        _ => Ok(None),
    }
}

/// What is told of bytes that are no name.
fn nameless(fault: NameFault) -> Result<Option<Name>, NoMemory>
    ensures { IfOk result (λ name. IsNameless fault name) }
{
    match fault {
        NameFault::NoMemory => Err(AllocError),
        NameFault::Empty | NameFault::TooLong(_) | NameFault::BadByte(_) => Ok(None),
    }
}

/// The name that bytes are.
pub(crate) fn name_of(alloc: Global, bytes: &Bytes) -> Result<Option<Name>, NoMemory>
    ensures { IfOk result (λ name. name ≡ name_of bytes.now) }
{
    match Name::of(alloc, bytes.as_slice()) {
        Ok(name) => Ok(Some(name)),
        Err(fault) => nameless(fault),
    }
}

/// The mode that a share access is: READ 1, WRITE 2 and BOTH 3.
pub(crate) fn mode_in(access: u32) -> Option<Mode>
    ensures { result ≡ mode_in access }
{
    match access {
        1 => Some(Mode::Read),
        2 => Some(Mode::Write),
        3 => Some(Mode::Both),
        _ => None,
    }
}

/// The kind of a lock that does not wait.
pub(crate) fn kind_in(kind: LockType) -> Option<LockKind>
    ensures { result ≡ kind_in kind }
{
    match kind {
        LockType::Read => Some(LockKind::Read),
        LockType::Write => Some(LockKind::Write),
        _ => None,
    }
}

/// The span of an offset and a length, where all ones is to the end.
pub(crate) fn span_of(offset: u64, length: u64) -> Span
    ensures { result ≡ span_of offset length }
{
    Span::of_wire(offset, length)
}

/// The claim of a plan, which is on no name.
pub(crate) fn claim_in(claim: &OpenClaim) -> Option<Claim>
    ensures { result ≡ claim_in claim.now }
{
    match claim {
        OpenClaim::Null(_) => None,
        OpenClaim::Previous(kind) => Some(Claim::Previous(*kind)),
        OpenClaim::Fh => Some(Claim::Fh),
        OpenClaim::DelegCur(stateid) => Some(Claim::DelegCur(*stateid)),
    }
}

/// Who locks, where all numbers beside are 0.
pub(crate) fn locker_in(locker: &LockerArgs) -> Result<Option<Locker>, NoMemory>
    ensures { IfOk result (λ who. who ≡ locker_in locker.now) }
{
    match locker {
        LockerArgs::New {
            seqid,
            opener,
            lock_seqid,
            owner,
        } => {
            if *seqid == 0 && *lock_seqid == 0 && owner.client == 0 {
                Ok(Some(Locker::New {
                    opener: *opener,
                    owner: owner.owner.clone()?,
                }))
            } else {
                Ok(None)
            }
        }
        LockerArgs::Old { stateid, seqid } => {
            if *seqid == 0 {
                Ok(Some(Locker::Old(*stateid)))
            } else {
                Ok(None)
            }
        }
    }
}
