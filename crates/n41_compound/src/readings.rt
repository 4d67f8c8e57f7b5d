//! The plans that read, by the operation behind PUTROOTFH or PUTFH.

ghost use Rattle.std.specs.Prelude.{◌≡◌, IfOk};
ghost use Rattle.n41_compound.specs.Parts.{fh_in};
ghost use Rattle.n41_compound.specs.Readings.{is_empty_mask, is_lease_mask, is_stat_mask, lease_at, list_of, look_of, read_at, test_lock_of};

use crate::parts::{fh_in, kind_in, place_in, span_of};
use n41_args::{Arg, LockTestArgs, ReadArgs, ReadDirArgs};
use n41_types::{NoMemory, Plan};

/// Type 1, change 3, size 4, fileid 20 and mode 33.
fn is_stat_mask(mask: &[u32]) -> bool
    ensures { result ≡ is_stat_mask mask.now }
{
    match mask {
        [first, second] => *first == 1_048_602 && *second == 2,
        _ => false,
    }
}

/// The lease time, 10.
fn is_lease_mask(mask: &[u32]) -> bool
    ensures { result ≡ is_lease_mask mask.now }
{
    match mask {
        [first] => *first == 1024,
        _ => false,
    }
}

fn is_empty_mask(mask: &[u32]) -> bool
    ensures { result ≡ is_empty_mask mask.now }
{
    mask.is_empty()
}

/// The lease time is asked for at the root.
fn lease_at(put: &Arg) -> Option<Plan>
    ensures { result ≡ lease_at put.now }
{
    match put {
        Arg::PutRootFh => Some(Plan::LeaseTime),
        _ => None,
    }
}

/// GETATTR.
pub(crate) fn look_of(put: &Arg, mask: &[u32]) -> Result<Option<Plan>, NoMemory>
    ensures { IfOk result (λ plan. plan ≡ look_of put.now mask.now) }
{
    if is_stat_mask(mask) {
        return match place_in(put)? {
            Some(at) => Ok(Some(Plan::Stat { at })),
            None => Ok(None),
        };
    }
    if is_lease_mask(mask) {
        Ok(lease_at(put))
    } else {
        Ok(None)
    }
}

/// READ.
pub(crate) fn read_of(put: &Arg, args: &ReadArgs) -> Result<Option<Plan>, NoMemory>
    ensures { IfOk result (λ plan. plan ≡ read_at (fh_in put.now) args.now) }
{
    match fh_in(put)? {
        Some(fh) => Ok(Some(Plan::Read {
            fh,
            stateid: args.stateid,
            offset: args.offset,
            count: args.count,
        })),
        None => Ok(None),
    }
}

/// READDIR.
pub(crate) fn list_of(put: &Arg, args: &ReadDirArgs) -> Result<Option<Plan>, NoMemory>
    ensures { IfOk result (λ plan. plan ≡ list_of put.now args.now) }
{
    if args.dircount != args.maxcount || !is_empty_mask(args.mask.as_slice()) {
        return Ok(None);
    }
    match place_in(put)? {
        Some(at) => Ok(Some(Plan::List {
            at,
            cookie: args.cookie,
            verf: args.verifier,
            max: args.maxcount,
        })),
        None => Ok(None),
    }
}

/// LOCKT.
pub(crate) fn test_lock_of(put: &Arg, args: &LockTestArgs) -> Result<Option<Plan>, NoMemory>
    ensures { IfOk result (λ plan. plan ≡ test_lock_of put.now args.now) }
{
    if args.owner.client != 0 {
        return Ok(None);
    }
    let Some(kind) = kind_in(args.kind) else {
        return Ok(None);
    };
    match fh_in(put)? {
        Some(fh) => Ok(Some(Plan::TestLock {
            fh,
            kind,
            span: span_of(args.offset, args.length),
            owner: args.owner.owner.clone()?,
        })),
        None => Ok(None),
    }
}
