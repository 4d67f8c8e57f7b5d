//! Which plan operations are those of.

ghost use Rattle.std.specs.Prelude.{◌≡◌, IfOk};
ghost use Rattle.n41_compound.specs.Plans.{headed, opening, pair, plan_of, saving};

use crate::changes::{make_dir_of, opened, remove_of, rename_of, resize_of, write_of};
use crate::readings::{list_of, look_of, read_of, test_lock_of};
use crate::singles::single;
use crate::states::{close_of, downgrade_of, lock_of, return_of, unlock_of};
use crate::walks::walk_of;
use n41_args::{Arg, OpenArgs};
use n41_types::{NoMemory, Plan};
use std::alloc::Global;

/// By the one operation behind PUTROOTFH or PUTFH.
fn pair(alloc: Global, put: &Arg, arg: &Arg) -> Result<Option<Plan>, NoMemory>
    ensures { IfOk result (λ plan. plan ≡ pair put.now arg.now) }
{
    match arg {
        Arg::GetAttr(mask) => look_of(put, mask.as_slice()),
        Arg::Read(args) => read_of(put, args),
        Arg::ReadDir(args) => list_of(put, args),
        Arg::LockTest(args) => test_lock_of(put, args),
        Arg::OpenDowngrade(args) => downgrade_of(put, args),
        Arg::Close(args) => close_of(put, args),
        Arg::Lock(args) => lock_of(put, args),
        Arg::Unlock(args) => unlock_of(put, args),
        Arg::DelegReturn(stateid) => return_of(put, stateid),
        Arg::Write(args) => write_of(put, args),
        Arg::SetAttr(args) => resize_of(put, args),
        Arg::Create(args) => make_dir_of(alloc, put, args),
        Arg::Remove(name) => remove_of(alloc, put, name),
        _ => Ok(None),
    }
}

/// OPEN and GETFH.
fn opening(
    alloc: Global,
    put: &Arg,
    args: &OpenArgs,
    rest: &[Arg],
) -> Result<Option<Plan>, NoMemory>
    ensures { IfOk result (λ plan. plan ≡ opening put.now args.now rest.now) }
{
    match rest {
        [Arg::GetFh] => opened(alloc, put, args),
        _ => Ok(None),
    }
}

/// SAVEFH, PUTROOTFH or PUTFH, and RENAME.
fn saving(alloc: Global, from: &Arg, rest: &[Arg]) -> Result<Option<Plan>, NoMemory>
    ensures { IfOk result (λ plan. plan ≡ saving from.now rest.now) }
{
    match rest {
        [to, Arg::Rename(args)] => rename_of(alloc, from, to, args),
        _ => Ok(None),
    }
}

/// By the first operation, and what follows.
fn headed(alloc: Global, first: &Arg, rest: &[Arg]) -> Result<Option<Plan>, NoMemory>
    ensures { IfOk result (λ plan. plan ≡ headed first.now rest.now) }
{
    match rest {
        [] => single(first),
        [Arg::Open(args), more @ ..] => opening(alloc, first, args, more),
        [Arg::SaveFh, more @ ..] => saving(alloc, first, more),
        [Arg::GetFh, ..] | [Arg::Lookup(_), ..] => walk_of(alloc, first, rest),
        [arg] => pair(alloc, first, arg),
        _ => Ok(None),
    }
}

/// The plan that has these operations behind its SEQUENCE.
pub(crate) fn plan_of(alloc: Global, args: &[Arg]) -> Result<Option<Plan>, NoMemory>
    ensures { IfOk result (λ plan. plan ≡ plan_of args.now) }
{
    match args {
        [] => Ok(Some(Plan::Renew)),
        [first, rest @ ..] => headed(alloc, first, rest),
    }
}
