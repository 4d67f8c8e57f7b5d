//! The plans that change files and directories, by the operations behind PUTROOTFH or PUTFH.

ghost use Rattle.std.specs.Prelude.{◌≡◌, IfOk};
ghost use Rattle.n41_compound.specs.Parts.{fh_in, name_of, place_in};
ghost use Rattle.n41_compound.specs.Changes.{claimed_name, create_of, is_mode, is_told, make_dir_of, opened, remove_at, rename_of, resize_at, size_in, write_of};

use crate::parts::{fh_in, name_of, place_in};
use crate::states::open_of;
use n41_args::{Arg, CreateArgs, OpenArgs, OpenClaim, OpenHow, RenameArgs, SetAttrArgs, WriteArgs};
use n41_types::{Attrs, Bytes, Name, NoMemory, Plan};
use std::alloc::Global;

fn is_told(number: Option<u32>, wanted: u32) -> bool
    ensures { result ≡ is_told number wanted }
{
    match number {
        Some(told) => told == wanted,
        None => false,
    }
}

/// Whether this mode is all that is told.
#[tactic(auto, unfolding(crate::specs::Changes::is_mode))]
fn is_mode(attrs: &Attrs, mode: u32) -> bool
    ensures { result ≡ is_mode attrs.now mode }
{
    attrs.kind.is_none()
        && attrs.change.is_none()
        && attrs.size.is_none()
        && attrs.lease.is_none()
        && attrs.fileid.is_none()
        && is_told(attrs.mode, mode)
}

/// The size in bytes, where it is all that is told.
#[tactic(auto, unfolding(crate::specs::Changes::size_in))]
fn size_in(attrs: &Attrs) -> Option<u64>
    ensures { result ≡ size_in attrs.now }
{
    if attrs.kind.is_none()
        && attrs.change.is_none()
        && attrs.lease.is_none()
        && attrs.fileid.is_none()
        && attrs.mode.is_none()
    {
        attrs.size
    } else {
        None
    }
}

/// WRITE.
pub(crate) fn write_of(put: &Arg, args: &WriteArgs) -> Result<Option<Plan>, NoMemory>
    ensures { IfOk result (λ plan. plan ≡ write_of put.now args.now) }
{
    if args.stable != 2 {
        return Ok(None);
    }
    match fh_in(put)? {
        Some(fh) => Ok(Some(Plan::WriteBytes {
            fh,
            stateid: args.stateid,
            offset: args.offset,
            bytes: args.bytes.clone()?,
        })),
        None => Ok(None),
    }
}

/// SETATTR.
pub(crate) fn resize_of(put: &Arg, args: &SetAttrArgs) -> Result<Option<Plan>, NoMemory>
    ensures { IfOk result (λ plan. plan ≡ resize_at (size_in args.now.attrs) (fh_in put.now) args.now) }
{
    let Some(size) = size_in(&args.attrs) else {
        return Ok(None);
    };
    match fh_in(put)? {
        Some(fh) => Ok(Some(Plan::Resize {
            fh,
            stateid: args.stateid,
            size,
        })),
        None => Ok(None),
    }
}

/// CREATE.
pub(crate) fn make_dir_of(
    alloc: Global,
    put: &Arg,
    args: &CreateArgs,
) -> Result<Option<Plan>, NoMemory>
    ensures { IfOk result (λ plan. plan ≡ make_dir_of put.now args.now) }
{
    if !is_mode(&args.attrs, 0o755) {
        return Ok(None);
    }
    let Some(dir) = place_in(put)? else {
        return Ok(None);
    };
    match name_of(alloc, &args.name)? {
        Some(name) => Ok(Some(Plan::MakeDir { dir, name })),
        None => Ok(None),
    }
}

/// REMOVE.
pub(crate) fn remove_of(alloc: Global, put: &Arg, name: &Bytes) -> Result<Option<Plan>, NoMemory>
    ensures { IfOk result (λ plan. plan ≡ remove_at (place_in put.now) (name_of name.now)) }
{
    let Some(dir) = place_in(put)? else {
        return Ok(None);
    };
    match name_of(alloc, name)? {
        Some(name) => Ok(Some(Plan::Remove { dir, name })),
        None => Ok(None),
    }
}

/// RENAME.
pub(crate) fn rename_of(
    alloc: Global,
    from: &Arg,
    to: &Arg,
    args: &RenameArgs,
) -> Result<Option<Plan>, NoMemory>
    ensures { IfOk result (λ plan. plan ≡ rename_of from.now to.now args.now) }
{
    let Some(from) = place_in(from)? else {
        return Ok(None);
    };
    let Some(to) = place_in(to)? else {
        return Ok(None);
    };
    let Some(old) = name_of(alloc, &args.old)? else {
        return Ok(None);
    };
    match name_of(alloc, &args.new)? {
        Some(new) => Ok(Some(Plan::Rename { from, old, to, new })),
        None => Ok(None),
    }
}

/// The name of a file that is made.
fn claimed_name(alloc: Global, claim: &OpenClaim) -> Result<Option<Name>, NoMemory>
    ensures { IfOk result (λ name. name ≡ claimed_name claim.now) }
{
    match claim {
        OpenClaim::Null(name) => name_of(alloc, name),
        _ => Ok(None),
    }
}

/// OPEN of what is made.
fn create_of(
    alloc: Global,
    put: &Arg,
    guarded: bool,
    attrs: &Attrs,
    args: &OpenArgs,
) -> Result<Option<Plan>, NoMemory>
    ensures { IfOk result (λ plan. plan ≡ create_of put.now guarded attrs.now args.now) }
{
    if args.access != 3 || !is_mode(attrs, 0o644) {
        return Ok(None);
    }
    let Some(dir) = place_in(put)? else {
        return Ok(None);
    };
    match claimed_name(alloc, &args.claim)? {
        Some(name) => Ok(Some(Plan::CreateFile {
            dir,
            name,
            guarded,
            owner: args.owner.owner.clone()?,
        })),
        None => Ok(None),
    }
}

/// OPEN, with GETFH behind it.
pub(crate) fn opened(alloc: Global, put: &Arg, args: &OpenArgs) -> Result<Option<Plan>, NoMemory>
    ensures { IfOk result (λ plan. plan ≡ opened put.now args.now) }
{
    if args.seqid != 0 || args.deny != 0 || args.owner.client != 0 {
        return Ok(None);
    }
    match &args.how {
        OpenHow::NoCreate => open_of(put, args),
        OpenHow::Create { guarded, attrs } => create_of(alloc, put, *guarded, attrs, args),
    }
}
