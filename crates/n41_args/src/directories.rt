//! What CREATE, READDIR and RENAME take (RFC 8881, sections 18.4, 18.23 and 18.26).

ghost use Rattle.std.specs.Prelude.{◌≡◌, ◌++◌, OnOk};
ghost use Rattle.n41_xdr.specs.Format.{made};
ghost use Rattle.n41_attr.specs.Operations.{Gives};
ghost use Rattle.n41_args.specs.Directories.{directory_type, told_create, written_create, read_dir, rename};
ghost use Rattle.n41_args.specs.Args.{as_kept, Create};

use crate::arg::Arg;
use n41_attr::OpFault;
use n41_attr::parts::{
    read_fattr, read_set, read_string, read_verifier, write_fattr, write_set, write_string,
    write_verifier,
};
use n41_types::{Attrs, Bitmap, Bytes, NoMemory, Verifier};
use n41_xdr::{Reader, Writer, XdrFault};
use std::alloc::{AllocError, Global};

/// What CREATE takes for a directory, which is all that it makes here (RFC 8881, CREATE4args).
#[derive(Drop, PartialEq, Eq)]
pub struct CreateArgs {
    pub name: Bytes,
    pub attrs: Attrs,
}

impl Clone for CreateArgs {
    ghost is_clone = { λ x y. y ≡ x };

    fn clone(&self) -> Result<CreateArgs, AllocError> {
        Ok(CreateArgs {
            name: self.name.clone()?,
            attrs: self.attrs,
        })
    }
}

/// What READDIR takes (RFC 8881, READDIR4args). `dircount` and `maxcount` are in bytes, and `mask` is which attributes each entry is
/// to have.
#[derive(Drop, PartialEq, Eq)]
pub struct ReadDirArgs {
    pub cookie: u64,
    pub verifier: Verifier,
    pub dircount: u32,
    pub maxcount: u32,
    pub mask: Bitmap,
}

impl Clone for ReadDirArgs {
    ghost is_clone = { λ x y. y ≡ x };

    fn clone(&self) -> Result<ReadDirArgs, AllocError> {
        Ok(ReadDirArgs {
            cookie: self.cookie,
            verifier: self.verifier,
            dircount: self.dircount,
            maxcount: self.maxcount,
            mask: self.mask.clone()?,
        })
    }
}

/// What RENAME takes (RFC 8881, RENAME4args).
#[derive(Drop, PartialEq, Eq)]
pub struct RenameArgs {
    pub old: Bytes,
    pub new: Bytes,
}

impl Clone for RenameArgs {
    ghost is_clone = { λ x y. y ≡ x };

    fn clone(&self) -> Result<RenameArgs, AllocError> {
        Ok(RenameArgs {
            old: self.old.clone()?,
            new: self.new.clone()?,
        })
    }
}

/// The type of a directory, which is 2.
#[tactic(auto, unfolding(crate::specs::Directories::directory_type))]
fn read_directory_type(r: &mut Reader) -> Result<(), OpFault>
    ensures { Gives (λ _. tt {0}) result r.new (directory_type.read r.old) }
{
    match r.u32()? {
        2 => Ok(()),
        number => Err(OpFault::Xdr(XdrFault::BadArm(number))),
    }
}

#[tactic(auto, unfolding(crate::specs::Directories::directory_type))]
fn write_directory_type(w: &mut Writer) -> Result<(), NoMemory>
    ensures { OnOk result (w.new ≡ w.old ++ directory_type.spell (tt {0})) }
{
    w.put_u32(2)
}

#[tactic(auto, unfolding(crate::specs::Directories::told_create))]
pub(crate) fn read_create(alloc: Global, r: &mut Reader) -> Result<Arg, OpFault>
    ensures { Gives (λ x. x) result r.new (as_kept (made (λ a. Create a) told_create r.old)) }
{
    read_directory_type(r)?;
    let name = read_string(alloc, r)?;
    let attrs = read_fattr(alloc, r)?;
    Ok(Arg::Create(CreateArgs { name, attrs }))
}

#[tactic(auto, unfolding(crate::specs::Directories::told_create))]
pub(crate) fn write_create(w: &mut Writer, x: &CreateArgs) -> Result<(), NoMemory>
    requires { told_create.Fits (written_create x.now) }
    ensures { OnOk result (w.new ≡ w.old ++ told_create.spell (written_create x.now)) }
{
    write_directory_type(w)?;
    write_string(w, &x.name)?;
    write_fattr(w, &x.attrs)
}

#[tactic(auto, unfolding(crate::specs::Directories::read_dir))]
pub(crate) fn read_read_dir(alloc: Global, r: &mut Reader) -> Result<ReadDirArgs, OpFault>
    ensures { Gives (λ x. x) result r.new (read_dir.read r.old) }
{
    let cookie = r.u64()?;
    let verifier = read_verifier(r)?;
    let dircount = r.u32()?;
    let maxcount = r.u32()?;
    let mask = read_set(alloc, r)?;
    Ok(ReadDirArgs {
        cookie,
        verifier,
        dircount,
        maxcount,
        mask,
    })
}

#[tactic(auto, unfolding(crate::specs::Directories::read_dir))]
pub(crate) fn write_read_dir(w: &mut Writer, x: &ReadDirArgs) -> Result<(), NoMemory>
    requires { read_dir.Fits x.now }
    ensures { OnOk result (w.new ≡ w.old ++ read_dir.spell x.now) }
{
    w.put_u64(x.cookie)?;
    write_verifier(w, &x.verifier)?;
    w.put_u32(x.dircount)?;
    w.put_u32(x.maxcount)?;
    write_set(w, &x.mask)
}

#[tactic(auto, unfolding(crate::specs::Directories::rename))]
pub(crate) fn read_rename(alloc: Global, r: &mut Reader) -> Result<RenameArgs, OpFault>
    ensures { Gives (λ x. x) result r.new (rename.read r.old) }
{
    let old = read_string(alloc, r)?;
    let new = read_string(alloc, r)?;
    Ok(RenameArgs { old, new })
}

#[tactic(auto, unfolding(crate::specs::Directories::rename))]
pub(crate) fn write_rename(w: &mut Writer, x: &RenameArgs) -> Result<(), NoMemory>
    requires { rename.Fits x.now }
    ensures { OnOk result (w.new ≡ w.old ++ rename.spell x.now) }
{
    write_string(w, &x.old)?;
    write_string(w, &x.new)
}
