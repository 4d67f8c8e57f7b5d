//! Directories and attributes.

ghost use Rattle.std.specs.Prelude.{◌≡◌, ◌++◌, [], ◌∷◌, IfOk, OnOk, map};
ghost use Rattle.n41_args.specs.Args.{told_arg, written_arg};
ghost use Rattle.n41_args.specs.declared.arg.Arg.TheVariants.{Lookup};
ghost use Rattle.n41_requests.specs.Plans.{args_of, lease_mask, stat_mask};
ghost use Rattle.n41_requests.specs.Requests.{args_text, AllFit};

use crate::openings::with_mode;
use crate::places::{name_bytes, write_put};
use n41_args::{Arg, CreateArgs, ReadDirArgs, RenameArgs, write_arg};
use n41_types::{Bitmap, Name, NoMemory, Path, Place, Plan, Verifier};
use n41_xdr::Writer;
use std::alloc::Global;

/// The mode of a new directory.
const DIRECTORY_MODE: u32 = 0o755;

/// Type 1, change 3, size 4, fileid 20 and mode 33.
const STAT_WORDS: [u32; 2] = [1 << 1 | 1 << 3 | 1 << 4 | 1 << 20, 1 << 1];

/// The lease time, 10.
const LEASE_WORD: u32 = 1 << 10;

fn write_name(alloc: Global, w: &mut Writer, name: &Name) -> Result<(), NoMemory>
    requires { told_arg.Fits (written_arg (Lookup name.now)) }
    ensures { OnOk result (w.new ≡ w.old ++ told_arg.spell (written_arg (Lookup name.now))) }
{
    write_arg(w, &Arg::Lookup(name_bytes(alloc, name)?))
}

fn write_names(alloc: Global, w: &mut Writer, names: &[Name]) -> Result<(), NoMemory>
    requires { AllFit (map (λ name. Lookup name) names.now) }
    ensures { OnOk result (w.new ≡ w.old ++ args_text (map (λ name. Lookup name) names.now)) }
{
    for name in names {
        write_name(alloc, w, name)?;
    }
    Ok(())
}

pub(crate) fn write_walk(
    alloc: Global,
    w: &mut Writer,
    from: &Place,
    names: &Path,
) -> Result<(), NoMemory>
    requires { AllFit (args_of (Plan.Walk from.now names.now)) }
    ensures { OnOk result (w.new ≡ w.old ++ args_text (args_of (Plan.Walk from.now names.now))) }
{
    write_put(w, from)?;
    write_names(alloc, w, names.as_slice())?;
    write_arg(w, &Arg::GetFh)
}

fn stat_mask(alloc: Global) -> Result<Bitmap, NoMemory>
    ensures { IfOk result (λ mask. mask ≡ stat_mask) }
{
    let mut words = Vec::new(alloc);
    words.push(STAT_WORDS[0])?;
    words.push(STAT_WORDS[1])?;
    Bitmap::from_vec(alloc, words)
}

fn lease_mask(alloc: Global) -> Result<Bitmap, NoMemory>
    ensures { IfOk result (λ mask. mask ≡ lease_mask) }
{
    let mut words = Vec::new(alloc);
    words.push(LEASE_WORD)?;
    Bitmap::from_vec(alloc, words)
}

pub(crate) fn write_stat(alloc: Global, w: &mut Writer, at: &Place) -> Result<(), NoMemory>
    requires { AllFit (args_of (Plan.Stat at.now)) }
    ensures { OnOk result (w.new ≡ w.old ++ args_text (args_of (Plan.Stat at.now))) }
{
    write_put(w, at)?;
    write_arg(w, &Arg::GetAttr(stat_mask(alloc)?))
}

pub(crate) fn write_lease_time(alloc: Global, w: &mut Writer) -> Result<(), NoMemory>
    requires { AllFit (args_of Plan.LeaseTime) }
    ensures { OnOk result (w.new ≡ w.old ++ args_text (args_of Plan.LeaseTime)) }
{
    write_arg(w, &Arg::PutRootFh)?;
    write_arg(w, &Arg::GetAttr(lease_mask(alloc)?))
}

pub(crate) fn write_list(
    alloc: Global,
    w: &mut Writer,
    at: &Place,
    cookie: u64,
    verf: &Verifier,
    max: u32,
) -> Result<(), NoMemory>
    requires { AllFit (args_of (Plan.List at.now cookie verf.now max)) }
    ensures { OnOk result (w.new ≡ w.old ++ args_text (args_of (Plan.List at.now cookie verf.now max))) }
{
    write_put(w, at)?;
    let args = ReadDirArgs {
        cookie,
        verifier: *verf,
        dircount: max,
        maxcount: max,
        mask: Bitmap::from_vec(alloc, Vec::new(alloc))?,
    };
    write_arg(w, &Arg::ReadDir(args))
}

pub(crate) fn write_make_dir(
    alloc: Global,
    w: &mut Writer,
    dir: &Place,
    name: &Name,
) -> Result<(), NoMemory>
    requires { AllFit (args_of (Plan.MakeDir dir.now name.now)) }
    ensures { OnOk result (w.new ≡ w.old ++ args_text (args_of (Plan.MakeDir dir.now name.now))) }
{
    write_put(w, dir)?;
    let args = CreateArgs {
        name: name_bytes(alloc, name)?,
        attrs: with_mode(DIRECTORY_MODE),
    };
    write_arg(w, &Arg::Create(args))
}

pub(crate) fn write_remove(
    alloc: Global,
    w: &mut Writer,
    dir: &Place,
    name: &Name,
) -> Result<(), NoMemory>
    requires { AllFit (args_of (Plan.Remove dir.now name.now)) }
    ensures { OnOk result (w.new ≡ w.old ++ args_text (args_of (Plan.Remove dir.now name.now))) }
{
    write_put(w, dir)?;
    write_arg(w, &Arg::Remove(name_bytes(alloc, name)?))
}

pub(crate) fn write_rename(
    alloc: Global,
    w: &mut Writer,
    from: &Place,
    old: &Name,
    to: &Place,
    new: &Name,
) -> Result<(), NoMemory>
    requires { AllFit (args_of (Plan.Rename from.now old.now to.now new.now)) }
    ensures { OnOk result (w.new ≡ w.old ++ args_text (args_of (Plan.Rename from.now old.now to.now new.now))) }
{
    write_put(w, from)?;
    write_arg(w, &Arg::SaveFh)?;
    write_put(w, to)?;
    let args = RenameArgs {
        old: name_bytes(alloc, old)?,
        new: name_bytes(alloc, new)?,
    };
    write_arg(w, &Arg::Rename(args))
}
