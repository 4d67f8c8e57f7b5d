ghost use Rattle.std.specs.Prelude.{◌≡◌, ◌++◌, IfOk, OnOk};
ghost use Rattle.n41_args.specs.Args.{told_arg, written_arg};
ghost use Rattle.n41_args.specs.declared.arg.Arg.TheVariants.{PutFh};
ghost use Rattle.n41_requests.specs.Plans.{put};

use n41_args::{Arg, write_arg};
use n41_types::{Bytes, Fh, Name, NoMemory, Place};
use n41_xdr::Writer;
use std::alloc::Global;

/// PUTFH.
pub(crate) fn write_put_fh(w: &mut Writer, fh: &Fh) -> Result<(), NoMemory>
    requires { told_arg.Fits (written_arg (PutFh fh.now)) }
    ensures { OnOk result (w.new ≡ w.old ++ told_arg.spell (written_arg (PutFh fh.now))) }
{
    write_arg(w, &Arg::PutFh(fh.clone()?))
}

/// PUTROOTFH, or PUTFH.
pub(crate) fn write_put(w: &mut Writer, at: &Place) -> Result<(), NoMemory>
    requires { told_arg.Fits (written_arg (put at.now)) }
    ensures { OnOk result (w.new ≡ w.old ++ told_arg.spell (written_arg (put at.now))) }
{
    match at {
        Place::Root => write_arg(w, &Arg::PutRootFh),
        Place::At(fh) => write_put_fh(w, fh),
    }
}

/// The bytes of a name.
pub(crate) fn name_bytes(alloc: Global, name: &Name) -> Result<Bytes, NoMemory>
    ensures { IfOk result (λ bytes. bytes ≡ name.now) }
{
    Bytes::copy_from_slice(alloc, name.as_slice())
}
