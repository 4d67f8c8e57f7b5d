//! Reads, writes and sizes.

ghost use Rattle.std.specs.Prelude.{◌≡◌, ◌++◌, OnOk};
ghost use Rattle.n41_requests.specs.Plans.{args_of, with_size};
ghost use Rattle.n41_requests.specs.Requests.{args_text, AllFit};

use crate::places::write_put_fh;
use n41_args::{Arg, ReadArgs, SetAttrArgs, WriteArgs, write_arg};
use n41_types::{Attrs, Bytes, Fh, NoMemory, Plan, Stateid};
use n41_xdr::Writer;

/// FILE_SYNC4 (RFC 8881, stable_how4).
const FILE_SYNC: u32 = 2;

pub(crate) fn write_read(
    w: &mut Writer,
    fh: &Fh,
    stateid: &Stateid,
    offset: u64,
    count: u32,
) -> Result<(), NoMemory>
    requires { AllFit (args_of (Plan.Read fh.now stateid.now offset count)) }
    ensures { OnOk result (w.new ≡ w.old ++ args_text (args_of (Plan.Read fh.now stateid.now offset count))) }
{
    write_put_fh(w, fh)?;
    let args = ReadArgs {
        stateid: *stateid,
        offset,
        count,
    };
    write_arg(w, &Arg::Read(args))
}

pub(crate) fn write_bytes(
    w: &mut Writer,
    fh: &Fh,
    stateid: &Stateid,
    offset: u64,
    bytes: &Bytes,
) -> Result<(), NoMemory>
    requires { AllFit (args_of (Plan.WriteBytes fh.now stateid.now offset bytes.now)) }
    ensures { OnOk result (w.new ≡ w.old ++ args_text (args_of (Plan.WriteBytes fh.now stateid.now offset bytes.now))) }
{
    write_put_fh(w, fh)?;
    let args = WriteArgs {
        stateid: *stateid,
        offset,
        stable: FILE_SYNC,
        bytes: bytes.clone()?,
    };
    write_arg(w, &Arg::Write(args))
}

/// No attributes but a size in bytes.
fn with_size(size: u64) -> Attrs
    ensures { result ≡ with_size size }
{
    Attrs {
        kind: None,
        change: None,
        size: Some(size),
        lease: None,
        fileid: None,
        mode: None,
    }
}

pub(crate) fn write_resize(
    w: &mut Writer,
    fh: &Fh,
    stateid: &Stateid,
    size: u64,
) -> Result<(), NoMemory>
    requires { AllFit (args_of (Plan.Resize fh.now stateid.now size)) }
    ensures { OnOk result (w.new ≡ w.old ++ args_text (args_of (Plan.Resize fh.now stateid.now size))) }
{
    write_put_fh(w, fh)?;
    let args = SetAttrArgs {
        stateid: *stateid,
        attrs: with_size(size),
    };
    write_arg(w, &Arg::SetAttr(args))
}
