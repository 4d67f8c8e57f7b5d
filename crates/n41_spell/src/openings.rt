//! Opens: made, lowered and closed.

ghost use Rattle.std.specs.Prelude.{◌≡◌, ◌++◌, IfOk, OnOk};
ghost use Rattle.n41_requests.specs.Plans.{args_of, access_of, claim_of, with_mode};
ghost use Rattle.n41_requests.specs.Requests.{args_text, AllFit};

use crate::locks::state_owner;
use crate::places::{name_bytes, write_put, write_put_fh};
use n41_args::{Arg, CloseArgs, DowngradeArgs, OpenArgs, OpenClaim, OpenHow, write_arg};
use n41_types::{Attrs, Claim, Fh, Mode, Name, NoMemory, Owner, Place, Plan, Stateid};
use n41_xdr::Writer;
use std::alloc::Global;

/// The mode of a new file.
const FILE_MODE: u32 = 0o644;

/// The access that OPEN asks for (RFC 8881, OPEN4_SHARE_ACCESS_READ and so on).
fn access(mode: Mode) -> u32
    ensures { result ≡ access_of mode }
{
    match mode {
        Mode::Read => 1,
        Mode::Write => 2,
        Mode::Both => 3,
    }
}

fn open_claim(claim: Claim) -> OpenClaim
    ensures { result ≡ claim_of claim }
{
    match claim {
        Claim::Previous(kind) => OpenClaim::Previous(kind),
        Claim::Fh => OpenClaim::Fh,
        Claim::DelegCur(stateid) => OpenClaim::DelegCur(stateid),
    }
}

/// No attributes but a mode.
pub(crate) fn with_mode(mode: u32) -> Attrs
    ensures { result ≡ with_mode mode }
{
    Attrs {
        kind: None,
        change: None,
        size: None,
        lease: None,
        fileid: None,
        mode: Some(mode),
    }
}

pub(crate) fn write_open_at(
    w: &mut Writer,
    fh: &Fh,
    mode: Mode,
    owner: &Owner,
    claim: Claim,
) -> Result<(), NoMemory>
    requires { AllFit (args_of (Plan.OpenAt fh.now mode owner.now claim)) }
    ensures { OnOk result (w.new ≡ w.old ++ args_text (args_of (Plan.OpenAt fh.now mode owner.now claim))) }
{
    write_put_fh(w, fh)?;
    let args = OpenArgs {
        seqid: 0,
        access: access(mode),
        deny: 0,
        owner: state_owner(owner)?,
        how: OpenHow::NoCreate,
        claim: open_claim(claim),
    };
    write_arg(w, &Arg::Open(args))?;
    write_arg(w, &Arg::GetFh)
}

pub(crate) fn write_create_file(
    alloc: Global,
    w: &mut Writer,
    dir: &Place,
    name: &Name,
    guarded: bool,
    owner: &Owner,
) -> Result<(), NoMemory>
    requires { AllFit (args_of (Plan.CreateFile dir.now name.now guarded owner.now)) }
    ensures { OnOk result (w.new ≡ w.old ++ args_text (args_of (Plan.CreateFile dir.now name.now guarded owner.now))) }
{
    write_put(w, dir)?;
    let args = OpenArgs {
        seqid: 0,
        access: access(Mode::Both),
        deny: 0,
        owner: state_owner(owner)?,
        how: OpenHow::Create {
            guarded,
            attrs: with_mode(FILE_MODE),
        },
        claim: OpenClaim::Null(name_bytes(alloc, name)?),
    };
    write_arg(w, &Arg::Open(args))?;
    write_arg(w, &Arg::GetFh)
}

pub(crate) fn write_downgrade(
    w: &mut Writer,
    fh: &Fh,
    stateid: &Stateid,
    mode: Mode,
) -> Result<(), NoMemory>
    requires { AllFit (args_of (Plan.Downgrade fh.now stateid.now mode)) }
    ensures { OnOk result (w.new ≡ w.old ++ args_text (args_of (Plan.Downgrade fh.now stateid.now mode))) }
{
    write_put_fh(w, fh)?;
    let args = DowngradeArgs {
        stateid: *stateid,
        seqid: 0,
        access: access(mode),
        deny: 0,
    };
    write_arg(w, &Arg::OpenDowngrade(args))
}

pub(crate) fn write_close(w: &mut Writer, fh: &Fh, stateid: &Stateid) -> Result<(), NoMemory>
    requires { AllFit (args_of (Plan.CloseState fh.now stateid.now)) }
    ensures { OnOk result (w.new ≡ w.old ++ args_text (args_of (Plan.CloseState fh.now stateid.now))) }
{
    write_put_fh(w, fh)?;
    let args = CloseArgs {
        seqid: 0,
        stateid: *stateid,
    };
    write_arg(w, &Arg::Close(args))
}
