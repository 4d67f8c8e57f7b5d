//! What OPEN, OPEN_DOWNGRADE and CLOSE take (RFC 8881, sections 18.16, 18.18 and 18.2).

ghost use Rattle.std.specs.Prelude.{◌≡◌, ◌++◌, OnOk};
ghost use Rattle.n41_xdr.specs.Format.{made};
ghost use Rattle.n41_attr.specs.Operations.{Gives};
ghost use Rattle.n41_args.specs.Openings.{close, downgrade, open_claim, guarded, told_how, how_of, written_how, told_open, written_open};
ghost use Rattle.n41_args.specs.Args.{as_kept, Open};

use crate::arg::Arg;
use crate::owners::{StateOwner, read_owner, write_owner};
use n41_attr::OpFault;
use n41_attr::parts::{
    read_fattr, read_stateid, read_string, write_fattr, write_stateid, write_string,
};
use n41_types::{Attrs, Bytes, NoMemory, Stateid};
use n41_xdr::{Reader, Writer, XdrFault};
use std::alloc::{AllocError, Global};

/// What CLOSE takes (RFC 8881, CLOSE4args).
#[derive(Clone, Copy, PartialEq, Eq)]
pub struct CloseArgs {
    pub seqid: u32,
    pub stateid: Stateid,
}

/// What OPEN_DOWNGRADE takes (RFC 8881, OPEN_DOWNGRADE4args). Access is READ 1, WRITE 2 or BOTH 3, and deny is the same or NONE 0.
#[derive(Clone, Copy, PartialEq, Eq)]
pub struct DowngradeArgs {
    pub stateid: Stateid,
    pub seqid: u32,
    pub access: u32,
    pub deny: u32,
}

/// Whether OPEN makes the file where it is not there (RFC 8881, openflag4).
#[derive(Clone, Copy, PartialEq, Eq)]
pub enum OpenHow {
    NoCreate,
    /// With these attributes; where it is guarded, a file that is there is refused (GUARDED4), and else it is opened (UNCHECKED4).
    Create { guarded: bool, attrs: Attrs },
}

/// By what right a file is opened (RFC 8881, open_claim4).
#[derive(Drop, PartialEq, Eq)]
pub enum OpenClaim {
    /// By its name in the current directory.
    Null(Bytes),
    /// A reclaim after a restart of the server, with the type of the delegation that was held.
    Previous(u32),
    /// By the current filehandle.
    Fh,
    /// By the current filehandle, under the delegation with this stateid.
    DelegCur(Stateid),
}

impl Clone for OpenClaim {
    ghost is_clone = { λ x y. y ≡ x };

    fn clone(&self) -> Result<OpenClaim, AllocError> {
        Ok(match self {
            OpenClaim::Null(name) => OpenClaim::Null(name.clone()?),
            OpenClaim::Previous(kind) => OpenClaim::Previous(*kind),
            OpenClaim::Fh => OpenClaim::Fh,
            OpenClaim::DelegCur(stateid) => OpenClaim::DelegCur(*stateid),
        })
    }
}

/// What OPEN takes (RFC 8881, OPEN4args). Access is READ 1, WRITE 2 or BOTH 3, and deny is the same or NONE 0.
#[derive(Drop, PartialEq, Eq)]
pub struct OpenArgs {
    pub seqid: u32,
    pub access: u32,
    pub deny: u32,
    pub owner: StateOwner,
    pub how: OpenHow,
    pub claim: OpenClaim,
}

impl Clone for OpenArgs {
    ghost is_clone = { λ x y. y ≡ x };

    fn clone(&self) -> Result<OpenArgs, AllocError> {
        Ok(OpenArgs {
            seqid: self.seqid,
            access: self.access,
            deny: self.deny,
            owner: self.owner.clone()?,
            how: self.how,
            claim: self.claim.clone()?,
        })
    }
}

#[tactic(auto, unfolding(crate::specs::Openings::close))]
pub(crate) fn read_close(r: &mut Reader) -> Result<CloseArgs, OpFault>
    ensures { Gives (λ x. x) result r.new (close.read r.old) }
{
    let seqid = r.u32()?;
    let stateid = read_stateid(r)?;
    Ok(CloseArgs { seqid, stateid })
}

#[tactic(auto, unfolding(crate::specs::Openings::close))]
pub(crate) fn write_close(w: &mut Writer, x: &CloseArgs) -> Result<(), NoMemory>
    ensures { OnOk result (w.new ≡ w.old ++ close.spell x.now) }
{
    w.put_u32(x.seqid)?;
    write_stateid(w, &x.stateid)
}

#[tactic(auto, unfolding(crate::specs::Openings::downgrade))]
pub(crate) fn read_downgrade(r: &mut Reader) -> Result<DowngradeArgs, OpFault>
    ensures { Gives (λ x. x) result r.new (downgrade.read r.old) }
{
    let stateid = read_stateid(r)?;
    let seqid = r.u32()?;
    let access = r.u32()?;
    let deny = r.u32()?;
    Ok(DowngradeArgs {
        stateid,
        seqid,
        access,
        deny,
    })
}

#[tactic(auto, unfolding(crate::specs::Openings::downgrade))]
pub(crate) fn write_downgrade(w: &mut Writer, x: &DowngradeArgs) -> Result<(), NoMemory>
    ensures { OnOk result (w.new ≡ w.old ++ downgrade.spell x.now) }
{
    write_stateid(w, &x.stateid)?;
    w.put_u32(x.seqid)?;
    w.put_u32(x.access)?;
    w.put_u32(x.deny)
}

#[tactic(auto, unfolding(crate::specs::Openings::open_claim))]
fn read_claim(alloc: Global, r: &mut Reader) -> Result<OpenClaim, OpFault>
    ensures { Gives (λ x. x) result r.new (open_claim.read r.old) }
{
    match r.u32()? {
        0 => Ok(OpenClaim::Null(read_string(alloc, r)?)),
        1 => Ok(OpenClaim::Previous(r.u32()?)),
        4 => Ok(OpenClaim::Fh),
        5 => Ok(OpenClaim::DelegCur(read_stateid(r)?)),
        number => Err(OpFault::Xdr(XdrFault::BadArm(number))),
    }
}

#[tactic(auto, unfolding(crate::specs::Openings::open_claim))]
fn write_claim(w: &mut Writer, x: &OpenClaim) -> Result<(), NoMemory>
    requires { open_claim.Fits x.now }
    ensures { OnOk result (w.new ≡ w.old ++ open_claim.spell x.now) }
{
    match x {
        OpenClaim::Null(name) => {
            w.put_u32(0)?;
            write_string(w, name)
        }
        OpenClaim::Previous(kind) => {
            w.put_u32(1)?;
            w.put_u32(*kind)
        }
        OpenClaim::Fh => w.put_u32(4),
        OpenClaim::DelegCur(stateid) => {
            w.put_u32(5)?;
            write_stateid(w, stateid)
        }
    }
}

/// UNCHECKED4 or GUARDED4.
#[tactic(auto, unfolding(crate::specs::Openings::guarded))]
fn read_guarded(r: &mut Reader) -> Result<bool, OpFault>
    ensures { Gives (λ x. x) result r.new (guarded.read r.old) }
{
    match r.u32()? {
        0 => Ok(false),
        1 => Ok(true),
        number => Err(OpFault::Xdr(XdrFault::BadArm(number))),
    }
}

#[tactic(auto, unfolding(crate::specs::Openings::guarded))]
fn write_guarded(w: &mut Writer, x: bool) -> Result<(), NoMemory>
    ensures { OnOk result (w.new ≡ w.old ++ guarded.spell x) }
{
    if x { w.put_u32(1) } else { w.put_u32(0) }
}

#[tactic(auto, unfolding(crate::specs::Openings::told_how))]
fn read_how(alloc: Global, r: &mut Reader) -> Result<OpenHow, OpFault>
    ensures { Gives (λ x. x) result r.new (made how_of told_how r.old) }
{
    match r.u32()? {
        0 => Ok(OpenHow::NoCreate),
        1 => {
            let guarded = read_guarded(r)?;
            let attrs = read_fattr(alloc, r)?;
            Ok(OpenHow::Create { guarded, attrs })
        }
        number => Err(OpFault::Xdr(XdrFault::BadArm(number))),
    }
}

#[tactic(auto, unfolding(crate::specs::Openings::told_how))]
fn write_how(w: &mut Writer, x: &OpenHow) -> Result<(), NoMemory>
    ensures { OnOk result (w.new ≡ w.old ++ told_how.spell (written_how x.now)) }
{
    match x {
        OpenHow::NoCreate => w.put_u32(0),
        OpenHow::Create { guarded, attrs } => {
            w.put_u32(1)?;
            write_guarded(w, *guarded)?;
            write_fattr(w, attrs)
        }
    }
}

#[tactic(auto, unfolding(crate::specs::Openings::told_open))]
pub(crate) fn read_open(alloc: Global, r: &mut Reader) -> Result<Arg, OpFault>
    ensures { Gives (λ x. x) result r.new (as_kept (made (λ a. Open a) told_open r.old)) }
{
    let seqid = r.u32()?;
    let access = r.u32()?;
    let deny = r.u32()?;
    let owner = read_owner(alloc, r)?;
    let how = read_how(alloc, r)?;
    let claim = read_claim(alloc, r)?;
    Ok(Arg::Open(OpenArgs {
        seqid,
        access,
        deny,
        owner,
        how,
        claim,
    }))
}

#[tactic(auto, unfolding(crate::specs::Openings::told_open))]
pub(crate) fn write_open(w: &mut Writer, x: &OpenArgs) -> Result<(), NoMemory>
    requires { told_open.Fits (written_open x.now) }
    ensures { OnOk result (w.new ≡ w.old ++ told_open.spell (written_open x.now)) }
{
    w.put_u32(x.seqid)?;
    w.put_u32(x.access)?;
    w.put_u32(x.deny)?;
    write_owner(w, &x.owner)?;
    write_how(w, &x.how)?;
    write_claim(w, &x.claim)
}
