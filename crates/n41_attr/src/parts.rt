//! The parts that operations share: each is read and written by one format of `specs`. A fault may leave a part of it taken.

ghost use Rattle.std.specs.Prelude.{◌≡◌, ◌++◌, OnOk};
ghost use Rattle.n41_xdr.specs.Format.{made};
ghost use Rattle.n41_attr.specs.Attributes.{attrs_of, written};
ghost use Rattle.n41_attr.specs.Parts.{string, content_bytes, owner_bytes, verifier, stateid, session, fh, bitmap, fattr, status, failure, always_zero};
ghost use Rattle.n41_attr.specs.Operations.{Gives};

use crate::attributes::{read_attrs, write_attrs};
use crate::bitmaps::{read_bitmap, write_bitmap};
use crate::fault::OpFault;
use n41_types::{Attrs, Bitmap, Bytes, Fh, NoMemory, SessionId, Stateid, Status, Verifier};
use n41_xdr::{Reader, Writer, XdrFault};
use std::alloc::Global;

#[tactic(auto, unfolding(crate::specs::Parts::string))]
pub fn read_string(alloc: Global, r: &mut Reader) -> Result<Bytes, OpFault>
    ensures { Gives (λ x. x) result r.new (string.read r.old) }
{
    let bytes = r.opaque(65536)?;
    Ok(Bytes::copy_from_slice(alloc, bytes)?)
}

#[tactic(auto, unfolding(crate::specs::Parts::string))]
pub fn write_string(w: &mut Writer, x: &Bytes) -> Result<(), NoMemory>
    requires { string.Fits x.now }
    ensures { OnOk result (w.new ≡ w.old ++ string.spell x.now) }
{
    w.put_opaque(x.as_slice())
}

#[tactic(auto, unfolding(crate::specs::Parts::content_bytes))]
pub fn read_content_bytes(alloc: Global, r: &mut Reader) -> Result<Bytes, OpFault>
    ensures { Gives (λ x. x) result r.new (content_bytes.read r.old) }
{
    let bytes = r.opaque(u32::MAX)?;
    Ok(Bytes::copy_from_slice(alloc, bytes)?)
}

#[tactic(auto, unfolding(crate::specs::Parts::content_bytes))]
pub fn write_content_bytes(w: &mut Writer, x: &Bytes) -> Result<(), NoMemory>
    requires { content_bytes.Fits x.now }
    ensures { OnOk result (w.new ≡ w.old ++ content_bytes.spell x.now) }
{
    w.put_opaque(x.as_slice())
}

#[tactic(auto, unfolding(crate::specs::Parts::owner_bytes))]
pub fn read_owner_bytes(alloc: Global, r: &mut Reader) -> Result<Bytes, OpFault>
    ensures { Gives (λ x. x) result r.new (owner_bytes.read r.old) }
{
    let bytes = r.opaque(1024)?;
    Ok(Bytes::copy_from_slice(alloc, bytes)?)
}

#[tactic(auto, unfolding(crate::specs::Parts::owner_bytes))]
pub fn write_owner_bytes(w: &mut Writer, x: &Bytes) -> Result<(), NoMemory>
    requires { owner_bytes.Fits x.now }
    ensures { OnOk result (w.new ≡ w.old ++ owner_bytes.spell x.now) }
{
    w.put_opaque(x.as_slice())
}

#[tactic(auto, unfolding(crate::specs::Parts::verifier))]
pub fn read_verifier(r: &mut Reader) -> Result<Verifier, OpFault>
    ensures { Gives (λ x. x) result r.new (verifier.read r.old) }
{
    Ok(r.array()?)
}

#[tactic(auto, unfolding(crate::specs::Parts::verifier))]
pub fn write_verifier(w: &mut Writer, x: &Verifier) -> Result<(), NoMemory>
    ensures { OnOk result (w.new ≡ w.old ++ verifier.spell x.now) }
{
    w.put_fixed(x)
}

#[tactic(auto, unfolding(crate::specs::Parts::stateid))]
pub fn read_stateid(r: &mut Reader) -> Result<Stateid, OpFault>
    ensures { Gives (λ x. x) result r.new (stateid.read r.old) }
{
    let seqid = r.u32()?;
    let other = r.array()?;
    Ok(Stateid { seqid, other })
}

#[tactic(auto, unfolding(crate::specs::Parts::stateid))]
pub fn write_stateid(w: &mut Writer, x: &Stateid) -> Result<(), NoMemory>
    ensures { OnOk result (w.new ≡ w.old ++ stateid.spell x.now) }
{
    w.put_u32(x.seqid)?;
    w.put_fixed(&x.other)
}

#[tactic(auto, unfolding(crate::specs::Parts::session))]
pub fn read_session(r: &mut Reader) -> Result<SessionId, OpFault>
    ensures { Gives (λ x. x) result r.new (session.read r.old) }
{
    Ok(SessionId(r.array()?))
}

#[tactic(auto, unfolding(crate::specs::Parts::session))]
pub fn write_session(w: &mut Writer, x: &SessionId) -> Result<(), NoMemory>
    ensures { OnOk result (w.new ≡ w.old ++ session.spell x.now) }
{
    w.put_fixed(&x.0)
}

#[tactic(auto, unfolding(crate::specs::Parts::fh))]
pub fn read_fh(alloc: Global, r: &mut Reader) -> Result<Fh, OpFault>
    ensures { Gives (λ x. x) result r.new (fh.read r.old) }
{
    let bytes = r.opaque(128)?;
    Ok(Fh::new(Bytes::copy_from_slice(alloc, bytes)?))
}

#[tactic(auto, unfolding(crate::specs::Parts::fh))]
pub fn write_fh(w: &mut Writer, x: &Fh) -> Result<(), NoMemory>
    ensures { OnOk result (w.new ≡ w.old ++ fh.spell x.now) }
{
    w.put_opaque(x.as_slice())
}

/// A bitmap.
#[tactic(auto, unfolding(crate::specs::Parts::bitmap))]
pub fn read_set(alloc: Global, r: &mut Reader) -> Result<Bitmap, OpFault>
    ensures { Gives (λ x. x) result r.new (bitmap.read r.old) }
{
    Ok(read_bitmap(alloc, r)?)
}

#[tactic(auto, unfolding(crate::specs::Parts::bitmap))]
pub fn write_set(w: &mut Writer, x: &Bitmap) -> Result<(), NoMemory>
    requires { bitmap.Fits x.now }
    ensures { OnOk result (w.new ≡ w.old ++ bitmap.spell x.now) }
{
    write_bitmap(w, x)
}

#[tactic(auto, unfolding(crate::specs::Parts::fattr))]
pub fn read_fattr(alloc: Global, r: &mut Reader) -> Result<Attrs, OpFault>
    ensures { Gives (λ x. x) result r.new (made attrs_of fattr r.old) }
{
    Ok(read_attrs(alloc, r)?)
}

#[tactic(auto, unfolding(crate::specs::Parts::fattr))]
pub fn write_fattr(w: &mut Writer, x: &Attrs) -> Result<(), NoMemory>
    ensures { OnOk result (w.new ≡ w.old ++ fattr.spell (written x.now)) }
{
    write_attrs(w, x)
}

#[tactic(auto, unfolding(crate::specs::Parts::status))]
pub fn read_status(r: &mut Reader) -> Result<Status, OpFault>
    ensures { Gives (λ x. x) result r.new (status.read r.old) }
{
    Ok(Status(r.u32()?))
}

#[tactic(auto, unfolding(crate::specs::Parts::status))]
pub fn write_status(w: &mut Writer, x: &Status) -> Result<(), NoMemory>
    ensures { OnOk result (w.new ≡ w.old ++ status.spell x.now) }
{
    w.put_u32(x.0)
}

/// A status that is never OK.
#[tactic(auto, unfolding(crate::specs::Parts::failure))]
pub fn read_failure(r: &mut Reader) -> Result<Status, OpFault>
    ensures { Gives (λ x. x) result r.new (failure.read r.old) }
{
    match r.u32()? {
        0 => Err(OpFault::Xdr(XdrFault::BadArm(0))),
        number => Ok(Status(number)),
    }
}

#[tactic(auto, unfolding(crate::specs::Parts::failure))]
pub fn write_failure(w: &mut Writer, x: &Status) -> Result<(), NoMemory>
    requires { failure.Fits x.now }
    ensures { OnOk result (w.new ≡ w.old ++ failure.spell x.now) }
{
    w.put_u32(x.0)
}

/// A number that can only be 0.
#[tactic(auto, unfolding(crate::specs::Parts::always_zero))]
pub fn read_zero(r: &mut Reader) -> Result<(), OpFault>
    ensures { Gives (λ _. tt {0}) result r.new (always_zero.read r.old) }
{
    match r.u32()? {
        0 => Ok(()),
        number => Err(OpFault::Xdr(XdrFault::BadArm(number))),
    }
}

#[tactic(auto, unfolding(crate::specs::Parts::always_zero))]
pub fn write_zero(w: &mut Writer) -> Result<(), NoMemory>
    ensures { OnOk result (w.new ≡ w.old ++ always_zero.spell (tt {0})) }
{
    w.put_u32(0)
}
