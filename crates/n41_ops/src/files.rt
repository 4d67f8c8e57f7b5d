//! What the operations of files and directories answer.

ghost use Rattle.std.specs.Prelude.{◌≡◌, ◌++◌, OnOk};
ghost use Rattle.n41_attr.specs.Operations.{Gives};
ghost use Rattle.n41_attr.specs.Attributes.{written};
ghost use Rattle.n41_attr.specs.Parts.{stateid, verifier, fh, fattr, outcome};
ghost use Rattle.n41_ops.specs.Openings.{change_info};
ghost use Rattle.n41_xdr.specs.Format.{made};
ghost use Rattle.n41_ops.specs.Files.{created, renamed, content, put};
ghost use Rattle.n41_ops.specs.Results.{GetAttr, answer_as, as_kept};

use crate::openings::{read_change_info, write_change_info};
use n41_attr::OpFault;
use n41_attr::parts::{
    read_content_bytes, read_fattr, read_fh, read_set, read_stateid, read_verifier,
    write_content_bytes, write_fattr, write_fh, write_set, write_stateid, write_verifier,
};
use n41_results::{ChangeInfo, Content, Created, Renamed, Res, Written};
use n41_types::{Attrs, Fh, NoMemory, Stateid, Status, Verifier};
use n41_xdr::{Reader, Writer};
use std::alloc::Global;

pub(crate) fn read_stateid_answer(r: &mut Reader) -> Result<Result<Stateid, Status>, OpFault>
    ensures { Gives (λ x. x) result r.new ((outcome stateid).read r.old) }
{
    match r.u32()? {
        0 => Ok(Ok(read_stateid(r)?)),
        number => Ok(Err(Status(number))),
    }
}

pub(crate) fn write_stateid_answer(
    w: &mut Writer,
    x: &Result<Stateid, Status>,
) -> Result<(), NoMemory>
    requires { (outcome stateid).Fits x.now }
    ensures { OnOk result (w.new ≡ w.old ++ (outcome stateid).spell x.now) }
{
    match x {
        Ok(stateid) => {
            w.put_u32(0)?;
            write_stateid(w, stateid)
        }
        Err(status) => w.put_u32(status.0),
    }
}

pub(crate) fn read_commit(r: &mut Reader) -> Result<Result<Verifier, Status>, OpFault>
    ensures { Gives (λ x. x) result r.new ((outcome verifier).read r.old) }
{
    match r.u32()? {
        0 => Ok(Ok(read_verifier(r)?)),
        number => Ok(Err(Status(number))),
    }
}

pub(crate) fn write_commit(w: &mut Writer, x: &Result<Verifier, Status>) -> Result<(), NoMemory>
    requires { (outcome verifier).Fits x.now }
    ensures { OnOk result (w.new ≡ w.old ++ (outcome verifier).spell x.now) }
{
    match x {
        Ok(verifier) => {
            w.put_u32(0)?;
            write_verifier(w, verifier)
        }
        Err(status) => w.put_u32(status.0),
    }
}

#[tactic(auto, unfolding(crate::specs::Files::created))]
pub(crate) fn read_create(alloc: Global, r: &mut Reader) -> Result<Result<Created, Status>, OpFault>
    ensures { Gives (λ x. x) result r.new ((outcome created).read r.old) }
{
    match r.u32()? {
        0 => {
            let change = read_change_info(r)?;
            let set = read_set(alloc, r)?;
            Ok(Ok(Created { change, set }))
        }
        number => Ok(Err(Status(number))),
    }
}

#[tactic(auto, unfolding(crate::specs::Files::created))]
pub(crate) fn write_create(w: &mut Writer, x: &Result<Created, Status>) -> Result<(), NoMemory>
    requires { (outcome created).Fits x.now }
    ensures { OnOk result (w.new ≡ w.old ++ (outcome created).spell x.now) }
{
    match x {
        Ok(created) => {
            w.put_u32(0)?;
            write_change_info(w, &created.change)?;
            write_set(w, &created.set)
        }
        Err(status) => w.put_u32(status.0),
    }
}

pub(crate) fn read_get_attr(alloc: Global, r: &mut Reader) -> Result<Res, OpFault>
    ensures { Gives (λ x. x) result r.new (as_kept (made (λ x. GetAttr x) (outcome fattr) r.old)) }
{
    match r.u32()? {
        0 => Ok(Res::GetAttr(Ok(read_fattr(alloc, r)?))),
        number => Ok(Res::GetAttr(Err(Status(number)))),
    }
}

pub(crate) fn write_get_attr(w: &mut Writer, x: &Result<Attrs, Status>) -> Result<(), NoMemory>
    ensures { OnOk result (w.new ≡ w.old ++ (outcome fattr).spell (answer_as written x.now)) }
{
    match x {
        Ok(attrs) => {
            w.put_u32(0)?;
            write_fattr(w, attrs)
        }
        Err(status) => w.put_u32(status.0),
    }
}

pub(crate) fn read_get_fh(alloc: Global, r: &mut Reader) -> Result<Result<Fh, Status>, OpFault>
    ensures { Gives (λ x. x) result r.new ((outcome fh).read r.old) }
{
    match r.u32()? {
        0 => Ok(Ok(read_fh(alloc, r)?)),
        number => Ok(Err(Status(number))),
    }
}

pub(crate) fn write_get_fh(w: &mut Writer, x: &Result<Fh, Status>) -> Result<(), NoMemory>
    requires { (outcome fh).Fits x.now }
    ensures { OnOk result (w.new ≡ w.old ++ (outcome fh).spell x.now) }
{
    match x {
        Ok(fh) => {
            w.put_u32(0)?;
            write_fh(w, fh)
        }
        Err(status) => w.put_u32(status.0),
    }
}

#[tactic(auto, unfolding(crate::specs::Files::content))]
pub(crate) fn read_read(alloc: Global, r: &mut Reader) -> Result<Result<Content, Status>, OpFault>
    ensures { Gives (λ x. x) result r.new ((outcome content).read r.old) }
{
    match r.u32()? {
        0 => {
            let eof = r.boolean()?;
            let bytes = read_content_bytes(alloc, r)?;
            Ok(Ok(Content { eof, bytes }))
        }
        number => Ok(Err(Status(number))),
    }
}

#[tactic(auto, unfolding(crate::specs::Files::content))]
pub(crate) fn write_read(w: &mut Writer, x: &Result<Content, Status>) -> Result<(), NoMemory>
    requires { (outcome content).Fits x.now }
    ensures { OnOk result (w.new ≡ w.old ++ (outcome content).spell x.now) }
{
    match x {
        Ok(content) => {
            w.put_u32(0)?;
            w.put_bool(content.eof)?;
            write_content_bytes(w, &content.bytes)
        }
        Err(status) => w.put_u32(status.0),
    }
}

pub(crate) fn read_remove(r: &mut Reader) -> Result<Result<ChangeInfo, Status>, OpFault>
    ensures { Gives (λ x. x) result r.new ((outcome change_info).read r.old) }
{
    match r.u32()? {
        0 => Ok(Ok(read_change_info(r)?)),
        number => Ok(Err(Status(number))),
    }
}

pub(crate) fn write_remove(w: &mut Writer, x: &Result<ChangeInfo, Status>) -> Result<(), NoMemory>
    requires { (outcome change_info).Fits x.now }
    ensures { OnOk result (w.new ≡ w.old ++ (outcome change_info).spell x.now) }
{
    match x {
        Ok(change) => {
            w.put_u32(0)?;
            write_change_info(w, change)
        }
        Err(status) => w.put_u32(status.0),
    }
}

#[tactic(auto, unfolding(crate::specs::Files::renamed))]
pub(crate) fn read_rename(r: &mut Reader) -> Result<Result<Renamed, Status>, OpFault>
    ensures { Gives (λ x. x) result r.new ((outcome renamed).read r.old) }
{
    match r.u32()? {
        0 => {
            let source = read_change_info(r)?;
            let target = read_change_info(r)?;
            Ok(Ok(Renamed { source, target }))
        }
        number => Ok(Err(Status(number))),
    }
}

#[tactic(auto, unfolding(crate::specs::Files::renamed))]
pub(crate) fn write_rename(w: &mut Writer, x: &Result<Renamed, Status>) -> Result<(), NoMemory>
    requires { (outcome renamed).Fits x.now }
    ensures { OnOk result (w.new ≡ w.old ++ (outcome renamed).spell x.now) }
{
    match x {
        Ok(renamed) => {
            w.put_u32(0)?;
            write_change_info(w, &renamed.source)?;
            write_change_info(w, &renamed.target)
        }
        Err(status) => w.put_u32(status.0),
    }
}

#[tactic(auto, unfolding(crate::specs::Files::put))]
pub(crate) fn read_write(r: &mut Reader) -> Result<Result<Written, Status>, OpFault>
    ensures { Gives (λ x. x) result r.new ((outcome put).read r.old) }
{
    match r.u32()? {
        0 => {
            let count = r.u32()?;
            let committed = r.u32()?;
            let verifier = read_verifier(r)?;
            Ok(Ok(Written {
                count,
                committed,
                verifier,
            }))
        }
        number => Ok(Err(Status(number))),
    }
}

#[tactic(auto, unfolding(crate::specs::Files::put))]
pub(crate) fn write_write(w: &mut Writer, x: &Result<Written, Status>) -> Result<(), NoMemory>
    requires { (outcome put).Fits x.now }
    ensures { OnOk result (w.new ≡ w.old ++ (outcome put).spell x.now) }
{
    match x {
        Ok(written) => {
            w.put_u32(0)?;
            w.put_u32(written.count)?;
            w.put_u32(written.committed)?;
            write_verifier(w, &written.verifier)
        }
        Err(status) => w.put_u32(status.0),
    }
}
