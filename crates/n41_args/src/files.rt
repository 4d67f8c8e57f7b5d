//! What COMMIT, READ, SETATTR, WRITE and TEST_STATEID take (RFC 8881, sections 18.3, 18.22, 18.30, 18.32 and 18.48).

ghost use Rattle.std.specs.Prelude.{◌≡◌, ◌++◌, OnOk};
ghost use Rattle.n41_xdr.specs.Format.{made, many_at};
ghost use Rattle.n41_attr.specs.Operations.{Gives};
ghost use Rattle.n41_attr.specs.Parts.{stateid};
ghost use Rattle.n41_args.specs.Files.{commit, read_args, write_args, told_set_attr, written_set_attr, stateids};
ghost use Rattle.n41_args.specs.Args.{as_kept, SetAttr};

use crate::arg::Arg;
use n41_attr::OpFault;
use n41_attr::parts::{
    read_content_bytes, read_fattr, read_stateid, write_content_bytes, write_fattr, write_stateid,
};
use n41_types::{Attrs, Bytes, NoMemory, Sequence, Stateid, Stateids};
use n41_xdr::{Reader, Writer};
use std::alloc::{AllocError, Global};

/// What COMMIT takes (RFC 8881, COMMIT4args). The count is in bytes.
#[derive(Clone, Copy, PartialEq, Eq)]
pub struct CommitArgs {
    pub offset: u64,
    pub count: u32,
}

/// What READ takes (RFC 8881, READ4args). The count is in bytes.
#[derive(Clone, Copy, PartialEq, Eq)]
pub struct ReadArgs {
    pub stateid: Stateid,
    pub offset: u64,
    pub count: u32,
}

/// What SETATTR takes (RFC 8881, SETATTR4args).
#[derive(Clone, Copy, PartialEq, Eq)]
pub struct SetAttrArgs {
    pub stateid: Stateid,
    pub attrs: Attrs,
}

/// What WRITE takes (RFC 8881, WRITE4args). `stable` is UNSTABLE 0, DATA_SYNC 1 or FILE_SYNC 2.
#[derive(Drop, PartialEq, Eq)]
pub struct WriteArgs {
    pub stateid: Stateid,
    pub offset: u64,
    pub stable: u32,
    pub bytes: Bytes,
}

impl Clone for WriteArgs {
    ghost is_clone = { λ x y. y ≡ x };

    fn clone(&self) -> Result<WriteArgs, AllocError> {
        Ok(WriteArgs {
            stateid: self.stateid,
            offset: self.offset,
            stable: self.stable,
            bytes: self.bytes.clone()?,
        })
    }
}

#[tactic(auto, unfolding(crate::specs::Files::commit))]
pub(crate) fn read_commit(r: &mut Reader) -> Result<CommitArgs, OpFault>
    ensures { Gives (λ x. x) result r.new (commit.read r.old) }
{
    let offset = r.u64()?;
    let count = r.u32()?;
    Ok(CommitArgs { offset, count })
}

#[tactic(auto, unfolding(crate::specs::Files::commit))]
pub(crate) fn write_commit(w: &mut Writer, x: &CommitArgs) -> Result<(), NoMemory>
    ensures { OnOk result (w.new ≡ w.old ++ commit.spell x.now) }
{
    w.put_u64(x.offset)?;
    w.put_u32(x.count)
}

#[tactic(auto, unfolding(crate::specs::Files::read_args))]
pub(crate) fn read_read(r: &mut Reader) -> Result<ReadArgs, OpFault>
    ensures { Gives (λ x. x) result r.new (read_args.read r.old) }
{
    let stateid = read_stateid(r)?;
    let offset = r.u64()?;
    let count = r.u32()?;
    Ok(ReadArgs {
        stateid,
        offset,
        count,
    })
}

#[tactic(auto, unfolding(crate::specs::Files::read_args))]
pub(crate) fn write_read(w: &mut Writer, x: &ReadArgs) -> Result<(), NoMemory>
    ensures { OnOk result (w.new ≡ w.old ++ read_args.spell x.now) }
{
    write_stateid(w, &x.stateid)?;
    w.put_u64(x.offset)?;
    w.put_u32(x.count)
}

#[tactic(auto, unfolding(crate::specs::Files::told_set_attr))]
pub(crate) fn read_set_attr(alloc: Global, r: &mut Reader) -> Result<Arg, OpFault>
    ensures { Gives (λ x. x) result r.new (as_kept (made (λ a. SetAttr a) told_set_attr r.old)) }
{
    let stateid = read_stateid(r)?;
    let attrs = read_fattr(alloc, r)?;
    Ok(Arg::SetAttr(SetAttrArgs { stateid, attrs }))
}

#[tactic(auto, unfolding(crate::specs::Files::told_set_attr))]
pub(crate) fn write_set_attr(w: &mut Writer, x: &SetAttrArgs) -> Result<(), NoMemory>
    ensures { OnOk result (w.new ≡ w.old ++ told_set_attr.spell (written_set_attr x.now)) }
{
    write_stateid(w, &x.stateid)?;
    write_fattr(w, &x.attrs)
}

#[tactic(auto, unfolding(crate::specs::Files::write_args))]
pub(crate) fn read_write(alloc: Global, r: &mut Reader) -> Result<WriteArgs, OpFault>
    ensures { Gives (λ x. x) result r.new (write_args.read r.old) }
{
    let stateid = read_stateid(r)?;
    let offset = r.u64()?;
    let stable = r.u32()?;
    let bytes = read_content_bytes(alloc, r)?;
    Ok(WriteArgs {
        stateid,
        offset,
        stable,
        bytes,
    })
}

#[tactic(auto, unfolding(crate::specs::Files::write_args))]
pub(crate) fn write_write(w: &mut Writer, x: &WriteArgs) -> Result<(), NoMemory>
    requires { write_args.Fits x.now }
    ensures { OnOk result (w.new ≡ w.old ++ write_args.spell x.now) }
{
    write_stateid(w, &x.stateid)?;
    w.put_u64(x.offset)?;
    w.put_u32(x.stable)?;
    write_content_bytes(w, &x.bytes)
}

/// So many stateids. Room is taken for one only once it is there.
fn read_stateid_count(alloc: Global, r: &mut Reader, count: u32) -> Result<Vec<Stateid>, OpFault>
    ensures { Gives (λ list. list.items) result r.new (many_at stateid count r.old) }
{
    let mut list = Vec::new(alloc);
    for _ in 0..count {
        let next = read_stateid(r)?;
        list.push(next)?;
    }
    Ok(list)
}

#[tactic(auto, unfolding(crate::specs::Files::stateids))]
pub(crate) fn read_stateids(alloc: Global, r: &mut Reader) -> Result<Stateids, OpFault>
    ensures { Gives (λ x. x) result r.new (stateids.read r.old) }
{
    let count = r.u32()?;
    let list = read_stateid_count(alloc, r, count)?;
    Ok(Sequence::from_vec(alloc, list)?)
}

#[tactic(auto, unfolding(crate::specs::Files::stateids))]
pub(crate) fn write_stateids(w: &mut Writer, x: &Stateids) -> Result<(), NoMemory>
    requires { stateids.Fits x.now }
    ensures { OnOk result (w.new ≡ w.old ++ stateids.spell x.now) }
{
    let list = x.as_slice();
    w.put_u32(list.len() as u32)?;
    for next in list {
        write_stateid(w, next)?;
    }
    Ok(())
}
