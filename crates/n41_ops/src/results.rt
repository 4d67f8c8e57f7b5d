ghost use Rattle.std.specs.Prelude.{◌≡◌, ◌++◌, OnOk};
ghost use Rattle.n41_xdr.specs.Format.{choose, made, ◌&◌};
ghost use Rattle.n41_attr.specs.declared.fault.OpFault.TheVariants.{Illegal};
ghost use Rattle.n41_attr.specs.Operations.{Reads, Gives};
ghost use Rattle.n41_attr.specs.Parts as parts;
ghost use Rattle.n41_results.specs.declared.results.Res.TheVariants.{SetAttr};
ghost use Rattle.n41_ops.specs.Results.{told_res, res_of, written_res, res_rows, res_arm, as_kept};

use crate::directories::{read_read_dir, write_read_dir};
use crate::files::*;
use crate::locks::{read_lock, read_lock_test, write_lock, write_lock_test};
use crate::openings::{read_open, write_open};
use crate::sessions::*;
use n41_attr::OpFault;
use n41_attr::parts::{
    read_failure, read_set, read_status, write_failure, write_set, write_status,
};
use n41_results::Res;
use n41_types::{Bitmap, NoMemory, Status};
use n41_xdr::{Reader, Writer};
use std::alloc::Global;

/// The attributes that were set follow every status.
fn read_set_attr(alloc: Global, r: &mut Reader) -> Result<Res, OpFault>
    ensures { Gives (λ x. x) result r.new (made (λ x. SetAttr x.0 x.1) (parts.status & parts.bitmap) r.old) }
{
    let status = read_status(r)?;
    let set = read_set(alloc, r)?;
    Ok(Res::SetAttr { status, set })
}

fn write_set_attr(w: &mut Writer, status: &Status, set: &Bitmap) -> Result<(), NoMemory>
    requires { (parts.status & parts.bitmap).Fits (status.now, set.now) }
    ensures { OnOk result (w.new ≡ w.old ++ (parts.status & parts.bitmap).spell (status.now, set.now)) }
{
    write_status(w, status)?;
    write_set(w, set)
}

/// What stands behind the number of an operation.
fn read_behind(alloc: Global, r: &mut Reader, number: u32) -> Result<Res, OpFault>
    ensures { Gives (λ x. x) result r.new (as_kept (choose Illegal res_rows number r.old)) }
{
    match number {
        4 => Ok(Res::Close(read_stateid_answer(r)?)),
        5 => Ok(Res::Commit(read_commit(r)?)),
        6 => Ok(Res::Create(read_create(alloc, r)?)),
        8 => Ok(Res::DelegReturn(read_status(r)?)),
        9 => read_get_attr(alloc, r),
        10 => Ok(Res::GetFh(read_get_fh(alloc, r)?)),
        12 => Ok(Res::Lock(read_lock(alloc, r)?)),
        13 => Ok(Res::LockTest(read_lock_test(alloc, r)?)),
        14 => Ok(Res::Unlock(read_stateid_answer(r)?)),
        15 => Ok(Res::Lookup(read_status(r)?)),
        18 => Ok(Res::Open(read_open(alloc, r)?)),
        21 => Ok(Res::OpenDowngrade(read_stateid_answer(r)?)),
        22 => Ok(Res::PutFh(read_status(r)?)),
        24 => Ok(Res::PutRootFh(read_status(r)?)),
        25 => Ok(Res::Read(read_read(alloc, r)?)),
        26 => read_read_dir(alloc, r),
        28 => Ok(Res::Remove(read_remove(r)?)),
        29 => Ok(Res::Rename(read_rename(r)?)),
        32 => Ok(Res::SaveFh(read_status(r)?)),
        34 => read_set_attr(alloc, r),
        38 => Ok(Res::Write(read_write(r)?)),
        41 => Ok(Res::Bind(read_bind(r)?)),
        42 => Ok(Res::ExchangeId(read_exchange_id(alloc, r)?)),
        43 => Ok(Res::CreateSession(read_create_session(r)?)),
        44 => Ok(Res::DestroySession(read_status(r)?)),
        45 => Ok(Res::FreeStateid(read_status(r)?)),
        53 => Ok(Res::Sequence(read_sequence(r)?)),
        55 => Ok(Res::TestStateid(read_test_stateid(alloc, r)?)),
        57 => Ok(Res::DestroyClient(read_status(r)?)),
        58 => Ok(Res::ReclaimComplete(read_status(r)?)),
        10044 => Ok(Res::Illegal(read_failure(r)?)),
        _ => Err(OpFault::Illegal(number)),
    }
}

fn write_behind(w: &mut Writer, x: &Res) -> Result<(), NoMemory>
    requires { (res_arm (written_res x.now)).Fits }
    ensures { OnOk result (w.new ≡ w.old ++ (res_arm (written_res x.now)).text) }
{
    match x {
        Res::Close(answer) => write_stateid_answer(w, answer),
        Res::Commit(answer) => write_commit(w, answer),
        Res::Create(answer) => write_create(w, answer),
        Res::DelegReturn(status) => write_status(w, status),
        Res::GetAttr(answer) => write_get_attr(w, answer),
        Res::GetFh(answer) => write_get_fh(w, answer),
        Res::Lock(answer) => write_lock(w, answer),
        Res::LockTest(answer) => write_lock_test(w, answer),
        Res::Unlock(answer) => write_stateid_answer(w, answer),
        Res::Lookup(status) => write_status(w, status),
        Res::Open(answer) => write_open(w, answer),
        Res::OpenDowngrade(answer) => write_stateid_answer(w, answer),
        Res::PutFh(status) => write_status(w, status),
        Res::PutRootFh(status) => write_status(w, status),
        Res::Read(answer) => write_read(w, answer),
        Res::ReadDir(answer) => write_read_dir(w, answer),
        Res::Remove(answer) => write_remove(w, answer),
        Res::Rename(answer) => write_rename(w, answer),
        Res::SaveFh(status) => write_status(w, status),
        Res::SetAttr { status, set } => write_set_attr(w, status, set),
        Res::Write(answer) => write_write(w, answer),
        Res::Bind(answer) => write_bind(w, answer),
        Res::ExchangeId(answer) => write_exchange_id(w, answer),
        Res::CreateSession(answer) => write_create_session(w, answer),
        Res::DestroySession(status) => write_status(w, status),
        Res::FreeStateid(status) => write_status(w, status),
        Res::Sequence(answer) => write_sequence(w, answer),
        Res::TestStateid(answer) => write_test_stateid(w, answer),
        Res::DestroyClient(status) => write_status(w, status),
        Res::ReclaimComplete(status) => write_status(w, status),
        Res::Illegal(status) => write_failure(w, status),
    }
}

#[tactic(auto, unfolding(crate::specs::Results::told_res))]
fn read_result(alloc: Global, r: &mut Reader) -> Result<Res, OpFault>
    ensures { Gives (λ x. x) result r.new (made res_of told_res r.old) }
{
    let number = r.u32()?;
    read_behind(alloc, r, number)
}

/// Reads the result of an operation (RFC 8881, nfs_resop4). A fault leaves the reader as it was.
pub fn read_res(alloc: Global, r: &mut Reader) -> Result<Res, OpFault>
    ensures { Reads (λ x. x) result r.old r.new (made res_of told_res r.old) }
{
    let start = r.rest();
    match read_result(alloc, r) {
        Ok(res) => Ok(res),
        Err(fault) => {
            *r = Reader::new(start);
            Err(fault)
        }
    }
}

/// Writes the result of an operation (RFC 8881, nfs_resop4). Where memory runs out, a part of it may be written.
#[tactic(auto, unfolding(crate::specs::Results::told_res))]
pub fn write_res(w: &mut Writer, x: &Res) -> Result<(), NoMemory>
    requires { told_res.Fits (written_res x.now) }
    ensures { OnOk result (w.new ≡ w.old ++ told_res.spell (written_res x.now)) }
{
    w.put_u32(x.operation().number())?;
    write_behind(w, x)
}
