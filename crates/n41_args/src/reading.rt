ghost use Rattle.std.specs.Prelude.{◌≡◌};
ghost use Rattle.n41_xdr.specs.Format.{made, choose};
ghost use Rattle.n41_attr.specs.declared.fault.OpFault.TheVariants.{Illegal};
ghost use Rattle.n41_attr.specs.Operations.{Gives, Reads};
ghost use Rattle.n41_args.specs.Args.{told_arg, arg_of, arg_rows, as_kept};

use crate::arg::Arg;
use crate::directories::{read_create, read_read_dir, read_rename};
use crate::files::{read_commit, read_read, read_set_attr, read_stateids, read_write};
use crate::locks::{read_lock, read_lock_test, read_unlock};
use crate::openings::{read_close, read_downgrade, read_open};
use n41_attr::OpFault;
use n41_attr::parts::{read_fh, read_session, read_set, read_stateid, read_string};
use n41_session_args::sessions::{read_bind, read_create_session, read_exchange_id, read_sequence};
use n41_xdr::Reader;
use std::alloc::Global;

/// The arguments of the operation of a number.
fn read_arm(alloc: Global, r: &mut Reader, number: u32) -> Result<Arg, OpFault>
    ensures { Gives (λ x. x) result r.new (as_kept (choose Illegal arg_rows number r.old)) }
{
    match number {
        4 => Ok(Arg::Close(read_close(r)?)),
        5 => Ok(Arg::Commit(read_commit(r)?)),
        6 => read_create(alloc, r),
        8 => Ok(Arg::DelegReturn(read_stateid(r)?)),
        9 => Ok(Arg::GetAttr(read_set(alloc, r)?)),
        10 => Ok(Arg::GetFh),
        12 => Ok(Arg::Lock(read_lock(alloc, r)?)),
        13 => Ok(Arg::LockTest(read_lock_test(alloc, r)?)),
        14 => Ok(Arg::Unlock(read_unlock(r)?)),
        15 => Ok(Arg::Lookup(read_string(alloc, r)?)),
        18 => read_open(alloc, r),
        21 => Ok(Arg::OpenDowngrade(read_downgrade(r)?)),
        22 => Ok(Arg::PutFh(read_fh(alloc, r)?)),
        24 => Ok(Arg::PutRootFh),
        25 => Ok(Arg::Read(read_read(r)?)),
        26 => Ok(Arg::ReadDir(read_read_dir(alloc, r)?)),
        28 => Ok(Arg::Remove(read_string(alloc, r)?)),
        29 => Ok(Arg::Rename(read_rename(alloc, r)?)),
        32 => Ok(Arg::SaveFh),
        34 => read_set_attr(alloc, r),
        38 => Ok(Arg::Write(read_write(alloc, r)?)),
        41 => Ok(Arg::Bind(read_bind(r)?)),
        42 => Ok(Arg::ExchangeId(read_exchange_id(alloc, r)?)),
        43 => Ok(Arg::CreateSession(read_create_session(alloc, r)?)),
        44 => Ok(Arg::DestroySession(read_session(r)?)),
        45 => Ok(Arg::FreeStateid(read_stateid(r)?)),
        53 => Ok(Arg::Sequence(read_sequence(r)?)),
        55 => Ok(Arg::TestStateid(read_stateids(alloc, r)?)),
        57 => Ok(Arg::DestroyClient(r.u64()?)),
        58 => Ok(Arg::ReclaimComplete(r.boolean()?)),
        10044 => Ok(Arg::Illegal),
        _ => Err(OpFault::Illegal(number)),
    }
}

#[tactic(auto, unfolding(crate::specs::Args::told_arg))]
fn read_operation(alloc: Global, r: &mut Reader) -> Result<Arg, OpFault>
    ensures { Gives (λ x. x) result r.new (made arg_of told_arg r.old) }
{
    let number = r.u32()?;
    read_arm(alloc, r, number)
}

/// Reads an operation and its arguments. A fault leaves the reader as it was; a number that is none of the operations' is Illegal.
pub fn read_arg(alloc: Global, r: &mut Reader) -> Result<Arg, OpFault>
    ensures { Reads (λ x. x) result r.old r.new (made arg_of told_arg r.old) }
{
    let start = r.rest();
    let read = read_operation(alloc, r);
    if read.is_err() {
        *r = Reader::new(start);
    }
    read
}
