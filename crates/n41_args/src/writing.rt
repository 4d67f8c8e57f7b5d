ghost use Rattle.std.specs.Prelude.{◌≡◌, ◌++◌, OnOk};
ghost use Rattle.n41_args.specs.Args.{told_arg, arg_arm, written_arg};

use crate::arg::Arg;
use crate::directories::{write_create, write_read_dir, write_rename};
use crate::files::{write_commit, write_read, write_set_attr, write_stateids, write_write};
use crate::locks::{write_lock, write_lock_test, write_unlock};
use crate::openings::{write_close, write_downgrade, write_open};
use n41_attr::parts::{write_fh, write_session, write_set, write_stateid, write_string};
use n41_session_args::sessions::{
    write_bind, write_create_session, write_exchange_id, write_sequence,
};
use n41_types::NoMemory;
use n41_xdr::Writer;

/// The arguments, without the number of their operation.
fn write_arm(w: &mut Writer, a: &Arg) -> Result<(), NoMemory>
    requires { (arg_arm (written_arg a.now)).Fits }
    ensures { OnOk result (w.new ≡ w.old ++ (arg_arm (written_arg a.now)).text) }
{
    match a {
        Arg::Close(args) => write_close(w, args),
        Arg::Commit(args) => write_commit(w, args),
        Arg::Create(args) => write_create(w, args),
        Arg::DelegReturn(stateid) => write_stateid(w, stateid),
        Arg::GetAttr(mask) => write_set(w, mask),
        Arg::GetFh => Ok(()),
        Arg::Lock(args) => write_lock(w, args),
        Arg::LockTest(args) => write_lock_test(w, args),
        Arg::Unlock(args) => write_unlock(w, args),
        Arg::Lookup(name) => write_string(w, name),
        Arg::Open(args) => write_open(w, args),
        Arg::OpenDowngrade(args) => write_downgrade(w, args),
        Arg::PutFh(fh) => write_fh(w, fh),
        Arg::PutRootFh => Ok(()),
        Arg::Read(args) => write_read(w, args),
        Arg::ReadDir(args) => write_read_dir(w, args),
        Arg::Remove(name) => write_string(w, name),
        Arg::Rename(args) => write_rename(w, args),
        Arg::SaveFh => Ok(()),
        Arg::SetAttr(args) => write_set_attr(w, args),
        Arg::Write(args) => write_write(w, args),
        Arg::Bind(args) => write_bind(w, args),
        Arg::ExchangeId(args) => write_exchange_id(w, args),
        Arg::CreateSession(args) => write_create_session(w, args),
        Arg::DestroySession(sid) => write_session(w, sid),
        Arg::FreeStateid(stateid) => write_stateid(w, stateid),
        Arg::Sequence(args) => write_sequence(w, args),
        Arg::TestStateid(list) => write_stateids(w, list),
        Arg::DestroyClient(client) => w.put_u64(*client),
        Arg::ReclaimComplete(one_fs) => w.put_bool(*one_fs),
        Arg::Illegal => Ok(()),
    }
}

/// Writes an operation and its arguments.
#[tactic(auto, using(crate::proofs::ArgsLawful::number_kept), unfolding(crate::specs::Args::told_arg))]
pub fn write_arg(w: &mut Writer, a: &Arg) -> Result<(), NoMemory>
    requires { told_arg.Fits (written_arg a.now) }
    ensures { OnOk result (w.new ≡ w.old ++ told_arg.spell (written_arg a.now)) }
{
    w.put_u32(a.operation().number())?;
    write_arm(w, a)
}
