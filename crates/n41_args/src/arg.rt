ghost use Rattle.std.specs.Prelude.{◌≡◌};
ghost use Rattle.n41_args.specs.Args.{operation_of};

use crate::directories::{CreateArgs, ReadDirArgs, RenameArgs};
use crate::files::{CommitArgs, ReadArgs, SetAttrArgs, WriteArgs};
use crate::locks::{LockArgs, LockTestArgs, UnlockArgs};
use crate::openings::{CloseArgs, DowngradeArgs, OpenArgs};
use n41_session_args::{BindArgs, CreateSessionArgs, ExchangeIdArgs};
use n41_types::{Bitmap, Bytes, Fh, Operation, SessionId, SlotUse, Stateid, Stateids};
use std::alloc::AllocError;

/// An operation and its arguments (RFC 8881, nfs_argop4). Names are any bytes: a client may ask for names that none has.
#[derive(Drop, PartialEq, Eq)]
pub enum Arg {
    Close(CloseArgs),
    Commit(CommitArgs),
    Create(CreateArgs),
    DelegReturn(Stateid),
    GetAttr(Bitmap),
    GetFh,
    Lock(LockArgs),
    LockTest(LockTestArgs),
    Unlock(UnlockArgs),
    Lookup(Bytes),
    Open(OpenArgs),
    OpenDowngrade(DowngradeArgs),
    PutFh(Fh),
    PutRootFh,
    Read(ReadArgs),
    ReadDir(ReadDirArgs),
    Remove(Bytes),
    Rename(RenameArgs),
    SaveFh,
    SetAttr(SetAttrArgs),
    Write(WriteArgs),
    Bind(BindArgs),
    ExchangeId(ExchangeIdArgs),
    CreateSession(CreateSessionArgs),
    DestroySession(SessionId),
    FreeStateid(Stateid),
    Sequence(SlotUse),
    TestStateid(Stateids),
    /// The client id.
    DestroyClient(u64),
    /// Whether it speaks of the file system of the current filehandle alone.
    ReclaimComplete(bool),
    Illegal,
}

impl Clone for Arg {
    ghost is_clone = { λ x y. y ≡ x };

    fn clone(&self) -> Result<Arg, AllocError> {
        Ok(match self {
            Arg::Close(args) => Arg::Close(*args),
            Arg::Commit(args) => Arg::Commit(*args),
            Arg::Create(args) => Arg::Create(args.clone()?),
            Arg::DelegReturn(stateid) => Arg::DelegReturn(*stateid),
            Arg::GetAttr(mask) => Arg::GetAttr(mask.clone()?),
            Arg::GetFh => Arg::GetFh,
            Arg::Lock(args) => Arg::Lock(args.clone()?),
            Arg::LockTest(args) => Arg::LockTest(args.clone()?),
            Arg::Unlock(args) => Arg::Unlock(*args),
            Arg::Lookup(name) => Arg::Lookup(name.clone()?),
            Arg::Open(args) => Arg::Open(args.clone()?),
            Arg::OpenDowngrade(args) => Arg::OpenDowngrade(*args),
            Arg::PutFh(fh) => Arg::PutFh(fh.clone()?),
            Arg::PutRootFh => Arg::PutRootFh,
            Arg::Read(args) => Arg::Read(*args),
            Arg::ReadDir(args) => Arg::ReadDir(args.clone()?),
            Arg::Remove(name) => Arg::Remove(name.clone()?),
            Arg::Rename(args) => Arg::Rename(args.clone()?),
            Arg::SaveFh => Arg::SaveFh,
            Arg::SetAttr(args) => Arg::SetAttr(*args),
            Arg::Write(args) => Arg::Write(args.clone()?),
            Arg::Bind(args) => Arg::Bind(*args),
            Arg::ExchangeId(args) => Arg::ExchangeId(args.clone()?),
            Arg::CreateSession(args) => Arg::CreateSession(args.clone()?),
            Arg::DestroySession(sid) => Arg::DestroySession(*sid),
            Arg::FreeStateid(stateid) => Arg::FreeStateid(*stateid),
            Arg::Sequence(args) => Arg::Sequence(*args),
            Arg::TestStateid(list) => Arg::TestStateid(list.clone()?),
            Arg::DestroyClient(client) => Arg::DestroyClient(*client),
            Arg::ReclaimComplete(one_fs) => Arg::ReclaimComplete(*one_fs),
            Arg::Illegal => Arg::Illegal,
        })
    }
}

impl Arg {
    /// Its operation.
    pub fn operation(&self) -> Operation
        ensures { result ≡ operation_of self.now }
    {
        match self {
            Arg::Close(_) => Operation::Close,
            Arg::Commit(_) => Operation::Commit,
            Arg::Create(_) => Operation::Create,
            Arg::DelegReturn(_) => Operation::DelegReturn,
            Arg::GetAttr(_) => Operation::GetAttr,
            Arg::GetFh => Operation::GetFh,
            Arg::Lock(_) => Operation::Lock,
            Arg::LockTest(_) => Operation::LockTest,
            Arg::Unlock(_) => Operation::Unlock,
            Arg::Lookup(_) => Operation::Lookup,
            Arg::Open(_) => Operation::Open,
            Arg::OpenDowngrade(_) => Operation::OpenDowngrade,
            Arg::PutFh(_) => Operation::PutFh,
            Arg::PutRootFh => Operation::PutRootFh,
            Arg::Read(_) => Operation::Read,
            Arg::ReadDir(_) => Operation::ReadDir,
            Arg::Remove(_) => Operation::Remove,
            Arg::Rename(_) => Operation::Rename,
            Arg::SaveFh => Operation::SaveFh,
            Arg::SetAttr(_) => Operation::SetAttr,
            Arg::Write(_) => Operation::Write,
            Arg::Bind(_) => Operation::Bind,
            Arg::ExchangeId(_) => Operation::ExchangeId,
            Arg::CreateSession(_) => Operation::CreateSession,
            Arg::DestroySession(_) => Operation::DestroySession,
            Arg::FreeStateid(_) => Operation::FreeStateid,
            Arg::Sequence(_) => Operation::Sequence,
            Arg::TestStateid(_) => Operation::TestStateid,
            Arg::DestroyClient(_) => Operation::DestroyClient,
            Arg::ReclaimComplete(_) => Operation::ReclaimComplete,
            Arg::Illegal => Operation::Illegal,
        }
    }
}
