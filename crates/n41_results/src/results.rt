ghost use Rattle.std.specs.Prelude.{◌≡◌};
ghost use Rattle.n41_results.specs.Results.{operation_of, status_of, outcome, lock_outcome};

use crate::openings::{ChangeInfo, Opened};
use crate::sessions::{Bound, Identity, Sequenced, SessionMade};
use n41_types::{Attrs, Bitmap, Bytes, Fh, Operation, Owner, Sequence, Stateid, Status, Verifier};
use std::alloc::AllocError;

/// The kinds of a lock on the wire (RFC 8881, nfs_lock_type4). The last two are those of a caller that waits.
#[derive(Clone, Copy, PartialEq, Eq)]
pub enum LockType {
    Read = 1,
    Write = 2,
    ReadWaiting = 3,
    WriteWaiting = 4,
}

/// The lock that stands in the way (RFC 8881, LOCK4denied). A length of all ones is to the end.
#[derive(Drop, PartialEq, Eq)]
pub struct LockDenied {
    pub offset: u64,
    pub length: u64,
    pub kind: LockType,
    pub client: u64,
    pub owner: Owner,
}

impl Clone for LockDenied {
    ghost is_clone = { λ x y. y ≡ x };

    fn clone(&self) -> Result<LockDenied, AllocError> {
        Ok(LockDenied {
            offset: self.offset,
            length: self.length,
            kind: self.kind,
            client: self.client,
            owner: self.owner.clone()?,
        })
    }
}

/// Why bytes are not locked.
#[derive(Drop, PartialEq, Eq)]
pub enum LockRefusal {
    /// DENIED, with the lock that stands in the way.
    Denied(LockDenied),
    /// Another status.
    Other(Status),
}

impl Clone for LockRefusal {
    ghost is_clone = { λ x y. y ≡ x };

    fn clone(&self) -> Result<LockRefusal, AllocError> {
        Ok(match self {
            LockRefusal::Denied(lock) => LockRefusal::Denied(lock.clone()?),
            LockRefusal::Other(status) => LockRefusal::Other(*status),
        })
    }
}

/// What CREATE answers (RFC 8881, CREATE4resok).
#[derive(Drop, PartialEq, Eq)]
pub struct Created {
    pub change: ChangeInfo,
    pub set: Bitmap,
}

impl Clone for Created {
    ghost is_clone = { λ x y. y ≡ x };

    fn clone(&self) -> Result<Created, AllocError> {
        Ok(Created {
            change: self.change,
            set: self.set.clone()?,
        })
    }
}

/// What READ answers (RFC 8881, READ4resok).
#[derive(Drop, PartialEq, Eq)]
pub struct Content {
    pub eof: bool,
    pub bytes: Bytes,
}

impl Clone for Content {
    ghost is_clone = { λ x y. y ≡ x };

    fn clone(&self) -> Result<Content, AllocError> {
        Ok(Content {
            eof: self.eof,
            bytes: self.bytes.clone()?,
        })
    }
}

/// An entry of a directory (RFC 8881, entry4). Its name is any bytes: a server may have other names than this client makes.
#[derive(Drop, PartialEq, Eq)]
pub struct Entry {
    pub cookie: u64,
    pub name: Bytes,
    pub attrs: Attrs,
}

impl Clone for Entry {
    ghost is_clone = { λ x y. y ≡ x };

    fn clone(&self) -> Result<Entry, AllocError> {
        Ok(Entry {
            cookie: self.cookie,
            name: self.name.clone()?,
            attrs: self.attrs,
        })
    }
}

/// A list of entries.
pub type Entries = Sequence<Entry>;

/// What READDIR answers (RFC 8881, READDIR4resok).
#[derive(Drop, PartialEq, Eq)]
pub struct Listing {
    pub verifier: Verifier,
    pub entries: Entries,
    pub eof: bool,
}

impl Clone for Listing {
    ghost is_clone = { λ x y. y ≡ x };

    fn clone(&self) -> Result<Listing, AllocError> {
        Ok(Listing {
            verifier: self.verifier,
            entries: self.entries.clone()?,
            eof: self.eof,
        })
    }
}

/// What RENAME answers: how it changed the two directories (RFC 8881, RENAME4resok).
#[derive(Clone, Copy, PartialEq, Eq)]
pub struct Renamed {
    pub source: ChangeInfo,
    pub target: ChangeInfo,
}

/// What WRITE answers (RFC 8881, WRITE4resok). `committed` is UNSTABLE 0, DATA_SYNC 1 or FILE_SYNC 2.
#[derive(Clone, Copy, PartialEq, Eq)]
pub struct Written {
    pub count: u32,
    pub committed: u32,
    pub verifier: Verifier,
}

/// A list of statuses.
pub type Statuses = Sequence<Status>;

/// The result of an operation: what follows OK, or the status (RFC 8881, nfs_resop4). An `Err` with the status OK is the
/// result of no operation.
#[derive(Drop, PartialEq, Eq)]
pub enum Res {
    Close(Result<Stateid, Status>),
    Commit(Result<Verifier, Status>),
    Create(Result<Created, Status>),
    DelegReturn(Status),
    GetAttr(Result<Attrs, Status>),
    GetFh(Result<Fh, Status>),
    Lock(Result<Stateid, LockRefusal>),
    LockTest(Result<(), LockRefusal>),
    Unlock(Result<Stateid, Status>),
    Lookup(Status),
    Open(Result<Opened, Status>),
    OpenDowngrade(Result<Stateid, Status>),
    PutFh(Status),
    PutRootFh(Status),
    Read(Result<Content, Status>),
    ReadDir(Result<Listing, Status>),
    Remove(Result<ChangeInfo, Status>),
    Rename(Result<Renamed, Status>),
    SaveFh(Status),
    /// The attributes that were set follow every status.
    SetAttr { status: Status, set: Bitmap },
    Write(Result<Written, Status>),
    Bind(Result<Bound, Status>),
    ExchangeId(Result<Identity, Status>),
    CreateSession(Result<SessionMade, Status>),
    DestroySession(Status),
    FreeStateid(Status),
    Sequence(Result<Sequenced, Status>),
    TestStateid(Result<Statuses, Status>),
    DestroyClient(Status),
    ReclaimComplete(Status),
    Illegal(Status),
}

impl Clone for Res {
    ghost is_clone = { λ x y. y ≡ x };

    fn clone(&self) -> Result<Res, AllocError> {
        Ok(match self {
            Res::Close(outcome) => Res::Close(*outcome),
            Res::Commit(outcome) => Res::Commit(*outcome),
            Res::Create(outcome) => Res::Create(outcome.clone()?),
            Res::DelegReturn(status) => Res::DelegReturn(*status),
            Res::GetAttr(outcome) => Res::GetAttr(*outcome),
            Res::GetFh(outcome) => Res::GetFh(outcome.clone()?),
            Res::Lock(outcome) => Res::Lock(outcome.clone()?),
            Res::LockTest(outcome) => Res::LockTest(outcome.clone()?),
            Res::Unlock(outcome) => Res::Unlock(*outcome),
            Res::Lookup(status) => Res::Lookup(*status),
            Res::Open(outcome) => Res::Open(outcome.clone()?),
            Res::OpenDowngrade(outcome) => Res::OpenDowngrade(*outcome),
            Res::PutFh(status) => Res::PutFh(*status),
            Res::PutRootFh(status) => Res::PutRootFh(*status),
            Res::Read(outcome) => Res::Read(outcome.clone()?),
            Res::ReadDir(outcome) => Res::ReadDir(outcome.clone()?),
            Res::Remove(outcome) => Res::Remove(*outcome),
            Res::Rename(outcome) => Res::Rename(*outcome),
            Res::SaveFh(status) => Res::SaveFh(*status),
            Res::SetAttr { status, set } => Res::SetAttr {
                status: *status,
                set: set.clone()?,
            },
            Res::Write(outcome) => Res::Write(*outcome),
            Res::Bind(outcome) => Res::Bind(*outcome),
            Res::ExchangeId(outcome) => Res::ExchangeId(outcome.clone()?),
            Res::CreateSession(outcome) => Res::CreateSession(*outcome),
            Res::DestroySession(status) => Res::DestroySession(*status),
            Res::FreeStateid(status) => Res::FreeStateid(*status),
            Res::Sequence(outcome) => Res::Sequence(*outcome),
            Res::TestStateid(outcome) => Res::TestStateid(outcome.clone()?),
            Res::DestroyClient(status) => Res::DestroyClient(*status),
            Res::ReclaimComplete(status) => Res::ReclaimComplete(*status),
            Res::Illegal(status) => Res::Illegal(*status),
        })
    }
}

/// The status of an answer, or of a refusal.
fn outcome_of<T>(answer: &Result<T, Status>) -> Status
    ensures { result ≡ outcome answer.now }
{
    match answer {
        Ok(_) => Status::OK,
        Err(status) => *status,
    }
}

/// The status of an answer to a lock.
fn lock_outcome_of<T>(answer: &Result<T, LockRefusal>) -> Status
    ensures { result ≡ lock_outcome answer.now }
{
    match answer {
        Ok(_) => Status::OK,
        Err(LockRefusal::Denied(_)) => Status::DENIED,
        Err(LockRefusal::Other(status)) => *status,
    }
}

impl Res {
    /// The operation that it answers.
    pub fn operation(&self) -> Operation
        ensures { result ≡ operation_of self.now }
    {
        match self {
            Res::Close(_) => Operation::Close,
            Res::Commit(_) => Operation::Commit,
            Res::Create(_) => Operation::Create,
            Res::DelegReturn(_) => Operation::DelegReturn,
            Res::GetAttr(_) => Operation::GetAttr,
            Res::GetFh(_) => Operation::GetFh,
            Res::Lock(_) => Operation::Lock,
            Res::LockTest(_) => Operation::LockTest,
            Res::Unlock(_) => Operation::Unlock,
            Res::Lookup(_) => Operation::Lookup,
            Res::Open(_) => Operation::Open,
            Res::OpenDowngrade(_) => Operation::OpenDowngrade,
            Res::PutFh(_) => Operation::PutFh,
            Res::PutRootFh(_) => Operation::PutRootFh,
            Res::Read(_) => Operation::Read,
            Res::ReadDir(_) => Operation::ReadDir,
            Res::Remove(_) => Operation::Remove,
            Res::Rename(_) => Operation::Rename,
            Res::SaveFh(_) => Operation::SaveFh,
            Res::SetAttr { .. } => Operation::SetAttr,
            Res::Write(_) => Operation::Write,
            Res::Bind(_) => Operation::Bind,
            Res::ExchangeId(_) => Operation::ExchangeId,
            Res::CreateSession(_) => Operation::CreateSession,
            Res::DestroySession(_) => Operation::DestroySession,
            Res::FreeStateid(_) => Operation::FreeStateid,
            Res::Sequence(_) => Operation::Sequence,
            Res::TestStateid(_) => Operation::TestStateid,
            Res::DestroyClient(_) => Operation::DestroyClient,
            Res::ReclaimComplete(_) => Operation::ReclaimComplete,
            Res::Illegal(_) => Operation::Illegal,
        }
    }

    /// Its status.
    pub fn status(&self) -> Status
        ensures { result ≡ status_of self.now }
    {
        match self {
            Res::Close(outcome) => outcome_of(outcome),
            Res::Commit(outcome) => outcome_of(outcome),
            Res::Create(outcome) => outcome_of(outcome),
            Res::DelegReturn(status) => *status,
            Res::GetAttr(outcome) => outcome_of(outcome),
            Res::GetFh(outcome) => outcome_of(outcome),
            Res::Lock(outcome) => lock_outcome_of(outcome),
            Res::LockTest(outcome) => lock_outcome_of(outcome),
            Res::Unlock(outcome) => outcome_of(outcome),
            Res::Lookup(status) => *status,
            Res::Open(outcome) => outcome_of(outcome),
            Res::OpenDowngrade(outcome) => outcome_of(outcome),
            Res::PutFh(status) => *status,
            Res::PutRootFh(status) => *status,
            Res::Read(outcome) => outcome_of(outcome),
            Res::ReadDir(outcome) => outcome_of(outcome),
            Res::Remove(outcome) => outcome_of(outcome),
            Res::Rename(outcome) => outcome_of(outcome),
            Res::SaveFh(status) => *status,
            Res::SetAttr { status, .. } => *status,
            Res::Write(outcome) => outcome_of(outcome),
            Res::Bind(outcome) => outcome_of(outcome),
            Res::ExchangeId(outcome) => outcome_of(outcome),
            Res::CreateSession(outcome) => outcome_of(outcome),
            Res::DestroySession(status) => *status,
            Res::FreeStateid(status) => *status,
            Res::Sequence(outcome) => outcome_of(outcome),
            Res::TestStateid(outcome) => outcome_of(outcome),
            Res::DestroyClient(status) => *status,
            Res::ReclaimComplete(status) => *status,
            Res::Illegal(status) => *status,
        }
    }
}
