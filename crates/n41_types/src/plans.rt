ghost use Rattle.std.specs.Prelude.{◌≡◌};
ghost use Rattle.n41_types.specs.Plans.{class_of, is_cached};

use crate::identities::{Fh, SessionId, Stateid, Stateids, Verifier};
use crate::names::{Name, Path};
use crate::owners::Owner;
use crate::spans::{LockKind, Mode, Span};
use bytes::Bytes;
use std::alloc::AllocError;

/// Where a plan begins: at the root, or at a filehandle.
#[derive(Drop, PartialEq, Eq)]
pub enum Place {
    Root,
    At(Fh),
}

impl Clone for Place {
    ghost is_clone = { λ x y. y ≡ x };

    fn clone(&self) -> Result<Place, AllocError> {
        Ok(match self {
            Place::Root => Place::Root,
            Place::At(fh) => Place::At(fh.clone()?),
        })
    }
}

/// By what right a file is opened (RFC 8881, open_claim_type4).
#[derive(Clone, Copy, Debug, PartialEq, Eq)]
pub enum Claim {
    /// A reclaim after a restart of the server, with the type of the delegation that was held.
    Previous(u32),
    Fh,
    /// Under the delegation with this stateid.
    DelegCur(Stateid),
}

/// Who locks (RFC 8881, locker4): a lock owner that has no lock on the file yet, or the holder of a lock stateid.
#[derive(Drop, PartialEq, Eq)]
pub enum Locker {
    New { opener: Stateid, owner: Owner },
    Old(Stateid),
}

impl Clone for Locker {
    ghost is_clone = { λ x y. y ≡ x };

    fn clone(&self) -> Result<Locker, AllocError> {
        Ok(match self {
            Locker::New { opener, owner } => Locker::New {
                opener: *opener,
                owner: owner.clone()?,
            },
            Locker::Old(stateid) => Locker::Old(*stateid),
        })
    }
}

/// What a request is for. Each plan stands for one list of operations.
#[derive(Drop, PartialEq, Eq)]
pub enum Plan {
    ExchangeId {
        verifier: Verifier,
        owner: Bytes,
    },
    CreateSession {
        client: u64,
        seq: u32,
    },
    Bind {
        sid: SessionId,
    },
    DestroySession {
        sid: SessionId,
    },
    DestroyClient {
        client: u64,
    },
    Walk {
        from: Place,
        names: Path,
    },
    Stat {
        at: Place,
    },
    LeaseTime,
    Read {
        fh: Fh,
        stateid: Stateid,
        offset: u64,
        count: u32,
    },
    List {
        at: Place,
        cookie: u64,
        verf: Verifier,
        max: u32,
    },
    TestLock {
        fh: Fh,
        kind: LockKind,
        span: Span,
        owner: Owner,
    },
    Test {
        stateids: Stateids,
    },
    Renew,
    OpenAt {
        fh: Fh,
        mode: Mode,
        owner: Owner,
        claim: Claim,
    },
    Downgrade {
        fh: Fh,
        stateid: Stateid,
        mode: Mode,
    },
    CloseState {
        fh: Fh,
        stateid: Stateid,
    },
    LockBytes {
        fh: Fh,
        kind: LockKind,
        span: Span,
        reclaim: bool,
        locker: Locker,
    },
    UnlockBytes {
        fh: Fh,
        span: Span,
        stateid: Stateid,
    },
    ReturnDeleg {
        fh: Fh,
        stateid: Stateid,
    },
    Free {
        stateid: Stateid,
    },
    Complete,
    CreateFile {
        dir: Place,
        name: Name,
        guarded: bool,
        owner: Owner,
    },
    WriteBytes {
        fh: Fh,
        stateid: Stateid,
        offset: u64,
        bytes: Bytes,
    },
    Resize {
        fh: Fh,
        stateid: Stateid,
        size: u64,
    },
    MakeDir {
        dir: Place,
        name: Name,
    },
    Remove {
        dir: Place,
        name: Name,
    },
    Rename {
        from: Place,
        old: Name,
        to: Place,
        new: Name,
    },
}

impl Clone for Plan {
    ghost is_clone = { λ x y. y ≡ x };

    fn clone(&self) -> Result<Plan, AllocError> {
        Ok(match self {
            Plan::ExchangeId { verifier, owner } => Plan::ExchangeId {
                verifier: *verifier,
                owner: owner.clone()?,
            },
            Plan::CreateSession { client, seq } => Plan::CreateSession {
                client: *client,
                seq: *seq,
            },
            Plan::Bind { sid } => Plan::Bind { sid: *sid },
            Plan::DestroySession { sid } => Plan::DestroySession { sid: *sid },
            Plan::DestroyClient { client } => Plan::DestroyClient { client: *client },
            Plan::Walk { from, names } => Plan::Walk {
                from: from.clone()?,
                names: names.clone()?,
            },
            Plan::Stat { at } => Plan::Stat { at: at.clone()? },
            Plan::LeaseTime => Plan::LeaseTime,
            Plan::Read {
                fh,
                stateid,
                offset,
                count,
            } => Plan::Read {
                fh: fh.clone()?,
                stateid: *stateid,
                offset: *offset,
                count: *count,
            },
            Plan::List {
                at,
                cookie,
                verf,
                max,
            } => Plan::List {
                at: at.clone()?,
                cookie: *cookie,
                verf: *verf,
                max: *max,
            },
            Plan::TestLock {
                fh,
                kind,
                span,
                owner,
            } => Plan::TestLock {
                fh: fh.clone()?,
                kind: *kind,
                span: *span,
                owner: owner.clone()?,
            },
            Plan::Test { stateids } => Plan::Test {
                stateids: stateids.clone()?,
            },
            Plan::Renew => Plan::Renew,
            Plan::OpenAt {
                fh,
                mode,
                owner,
                claim,
            } => Plan::OpenAt {
                fh: fh.clone()?,
                mode: *mode,
                owner: owner.clone()?,
                claim: *claim,
            },
            Plan::Downgrade { fh, stateid, mode } => Plan::Downgrade {
                fh: fh.clone()?,
                stateid: *stateid,
                mode: *mode,
            },
            Plan::CloseState { fh, stateid } => Plan::CloseState {
                fh: fh.clone()?,
                stateid: *stateid,
            },
            Plan::LockBytes {
                fh,
                kind,
                span,
                reclaim,
                locker,
            } => Plan::LockBytes {
                fh: fh.clone()?,
                kind: *kind,
                span: *span,
                reclaim: *reclaim,
                locker: locker.clone()?,
            },
            Plan::UnlockBytes { fh, span, stateid } => Plan::UnlockBytes {
                fh: fh.clone()?,
                span: *span,
                stateid: *stateid,
            },
            Plan::ReturnDeleg { fh, stateid } => Plan::ReturnDeleg {
                fh: fh.clone()?,
                stateid: *stateid,
            },
            Plan::Free { stateid } => Plan::Free { stateid: *stateid },
            Plan::Complete => Plan::Complete,
            Plan::CreateFile {
                dir,
                name,
                guarded,
                owner,
            } => Plan::CreateFile {
                dir: dir.clone()?,
                name: name.clone()?,
                guarded: *guarded,
                owner: owner.clone()?,
            },
            Plan::WriteBytes {
                fh,
                stateid,
                offset,
                bytes,
            } => Plan::WriteBytes {
                fh: fh.clone()?,
                stateid: *stateid,
                offset: *offset,
                bytes: bytes.clone()?,
            },
            Plan::Resize { fh, stateid, size } => Plan::Resize {
                fh: fh.clone()?,
                stateid: *stateid,
                size: *size,
            },
            Plan::MakeDir { dir, name } => Plan::MakeDir {
                dir: dir.clone()?,
                name: name.clone()?,
            },
            Plan::Remove { dir, name } => Plan::Remove {
                dir: dir.clone()?,
                name: name.clone()?,
            },
            Plan::Rename { from, old, to, new } => Plan::Rename {
                from: from.clone()?,
                old: old.clone()?,
                to: to.clone()?,
                new: new.clone()?,
            },
        })
    }
}

/// What a plan does to the server, and so how it may be sent again.
#[derive(Clone, Copy, Debug, PartialEq, Eq)]
pub enum Class {
    /// It has no slot.
    Bare,
    /// It changes nothing.
    Reading,
    /// It changes opens, locks, delegations or what the server knows of a reclaim.
    State,
    /// It changes files or directories.
    Changing,
}

impl Plan {
    /// Its class.
    pub fn class(&self) -> Class
        ensures { result ≡ class_of self.now }
    {
        match self {
            Plan::ExchangeId { .. }
            | Plan::CreateSession { .. }
            | Plan::Bind { .. }
            | Plan::DestroySession { .. }
            | Plan::DestroyClient { .. } => Class::Bare,
            Plan::Walk { .. }
            | Plan::Stat { .. }
            | Plan::LeaseTime
            | Plan::Read { .. }
            | Plan::List { .. }
            | Plan::TestLock { .. }
            | Plan::Test { .. }
            | Plan::Renew => Class::Reading,
            Plan::OpenAt { .. }
            | Plan::Downgrade { .. }
            | Plan::CloseState { .. }
            | Plan::LockBytes { .. }
            | Plan::UnlockBytes { .. }
            | Plan::ReturnDeleg { .. }
            | Plan::Free { .. }
            | Plan::Complete => Class::State,
            Plan::CreateFile { .. }
            | Plan::WriteBytes { .. }
            | Plan::Resize { .. }
            | Plan::MakeDir { .. }
            | Plan::Remove { .. }
            | Plan::Rename { .. } => Class::Changing,
        }
    }

    /// Whether the server is asked to keep its reply for a retry (RFC 8881, sa_cachethis).
    pub fn is_cached(&self) -> bool
        ensures { result ≡ is_cached (class_of self.now) }
    {
        self.class() != Class::Reading
    }
}

/// The slot of a request, and its turn there (RFC 8881, SEQUENCE4args).
#[derive(Clone, Copy, Debug, PartialEq, Eq)]
pub struct SlotUse {
    pub sid: SessionId,
    pub slot: u32,
    pub turn: u32,
    pub highest: u32,
    pub cache: bool,
}

/// A request. A plan without a slot is alone in its compound.
#[derive(Drop, PartialEq, Eq)]
pub struct Request {
    pub xid: u32,
    pub uid: u32,
    pub gid: u32,
    /// The minor version.
    pub minor: u32,
    pub slot: Option<SlotUse>,
    pub plan: Plan,
}

impl Clone for Request {
    ghost is_clone = { λ x y. y ≡ x };

    fn clone(&self) -> Result<Request, AllocError> {
        Ok(Request {
            xid: self.xid,
            uid: self.uid,
            gid: self.gid,
            minor: self.minor,
            slot: self.slot,
            plan: self.plan.clone()?,
        })
    }
}
