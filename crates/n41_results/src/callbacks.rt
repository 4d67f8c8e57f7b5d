ghost use Rattle.std.specs.Prelude.{◌≡◌, ◌≢◌, MatchOption};
ghost use Rattle.n41_results.specs.Callbacks.{number_of, cb_number_of, cb_status_of};
ghost use Rattle.n41_results.specs.declared.callbacks.Unserved.{Unserved};

use crate::sessions::Sequenced;
use n41_types::{Bitmap, Fh, Sequence, SessionId, Stateid, Status};
use std::alloc::AllocError;

/// One call that a callback refers to, by its turn and slot (RFC 8881, referring_call4).
#[derive(Clone, Copy, PartialEq, Eq)]
pub struct ReferringCall {
    pub turn: u32,
    pub slot: u32,
}

/// A list of calls that a callback refers to.
pub type ReferringCalls = Sequence<ReferringCall>;

/// The calls of one session that a callback refers to (RFC 8881, referring_call_list4).
#[derive(Drop, PartialEq, Eq)]
pub struct ReferringList {
    pub sid: SessionId,
    pub calls: ReferringCalls,
}

impl Clone for ReferringList {
    ghost is_clone = { λ x y. y ≡ x };

    fn clone(&self) -> Result<ReferringList, AllocError> {
        Ok(ReferringList {
            sid: self.sid,
            calls: self.calls.clone()?,
        })
    }
}

/// The calls that a callback refers to, by session.
pub type ReferringLists = Sequence<ReferringList>;

/// What CB_RECALL asks: that a delegation be returned (RFC 8881, CB_RECALL4args).
#[derive(Drop, PartialEq, Eq)]
pub struct CbRecall {
    pub stateid: Stateid,
    pub truncate: bool,
    pub fh: Fh,
}

impl Clone for CbRecall {
    ghost is_clone = { λ x y. y ≡ x };

    fn clone(&self) -> Result<CbRecall, AllocError> {
        Ok(CbRecall {
            stateid: self.stateid,
            truncate: self.truncate,
            fh: self.fh.clone()?,
        })
    }
}

/// What CB_RECALL_ANY asks: that of the kinds in the mask only so many be kept (RFC 8881, CB_RECALL_ANY4args).
#[derive(Drop, PartialEq, Eq)]
pub struct CbRecallAny {
    pub keep: u32,
    pub mask: Bitmap,
}

impl Clone for CbRecallAny {
    ghost is_clone = { λ x y. y ≡ x };

    fn clone(&self) -> Result<CbRecallAny, AllocError> {
        Ok(CbRecallAny {
            keep: self.keep,
            mask: self.mask.clone()?,
        })
    }
}

/// What CB_SEQUENCE says: the slot of the callback and its turn there (RFC 8881, CB_SEQUENCE4args).
#[derive(Drop, PartialEq, Eq)]
pub struct CbSequence {
    pub sid: SessionId,
    pub turn: u32,
    pub slot: u32,
    pub highest: u32,
    pub cache: bool,
    pub referring: ReferringLists,
}

impl Clone for CbSequence {
    ghost is_clone = { λ x y. y ≡ x };

    fn clone(&self) -> Result<CbSequence, AllocError> {
        Ok(CbSequence {
            sid: self.sid,
            turn: self.turn,
            slot: self.slot,
            highest: self.highest,
            cache: self.cache,
            referring: self.referring.clone()?,
        })
    }
}

/// An operation of a callback that this client serves.
#[derive(Drop, PartialEq, Eq)]
pub enum CbArg {
    Recall(CbRecall),
    RecallAny(CbRecallAny),
    /// The slots are to be lowered to this highest one.
    RecallSlot(u32),
    Sequence(CbSequence),
}

impl Clone for CbArg {
    ghost is_clone = { λ x y. y ≡ x };

    fn clone(&self) -> Result<CbArg, AllocError> {
        Ok(match self {
            CbArg::Recall(recall) => CbArg::Recall(recall.clone()?),
            CbArg::RecallAny(recall) => CbArg::RecallAny(recall.clone()?),
            CbArg::RecallSlot(target) => CbArg::RecallSlot(*target),
            CbArg::Sequence(sequence) => CbArg::Sequence(sequence.clone()?),
        })
    }
}

/// A list of operations of a callback.
pub type CbArgs = Sequence<CbArg>;

/// What comes behind the operations of a callback that were read.
#[derive(Clone, Copy, PartialEq, Eq)]
pub enum Tail {
    /// Nothing.
    Whole,
    /// An operation with this number, which this client does not serve, and what follows it.
    Unknown(u32),
    /// The arguments have no form of a CB_COMPOUND.
    Garbage,
    /// The call is no CB_COMPOUND, and its arguments are not read.
    Unread,
}

/// The operations of a callback.
#[derive(Drop, PartialEq, Eq)]
pub struct CbOps {
    pub list: CbArgs,
    pub tail: Tail,
}

impl Clone for CbOps {
    ghost is_clone = { λ x y. y ≡ x };

    fn clone(&self) -> Result<CbOps, AllocError> {
        Ok(CbOps {
            list: self.list.clone()?,
            tail: self.tail,
        })
    }
}

/// A callback (RFC 5531, call_body; RFC 8881, CB_COMPOUND4args).
#[derive(Drop, PartialEq, Eq)]
pub struct CbCall {
    pub xid: u32,
    pub prog: u32,
    pub vers: u32,
    pub procedure: u32,
    /// The minor version.
    pub minor: u32,
    pub ops: CbOps,
}

impl Clone for CbCall {
    ghost is_clone = { λ x y. y ≡ x };

    fn clone(&self) -> Result<CbCall, AllocError> {
        Ok(CbCall {
            xid: self.xid,
            prog: self.prog,
            vers: self.vers,
            procedure: self.procedure,
            minor: self.minor,
            ops: self.ops.clone()?,
        })
    }
}

/// The operations of callbacks that have a number and are not served here (RFC 8881, nfs_cb_opnum4).
#[derive(Clone, Copy, PartialEq, Eq)]
pub enum Unserved {
    GetAttr = 3,
    LayoutRecall = 5,
    Notify = 6,
    PushDeleg = 7,
    ObjectAvailable = 9,
    WantsCancelled = 12,
    NotifyLock = 13,
    NotifyDevice = 14,
}

impl Unserved {
    /// Its number on the wire.
    pub fn number(self) -> u32
        ensures { result ≡ number_of self }
    {
        self as u32
    }

    /// The operation with a number, if one of these has it.
    pub fn of(number: u32) -> Option<Unserved>
        ensures { MatchOption result ((op : Unserved) → number_of op ≢ number) (λ op. number_of op ≡ number) }
    {
        Some(match number {
            3 => Unserved::GetAttr,
            5 => Unserved::LayoutRecall,
            6 => Unserved::Notify,
            7 => Unserved::PushDeleg,
            9 => Unserved::ObjectAvailable,
            12 => Unserved::WantsCancelled,
            13 => Unserved::NotifyLock,
            14 => Unserved::NotifyDevice,
            _ => return None,
        })
    }
}

/// The result of an operation of a callback (RFC 8881, nfs_cb_resop4).
#[derive(Clone, Copy, PartialEq, Eq)]
pub enum CbRes {
    Recall(Status),
    RecallAny(Status),
    RecallSlot(Status),
    Sequence(Result<Sequenced, Status>),
    /// Its status is never OK.
    Unserved { op: Unserved, status: Status },
    /// Its status is never OK.
    Illegal(Status),
}

impl CbRes {
    /// The number of the operation that it answers (RFC 8881, nfs_cb_opnum4).
    pub fn number(&self) -> u32
        ensures { result ≡ cb_number_of self.now }
    {
        match self {
            CbRes::Recall(_) => 4,
            CbRes::RecallAny(_) => 8,
            CbRes::RecallSlot(_) => 10,
            CbRes::Sequence(_) => 11,
            CbRes::Unserved { op, .. } => op.number(),
            CbRes::Illegal(_) => 10044,
        }
    }

    /// Its status.
    pub fn status(&self) -> Status
        ensures { result ≡ cb_status_of self.now }
    {
        match self {
            CbRes::Recall(status) | CbRes::RecallAny(status) | CbRes::RecallSlot(status) => *status,
            CbRes::Sequence(Ok(_)) => Status::OK,
            CbRes::Sequence(Err(status)) => *status,
            CbRes::Unserved { status, .. } | CbRes::Illegal(status) => *status,
        }
    }
}

/// A list of results of a callback.
pub type CbResults = Sequence<CbRes>;

/// What the reply to a callback says.
#[derive(Drop, PartialEq, Eq)]
pub enum CbBody {
    /// PROG_MISMATCH: another version is served.
    Mismatch,
    /// PROG_UNAVAIL: another program.
    NoProgram,
    /// PROC_UNAVAIL: another procedure.
    NoProcedure,
    /// GARBAGE_ARGS.
    Garbage,
    /// The empty result of the null procedure.
    Null,
    /// The results up to the first that is not OK, and the status of the last.
    Results { status: Status, list: CbResults },
}

impl Clone for CbBody {
    ghost is_clone = { λ x y. y ≡ x };

    fn clone(&self) -> Result<CbBody, AllocError> {
        Ok(match self {
            CbBody::Mismatch => CbBody::Mismatch,
            CbBody::NoProgram => CbBody::NoProgram,
            CbBody::NoProcedure => CbBody::NoProcedure,
            CbBody::Garbage => CbBody::Garbage,
            CbBody::Null => CbBody::Null,
            CbBody::Results { status, list } => CbBody::Results {
                status: *status,
                list: list.clone()?,
            },
        })
    }
}

/// The reply to a callback, with the number of the call that it answers.
#[derive(Drop, PartialEq, Eq)]
pub struct CbReply {
    pub xid: u32,
    pub body: CbBody,
}

impl Clone for CbReply {
    ghost is_clone = { λ x y. y ≡ x };

    fn clone(&self) -> Result<CbReply, AllocError> {
        Ok(CbReply {
            xid: self.xid,
            body: self.body.clone()?,
        })
    }
}
