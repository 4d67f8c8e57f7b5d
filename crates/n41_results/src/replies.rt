ghost use Rattle.std.specs.Prelude.{◌≡◌};

use crate::results::Res;
use n41_types::{Sequence, Status};
use std::alloc::AllocError;

/// A list of results.
pub type Results = Sequence<Res>;

/// What a reply says.
#[derive(Drop, PartialEq, Eq)]
pub enum ReplyBody {
    /// The call was denied: 0 for RPC_MISMATCH, 1 for AUTH_ERROR (RFC 5531, reject_stat).
    Denied(u32),
    /// The call was not run: the accept status, from 1 to 5 (RFC 5531, accept_stat).
    Rejected(u32),
    /// The results up to the first that is not OK, and the status of the last.
    Results { status: Status, list: Results },
}

impl Clone for ReplyBody {
    ghost is_clone = { λ x y. y ≡ x };

    fn clone(&self) -> Result<ReplyBody, AllocError> {
        Ok(match self {
            ReplyBody::Denied(number) => ReplyBody::Denied(*number),
            ReplyBody::Rejected(number) => ReplyBody::Rejected(*number),
            ReplyBody::Results { status, list } => ReplyBody::Results {
                status: *status,
                list: list.clone()?,
            },
        })
    }
}

/// A reply, with the number of the request that it answers.
#[derive(Drop, PartialEq, Eq)]
pub struct Reply {
    pub xid: u32,
    pub body: ReplyBody,
}

impl Clone for Reply {
    ghost is_clone = { λ x y. y ≡ x };

    fn clone(&self) -> Result<Reply, AllocError> {
        Ok(Reply {
            xid: self.xid,
            body: self.body.clone()?,
        })
    }
}
