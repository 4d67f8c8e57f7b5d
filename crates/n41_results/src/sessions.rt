ghost use Rattle.std.specs.Prelude.{◌≡◌};

use n41_types::{Bytes, SessionId};
use std::alloc::AllocError;

/// The sizes of one direction of a session (RFC 8881, channel_attrs4). Sizes are in bytes.
#[derive(Clone, Copy, PartialEq, Eq)]
pub struct Channel {
    pub header_pad: u32,
    pub request_max: u32,
    pub reply_max: u32,
    pub cached_max: u32,
    pub ops_max: u32,
    pub requests_max: u32,
    /// For RDMA alone.
    pub ird: Option<u32>,
}

/// Which program a side runs (RFC 8881, nfs_impl_id4).
#[derive(Drop, PartialEq, Eq)]
pub struct ImplId {
    pub domain: Bytes,
    pub name: Bytes,
    /// The seconds of its date, a signed number as on the wire.
    pub seconds: [u8; 8],
    pub nanoseconds: u32,
}

impl Clone for ImplId {
    ghost is_clone = { λ x y. y ≡ x };

    fn clone(&self) -> Result<ImplId, AllocError> {
        Ok(ImplId {
            domain: self.domain.clone()?,
            name: self.name.clone()?,
            seconds: self.seconds,
            nanoseconds: self.nanoseconds,
        })
    }
}

/// What EXCHANGE_ID answers (RFC 8881, EXCHANGE_ID4resok).
#[derive(Drop, PartialEq, Eq)]
pub struct Identity {
    pub client: u64,
    pub sequence: u32,
    pub flags: u32,
    pub minor: u64,
    pub major: Bytes,
    pub scope: Bytes,
    pub implementation: Option<ImplId>,
}

impl Clone for Identity {
    ghost is_clone = { λ x y. y ≡ x };

    fn clone(&self) -> Result<Identity, AllocError> {
        let implementation = match &self.implementation {
            None => None,
            Some(id) => Some(id.clone()?),
        };
        Ok(Identity {
            client: self.client,
            sequence: self.sequence,
            flags: self.flags,
            minor: self.minor,
            major: self.major.clone()?,
            scope: self.scope.clone()?,
            implementation,
        })
    }
}

/// What CREATE_SESSION answers (RFC 8881, CREATE_SESSION4resok).
#[derive(Clone, Copy, PartialEq, Eq)]
pub struct SessionMade {
    pub sid: SessionId,
    pub sequence: u32,
    pub flags: u32,
    pub fore: Channel,
    pub back: Channel,
}

/// What BIND_CONN_TO_SESSION answers (RFC 8881, BIND_CONN_TO_SESSION4resok). The directions are FORE 1, BACK 2 and BOTH 3.
#[derive(Clone, Copy, PartialEq, Eq)]
pub struct Bound {
    pub sid: SessionId,
    pub direction: u32,
    pub rdma: bool,
}

/// What SEQUENCE answers (RFC 8881, SEQUENCE4resok). The turn is its sequenceid.
#[derive(Clone, Copy, PartialEq, Eq)]
pub struct Sequenced {
    pub sid: SessionId,
    pub turn: u32,
    pub slot: u32,
    pub highest: u32,
    pub target: u32,
    pub flags: u32,
}
