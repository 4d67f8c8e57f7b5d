ghost use Rattle.std.specs.Prelude.{◌≡◌};

use n41_types::{Bitmap, Bytes, Stateid};
use std::alloc::AllocError;

/// How an operation changed a directory (RFC 8881, change_info4).
#[derive(Clone, Copy, PartialEq, Eq)]
pub struct ChangeInfo {
    pub atomic: bool,
    pub before: u64,
    pub after: u64,
}

/// An entry of an access control list (RFC 8881, nfsace4).
#[derive(Drop, PartialEq, Eq)]
pub struct Ace {
    pub kind: u32,
    pub flags: u32,
    pub mask: u32,
    pub who: Bytes,
}

impl Clone for Ace {
    ghost is_clone = { λ x y. y ≡ x };

    fn clone(&self) -> Result<Ace, AllocError> {
        Ok(Ace {
            kind: self.kind,
            flags: self.flags,
            mask: self.mask,
            who: self.who.clone()?,
        })
    }
}

/// How far a file may grow under a write delegation (RFC 8881, nfs_space_limit4).
#[derive(Clone, Copy, PartialEq, Eq)]
pub enum Limit {
    /// To so many bytes.
    Size(u64),
    Blocks { count: u32, size: u32 },
}

/// Why there is no delegation (RFC 8881, why_no_delegation4).
#[derive(Clone, Copy, PartialEq, Eq)]
pub enum Why {
    /// Whether the server will tell when there is no contention any more.
    Contention(bool),
    /// Whether the server will tell when it has what it needs.
    Resource(bool),
    /// Another number, neither 1 nor 2.
    Other(u32),
}

/// The delegation that an OPEN answers (RFC 8881, open_delegation4). With `recall` it is recalled at once.
#[derive(Drop, PartialEq, Eq)]
pub enum Delegation {
    Nothing,
    Read {
        stateid: Stateid,
        recall: bool,
        ace: Ace,
    },
    Write {
        stateid: Stateid,
        recall: bool,
        limit: Limit,
        ace: Ace,
    },
    Refused(Why),
}

impl Clone for Delegation {
    ghost is_clone = { λ x y. y ≡ x };

    fn clone(&self) -> Result<Delegation, AllocError> {
        Ok(match self {
            Delegation::Nothing => Delegation::Nothing,
            Delegation::Read {
                stateid,
                recall,
                ace,
            } => Delegation::Read {
                stateid: *stateid,
                recall: *recall,
                ace: ace.clone()?,
            },
            Delegation::Write {
                stateid,
                recall,
                limit,
                ace,
            } => Delegation::Write {
                stateid: *stateid,
                recall: *recall,
                limit: *limit,
                ace: ace.clone()?,
            },
            Delegation::Refused(why) => Delegation::Refused(*why),
        })
    }
}

/// What OPEN answers (RFC 8881, OPEN4resok).
#[derive(Drop, PartialEq, Eq)]
pub struct Opened {
    pub stateid: Stateid,
    pub change: ChangeInfo,
    pub flags: u32,
    pub set: Bitmap,
    pub delegation: Delegation,
}

impl Clone for Opened {
    ghost is_clone = { λ x y. y ≡ x };

    fn clone(&self) -> Result<Opened, AllocError> {
        Ok(Opened {
            stateid: self.stateid,
            change: self.change,
            flags: self.flags,
            set: self.set.clone()?,
            delegation: self.delegation.clone()?,
        })
    }
}
