ghost use Rattle.std.specs.Prelude.{◌≡◌, ◌≤◌, length};
ghost use Rattle.std.specs.Cmp.Lexicographic.{pointwise, nat_list_eq_equiv};
ghost use Rattle.std.specs.Prelude.{nat_eq};
ghost use Rattle.std.specs.Cmp.{partial_equiv_from_equiv};

use crate::sequence::Sequence;
use bytes::Bytes;
use std::alloc::AllocError;
use std::marker::Model;

/// Eight bytes that one side makes up and the other only compares (RFC 8881, verifier4).
pub type Verifier = [u8; 8];

/// The name of an open, a lock or a delegation, and the number of its changes (RFC 8881, stateid4).
#[derive(Clone, Copy, Debug, PartialEq, Eq)]
pub struct Stateid {
    pub seqid: u32,
    pub other: [u8; 12],
}

/// A list of stateids.
pub type Stateids = Sequence<Stateid>;

/// The name of a session (RFC 8881, sessionid4).
#[derive(Clone, Copy, Debug, PartialEq, Eq)]
pub struct SessionId(pub [u8; 16]);

/// A filehandle, of 0 to 128 bytes (RFC 8881, nfs_fh4).
#[derive(Debug, Drop)]
pub struct Fh {
    bytes: Bytes,
}

impl Model for Fh {
    ghost use Rattle.std.specs.Prelude.{List, ℕ, ◌≤◌, length};

    ghost Value = { List ℕ };

    ghost view = { λ f. f.bytes };

    ghost invariant = { λ f. length f.bytes ≤ 128 };
}

impl Fh {
    /// The filehandle that the bytes are.
    pub fn new(bytes: Bytes) -> Fh
        requires { length bytes ≤ 128 }
        ensures { result ≡ bytes }
    {
        Fh { bytes }
    }

    /// Its bytes.
    pub fn as_slice(&self) -> &[u8]
        ensures value { result.now ≡ self.now }
        ensures bound { length self.now ≤ 128 }
    {
        self.bytes.as_slice()
    }
}

impl Clone for Fh {
    ghost is_clone = { λ x y. y ≡ x };

    fn clone(&self) -> Result<Fh, AllocError> {
        Ok(Fh {
            bytes: self.bytes.clone()?,
        })
    }
}

impl PartialEq for Fh {
    ghost eq = { pointwise nat_eq };

    ghost laws = { partial_equiv_from_equiv nat_list_eq_equiv };

    fn eq(&self, other: &Fh) -> bool {
        self.bytes == other.bytes
    }
}

impl Eq for Fh {
    ghost laws = { nat_list_eq_equiv };
}

/// A list of filehandles.
pub type Fhs = Sequence<Fh>;
