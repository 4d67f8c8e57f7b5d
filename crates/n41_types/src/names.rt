ghost use Rattle.std.specs.Prelude.{◌≡◌, All, MatchOption, nat_eq};
ghost use Rattle.std.specs.Cmp.Lexicographic.{pointwise, nat_list_eq_equiv};
ghost use Rattle.std.specs.Cmp.{partial_equiv_from_equiv};
ghost use Rattle.n41_types.specs.Names.{IsName, IsNameByte, IsFirstBad, NameOf};

use crate::sequence::Sequence;
use bytes::Bytes;
use std::alloc::{AllocError, Global};
use std::marker::Model;

/// Why bytes are no name.
#[derive(Clone, Copy, Debug, PartialEq, Eq)]
pub enum NameFault {
    Empty,
    /// More than 255 bytes, and how many.
    TooLong(usize),
    /// The place of the first zero byte or `/`, counted from 0.
    BadByte(usize),
    NoMemory,
}

/// A name in a directory: 1 to 255 bytes, none of them zero or `/`.
#[derive(Debug, Drop)]
pub struct Name {
    bytes: Bytes,
}

impl Model for Name {
    ghost use Rattle.std.specs.Prelude.{List, ℕ};
    ghost use Rattle.n41_types.specs.Names.{IsName};

    ghost Value = { List ℕ };

    ghost view = { λ n. n.bytes };

    ghost invariant = { λ n. IsName n.bytes };
}

/// The place of the first byte that no name has.
fn bad_byte(bytes: &[u8]) -> Option<usize>
    ensures { MatchOption result (All IsNameByte bytes.now) (λ place. IsFirstBad bytes.now place) }
{
    bytes.iter().position(|byte| *byte == 0 || *byte == b'/')
}

impl Name {
    /// The name that the bytes are, or the first of the faults that applies.
    pub fn of(alloc: Global, bytes: &[u8]) -> Result<Name, NameFault>
        ensures { NameOf bytes.now result }
    {
        if bytes.is_empty() {
            return Err(NameFault::Empty);
        }
        if bytes.len() > 255 {
            return Err(NameFault::TooLong(bytes.len()));
        }
        match bad_byte(bytes) {
            Some(place) => Err(NameFault::BadByte(place)),
            None => match Bytes::copy_from_slice(alloc, bytes) {
                Ok(bytes) => Ok(Name { bytes }),
                Err(_) => Err(NameFault::NoMemory),
            },
        }
    }

    /// Its bytes.
    pub fn as_slice(&self) -> &[u8]
        ensures value { result.now ≡ self.now }
        ensures name { IsName self.now }
    {
        self.bytes.as_slice()
    }
}

impl Clone for Name {
    ghost is_clone = { λ x y. y ≡ x };

    fn clone(&self) -> Result<Name, AllocError> {
        Ok(Name {
            bytes: self.bytes.clone()?,
        })
    }
}

impl PartialEq for Name {
    ghost eq = { pointwise nat_eq };

    ghost laws = { partial_equiv_from_equiv nat_list_eq_equiv };

    fn eq(&self, other: &Name) -> bool {
        self.bytes == other.bytes
    }
}

impl Eq for Name {
    ghost laws = { nat_list_eq_equiv };
}

/// A list of names.
pub type Names = Sequence<Name>;

/// The way from the root to a file: the names of its directories, then its own. The root's has none.
pub type Path = Sequence<Name>;
