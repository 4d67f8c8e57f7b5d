ghost use Rattle.std.specs.Prelude.{◌≡◌, ◌≤◌, length, nat_eq};
ghost use Rattle.std.specs.Cmp.Lexicographic.{pointwise, nat_list_eq_equiv};
ghost use Rattle.std.specs.Cmp.{partial_equiv_from_equiv};

use bytes::Bytes;
use std::alloc::AllocError;
use std::marker::Model;

/// The owner of opens or of locks, of 0 to 1,024 bytes (RFC 8881, state_owner4). The client id beside it is no part of it.
#[derive(Debug, Drop)]
pub struct Owner {
    bytes: Bytes,
}

impl Model for Owner {
    ghost use Rattle.std.specs.Prelude.{List, ℕ, ◌≤◌, length};

    ghost Value = { List ℕ };

    ghost view = { λ o. o.bytes };

    ghost invariant = { λ o. length o.bytes ≤ 1024 };
}

impl Owner {
    /// The owner that the bytes are.
    pub fn new(bytes: Bytes) -> Owner
        requires { length bytes ≤ 1024 }
        ensures { result ≡ bytes }
    {
        Owner { bytes }
    }

    /// Its bytes.
    pub fn as_slice(&self) -> &[u8]
        ensures value { result.now ≡ self.now }
        ensures bound { length self.now ≤ 1024 }
    {
        self.bytes.as_slice()
    }
}

impl Clone for Owner {
    ghost is_clone = { λ x y. y ≡ x };

    fn clone(&self) -> Result<Owner, AllocError> {
        Ok(Owner {
            bytes: self.bytes.clone()?,
        })
    }
}

impl PartialEq for Owner {
    ghost eq = { pointwise nat_eq };

    ghost laws = { partial_equiv_from_equiv nat_list_eq_equiv };

    fn eq(&self, other: &Owner) -> bool {
        self.bytes == other.bytes
    }
}

impl Eq for Owner {
    ghost laws = { nat_list_eq_equiv };
}

/// A caller's name for an open file of its script.
#[derive(Debug, Drop)]
pub struct Label {
    bytes: Bytes,
}

impl Model for Label {
    ghost use Rattle.std.specs.Prelude.{List, ℕ};

    ghost Value = { List ℕ };

    ghost view = { λ l. l.bytes };
}

impl Label {
    /// The label that the bytes are.
    pub fn new(bytes: Bytes) -> Label
        ensures { result ≡ bytes }
    {
        Label { bytes }
    }

    /// Its bytes.
    pub fn as_slice(&self) -> &[u8]
        ensures { result.now ≡ self.now }
    {
        self.bytes.as_slice()
    }
}

impl Clone for Label {
    ghost is_clone = { λ x y. y ≡ x };

    fn clone(&self) -> Result<Label, AllocError> {
        Ok(Label {
            bytes: self.bytes.clone()?,
        })
    }
}

impl PartialEq for Label {
    ghost eq = { pointwise nat_eq };

    ghost laws = { partial_equiv_from_equiv nat_list_eq_equiv };

    fn eq(&self, other: &Label) -> bool {
        self.bytes == other.bytes
    }
}

impl Eq for Label {
    ghost laws = { nat_list_eq_equiv };
}
