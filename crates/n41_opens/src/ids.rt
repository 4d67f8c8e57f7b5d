ghost use Rattle.std.specs.Prelude.{◌≡◌, Some, IfOk, refl};
ghost use Rattle.std.specs.Ordering.{is_eq};
ghost use Rattle.std.specs.Cmp.{eq_by_cmp_equiv, partial_equiv_from_equiv, partial_order_from_total};
ghost use Rattle.n41_opens.specs.Ids.{key_cmp, id_cmp, is_key, is_id, key_total, id_total};

use n41_types::{Fh, Owner};
use std::alloc::AllocError;
use std::cmp::Ordering;

/// Whose opens of which file share a record (RFC 8881, section 9.7).
#[derive(Debug, Drop)]
pub struct RecordKey {
    pub owner: Owner,
    pub fh: Fh,
}

/// A record: one "other" under a key. The server may give a key another one, once the older record is closed or revoked.
#[derive(Debug, Drop)]
pub struct RecordId {
    pub key: RecordKey,
    pub other: [u8; 12],
}

impl RecordId {
    /// The record that has this "other" under a key.
    pub(crate) fn of(key: &RecordKey, other: [u8; 12]) -> Result<RecordId, AllocError>
        ensures { IfOk result (λ r. r ≡ record { key = key.now; other = other }) }
    {
        Ok(RecordId {
            key: key.clone()?,
            other,
        })
    }
}

impl Clone for RecordKey {
    ghost is_clone = { λ x y. y ≡ x };

    fn clone(&self) -> Result<RecordKey, AllocError> {
        Ok(RecordKey {
            owner: self.owner.clone()?,
            fh: self.fh.clone()?,
        })
    }
}

impl Clone for RecordId {
    ghost is_clone = { λ x y. y ≡ x };

    fn clone(&self) -> Result<RecordId, AllocError> {
        let other = self.other;
        Ok(RecordId {
            key: self.key.clone()?,
            other,
        })
    }
}

impl PartialEq for RecordKey {
    ghost eq = { is_key };

    ghost laws = { partial_equiv_from_equiv (eq_by_cmp_equiv key_total) };

    fn eq(&self, other: &RecordKey) -> bool {
        self.cmp(other) == Ordering::Equal
    }
}

impl Eq for RecordKey {
    ghost laws = { eq_by_cmp_equiv key_total };
}

impl PartialOrd for RecordKey {
    ghost partial_cmp = { λ x y. Some (key_cmp x y) };

    ghost laws = { partial_order_from_total key_total };

    fn partial_cmp(&self, other: &RecordKey) -> Option<Ordering> {
        Some(self.cmp(other))
    }
}

impl Ord for RecordKey {
    ghost cmp = { key_cmp };

    ghost total = { key_total };

    ghost matches_partial_cmp = { λ x y. refl };

    ghost matches_eq = { λ x y. refl };

    fn cmp(&self, other: &RecordKey) -> Ordering {
        let owners = self.owner.as_slice().cmp(other.owner.as_slice());
        owners.then(self.fh.as_slice().cmp(other.fh.as_slice()))
    }
}

impl PartialEq for RecordId {
    ghost eq = { is_id };

    ghost laws = { partial_equiv_from_equiv (eq_by_cmp_equiv id_total) };

    fn eq(&self, other: &RecordId) -> bool {
        self.cmp(other) == Ordering::Equal
    }
}

impl Eq for RecordId {
    ghost laws = { eq_by_cmp_equiv id_total };
}

impl PartialOrd for RecordId {
    ghost partial_cmp = { λ x y. Some (id_cmp x y) };

    ghost laws = { partial_order_from_total id_total };

    fn partial_cmp(&self, other: &RecordId) -> Option<Ordering> {
        Some(self.cmp(other))
    }
}

impl Ord for RecordId {
    ghost cmp = { id_cmp };

    ghost total = { id_total };

    ghost matches_partial_cmp = { λ x y. refl };

    ghost matches_eq = { λ x y. refl };

    fn cmp(&self, other: &RecordId) -> Ordering {
        self.key.cmp(&other.key).then(self.other.cmp(&other.other))
    }
}
