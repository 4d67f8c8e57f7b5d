//! What has passed, for contracts alone.
ghost use Rattle.std.specs.Prelude.{◌≡◌, ℕ, List, [], ◌∷◌, ◌++◌};

use std::marker::Model;

/// What was fed to a reader and what it gave. It has no bytes: contracts alone see it.
pub(crate) struct History {
    /// The bytes that were fed, in order.
    pub(crate) ghost fed: { List ℕ },
    /// The records that were given, in order.
    pub(crate) ghost given: { List (List ℕ) },
}

impl Model for History {
    ghost use base.Fml.{ftrue};

    ghost also_owns = { λ _. ftrue };
}

impl Drop for History {
    fn drop(self) {
        let History {} = self;
    }
}

impl History {
    /// Nothing was fed.
    pub(crate) fn empty() -> History
        ensures { (result.fed ≡ []) × (result.given ≡ []) }
    {
        History {}
    }

    /// With the bytes of a piece at the end.
    pub(crate) fn with_piece(&self, piece: &[u8]) -> History
        ensures { (result.fed ≡ self.now.fed ++ piece.now) × (result.given ≡ self.now.given) }
    {
        let _ = piece;
        History {}
    }

    /// With a record that was given at the end.
    pub(crate) fn with_record(&self, bytes: &[u8]) -> History
        ensures { (result.fed ≡ self.now.fed) × (result.given ≡ self.now.given ++ bytes.now ∷ []) }
    {
        let _ = bytes;
        History {}
    }
}
