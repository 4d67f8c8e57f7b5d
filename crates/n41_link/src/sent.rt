// What was written, for contracts alone.
ghost use Rattle.std.specs.Prelude.{◌≡◌, ℕ, List, [], ◌++◌};

use std::marker::Model;

/// The bytes that were written, in order. It has no bytes: contracts alone see it.
pub(crate) struct Sent {
    pub(crate) ghost bytes: { List ℕ },
}

impl Model for Sent {
    ghost use base.Fml.{ftrue};

    ghost also_owns = { λ _. ftrue };
}

impl Drop for Sent {
    fn drop(self) {
        let Sent {} = self;
    }
}

impl Sent {
    /// Nothing was written.
    pub(crate) fn empty() -> Sent
        ensures { result.bytes ≡ [] }
    {
        Sent {}
    }

    /// With the bytes of a piece at the end.
    pub(crate) fn with_piece(&self, piece: &[u8]) -> Sent
        ensures { result.bytes ≡ self.now.bytes ++ piece.now }
    {
        let _ = piece;
        Sent {}
    }
}
