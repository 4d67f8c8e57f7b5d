// What came in, for contracts alone.
ghost use Rattle.std.specs.Prelude.{◌≡◌, ℕ, List, [], ◌∷◌, ◌++◌};
ghost use Rattle.n41_results.specs.declared.replies.Reply.{Reply};

use n41_results::Reply;
use std::marker::Model;

/// The records that were given and the replies that they were read as, in order. It has no bytes: contracts alone see it.
pub(crate) struct Taken {
    pub(crate) ghost given: { List (List ℕ) },
    pub(crate) ghost replies: { List Reply },
}

impl Model for Taken {
    ghost use base.Fml.{ftrue};

    ghost also_owns = { λ _. ftrue };
}

impl Drop for Taken {
    fn drop(self) {
        let Taken {} = self;
    }
}

impl Taken {
    /// Nothing was given.
    pub(crate) fn empty() -> Taken
        ensures { (result.given ≡ []) × (result.replies ≡ []) }
    {
        Taken {}
    }

    /// With a record that was given at the end.
    pub(crate) fn with_record(&self, bytes: &[u8]) -> Taken
        ensures { (result.given ≡ self.now.given ++ bytes.now ∷ []) × (result.replies ≡ self.now.replies) }
    {
        let _ = bytes;
        Taken {}
    }

    /// With a reply that was read at the end.
    pub(crate) fn with_reply(&self, reply: &Reply) -> Taken
        ensures { (result.given ≡ self.now.given) × (result.replies ≡ self.now.replies ++ reply.now ∷ []) }
    {
        let _ = reply;
        Taken {}
    }
}
