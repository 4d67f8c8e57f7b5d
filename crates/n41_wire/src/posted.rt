// What was sent, for contracts alone.
ghost use Rattle.std.specs.Prelude.{◌≡◌, List, [], ◌∷◌, ◌++◌};
ghost use Rattle.n41_results.specs.declared.messages.Parts.{Parts};

use n41_results::Parts;
use std::marker::Model;

/// What the messages were made of that were sent whole, in order. It has no bytes: contracts alone see it.
pub(crate) struct Posted {
    pub(crate) ghost parts: { List Parts },
}

impl Model for Posted {
    ghost use base.Fml.{ftrue};

    ghost also_owns = { λ _. ftrue };
}

impl Drop for Posted {
    fn drop(self) {
        let Posted {} = self;
    }
}

impl Posted {
    /// Nothing was sent.
    pub(crate) fn empty() -> Posted
        ensures { result.parts ≡ [] }
    {
        Posted {}
    }

    /// With a message that was sent at the end.
    pub(crate) fn with_parts(&self, parts: &Parts) -> Posted
        ensures { result.parts ≡ self.now.parts ++ parts.now ∷ [] }
    {
        let _ = parts;
        Posted {}
    }
}
