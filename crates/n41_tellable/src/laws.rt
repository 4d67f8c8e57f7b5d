ghost use Rattle.std.specs.Prelude.{◌≡◌, ℕ, List, Ok};
ghost use Rattle.n41_xdr.specs.Lawful.{IsBytes};
ghost use Rattle.n41_results.specs.declared.replies.Reply.{Reply};
ghost use Rattle.n41_replies.specs.Replies.{reply_at, IsSpellable, Spells};

/// A law: a reply that was read can be written.
pub fn replies_that_are_read_are_tellable()
    ensures spelled { (r : Reply) (bytes : List ℕ) → Spells r bytes → IsSpellable r }
    ensures read { (r : Reply) (bytes : List ℕ) → IsBytes bytes → reply_at bytes ≡ Ok r → IsSpellable r }
{}
