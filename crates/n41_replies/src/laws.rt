ghost use Rattle.std.specs.Prelude.{◌≡◌, ◌++◌, [], List, ℕ, Ok};
ghost use Rattle.n41_results.specs.declared.replies.Reply.{Reply};
ghost use Rattle.n41_replies.specs.Replies.{reply_at, written, IsSpellable, Spells};

/// A law: no reply's spelling begins another's.
pub fn no_reply_begins_another()
    ensures { (r s : Reply) (a b more : List ℕ) → Spells r a → Spells s b → b ≡ a ++ more → (r ≡ s) × (more ≡ []) }
{}

/// A law: bytes spell one reply at most.
pub fn replies_have_one_value()
    ensures { (r s : Reply) (bytes : List ℕ) → Spells r bytes → Spells s bytes → r ≡ s }
{}

/// A law: what is written is a spelling, and is read again.
pub fn what_is_written_is_read()
    ensures spelled { (r : Reply) → IsSpellable r → Spells r (written r) }
    ensures read { (r : Reply) → IsSpellable r → reply_at (written r) ≡ Ok r }
{}
