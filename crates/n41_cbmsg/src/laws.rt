ghost use Rattle.std.specs.Prelude.{◌≡◌, ◌≢◌, ◌++◌, ◌↔◌, [], List, ℕ, Ok};
ghost use Rattle.n41_xdr.specs.Lawful.{IsBytes, IsLawful};
ghost use Rattle.n41_results.specs.declared.callbacks.CbCall.{CbCall};
ghost use Rattle.n41_results.specs.declared.callbacks.CbReply.{CbReply};
ghost use Rattle.n41_results.specs.declared.callbacks.CbBody.TheVariants.{Null};
ghost use Rattle.n41_results.specs.declared.callbacks.Tail.TheVariants.{Whole};
ghost use Rattle.n41_cbmsg.specs.Arguments.{argument};
ghost use Rattle.n41_cbmsg.specs.Outcomes.{outcome};
ghost use Rattle.n41_cbmsg.specs.Calls.{call_at, written_call, CallFits, SpellsCall};
ghost use Rattle.n41_cbmsg.specs.Answers.{answer_at, written_answer, AnswerFits, SpellsAnswer};

/// A law of the parts: operations of callbacks and their results are read just where they are spelled, whatever follows them.
pub fn operations_are_lawful()
    ensures arguments { IsLawful argument }
    ensures results { IsLawful outcome }
{}

/// A law: callbacks and answers are read just where they are spelled.
pub fn messages_are_read_where_spelled()
    ensures calls { (c : CbCall) (bytes : List ℕ) → IsBytes bytes → (call_at bytes ≡ Ok c) ↔ SpellsCall c bytes }
    ensures answers { (r : CbReply) (bytes : List ℕ) → IsBytes bytes → (answer_at bytes ≡ Ok r) ↔ SpellsAnswer r bytes }
{}

/// A law: what is written is a spelling, and is read again.
pub fn what_is_written_is_read()
    ensures calls_are_spelled { (c : CbCall) → CallFits c → SpellsCall c (written_call c) }
    ensures calls { (c : CbCall) → CallFits c → call_at (written_call c) ≡ Ok c }
    ensures answers_are_spelled { (r : CbReply) → AnswerFits r → SpellsAnswer r (written_answer r) }
    ensures answers { (r : CbReply) → AnswerFits r → answer_at (written_answer r) ≡ Ok r }
{}

/// A law: what has a spelling can be written, so what is read can be.
pub fn what_is_spelled_can_be_written()
    ensures calls { (c : CbCall) (bytes : List ℕ) → SpellsCall c bytes → CallFits c }
    ensures answers { (r : CbReply) (bytes : List ℕ) → SpellsAnswer r bytes → AnswerFits r }
{}

/// A law: bytes spell one callback at most, and one answer.
pub fn messages_have_one_value()
    ensures calls { (c d : CbCall) (bytes : List ℕ) → IsBytes bytes → SpellsCall c bytes → SpellsCall d bytes → c ≡ d }
    ensures answers { (r s : CbReply) (bytes : List ℕ) → SpellsAnswer r bytes → SpellsAnswer s bytes → r ≡ s }
{}

/// A law: no spelling of a whole callback begins another, and no spelling of an answer, save that of Null.
pub fn no_spelling_begins_another()
    ensures calls { (c d : CbCall) (a b more : List ℕ) → SpellsCall c a → SpellsCall d b → b ≡ a ++ more → c.ops.tail ≡ Whole → d.ops.tail ≡ Whole → (c ≡ d) × (more ≡ []) }
    ensures answers { (r s : CbReply) (a b more : List ℕ) → SpellsAnswer r a → SpellsAnswer s b → b ≡ a ++ more → r.body ≢ Null → (r ≡ s) × (more ≡ []) }
{}
