ghost use Rattle.std.specs.Prelude.{◌≡◌, ℕ, List};
ghost use Rattle.n41_journal.specs.declared.events.Event.{Event};
ghost use Rattle.n41_words.specs.declared.fault.LineKind.{LineKind};
ghost use Rattle.n41_words.specs.declared.fault.ScriptFault.TheVariants.{Line};
ghost use Rattle.n41_journal_reader.specs.Journals.{IsJournal, IsFault};

/// A law: a text is a journal of one list of events, or has one fault, and never both.
pub fn a_text_says_one_thing()
    ensures events { (text : List ℕ) (es fs : List Event) → IsJournal text es → IsJournal text fs → es ≡ fs }
    ensures faults { (text : List ℕ) (n m : ℕ) (j k : LineKind) → IsFault text (Line n j) → IsFault text (Line m k) → (n ≡ m) × (j ≡ k) }
    ensures apart { (text : List ℕ) (es : List Event) (n : ℕ) (k : LineKind) → IsJournal text es → IsFault text (Line n k) → ⊥ }
{}
