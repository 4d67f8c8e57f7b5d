ghost use Rattle.std.specs.Prelude.{◌≡◌, false, List, All, map};
ghost use Rattle.n41_words.specs.Lines.{lines, words, is_skipped};
ghost use Rattle.n41_journal.specs.declared.events.Event.{Event};
ghost use Rattle.n41_journal_text.specs.Text.{event_text, journal_lines};
ghost use Rattle.n41_journal_text.specs.Words.{event_words, IsClean, IsLegible};

/// A law: the text of events has one line for each, in their order, and none of them is skipped.
pub fn each_event_is_a_line()
    ensures lines { (events : List Event) → All IsLegible events → lines (journal_lines events) ≡ map event_text events }
    ensures none_is_skipped { (e : Event) → IsLegible e → is_skipped (event_text e) ≡ false }
{}

/// A law: the line of an event has the words that tell it, and no byte of them is refused.
pub fn lines_have_their_words()
    ensures words { (e : Event) → IsLegible e → words (event_text e) ≡ event_words e }
    ensures clean { (e : Event) → IsLegible e → All IsClean (event_words e) }
{}
