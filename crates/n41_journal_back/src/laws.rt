ghost use Rattle.std.specs.Prelude.{◌≡◌, ◌≤◌, List, ℕ, All, Ok, length};
ghost use Rattle.n41_journal.specs.declared.events.Event.{Event};
ghost use Rattle.n41_script.specs.Scripts.{script_limit};
ghost use Rattle.n41_journal_words.specs.Names.{name_of};
ghost use Rattle.n41_calls.specs.Text.{name_text};
ghost use Rattle.hex.specs.Hex.{IsBytes};
ghost use Rattle.n41_journal_text.specs.Text.{event_text, journal_lines};
ghost use Rattle.n41_journal_reader.specs.Journals.{SaysEvent, IsJournal};
ghost use Rattle.n41_journal_back.specs.Kept.{IsKept};

/// A law: what is written for a journal is a journal of the same events, so the reader gives these back, unless memory runs out.
pub fn what_is_written_is_read()
    ensures events { (e : Event) → IsKept e → SaysEvent (event_text e) e }
    ensures journals { (events : List Event) → All IsKept events → length (journal_lines events) ≤ script_limit → IsJournal (journal_lines events) events }
    ensures names { (name : List ℕ) → IsBytes name → name_of (name_text name) ≡ Ok name }
{}
