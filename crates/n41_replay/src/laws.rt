ghost use Rattle.std.specs.Prelude.{◌≡◌, ℕ, List};
ghost use Rattle.std.specs.declared.option.Option.{Option};
ghost use Rattle.n41_check.specs.declared.rules.Rule.{Rule};
ghost use Rattle.n41_journal.specs.declared.events.Event.{Event};
ghost use Rattle.n41_replay.specs.Replays.{Found};

/// A law: one thing alone is found in a journal.
pub fn a_journal_has_one_verdict()
    ensures { (js : List Event) (a b : Option (ℕ × Rule)) → Found js a → Found js b → a ≡ b }
{}
