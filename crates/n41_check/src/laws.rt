ghost use Rattle.n41_check.specs.Rules.{KeptIsClean};

/// A law of journals: a client that keeps its rules breaks none of the five, whatever its server does.
pub fn a_kept_journal_breaks_no_rule()
    ensures { KeptIsClean }
{}
