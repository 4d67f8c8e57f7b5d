ghost use Rattle.n41_recover.specs.Laws.{RecoverySteps, TellsPhase};

/// A law: after each event that may follow, with `dead` behind a reply that broke the rules, what is kept is what the journal says.
pub fn the_recovery_steps()
    ensures { RecoverySteps }
{}

/// A law: once each event of a journal was stepped in order, with `dead` behind a reply that broke the rules, the phase is that of the
/// journal.
pub fn recovery_tells_the_phase()
    ensures { TellsPhase }
{}
