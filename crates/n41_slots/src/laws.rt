ghost use Rattle.n41_slots.specs.Laws.{TurnsRise, TakeLeavesOthers, ReleaseEmpties, ReleaseLeavesOthers};

/// A law: a request that goes out has the next turn of its slot, and every other slot stays as it is.
pub fn taking_changes_one_slot()
    ensures turn { TurnsRise }
    ensures others { TakeLeavesOthers }
{}

/// A law: a release empties its slot, and every other slot stays as it is.
pub fn releasing_changes_one_slot()
    ensures slot { ReleaseEmpties }
    ensures others { ReleaseLeavesOthers }
{}
