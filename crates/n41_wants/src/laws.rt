ghost use Rattle.n41_wants.specs.Laws.{OneWant};

/// A law: no two things are wanted at once, so that each is wanted exactly where its definition says.
#[tactic(auto, using(crate::proofs::OneWant::one_want))]
pub fn one_thing_is_wanted()
    ensures { OneWant }
{}
