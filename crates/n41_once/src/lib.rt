//! The law of runs: a change takes effect at most once, and exactly once where it is answered as done.
#![tactic(auto)]

mod laws;

pub use laws::a_change_takes_effect_once;
