//! The law of runs about breaches: no server that keeps the rules is met by one.
#![tactic(auto)]

mod laws;

pub use laws::no_server_of_the_rules_is_met_by_a_breach;
