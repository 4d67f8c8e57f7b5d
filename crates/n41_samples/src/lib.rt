//! Runs that are there: a lost reply, a late original, and an answer that is Unknown. So the law of runs speaks of something.
#![tactic(auto)]

mod laws;

pub use laws::{a_late_original_runs_once, a_lost_reply_comes_again, an_unknown_change_may_run};
