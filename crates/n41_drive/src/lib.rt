//! One thread that works through a script: it gives each caller in turn its next command, and takes the desk's turns until the run has ended.
#![tactic(auto)]

mod driving;
mod next;

pub use driving::drive;
