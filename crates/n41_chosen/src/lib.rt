//! Whose a request is that is put: the next plans of the callers' commands, compared with its plan.
#![tactic(auto)]

mod chosen;
mod plans;

pub use chosen::new_owner;
