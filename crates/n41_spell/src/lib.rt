//! How a request is spelled: the call of a COMPOUND (RFC 8881, section 16.2) with the operations of its plan.
#![tactic(auto)]

mod directories;
mod files;
mod locks;
mod openings;
mod places;
mod sessions;
mod spelling;
mod stateids;
mod writing;

pub use spelling::spell;

#[cfg(test)]
mod tests;
