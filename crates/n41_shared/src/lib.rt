//! What the operations of a call and their results have in common: the sizes of channels, implementations and kinds of locks, read and written.
#![tactic(auto)]

pub mod locks;
pub mod sessions;
