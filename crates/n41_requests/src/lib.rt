//! What a request asks for: the operations of each plan (RFC 8881, section 16.2), that they fit in their spelling, and how long it is.
#![tactic(auto)]

mod fitting;
mod laws;
mod names;
mod parts;
mod whole;

pub use laws::{small_requests, what_is_spelled_is_asked};
pub use names::request_has_names;
pub use whole::request_fits;
