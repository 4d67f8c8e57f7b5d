//! A script that is run against a server: it is read from a source, driven, and its answers or its journal are printed to a sink.
#![tactic(auto)]

mod client;
mod fault;
mod performing;
mod printing;
mod reading;
mod running;

pub use fault::PerformFault;
pub use performing::{Performed, perform};
pub use printing::Print;
