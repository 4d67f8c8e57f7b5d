//! Forms of the outside in memory: those named `Sure` never fail by themselves, and those named `Mem` fail at the calls that they are told.
#![tactic(auto)]

mod failing;
mod flows;
mod prepared;
mod streams;
mod watch;

pub use failing::{Failing, MemDialer, MemInflow, MemListener, MemOutflow, MemSink, MemSource};
pub use flows::{SureInflow, SureOutflow};
pub use prepared::{Prepared, SureDialer, SureListener};
pub use streams::{SureSink, SureSource};
pub use watch::MemClock;

#[cfg(test)]
mod tests;
