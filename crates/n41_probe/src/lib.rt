//! The probe: one EXCHANGE_ID over one connection, and the line that is printed of its reply.
#![tactic(auto)]

mod call;
mod fault;
mod line;
mod probing;
mod reply;
mod talk;

pub use fault::ProbeFault;
pub use probing::probe;
pub use talk::Talk;

#[cfg(test)]
mod tests;
