//! The traits of the outside, their forms over the system, and the two ends of a connection: an ear that hears records, and a mouth that says them.
#![tactic(auto)]

mod connection;
mod ear;
mod machine;
mod moments;
mod mouth;
mod sent;
mod standard;
mod stream;
mod tcp;

pub use connection::{Came, Dialer, Inflow, Listener, Outflow};
pub use ear::{Ear, EarFault, EarGot};
pub use machine::MachineClock;
pub use moments::Clock;
pub use mouth::{Mouth, SayFault};
pub use standard::{Input, Output};
pub use stream::{Failed, Sink, Source};
pub use tcp::{TcpDialer, TcpHouse, TcpInflow, TcpOutflow};

#[cfg(test)]
mod tests;
