//! The core of a client: a state machine that says what goes out, and takes what comes. It does no input or output.
#![tactic(auto)]

mod answering;
mod books;
mod client;
mod faults;
mod links;
mod look;
mod packet;
mod posts;
mod puts;
mod takes;
mod ticks;

pub use client::Core;
pub use faults::{PostFault, Ticket, TookFault};
pub use packet::Packet;
