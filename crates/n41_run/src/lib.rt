//! The top calls of the program: what it does for its words, over traits of the outside.
#![tactic(auto)]

mod dumping;
mod fault;
mod finishing;
mod probing;
mod replaying;
mod running;
mod words;

pub use dumping::dump;
pub use fault::RunFault;
pub use n41_probe::Talk;
pub use probing::probe;
pub use replaying::replay;
pub use running::{Finish, run};
pub use words::{Command, command_of};

#[cfg(test)]
mod tests;
