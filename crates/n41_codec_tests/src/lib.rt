//! Tests of the messages of COMPOUND, through all the crates that read and write them.
#![tactic(auto)]

#[cfg(test)]
mod callbacks;
#[cfg(test)]
mod results;
#[cfg(test)]
mod tests;
