//! Tests of the tables of a client's core, and of the choice of a caller for a request.
#![tactic(auto)]

#[cfg(test)]
mod events;
#[cfg(test)]
mod tests;
