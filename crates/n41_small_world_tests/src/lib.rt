//! Runs that are legal or not, and that are good or not.
#![tactic(auto)]

#[cfg(test)]
mod acts;
#[cfg(test)]
mod tests;
