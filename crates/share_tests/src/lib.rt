//! Tests of readings that several peers share, over the public calls of the crates that run them.
#![tactic(auto)]

#[cfg(test)]
mod tests;
