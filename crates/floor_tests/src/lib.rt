//! Tests of rings, of runs on threads and of schedules, over the public calls of the crates that run them.
#![tactic(auto)]

#[cfg(test)]
mod tests;
