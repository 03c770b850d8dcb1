//! What configurations set up, runs over recorded files, and what faults say of themselves, through the public calls of
//! `rs_setup`, `rs_run` and the crates that name faults.
#![tactic(auto)]

#[cfg(test)]
mod tests;
