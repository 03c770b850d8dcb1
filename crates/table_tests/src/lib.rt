//! Tests of what each client gets, why, and how it is dumped: `rs_choice`, `rs_table`, `rs_explain`, `rs_dump` and
//! `rs_keep` through their public calls.
#![tactic(auto)]

#[cfg(test)]
mod tests;
