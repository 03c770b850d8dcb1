//! Tests of what peers send and recorders write. They go through the public calls of `rs_update`, `rs_mrt`,
//! `rs_session`, `rs_inventory` and `rs_losses`, over messages and recorded files made by hand. The formats are those of
//! RFC 4271, RFC 6793, RFC 1997, RFC 7606 and RFC 6396.
#![tactic(auto)]

#[cfg(test)]
mod tests;
