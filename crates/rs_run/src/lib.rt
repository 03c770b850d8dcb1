//! A run over recorded files: reads the sessions of all peers at once, keeps a dump of each client's table,
//! and writes the report.
//!
//! Reading order: `over_octets` (the run over files in memory: what is promised, in two equations), `over_records` (the
//! same of the records that are read of such files), `runner` (the run), `report` (the report's lines for the sessions).
//!
//! Supported standards: RFC 4271, RFC 7947, RFC 6396.
#![tactic(auto)]

mod over_octets;
mod over_records;
mod report;
mod runner;

pub use over_octets::{RunOverOctets, run_over_octets};
pub use over_records::run_over_records;
pub use runner::{Ran, run, run_if};
