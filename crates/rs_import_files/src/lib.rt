//! The files of import policy: which entries the octets of a list or of a VRP file give.
//!
//! Reading order:
//! - What short texts mean: `cuts`, `numbers`, `prefixes`, `ranges`, `patterns`, and `reasons` (why a text is none).
//! - Files in their forms: `lines` (a text), `csv_vrps` (CSV), `json_values` and `json_lists` (JSON).
//! - Files whatever their form: `octets`, `fault` (why a file is refused), and `lists` (what a file says).
//!
//! A call that allocates fails if memory is refused.
#![tactic(auto)]

mod csv_vrps;
mod cuts;
mod fault;
mod json_lists;
mod json_values;
mod lines;
mod lists;
mod numbers;
mod octets;
mod patterns;
mod prefixes;
mod ranges;
mod reasons;

pub use fault::ListFault;
pub use lists::{read_as_list, read_prefix_list, read_vrps};
pub use numbers::as_number;
pub use patterns::read_pattern;
pub use prefixes::read_prefix;
pub use ranges::{read_as_entry, read_as_range};
