//! Questions over the whole tables of a route server: which routes a client does not get, and why; where a client's
//! choice differs between two tables.
//!
//! Standards: RFC 4271, section 9.1 (eligible routes, decision process); RFC 7947, section 2.3 (a table for each
//! client, its export policy before its decision).
//!
//! Reading order: `on_prefix` (the routes on one prefix that a client does not get), `prefix_list` (the prefixes as a
//! list), `asked_rows` (the rows of a table that are asked for). Two clients: `choices`, `rows_to_come`, `side_by_side`
//! (the rows of both), `differences`. What is counted: `finding` (each finding), `tally` (how often it was made). What
//! a summary counts from: `seen` (the routes on a prefix), `removing` (the step that removes a candidate), `hidden`
//! (what one decision for all clients would hide). On one prefix are counted: the findings of a summary (`counting`),
//! and the routes that a client does not get, by reason (`missing_counts`). On all prefixes: `on_threads`. Then `laws`.
//!
//! A call that allocates fails if memory is refused.
#![tactic(auto)]

mod asked_rows;
mod choices;
mod counting;
mod differences;
mod finding;
mod hidden;
mod laws;
mod missing_counts;
mod on_prefix;
mod on_threads;
mod prefix_list;
mod removing;
mod rows_to_come;
mod seen;
mod side_by_side;
mod tally;

pub use asked_rows::{AskedRows, count_rows};
pub use choices::Choices;
pub use differences::Differences;
pub use finding::{FILTERS, Finding};
pub use laws::the_step_that_is_counted_is_explained;
pub use on_prefix::{MissingOn, MissingRoute, missing_on};
pub use on_threads::{count_missing, count_unserved, summary_on_threads};
pub use prefix_list::every_prefix;
pub use rs_explain::{ConditionKind, MissingReason};
pub use rs_import::Filter;
pub use tally::Tally;
