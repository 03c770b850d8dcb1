//! Answers about whole tables: the routes of a client's table, those that it does not get, a summary, and differences.
//! All of it is our choice, but for JSON (RFC 8259) and CSV (RFC 4180).
//!
//! Reading order: `list_answering` (the whole answer), `missing_list` and `wanted` (the list of `missing`). The rows of
//! lists, each with its columns: `layout`, `table_row`, `missing_row` and `counted_row`. A summary: `summary_numbers`
//! (its numbers), `summary_row` (its rows) and `summary_text` (the whole). Differences: `diff_answering` and `diff_row`.
#![tactic(auto)]

mod counted_row;
mod diff_answering;
mod diff_row;
mod layout;
mod list_answering;
mod missing_list;
mod missing_row;
mod summary_numbers;
mod summary_row;
mod summary_text;
mod table_row;
mod wanted;

pub use diff_answering::diff;
pub use list_answering::{missing, summary, table};
