//! What the command line of the looking glass asks.
//! All of it is our choice.
//!
//! Reading order: `query` (the questions). `command` (the table of commands and their options) and `argument` (an
//! option as `clap` knows it).
//! `words`, `list_words` and `diff_words` (how a question is read). `reason_names` and `reasons` (answers and reasons),
//! `values` (prefixes, addresses and times).
#![tactic(auto)]

mod argument;
mod command;
mod diff_words;
mod list_words;
mod query;
pub mod reason_names;
mod reasons;
mod values;
mod words;

pub use query::{
    CheckQuery, Destination, DiffQuery, HistoryQuery, MissingQuery, PageQuery, PeersQuery, Query,
    Span, StartQuery, SummaryQuery, TableQuery, TablesQuery, WhyQuery,
};
pub use reasons::AskedReason;
pub use words::{QueryFault, read_query};
