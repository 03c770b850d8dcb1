//! The routes that each peer has left, and the table that each client gets of them.
//!
//! Standards: RFC 4271, sections 3.2 (Adj-RIB-In) and 9.1 (decision process); RFC 7947, section 2.3 (a table
//! for each client, its export policy before its decision).
//!
//! Reading order, for one prefix: `tables` (what each peer has left, and what a client gets), `route` (the answer),
//! `why` (why a client gets a route or not). For all prefixes: `client_rows` and `listing` (a client's whole table),
//! `prefixes` and `prefix_routes` (each prefix with its routes). Whole tables: `merge` (parts made one), `gathering`
//! (changes before tables are made of them). Then `laws` (of the definitions).
//!
//! Below them are `counts` (how many routes each peer has), `cells` (of all prefixes) and `cell` (of one prefix).
//! `rs_choice` decides who gets which route on it.
//! Below `gathering` are `logged` (a change in a list), `log` (a list), `read_ahead` (a list with its attributes read
//! ahead) and `settling` (the cells of such lists).
//!
//! A call that allocates fails if memory is refused.
#![tactic(auto)]

mod cell;
mod cells;
mod client_rows;
mod counts;
mod gathering;
mod laws;
mod listing;
mod log;
mod logged;
mod merge;
mod prefix_routes;
mod prefixes;
mod read_ahead;
mod route;
mod settling;
mod tables;
mod why;

pub use client_rows::ClientRows;
pub use gathering::{FEW_ENTRIES, Gathering};
pub use laws::{
    examples_hold, left_after_one_more, left_by_last_changes, left_by_last_entries, left_by_part,
    table_is_computed,
};
pub use prefix_routes::PrefixRoutes;
pub use prefixes::Prefixes;
pub use route::{Route, Row};
pub use tables::Tables;
pub use why::Why;
