//! The dumps of all clients: they are written, some beside each other, and kept in an outlet one after another, and
//! the report has a line for each.
//!
//! Reading order: `keeping` (each dump in its turn), `dumps` (those that are written ahead).
//!
//! Supported standards: RFC 7947, RFC 6396.
#![tactic(auto)]

mod dumps;
mod keeping;

pub use keeping::keep_dumps;
