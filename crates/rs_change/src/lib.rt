//! The changes of a peer's routes, one after another (RFC 4271, sections 3.1 and 4.3).
//!
//! Reading order: `word` (a change), `closing` (which one closes a ring).
#![tactic(auto)]

mod closing;
mod word;

pub use word::{Body, Reason, Word};
