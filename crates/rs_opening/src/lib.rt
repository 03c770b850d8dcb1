//! Opens the recorded files of the peers of an exchange, each to be read within bounds and with the losses of its peer
//! that are asked for.
//!
//! Reading order: `sought_peer` (whose losses are looked for in a file), `files` (opening all of them).
//!
//! A call that allocates fails if memory is refused.
#![tactic(auto)]

mod files;
mod sought_peer;

pub use files::{Beside, Replayed, open_files};
pub use sought_peer::sought;
