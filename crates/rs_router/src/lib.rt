//! The router of a run on threads: it takes the changes of all peers out of their rings, and hands each one to the
//! shard that holds the routes of its prefix.
//!
//! A shard is one of 1 to 16 parts of all prefixes. The loss and the close of a session are changes on no prefix. Such
//! a change bears on all routes of its peer, so every shard gets it.
//!
//! Reading order: `prefix_shard` (which shard a prefix is in), `routed` (what a shard is sent), `router` (all peers,
//! until each one's session closed), `delivery` (one change).
#![tactic(auto)]

mod delivery;
mod prefix_shard;
mod routed;
mod router;

pub use prefix_shard::{MAX_SHARDS, shard_of};
pub use routed::Routed;
pub use router::route;
