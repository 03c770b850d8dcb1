//! Runs the recorded sessions of all peers of an exchange on threads: one for each peer, and one for each shard of
//! the tables, with rings between them.
//!
//! A shard is one of 1 to 16 parts of all prefixes. The router of `rs_router` takes the changes of all peers out of
//! their rings. It hands each change to the shard that has the routes of its prefix.
//!
//! Reading order, the shards: `part_laws` (what the part of a list leaves), `taking` (what one item makes of the
//! tables), `shard` (all items), `shard_crew` (all shards), `laws` (what their tables come to). Before a run:
//! `at_hand` (readers of files, and their records), `capacity` (of rings), `lines` and `rings` (what each
//! thread takes). Then its threads: `crew` (their start and join). Then its end: `outcome` (how a run ended), `ended`
//! and `served` (what it leaves). Last `serving` (a whole run) and `fault` (why a run is refused).
#![tactic(auto)]

mod at_hand;
mod capacity;
mod crew;
mod ended;
mod fault;
mod laws;
mod lines;
mod outcome;
mod part_laws;
mod rings;
mod served;
mod serving;
mod shard;
mod shard_crew;
mod taking;

pub use at_hand::{readers_of, record_readers};
pub use capacity::has_room;
pub use ended::PeerEnd;
pub use fault::FloorRefused;
pub use laws::{run_shards_are_whole, shards_merge};
pub use outcome::verdict;
pub use part_laws::parts_by_shards;
pub use rs_router::{MAX_SHARDS, Routed, route, shard_of};
pub use rs_worker::{Gate, Open};
pub use served::Served;
pub use serving::{serve_by, serve_sources};
pub use shard::{ShardEnd, shard_worker};
pub use shard_crew::{ShardJob, ShardOf, join_shards, start_shards};
