//! Laws of this crate's definitions. Each function does nothing: its contract is the law.

ghost use Rattle.rs_serve.specs.Laws.{RunShardsAreWhole, ShardsMerge};

use crate::part_laws::parts_by_shards;

/// Shards that have taken all that the router sent them have, for each peer, what their part of its changes leaves.
pub fn run_shards_are_whole()
    ensures { RunShardsAreWhole }
{}

/// The tables of all shards are parts of one: if they are merged, each peer has left what all of its changes leave.
pub fn shards_merge()
    ensures { ShardsMerge }
{
    parts_by_shards();
}
