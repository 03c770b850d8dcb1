//! Which shard holds the routes of a prefix.

ghost use Rattle.std.specs.Prelude.{◌≡◌, ◌<◌};
ghost use Rattle.rs_router.specs.ShardParts as spec;

use rs_types::Prefix;

/// Into how many shards the prefixes are divided at most.
pub const MAX_SHARDS: usize = 16;

/// The number of the shard that holds the routes of a prefix: the first octet of its address modulo the
/// number of shards (our choice).
pub fn shard_of(prefix: Prefix, shards: usize) -> usize
    requires { spec.IsShardCount shards }
    ensures shard { result ≡ spec.shard_of prefix shards }
    ensures below { result < shards }
{
    let [first, ..] = prefix.address().to_be_bytes();
    usize::from(first) % shards
}
