//! A law of this crate's definitions. The function does nothing: its contract is the law.

ghost use Rattle.rs_serve.specs.PartLaws.{PartsByShards};

use rs_table::{left_by_last_changes, left_by_part};

/// Each shard gets a part of a list of changes. On each prefix the part of its own shard leaves what the whole
/// list leaves, and the parts of other shards leave nothing. Each part has every loss and close of the list.
pub fn parts_by_shards()
    ensures { PartsByShards }
{
    left_by_last_changes();
    left_by_part();
}
