//! Tables that hold different prefixes for one exchange are made one.

ghost use Rattle.std.specs.Prelude.{◌<◌, AllPairs, IfOk, length};
ghost use Rattle.rs_table.specs.Merge.{AreParts, IsMerged};

use crate::tables::Tables;
use std::alloc::AllocError;

impl Tables {
    /// Merges parts into the tables of the whole exchange. The parts have one plan, no prefix in common, and the
    /// same closed sessions. Each peer has the routes that it has in the parts. Nothing is decided anew.
    ///
    /// If memory is refused, the parts are dropped.
    pub fn merge(parts: Vec<Tables>) -> Result<Tables, AllocError>
        requires some { 0 < length parts.items }
        requires parts { AllPairs AreParts parts.items }
        ensures { IfOk result (IsMerged parts.items) }
    {
        let mut parts = parts.into_iter();
        let mut merged = parts.next().unwrap();
        for part in parts {
            merged = merged.joined_with(part)?;
        }
        Ok(merged)
    }
}
