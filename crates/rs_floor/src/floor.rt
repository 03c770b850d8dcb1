//! The end of a schedule.

ghost use Rattle.std.specs.Prelude.{◌≡◌, ◌<◌, length};
ghost use Rattle.rs_floor.specs.FloorContent.{counts_of};

use crate::counts::Counts;
use rs_table::Tables;
use std::marker::Model;

/// The end of a schedule: the tables, and of each peer how many of its changes were sent and how many received.
#[derive(Drop)]
pub struct Floor {
    tables: Tables,
    counts: Vec<Counts>,
}

impl Model for Floor {
    ghost use Rattle.rs_floor.specs.FloorContent.{FloorContent, floor_code};

    ghost Value = { FloorContent };

    ghost coded = { floor_code };

    ghost view = { λ f. record { tables = f.tables; counts = f.counts.items } };

    ghost use Rattle.std.specs.Prelude.{◌≡◌, length};

    // There are counts of each peer.
    ghost invariant = { λ f. length f.counts.items ≡ length f.tables.plan.peers };
}

impl Floor {
    // The end of a schedule with these tables.
    pub(crate) fn new(tables: Tables, counts: Vec<Counts>) -> Floor
        requires { length counts.items ≡ length tables.plan.peers }
        ensures { result ≡ record { tables = tables; counts = counts.items } }
    {
        Floor { tables, counts }
    }

    /// How many changes of the peer of number `peer` were sent into its ring.
    pub fn sent(&self, peer: usize) -> u64
        requires { peer < length self.now.tables.plan.peers }
        ensures { result ≡ (counts_of self.now.counts peer).sent }
    {
        self.counts[peer].sent
    }

    /// How many of them were received, and applied to the tables.
    pub fn received(&self, peer: usize) -> u64
        requires { peer < length self.now.tables.plan.peers }
        ensures { result ≡ (counts_of self.now.counts peer).received }
    {
        self.counts[peer].received
    }

    /// The tables: each peer has left what the changes that were received leave.
    pub fn tables(&self) -> &Tables
        ensures { result.now ≡ self.now.tables }
    {
        &self.tables
    }
}
