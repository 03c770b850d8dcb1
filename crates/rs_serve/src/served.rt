//! The end of a run on threads.

ghost use Rattle.std.specs.Prelude.{◌≡◌, ◌<◌, length, slice_get, Some};

use crate::ended::PeerEnd;
use rs_table::Tables;
use std::marker::Model;

/// The end of a run on threads: the tables, and how each peer's session ended.
#[derive(Drop)]
pub struct Served {
    tables: Tables,
    ends: Vec<PeerEnd>,
}

impl Model for Served {
    ghost use Rattle.rs_serve.specs.Served.{ServedContent, served_code};

    ghost Value = { ServedContent };

    ghost coded = { served_code };

    ghost view = { λ s. record { tables = s.tables; ends = s.ends.items } };

    ghost use Rattle.std.specs.Prelude.{◌≡◌, length};

    // There is an end of each peer's session.
    ghost invariant = { λ s. length s.ends.items ≡ length s.tables.plan.peers };
}

impl Served {
    // The end of a run with these tables.
    pub(crate) fn new(tables: Tables, ends: Vec<PeerEnd>) -> Served
        requires { length ends.items ≡ length tables.plan.peers }
        ensures { result ≡ record { tables = tables; ends = ends.items } }
    {
        Served { tables, ends }
    }

    /// The tables: of each peer they hold what its whole file leaves.
    pub fn tables(&self) -> &Tables
        ensures { result.now ≡ self.now.tables }
    {
        &self.tables
    }

    /// How the session of each peer ended, in the order of the peers.
    pub fn ends(&self) -> &[PeerEnd]
        ensures { result.now ≡ self.now.ends }
    {
        &self.ends
    }

    /// How the session of the peer of number `peer` ended.
    pub fn end(&self, peer: usize) -> PeerEnd
        requires { peer < length self.now.tables.plan.peers }
        ensures { slice_get self.now.ends peer ≡ Some result }
    {
        self.ends[peer]
    }
}
