//! The tables that recorded files leave, with the outlines of the files.

ghost use Rattle.std.specs.Prelude.{◌≡◌};

use crate::known::{Known, Whose, known_of};
use rs_mrt::Losses;
use rs_notes::Outlines;
use rs_serve::Served;
use rs_setup::Setup;
use rs_table::Tables;
use std::alloc::AllocError;
use std::fs::Files;
use std::marker::Model;

/// The tables that recorded files leave, with the outlines that were made of the files.
#[derive(Drop)]
pub struct Built {
    served: Served,
    outlines: Outlines,
}

impl Model for Built {
    ghost use Rattle.rs_serve.specs.Served.{ServedContent, served_code};

    ghost Value = { ServedContent };

    ghost coded = { served_code };

    ghost view = { λ b. b.served };
}

impl Built {
    /// The tables, and the outlines of the files that left them.
    pub(crate) fn new(served: Served, outlines: Outlines) -> Built
        ensures { result ≡ served }
    {
        Built { served, outlines }
    }

    /// The tables.
    pub fn tables(&self) -> &Tables
        ensures { result.now ≡ self.now.tables }
    {
        self.served.tables()
    }

    /// The outlines of the files.
    pub fn outlines(&self) -> &Outlines {
        &self.outlines
    }

    /// What is known of the files, as `known_of` tells it.
    pub fn known<R: AllocGlobal + Files>(
        &self,
        rt: &R,
        setup: &Setup,
        losses: Losses,
        whose: Whose,
    ) -> Result<Known, AllocError> {
        known_of(rt, setup, &self.outlines, losses, whose)
    }
}
