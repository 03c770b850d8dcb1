//! The rings of all shards, and what each one gathers changes in, before a run on threads.

ghost use Rattle.std.specs.Prelude.{◌≡◌, ◌<◌, true, IfOk, OnOk, length};
ghost use Rattle.rs_ring.specs.Items.{is_capacity};
ghost use Rattle.rs_router.specs.ShardParts.{IsShardCount};
ghost use Rattle.rs_serve.specs.Lines.{AreRings, HasRingMore, RingsHaveRoom};

use crate::shard_crew::ShardJob;
use rs_choice::Exchange;
use rs_ring::{Sender, ring};
use rs_router::Routed;
use rs_table::{FEW_ENTRIES, Gathering};
use std::alloc::{AllocError, Global};
use std::sync::Arc;

// The job of each shard, and the sending end of its ring, in the order of the shards.
#[derive(Drop)]
pub(crate) struct Rings {
    pub(crate) jobs: Vec<ShardJob>,
    pub(crate) to: Vec<Sender<Routed>>,
}

// The rings of all shards, each with room for so many items, and what each one gathers changes in. Refused if memory is.
pub(crate) fn open_rings(
    alloc: Global,
    plan: &Arc<Exchange>,
    capacity: usize,
    shards: usize,
) -> Result<Rings, AllocError>
    requires capacity { is_capacity capacity ≡ true }
    requires shards { IsShardCount shards }
    ensures rings { IfOk result (λ rings. AreRings plan.now.value rings.jobs.items rings.to.items) }
    ensures count { IfOk result (λ rings. length rings.jobs.items ≡ shards) }
    ensures room { IfOk result (λ rings. RingsHaveRoom capacity rings.to.items) }
{
    let mut rings = Rings {
        jobs: Vec::new(alloc),
        to: Vec::new(alloc),
    };
    for shard in 0..shards {
        rings.open(alloc, plan, capacity)?;
    }
    Ok(rings)
}

impl Rings {
    // Opens the ring of one shard more: its job, with nothing gathered yet, and the sending end. Refused if memory
    // is.
    fn open(
        &mut self,
        alloc: Global,
        plan: &Arc<Exchange>,
        capacity: usize,
    ) -> Result<(), AllocError>
        requires { is_capacity capacity ≡ true }
        ensures { OnOk result (HasRingMore capacity plan.now.value
            self.old.jobs.items self.old.to.items self.new.jobs.items self.new.to.items) }
    {
        let tables = Gathering::of_plan(alloc, plan.clone()?, FEW_ENTRIES)?;
        let Ok((sender, from)) = ring(alloc, capacity) else {
            return Err(AllocError);
        };
        self.jobs.push(ShardJob { tables, from })?;
        self.to.push(sender)?;
        Ok(())
    }
}
