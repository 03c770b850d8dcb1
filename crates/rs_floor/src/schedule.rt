//! A whole schedule in one thread.

ghost use Rattle.std.specs.Prelude.{◌≡◌, length, map, true, false, Err, IfOk, IfErr};
ghost use Rattle.rs_ring.specs.Items.{is_capacity};
ghost use Rattle.rs_floor.specs.FloorContent.{FitAll, IsReplayed, recorded_by};
ghost use Rattle.rs_serve.specs.declared.fault.FloorRefused.TheVariants.{Capacity, Memory};

use crate::floor::Floor;
use crate::opening::open_lanes;
use crate::steps::run_turns;
use crate::turn::Turn;
use rs_choice::Exchange;
use rs_serve::{FloorRefused, has_room};
use rs_table::Tables;
use std::alloc::Global;
use std::sync::Arc;

/// Runs a schedule. `files` has the recorded file of each peer, in the order of the peers, each shorter than 2^50
/// octets. Each peer has a ring of that capacity. A turn that cannot be taken does nothing, nor does one of a peer
/// that isn't there.
///
/// Fails with `Capacity` if the capacity isn't from 1 to 65,536, which is tested first, and with `Memory` if memory
/// is refused.
pub fn replay(
    alloc: Global,
    plan: &Arc<Exchange>,
    files: &[&[u8]],
    capacity: usize,
    turns: &[Turn],
) -> Result<Floor, FloorRefused>
    requires files { length files.now ≡ length plan.now.value.peers }
    requires limit { FitAll files.now }
    ensures floor { IfOk result (IsReplayed plan.now.value
        (recorded_by plan.now.value (map (λ file. file.now) files.now)) capacity turns.now) }
    ensures capacity { is_capacity capacity ≡ false → result ≡ Err Capacity }
    ensures memory { is_capacity capacity ≡ true → IfErr result (λ fault. fault ≡ Memory) }
{
    if !has_room(capacity) {
        return Err(FloorRefused::Capacity);
    }
    let mut tables = Tables::new(alloc, plan.clone()?)?;
    let mut lanes = open_lanes(alloc, plan, files, capacity)?;
    let counts = run_turns(alloc, &mut lanes, &mut tables, turns)?;
    Ok(Floor::new(tables, counts))
}
