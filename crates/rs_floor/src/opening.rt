//! The lanes of all peers before the first turn, and how far they came after the last.

ghost use Rattle.std.specs.Prelude.{◌≡◌, length, map, true, IfOk};
ghost use Rattle.rs_ring.specs.Items.{is_capacity};
ghost use Rattle.rs_floor.specs.FloorContent.{AreFresh, FitAll};

use crate::counts::Counts;
use crate::lane::Lane;
use rs_choice::Exchange;
use std::alloc::{AllocError, Global};

// A lane for each peer, in the order of the peers. Refused if memory is.
pub(crate) fn open_lanes<'a>(
    alloc: Global,
    plan: &Exchange,
    files: &[&'a [u8]],
    capacity: usize,
) -> Result<Vec<Lane<'a>>, AllocError>
    requires files { length files.now ≡ length plan.now.peers }
    requires limit { FitAll files.now }
    requires capacity { is_capacity capacity ≡ true }
    ensures count { IfOk result (λ lanes. length lanes.items ≡ length files.now) }
    ensures fresh { IfOk result (λ lanes. AreFresh plan.now (map (λ file. file.now) files.now) capacity lanes.items) }
{
    let mut lanes = Vec::with_capacity(alloc, files.len())?;
    for (number, file) in files.iter().enumerate() {
        let peer = plan.peer(number);
        lanes.push(Lane::new(alloc, file, peer.peer_id(), capacity)?)?;
    }
    Ok(lanes)
}

// How far each peer has come.
pub(crate) fn all_counts(alloc: Global, lanes: &[Lane<'_>]) -> Result<Vec<Counts>, AllocError>
    ensures { IfOk result (λ counts. counts.items ≡ map (λ lane. lane.counts) lanes.now) }
{
    let mut counts = Vec::with_capacity(alloc, lanes.len())?;
    for lane in lanes {
        counts.push(lane.counts())?;
    }
    Ok(counts)
}
