//! The recorded sessions of the peers of an exchange, one for each.

ghost use Rattle.std.specs.Prelude.{◌≡◌, ◌<◌, IfOk, Some, length, slice_get};
ghost use Rattle.rs_choice.specs.Plan.{Peer, id_of};
ghost use Rattle.rs_glass.specs.Heard.{AreRecordings};

use rs_choice::Exchange;
use rs_session::PeerId;
use std::alloc::{AllocError, Global};

/// The recorded session of a peer.
#[derive(Drop)]
pub(crate) struct Recording<S> {
    /// The number of the peer.
    pub(crate) peer: usize,
    /// Who it is in a recording.
    pub(crate) id: PeerId,
    /// What gives its records.
    pub(crate) source: S,
}

// The recorded session of each peer: `sources` has one source for each, in their order.
pub(crate) fn recordings<S: Drop>(
    alloc: Global,
    plan: &Exchange,
    sources: Vec<S>,
) -> Result<Vec<Recording<S>>, AllocError>
    requires one_for_each { length sources.items ≡ length plan.now.peers }
    ensures as_many { IfOk result (λ all. length all.items ≡ length sources.items) }
    ensures each { IfOk result (λ all. AreRecordings plan.now sources.items all.items) }
{
    let mut all = Vec::with_capacity(alloc, plan.count())?;
    for (peer, source) in sources.into_iter().enumerate() {
        let one = recording_of(plan, peer, source);
        all.push(one)?;
    }
    Ok(all)
}

// The recorded session of the peer of a number.
fn recording_of<S>(plan: &Exchange, peer: usize, source: S) -> Recording<S>
    requires { peer < length plan.now.peers }
    ensures number { result.peer ≡ peer }
    ensures id { (spec : Peer) × (slice_get plan.now.peers peer ≡ Some spec) × (result.id ≡ id_of spec) }
    ensures source { result.source ≡ source }
{
    Recording {
        peer,
        id: plan.peer(peer).peer_id(),
        source,
    }
}
