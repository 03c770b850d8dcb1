//! What the reader of a shared recording sends to each peer.

ghost use Rattle.rs_share.specs.Telling.{MayFollow};

use crate::batch::Batch;
use rs_mrt::{Source, SourceFault};
use rs_types::PeerId;
use rtrb::Protocol;
use std::snapshot::Snapshot;

/// Of which source the records are, as it was before it was read, and whose they are.
#[derive(Drop)]
pub(crate) struct Begin<S> {
    pub(crate) source: Snapshot<S>,
    pub(crate) peer: PeerId,
}

/// The end of what a peer hears.
#[derive(Clone, Copy, Drop)]
pub(crate) struct Last {
    // How many records of others come behind the last one of the peer.
    pub(crate) others: u64,
    // How the records end.
    pub(crate) end: Option<SourceFault>,
}

/// Some records of a peer, one after another.
#[derive(Drop)]
pub(crate) struct Part<S> {
    // Only the first part has it, and that part has no records.
    pub(crate) begin: Option<Begin<S>>,
    pub(crate) batch: Batch,
    // Only the last part has it.
    pub(crate) last: Option<Last>,
}

/// What a reader promises of each part that it sends: it goes on with what the peer hears of records that the source
/// may give.
#[derive(Clone, Copy)]
pub(crate) struct InTurn;

impl<S: Source> Protocol<Part<S>> for InTurn {
    ghost allows = { λ before part. MayFollow S.comes S.room before part };
}

/// Nothing is promised of a batch that is given back.
#[derive(Clone, Copy)]
pub(crate) struct Free;

impl Protocol<Batch> for Free {
    ghost allows = { λ _ _. Unit {0} };
}
