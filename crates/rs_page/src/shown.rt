//! What a page shows.

use crate::members::{Measure, Member};
use crate::times::Times;
use rs_glass_shell::PeerSession;
use rs_query::PageQuery;
use rs_setup::Setup;
use rs_survey::Tally;
use std::alloc::{AllocError, Global};

/// What a page shows.
#[derive(Drop)]
pub(crate) struct Shown<'a> {
    /// The allocator.
    pub(crate) alloc: Global,
    /// What is asked.
    pub(crate) query: &'a PageQuery,
    /// The exchange.
    pub(crate) setup: &'a Setup,
    /// The numbers of `summary`.
    pub(crate) tally: &'a Tally,
    /// What the recordings show over time.
    pub(crate) times: &'a Times,
    /// The numbers of each peer.
    pub(crate) members: &'a [Member],
    /// What is known of the session of each peer.
    pub(crate) sessions: &'a [PeerSession],
    /// The notes on the recordings.
    pub(crate) notes: &'a [String],
}

impl Shown<'_> {
    /// Whether import policy is configured.
    pub(crate) fn has_import(&self) -> bool {
        self.setup.plan.import().is_configured()
    }

    /// A text on a part of the page, which says more if import policy is configured.
    pub(crate) fn about(&self, always: &str, more: &str) -> Result<String, AllocError> {
        let mut about = String::from_str(self.alloc, always)?;
        if self.has_import() {
            about.push_str(more)?;
        }
        Ok(about)
    }

    /// Those of some measures that are shown: filtered routes only if import policy is configured.
    pub(crate) fn measures(&self, all: &[Measure]) -> Result<Vec<Measure>, AllocError> {
        let mut measures = Vec::new(self.alloc);
        for measure in all {
            if *measure != Measure::Filtered || self.has_import() {
                measures.push(*measure)?;
            }
        }
        Ok(measures)
    }
}
