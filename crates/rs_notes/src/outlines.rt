//! The outlines of the recordings of an exchange, made while they are read for something else.
//!
//! Our choices: a recording that several peers have has one outline, which the first of them makes. The outline of a
//! recording that wasn't read to its end isn't known, nor is one for which memory was refused. Such a one is read once
//! more.

use crate::contents::{Contents, contents_at, contents_of};
use rs_inventory::{Outline, OutlineSlot, PeerId};
use rs_mrt::{Bounds, Tail};
use rs_setup::{Recording, Setup};
use std::alloc::Global;
use std::fs::Files;

/// The outlines of the recordings of an exchange.
#[derive(Drop)]
pub struct Outlines {
    bounds: Bounds,
    // The server of the exchange; none if these are outlines of no file.
    server: Option<PeerId>,
    // One for each peer of the exchange, in their order; none for a peer with the recording of an earlier one.
    slots: Vec<Option<OutlineSlot>>,
}

impl Outlines {
    /// Outlines of no file, if so much is read of each file.
    pub fn none(alloc: Global, bounds: Bounds) -> Outlines {
        Outlines {
            bounds,
            server: None,
            slots: Vec::new(alloc),
        }
    }

    /// Outlines of the files of a setup, of which records are read up to a time, in seconds since 1970. No file is read
    /// yet. If memory is refused, they are those of the first files.
    pub fn new(alloc: Global, setup: &Setup, until: Option<u32>) -> Outlines {
        let tail = Tail::Strict;
        Outlines::within(alloc, setup, Bounds { until, tail })
    }

    /// The outlines of the files, if so much is read of each file.
    pub fn within(alloc: Global, setup: &Setup, bounds: Bounds) -> Outlines {
        let mut outlines = Outlines {
            bounds,
            server: Some(setup.plan.local().peer_id()),
            slots: Vec::new(alloc),
        };
        for peer in 0..setup.files.len() {
            let slot = if has_earlier(setup, peer) {
                None
            } else {
                Some(OutlineSlot::empty())
            };
            if outlines.slots.push(slot).is_err() {
                break;
            }
        }
        outlines
    }

    /// How much is read of each file.
    pub fn bounds(&self) -> Bounds {
        self.bounds
    }

    /// Where the outlines are put, by the number of the peer: none for one with the recording of an earlier peer.
    pub fn slots(&self) -> &[Option<OutlineSlot>] {
        &self.slots
    }

    /// Takes what the recordings of the setup hold, without those that cannot be read again, or for which memory is
    /// refused. A recording whose outline isn't known, or was taken before, is read for that. Outlines of no file tell
    /// nothing.
    pub fn contents<'a, R: AllocGlobal + Files>(
        &self,
        rt: &R,
        setup: &'a Setup,
    ) -> Vec<Contents<'a>> {
        let mut all = Vec::new(rt.alloc());
        let Some(server) = self.server else {
            return all;
        };
        for peer in 0..setup.files.len() {
            if let Some(recording) = unknown_at(setup, &all, peer) {
                let known = self.outline(peer);
                if let Ok(contents) = contents_at(rt, recording, self.bounds, server, known) {
                    let _ = all.push(contents);
                }
            }
        }
        all
    }

    // Takes the outline of the recording of a peer, if there is one.
    fn outline(&self, peer: usize) -> Option<Outline> {
        match self.slots.get(peer) {
            Some(Some(slot)) => slot.take(),
            _ => None,
        }
    }
}

// Whether an earlier peer has the recording of the peer of a number.
fn has_earlier(setup: &Setup, peer: usize) -> bool {
    let recording = setup.recording(peer);
    (0..peer).any(|earlier| setup.recording(earlier) == recording)
}

// The recording of the peer of a number, if it isn't known yet what it holds.
fn unknown_at<'a>(setup: &'a Setup, all: &[Contents<'_>], peer: usize) -> Option<Recording<'a>> {
    let recording = setup.recording(peer)?;
    match contents_of(all, recording) {
        Some(_) => None,
        None => Some(recording),
    }
}
