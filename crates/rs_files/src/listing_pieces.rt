//! Files as pieces of recordings: in which of them a peer has records, and in which order they are read.
//!
//! Our choice: the pieces are in the order of their first times, whatever the order of the command line; of equal times, in
//! that of the command line.

use crate::recorded_file::RecordedFile;
use rs_inventory::{Inventory, PeerId, PeerRecords};
use std::alloc::{AllocError, Global};
use std::collections::BTreeMap;

/// In which files peers have records.
#[derive(Drop)]
pub(crate) struct Pieces {
    peers: BTreeMap<PeerId, Told>,
    // The numbers of all files, by their first times.
    order: Vec<usize>,
}

// The content of all files for a peer.
#[derive(Clone, Copy, Drop)]
struct Told {
    // The number of the first file of the command line in which it has messages.
    first: Option<usize>,
    // In how many files it has messages or changes of state.
    pieces: usize,
    // The BGP Identifier of its last OPEN, in the order of time.
    identifier: Option<u32>,
}

impl Pieces {
    /// Those of these files, which are numbered in the order of the command line.
    pub(crate) fn of(alloc: Global, files: &[RecordedFile]) -> Result<Pieces, AllocError> {
        let mut pieces = Pieces {
            peers: BTreeMap::new(alloc),
            order: Vec::new(alloc),
        };
        for number in by_first_time(alloc, files)? {
            if let Some(file) = files.get(number) {
                pieces.add(number, &file.inventory)?;
            }
        }
        Ok(pieces)
    }

    // Adds a file, the times of which don't begin before those of the files so far.
    fn add(&mut self, number: usize, inventory: &Inventory) -> Result<(), AllocError> {
        self.order.push(number)?;
        for (peer, records) in inventory.peers() {
            let told = told_with(self.peers.get(peer).copied(), number, records);
            self.peers.insert(*peer, told)?;
        }
        Ok(())
    }

    /// Whether another file lists this file's peer. An earlier file does, if the peer has messages in it. A later file
    /// does, if the peer has messages in it and none in this one.
    pub(crate) fn is_told_elsewhere(
        &self,
        number: usize,
        peer: PeerId,
        records: &PeerRecords,
    ) -> bool {
        match self.peers.get(&peer).and_then(|told| told.first) {
            Some(first) => first < number || records.messages() == 0,
            None => false,
        }
    }

    // Whether a peer has records in several files, and messages among them.
    fn has_pieces(&self, peer: PeerId) -> bool {
        match self.peers.get(&peer) {
            Some(told) => told.pieces > 1 && told.first.is_some(),
            None => false,
        }
    }

    /// The BGP Identifier of a peer's last OPEN in all files.
    pub(crate) fn identifier(&self, peer: PeerId) -> Option<u32> {
        self.peers.get(&peer)?.identifier
    }

    /// The paths of the pieces among these files, by their first times; none if no file is a piece.
    pub(crate) fn paths(
        &self,
        alloc: Global,
        files: &[RecordedFile],
    ) -> Result<Vec<String>, AllocError> {
        let mut paths = Vec::new(alloc);
        for number in &self.order {
            if let Some(file) = self.piece(files, *number) {
                paths.push(String::from_str(alloc, &file.path)?)?;
            }
        }
        Ok(paths)
    }

    // The file of a number, if it is a piece of a recording.
    fn piece<'a>(&self, files: &'a [RecordedFile], number: usize) -> Option<&'a RecordedFile> {
        let file = files.get(number)?;
        if self.has_piece(&file.inventory) {
            Some(file)
        } else {
            None
        }
    }

    /// Whether a file is a piece of a recording: a peer that has messages has records in it and in another file.
    pub(crate) fn has_piece(&self, inventory: &Inventory) -> bool {
        for (peer, records) in inventory.peers() {
            if records.records() > 0 && self.has_pieces(*peer) {
                return true;
            }
        }
        false
    }
}

// The numbers of files, by their first times; of equal ones, and of files without a record, in their order.
fn by_first_time(alloc: Global, files: &[RecordedFile]) -> Result<Vec<usize>, AllocError> {
    let mut firsts = Vec::with_capacity(alloc, files.len())?;
    for (number, file) in files.iter().enumerate() {
        firsts.push((file.inventory.first().unwrap_or(0), number))?;
    }
    firsts.sort_by_key(|first: &(u32, usize)| first.0)?;
    let mut order = Vec::with_capacity(alloc, firsts.len())?;
    for (_, number) in firsts {
        order.push(number)?;
    }
    Ok(order)
}

// The content of files for a peer, with that of one more file, which has this number.
fn told_with(told: Option<Told>, number: usize, records: &PeerRecords) -> Told {
    let mut told = told.unwrap_or(Told {
        first: None,
        pieces: 0,
        identifier: None,
    });
    if records.records() > 0 {
        told.pieces = told.pieces.saturating_add(1);
    }
    if records.messages() > 0 {
        told.first = Some(told.first.unwrap_or(number).min(number));
    }
    told.identifier = records.identifiers().last().copied().or(told.identifier);
    told
}
