//! Inventories as a configuration to start from: each peer of which a message is recorded, with its file.
//!
//! Our choices: the server is the recorder that the first file with messages names. A peer is named after its AS
//! number. An address that stands twice is a comment the second time, since no two peers have the same. Files with records
//! of one peer are pieces of one recording, in the order of their first times. A peer of a piece stands once, with all
//! pieces, so that a loss counts too that stands alone in one. Each recording goes on in the files behind, which are not
//! read here.

use crate::listing_pieces::Pieces;
use crate::recorded_file::RecordedFile;
use crate::recording_keys::{add_behind, add_recording, recording};
use rs_glass_shell::{PeerNames, quoted};
use rs_inventory::{PeerId, PeerRecords};
use std::alloc::{AllocError, Global};
use std::collections::BTreeSet;
use std::net::Ipv4Addr;

// A configuration that is being written.
#[derive(Drop)]
struct Configuration {
    text: String,
    // The pieces of the recordings.
    pieces: Pieces,
    // The addresses of the peers so far.
    addresses: BTreeSet<u32>,
    // The names of the peers so far.
    names: PeerNames,
}

/// A configuration to start from, with the peers of all files of which a message of a session with four-octet AS
/// numbers is recorded. Their recordings go on in the files at the paths behind. If no file has any, it has comments alone.
pub fn as_toml(
    alloc: Global,
    files: &[RecordedFile],
    behind: &[String],
) -> Result<String, AllocError> {
    let mut configuration = Configuration {
        text: String::new(alloc),
        pieces: Pieces::of(alloc, files)?,
        addresses: BTreeSet::new(alloc),
        names: PeerNames::new(alloc),
    };
    configuration.add_server(files)?;
    let mut joined = configuration.pieces.paths(alloc, files)?;
    if !joined.is_empty() {
        configuration.add_order()?;
    }
    add_behind(alloc, &mut joined, behind)?;
    for (number, file) in files.iter().enumerate() {
        configuration.add_file(alloc, number, file, (joined.as_slice(), behind))?;
    }
    Ok(configuration.text)
}

impl Configuration {
    // Adds the server: the first recorder that is named.
    fn add_server(&mut self, files: &[RecordedFile]) -> Result<(), AllocError> {
        let recorder = files.iter().find_map(|file| file.inventory.recorder());
        let Some(PeerId { address, asn }) = recorder else {
            return writeln!(
                self.text,
                "# no message of a session with four-octet AS numbers is recorded"
            );
        };
        let address = Ipv4Addr::from_bits(address);
        writeln!(
            self.text,
            "# The recorder as the server: put your route server in its place where it is another."
        )?;
        writeln!(self.text, "[server]")?;
        writeln!(self.text, "as = {asn}")?;
        writeln!(self.text, "address = \"{address}\"")
    }

    // Adds in which order the pieces of recordings are read.
    fn add_order(&mut self) -> Result<(), AllocError> {
        writeln!(self.text)?;
        writeln!(
            self.text,
            "# Peers are recorded in several files, which are read in the order of time."
        )
    }

    // Adds the peers of a file. Those of a piece have the paths of all joined.
    fn add_file(
        &mut self,
        alloc: Global,
        number: usize,
        file: &RecordedFile,
        (joined, behind): (&[String], &[String]),
    ) -> Result<(), AllocError> {
        let path = quoted(alloc, &file.path)?;
        let alone = recording(alloc, &file.path, behind)?;
        let paths = if self.pieces.has_piece(&file.inventory) {
            joined
        } else {
            alone.as_slice()
        };
        for (peer, records) in file.inventory.peers() {
            if !self.pieces.is_told_elsewhere(number, *peer, records) {
                self.add_peer(alloc, *peer, records, (path.as_str(), paths))?;
            }
        }
        Ok(())
    }

    // Adds a peer of the file at this path, quoted, whose recording has these paths. Adds a comment if it can't be one.
    fn add_peer(
        &mut self,
        alloc: Global,
        peer: PeerId,
        records: &PeerRecords,
        (path, paths): (&str, &[String]),
    ) -> Result<(), AllocError> {
        let address = Ipv4Addr::from_bits(peer.address);
        let asn = peer.asn;
        writeln!(self.text)?;
        if records.messages() == 0 {
            return writeln!(
                self.text,
                "# {address} AS {asn} in {path}: no message of a session with four-octet AS numbers"
            );
        }
        if self.addresses.contains(&peer.address) {
            return writeln!(
                self.text,
                "# {address} AS {asn} in {path}: a peer above has this address"
            );
        }
        self.addresses.insert(peer.address)?;
        writeln!(self.text, "[[peer]]")?;
        self.names.add_name(&mut self.text, asn)?;
        writeln!(self.text, "as = {asn}")?;
        writeln!(self.text, "address = \"{address}\"")?;
        self.add_identifier(peer)?;
        add_recording(alloc, &mut self.text, paths)
    }

    // Adds the BGP Identifier of a peer's last OPEN.
    fn add_identifier(&mut self, peer: PeerId) -> Result<(), AllocError> {
        match self.pieces.identifier(peer) {
            Some(identifier) => {
                let identifier = Ipv4Addr::from_bits(identifier);
                writeln!(self.text, "id = \"{identifier}\"")
            }
            None => writeln!(self.text, "# no OPEN is recorded, so its id is its address"),
        }
    }
}
