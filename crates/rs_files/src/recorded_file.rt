//! A recorded file whose content is shown.

use rs_inventory::Inventory;
use rs_notes::Format;

/// A recorded file, and what it holds.
#[derive(Drop)]
pub struct RecordedFile {
    /// Its path.
    pub path: String,
    /// Of what format it is, if it has no record of a known kind and begins as a zip, pcap or text file does.
    pub format: Option<Format>,
    /// What it holds.
    pub inventory: Inventory,
}
