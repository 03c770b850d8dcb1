//! What the outline of a recorded file tells: of each message no more than the type is read (RFC 4271, section 4.1).

ghost use Rattle.std.specs.Prelude.{◌≡◌, OnOk};
ghost use Rattle.rs_mrt.specs.Record.{record_of};
ghost use Rattle.rs_inventory.specs.FileOutline.{OutlinesNothing, TakesRecord, ended, is_recorder};

use crate::depth::Depth;
use crate::finding::{Finding, is_peer};
use crate::inventory::Inventory;
use crate::unread::UnreadMessages;
use rs_mrt::{Cut, MrtFault, Record};
use rs_types::PeerId;
use std::alloc::{AllocError, Global};

/// What is known of a file of records by its outline: of each message no more than the type is read.
#[derive(Drop)]
pub struct Outline {
    /// What the records hold. Its end is the fault by which the file ends, if it does.
    pub held: Inventory,
    /// Whether a message of a session with four-octet AS numbers names the server as its recorder.
    pub names_server: bool,
    /// Which messages aren't read.
    pub unread: UnreadMessages,
    /// The record that the end of the file cuts short; none if the file ends after whole records.
    pub cut: Option<Cut>,
}

impl Outline {
    // That of no record.
    pub(crate) fn none(alloc: Global) -> Outline
        ensures { OutlinesNothing result }
    {
        Outline {
            held: Inventory::none(alloc, None),
            names_server: false,
            unread: UnreadMessages::none(alloc),
            cut: None,
        }
    }

    // Takes the next record. If memory is refused, it may lack a part of the record.
    pub(crate) fn take(
        &mut self,
        alloc: Global,
        record: &Record<'_>,
        server: PeerId,
    ) -> Result<(), AllocError>
        ensures { OnOk result (TakesRecord server self.old (record_of «record».now) self.new) }
    {
        let finding = Finding::of(alloc, record, Depth::Outline)?;
        self.held.take(alloc, finding)?;
        self.names_server = self.names_server || is_recorder(finding.recorder, server);
        self.unread.take(record, server.asn)?;
        Ok(())
    }

    // Takes how the file ends.
    pub(crate) fn take_end(&mut self, end: Option<MrtFault>, cut: Option<Cut>)
        ensures { self.new ≡ ended end cut self.old }
    {
        self.held.take_end(end);
        self.cut = cut;
    }
}

// Whether the recorder of a message, if it has one, is the server.
fn is_recorder(recorder: Option<PeerId>, server: PeerId) -> bool
    ensures { result ≡ is_recorder recorder server }
{
    match recorder {
        Some(recorder) => is_peer(recorder, server),
        None => false,
    }
}
