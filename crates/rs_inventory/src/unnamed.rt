//! Losses that are recorded without an address: recorders write the end of a dead connection so (RFC 6396, section
//! 4.4.4). No record says which peer of the AS number lost its session.

ghost use Rattle.std.specs.Prelude.{◌≡◌};
ghost use Rattle.rs_inventory.specs.Unnamed.{unnamed_by};

use crate::finding::Note;

// The address of such a record.
const NO_ADDRESS: u32 = 0;

/// A loss that is recorded without an address.
#[derive(Clone, Copy, Debug, PartialEq, Eq, Drop)]
pub struct UnnamedLoss {
    /// When, in seconds since 1970.
    pub time: u32,
    /// The AS number of the peer.
    pub asn: u32,
}

/// The loss in a record of a time that says this of a peer, if it is one without an address.
pub(crate) fn unnamed_by(time: u32, note: Option<Note>) -> Option<UnnamedLoss>
    ensures { result ≡ unnamed_by time note }
{
    let note = note?;
    if note.peer.address != NO_ADDRESS || !note.news.is_loss() {
        return None;
    }
    Some(UnnamedLoss {
        time,
        asn: note.peer.asn,
    })
}
