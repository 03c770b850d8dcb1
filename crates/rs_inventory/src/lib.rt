//! What recorded files hold: records by kind, times, peers with their sessions, and how a file ends (RFC 6396; RFC
//! 4271).
//!
//! Reading order, files and records first: `compression` (a file that isn't records), `kind` (what a record is),
//! `opening` (what an OPEN tells). Then what one record adds: `depth`, `finding` and `outline`. Then what is known of
//! one peer: `sessions`, `course` and `peer`. Then what is known of one file: `back` (where its times go back), `silence`
//! (a time without any record), `unnamed` (losses without an address) and `inventory`. What its outline tells: `unread`
//! (messages that aren't read) and `file_outline`. Last how a file is read: `front` and `reading`, and by
//! `outlined_records` and `outline_slot` while somebody else reads it.
//!
//! A call that allocates fails if memory is refused.
#![tactic(auto)]

mod back;
mod compression;
mod course;
mod depth;
mod file_outline;
mod finding;
mod front;
mod inventory;
mod kind;
mod opening;
mod outline;
mod outline_slot;
mod outlined_records;
mod peer;
mod reading;
mod sessions;
mod silence;
mod unnamed;
mod unread;

pub use back::Back;
pub use compression::Compression;
pub use course::Course;
pub use file_outline::Outline;
pub use finding::{News, Note, recorder};
pub use inventory::Inventory;
pub use kind::Kind;
pub use outline::outlined;
pub use outline_slot::OutlineSlot;
pub use outlined_records::Outlined;
pub use peer::PeerRecords;
pub use reading::{InventoryFault, outline_of, read_inventory, read_outline};
pub use rs_types::PeerId;
pub use sessions::SessionTimes;
pub use silence::Silence;
pub use unnamed::UnnamedLoss;
pub use unread::{Unread, UnreadMessages};
