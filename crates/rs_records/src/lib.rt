//! The records of a dump of a client's table as TABLE_DUMP_V2: that of the peers, and that of one prefix. They are
//! spelled in a buffer that has room for them.
//!
//! Reading order: `fault`, `peer_index`, `rib`, `buffer`.
//! Standards: RFC 6396, sections 2, 4.3, 4.3.1, 4.3.2 and 4.3.4 (RIB_IPV4_UNICAST alone).
#![tactic(auto)]

mod buffer;
mod fault;
mod peer_index;
mod rib;

pub use fault::DumpFault;
pub use peer_index::{MAX_PEER_INDEX_LEN, spell_peer_index};
pub use rib::{MAX_ROW_LEN, RibEntry, spell_row};
