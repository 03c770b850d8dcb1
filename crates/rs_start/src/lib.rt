//! The beginning of each peer's session, made of a table that a collector dumped (RFC 6396, section 4.3).
//!
//! Reading order: `start`, `added`, `fault`, `flags`, `spelling`, `held`, `writer` (a session that is written). Then `part`,
//! `index`, `rib`, `table_reader` (a table that is read), `tables` (which one of a file); `counts`, `sessions` (a table
//! read into sessions), `laws`.
//! Standards: RFC 6396, sections 2, 4.3.1, 4.3.2, 4.3.4, 4.4.3 and 4.4.4; RFC 4271, sections 4.1 and 4.3.
#![tactic(auto)]

mod added;
mod counts;
mod fault;
mod flags;
mod held;
mod index;
mod laws;
mod part;
mod rib;
mod sessions;
mod spelling;
mod start;
mod table_reader;
mod tables;
mod writer;

pub use added::{Added, Reason};
pub use counts::{Counts, LeftOut};
pub use fault::{Broken, RoutesFault, StartFault, TableFault};
pub use index::{Index, IndexPeer};
pub use laws::{
    a_session_begins_with_the_routes_of_the_table, an_entry_of_a_table_is_read_as_it_is_spelled,
};
pub use part::TableEnd;
pub use rib::RibEntry;
pub use sessions::PeerSession;
pub use start::Start;
pub use table_reader::TableReader;
pub use tables::Tables;
pub use writer::SessionWriter;
