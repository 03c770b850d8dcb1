//! Dumps of a client's table as TABLE_DUMP_V2: the peers, and then the route of one prefix after another.
//!
//! Reading order: `under_way`, `dump`, `table_dump`, `side_by_side`, `laws`. Records are spelled by `rs_records`.
//! Standards: RFC 6396, sections 2, 4.3, 4.3.1, 4.3.2 and 4.3.4 (RIB_IPV4_UNICAST alone).
#![tactic(auto)]

mod dump;
mod laws;
mod side_by_side;
mod table_dump;
mod under_way;

pub use dump::write_dump;
pub use laws::{dump_is_its_records, prefix_in_a_dump_is_spelled};
pub use rs_records::DumpFault;
pub use side_by_side::{Writing, write_side_by_side};
pub use table_dump::TableDump;
