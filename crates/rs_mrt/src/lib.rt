//! MRT records of a recording of BGP (RFC 6396): those of a file, at hand or in pieces, what a BGP4MP record says,
//! and the header of a record that is written.
//!
//! Reading order: `record`, `fault`, `meaning`, `bgp4mp`, `source`. How a file is read: `losses`, `bounds`,
//! `lenient`. Files in pieces: `reader`, `inlet`, `window`, `cut`, `record_reader`. What is written:
//! `spelling`, `stream`. At last `memory`, `memory_reader`; `laws`.
//!
//! Standards: RFC 6396, sections 2 (header), 3 and 4.5 (BGP4MP_ET), 4.4.1 (states), 4.4.3 and 4.4.4 (BGP4MP with AS
//! numbers of four octets).
#![tactic(auto)]

mod bgp4mp;
mod bounds;
mod cut;
mod fault;
mod inlet;
mod laws;
mod lenient;
mod losses;
mod meaning;
mod memory;
mod memory_reader;
mod reader;
mod record;
mod record_reader;
mod source;
mod spelling;
mod stream;
mod window;

pub use bgp4mp::{
    AFI_IPV4, BGP4MP, BGP4MP_ET, ESTABLISHED, FRONT_LEN, MESSAGE_AS4, MICROSECONDS_LEN,
    STATE_CHANGE_AS4, entry,
};
pub use bounds::{Bounds, FileReading, Tail};
pub use cut::Cut;
pub use fault::{MrtFault, SourceFault};
pub use inlet::READ_LIMIT;
pub use laws::{
    a_reader_begins_before_the_first_record, examples_hold, file_splits_in_one_way,
    front_of_a_record_says_the_same, known_octets_are_shown, known_octets_are_shown_up_to,
    what_is_within_bounds,
};
pub use lenient::Lenient;
pub use losses::Losses;
pub use meaning::Entry;
pub use memory::{Limits, MemoryWriter};
pub use memory_reader::{MemoryReader, ReadLimits};
pub use reader::{IoReader, Read};
pub use record::{HEADER_LEN, KIND_AT, LENGTH_AT, Record, Records, SUBTYPE_AT};
pub use record_reader::RecordReader;
pub use source::Source;
pub use spelling::write_header;
pub use stream::{Failed, IoWriter, Write, write_all};
