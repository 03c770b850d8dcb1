//! Messages of BGP-4 as a route server reads them: RFC 4271, with AS numbers of four octets (RFC 6793) and
//! communities (RFC 1997).
//!
//! Reading order:
//! - Fields and faults: `prefix_list` (the fields that list prefixes), `fault` (what can be wrong, by code and subcode).
//! - A section of attributes: `section` (its first fault), `found` (where attributes stand if none is at fault).
//! - The attributes of a route: `gather`.
//! - What RFC 7606 does in place of a fault: `errors`, `handling` and `treating`.
//! - Messages: `header`, `update` and `message` (a message by its type, and its first fault), `concerns` (whether a
//!   message may concern a prefix).
//! - Attributes as they are written: `spelling`.
//! - What holds of the definitions that the contracts cite: `laws`.
//!
//! Prefixes, and one path attribute by its type, are of the crate `rs_types`. The attributes of a route are, too.
#![tactic(auto)]

mod concerns;
mod errors;
mod fault;
mod found;
mod gather;
mod handling;
mod header;
mod laws;
mod message;
mod prefix_list;
mod section;
mod spelling;
mod treating;
mod update;

pub use concerns::concerns_prefix;
pub use errors::Errors;
pub use fault::{HeaderFault, MessageFault};
pub use header::MessageType;
pub use laws::{
    a_field_is_one_list_of_prefixes, a_message_is_at_fault_by_its_first_fault,
    a_path_is_one_list_of_segments, a_section_is_at_fault_by_its_first_attribute_at_fault,
    a_section_is_one_list_of_attributes, attributes_are_for_announced_routes,
    by_rfc_4271_a_message_says_what_it_says, the_attributes_of_a_route_read_back,
    the_strongest_that_is_found_counts, what_is_written_reads_as_the_same_attributes,
    without_a_fault_both_standards_agree,
};
pub use message::{Message, Update, read_message, read_message_by};
pub use rs_types::{
    Aggregator, Attributes, Communities, Numbers, Origin, Others, Prefix, Segment, SegmentView,
    Segments, Unrecognized, UpdateFault, a_prefix_covers_itself, covers,
    origins_are_ordered_by_code, prefixes_are_ordered_by_address_then_length,
};
pub use spelling::write_attributes;
