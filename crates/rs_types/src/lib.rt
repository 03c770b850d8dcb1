//! Prefixes, and the path attributes of a route: RFC 4271, with AS numbers of four octets (RFC 6793) and communities
//! (RFC 1997). What recordings and lists name stands here too, since several crates read it.
//!
//! Reading order:
//! - `prefix` (an address prefix).
//! - One path attribute: `attribute_type`, `flags` and `item` (the attribute, and what it must be), with `fault` and
//!   `handling` (what can be wrong with it, and what is done then). Then `number_list`, `as_path`, `values` and
//!   `readers` (values of attributes).
//! - The attributes of a route: `attributes`.
//! - What recordings and lists name: `peer_id` (a peer in a recording), `as_range`, `pattern` and `vrp` (entries of
//!   lists for import policy).
//! - What holds of the definitions that the contracts cite: `laws`.
//!
//! The crate `rs_update` reads these of messages.
//!
//! A call that allocates fails if memory is refused.
#![tactic(auto)]

mod as_path;
mod as_range;
mod attribute_type;
mod attributes;
mod fault;
mod flags;
mod handling;
mod item;
mod laws;
mod number_list;
mod pattern;
mod peer_id;
mod prefix;
mod readers;
mod values;
mod vrp;

pub use as_path::{Segment, SegmentView, Segments};
pub use as_range::AsRange;
pub use attribute_type::{AS_PATH, AttributeType, NEXT_HOP, ORIGIN, Row, WantedFlags};
pub use attributes::{Attributes, Communities, Others, Unrecognized};
pub use fault::UpdateFault;
pub use flags::Flags;
pub use handling::Handling;
pub use item::{Item, item_from, split_item};
pub use laws::{
    a_prefix_covers_itself, origins_are_ordered_by_code,
    prefixes_are_ordered_by_address_then_length, prefixes_are_the_same_by_address_and_length,
};
pub use number_list::Numbers;
pub use pattern::Pattern;
pub use peer_id::PeerId;
pub use prefix::{Prefix, covers};
pub use values::{Aggregator, Origin};
pub use vrp::Vrp;
