//! The values of attributes that are without fault (RFC 4271, section 4.3; RFC 1997; RFC 6793).

ghost use Rattle.std.specs.Prelude.{◌≡◌, ◌<◌, ◌≤◌, length, slice_index};
ghost use Rattle.std.specs.Option.{ForSome, option_map};
ghost use Rattle.byteorder.specs.Endian.{big_number};
ghost use Rattle.rs_types.specs.Gathered.{origin_with, aggregator_of};
ghost use Rattle.rs_types.specs.Items.{item_of};

use crate::item::Item;
use crate::number_list::NUMBER_LEN;
use crate::values::{Aggregator, Origin};
use byteorder::{BigEndian, ByteOrder};

// ORIGIN.
pub(crate) fn origin_of(value: &[u8]) -> Origin
    requires { 0 < length value.now }
    ensures { result ≡ origin_with (slice_index value.now 0) }
{
    Origin::of(value[0]).unwrap_or(Origin::Incomplete)
}

// MULTI_EXIT_DISC.
pub(crate) fn med_of(item: Option<Item<'_>>) -> Option<u32>
    requires { ForSome item (λ med. 4 ≤ length med.value.now) }
    ensures { result ≡ option_map (λ med. big_number 4 med.value) (option_map item_of item.entry) }
{
    match item {
        None => None,
        Some(med) => Some(BigEndian::read_u32(med.value)),
    }
}

// AGGREGATOR.
pub(crate) fn read_aggregator(item: Option<Item<'_>>) -> Option<Aggregator>
    requires { ForSome item (λ aggregator. 8 ≤ length aggregator.value.now) }
    ensures { result ≡ option_map aggregator_of (option_map item_of item.entry) }
{
    match item {
        None => None,
        Some(aggregator) => Some(Aggregator {
            asn: BigEndian::read_u32(aggregator.value),
            address: BigEndian::read_u32(&aggregator.value[NUMBER_LEN..]),
            partial: aggregator.flags.is_partial(),
        }),
    }
}
