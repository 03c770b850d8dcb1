//! The fields that list prefixes (RFC 4271, section 4.3).

ghost use Rattle.std.specs.Prelude.{◌≡◌, ◌<◌, length, slice_index, Some, IfOk, OnErr};
ghost use Rattle.std.specs.Option.{option_map};
ghost use Rattle.byteorder.specs.Endian.{big_number};
ghost use Rattle.rs_types.specs.Prefix as spec;

use byteorder::{BigEndian, ByteOrder};
use rs_types::Prefix;
use std::alloc::{AllocError, Global};

// The prefix that the octets begin with, and the octets behind it; None if they begin with none.
#[tactic(auto, unfolding(rs_types::specs::Prefix::prefix_at))]
pub(crate) fn split_first(octets: &[u8]) -> Option<(Prefix, &[u8])>
    ensures { option_map (λ split. (split.0, split.1.now)) result ≡ spec.prefix_at octets.now }
{
    let [len, rest @ ..] = octets else {
        return None;
    };
    let count = usize::from(len.div_ceil(8));
    if rest.len() < count {
        return None;
    }
    let (body, behind) = rest.split_at(count);
    Some((Prefix::new(address_of(body), *len)?, behind))
}

// The address whose first octets these are; the others are 0.
fn address_of(octets: &[u8]) -> u32
    ensures { result ≡ big_number 4 octets.now }
{
    BigEndian::read_u32(&[
        octet_at(octets, 0),
        octet_at(octets, 1),
        octet_at(octets, 2),
        octet_at(octets, 3),
    ])
}

// The octet at a place, 0 behind the last.
fn octet_at(octets: &[u8], place: usize) -> u8
    ensures { result ≡ slice_index octets.now place }
{
    octets.get(place).copied().unwrap_or(0)
}

// How many prefixes a field lists, or None if it isn't a list of prefixes.
pub(crate) fn count_prefixes(field: &[u8]) -> Option<usize>
    ensures { result ≡ option_map length (spec.prefixes_of field.now) }
{
    let mut count = 0;
    let mut rest = field;
    while let Some(split) = split_first(rest) {
        count += 1;
        rest = split.1;
    }
    if rest.is_empty() { Some(count) } else { None }
}

// The prefixes that a field lists, which are `count`: no memory is taken for none.
pub(crate) fn read_prefixes(
    alloc: Global,
    field: &[u8],
    count: usize,
) -> Result<Vec<Prefix>, AllocError>
    requires { option_map length (spec.prefixes_of field.now) ≡ Some count }
    ensures value { IfOk result (λ prefixes. spec.prefixes_of field.now ≡ Some prefixes.items) }
    ensures memory { OnErr result (0 < count) }
{
    if count == 0 {
        return Ok(Vec::new(alloc));
    }
    let mut prefixes = Vec::with_capacity(alloc, count)?;
    let mut rest = field;
    while let Some(split) = split_first(rest) {
        prefixes.push(split.0)?;
        rest = split.1;
    }
    Ok(prefixes)
}
