//! The Hold Time, the BGP Identifier and the AS number of four octets in an OPEN (RFC 4271, section 4.2; RFC 6793,
//! section 3; RFC 5492, section 4).

ghost use Rattle.std.specs.Prelude.{◌≡◌};
ghost use Rattle.std.specs.Option.{option_map};
ghost use Rattle.rs_inventory.specs.Opening.{as_of_capability, as_of_parameter, first_found, four_octet_as};
ghost use Rattle.rs_inventory.specs.Opening.{hold_time_of, identifier_of, item_at, item_of, items_of};

use byteorder::{BigEndian, ByteOrder};

// Where the Hold Time stands in an OPEN, and where it ends.
const HOLD_TIME_AT: usize = 22;

const HOLD_TIME_END: usize = 24;

// Where the BGP Identifier stands in an OPEN, and where it ends.
const IDENTIFIER_AT: usize = 24;

const IDENTIFIER_END: usize = 28;

// Where the Optional Parameters stand, behind their length.
const PARAMETERS_AT: usize = 29;

// The Type of an Optional Parameter that lists capabilities (RFC 5492, section 4).
const CAPABILITIES: u8 = 2;

// The Code of the capability that holds an AS number of four octets (RFC 6793, section 3).
const FOUR_OCTET_AS: u8 = 65;

// An Optional Parameter or a capability.
#[derive(Clone, Copy)]
struct Item<'a> {
    // Its type.
    kind: u8,
    // Its value.
    value: &'a [u8],
}

/// The BGP Identifier of an OPEN, as a number in host order; 0 if the octets are fewer.
pub(crate) fn identifier(octets: &[u8]) -> u32
    ensures { result ≡ identifier_of octets.now }
{
    if octets.len() < IDENTIFIER_END {
        return 0;
    }
    BigEndian::read_u32(&octets[IDENTIFIER_AT..])
}

/// The Hold Time of an OPEN, in seconds; 0 if the octets are fewer.
pub(crate) fn hold_time(octets: &[u8]) -> u32
    ensures { result ≡ hold_time_of octets.now }
{
    if octets.len() < HOLD_TIME_END {
        return 0;
    }
    u32::from(BigEndian::read_u16(&octets[HOLD_TIME_AT..]))
}

/// The AS number of four octets in a capability of an OPEN; None if there is none.
pub(crate) fn four_octet_as(octets: &[u8]) -> Option<u32>
    ensures { result ≡ four_octet_as octets.now }
{
    if octets.len() < PARAMETERS_AT {
        return None;
    }
    as_of_parameters(&octets[PARAMETERS_AT..])
}

// The AS number in a list of Optional Parameters.
fn as_of_parameters(parameters: &[u8]) -> Option<u32>
    ensures { result ≡ first_found as_of_parameter (items_of parameters.now) }
{
    let mut rest = parameters;
    while let Some((parameter, behind)) = split_item(rest) {
        if let Some(asn) = as_of_parameter(parameter) {
            return Some(asn);
        }
        rest = behind;
    }
    None
}

// The AS number in a list of capabilities.
fn as_of_capabilities(capabilities: &[u8]) -> Option<u32>
    ensures { result ≡ first_found as_of_capability (items_of capabilities.now) }
{
    let mut rest = capabilities;
    while let Some((capability, behind)) = split_item(rest) {
        if let Some(asn) = as_of_capability(capability) {
            return Some(asn);
        }
        rest = behind;
    }
    None
}

// The AS number in an Optional Parameter.
fn as_of_parameter(parameter: Item<'_>) -> Option<u32>
    ensures { result ≡ as_of_parameter (item_of parameter.entry) }
{
    if parameter.kind == CAPABILITIES {
        as_of_capabilities(parameter.value)
    } else {
        None
    }
}

// The AS number in a capability.
fn as_of_capability(capability: Item<'_>) -> Option<u32>
    ensures { result ≡ as_of_capability (item_of capability.entry) }
{
    if capability.kind == FOUR_OCTET_AS && capability.value.len() == 4 {
        Some(BigEndian::read_u32(capability.value))
    } else {
        None
    }
}

// An item at the front, an octet of type and an octet of length before its value, and the octets behind it.
fn split_item(octets: &[u8]) -> Option<(Item<'_>, &[u8])>
    ensures { option_map (λ split. (item_of split.0, split.1.now)) result ≡ item_at octets.now }
{
    let [kind, length, rest @ ..] = octets else {
        return None;
    };
    let length = usize::from(*length);
    if rest.len() < length {
        return None;
    }
    let (value, behind) = rest.split_at(length);
    Some((Item { kind: *kind, value }, behind))
}
