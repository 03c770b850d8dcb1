//! What the values of a configuration stand for: whole numbers, addresses, subnets and texts (our choice: RFC
//! 4271 leaves configuration to the implementation).

ghost use Rattle.std.specs.Prelude.{◌≡◌, ◌++◌, ◌<◌, ℕ, IfNone, IfOk, IfSome, codes, decimal, map, string_bytes};
ghost use Rattle.toml.specs.View.{items_view, view};
ghost use Rattle.rs_setup.specs.Import.{IsLength};
ghost use Rattle.rs_setup.specs.Values.{AreTexts, HasNoSlash, IsAddress, IsDottedAddress, IsSlashedSubnet, IsSubnet};
ghost use Rattle.rs_setup.specs.Values.{IsTexts, IsWholeNumber, StandsForNone};

use rs_update::Prefix;
use std::alloc::{AllocError, Global};
use std::net::Ipv4Addr;
use toml::Value;

/// The whole number, from 0 to 4,294,967,295, that a value is.
pub fn whole_number(value: &Value) -> Option<u32>
    ensures found { IfSome result (IsWholeNumber (view value.now)) }
    ensures none { IfNone result (StandsForNone IsWholeNumber (view value.now)) }
{
    match value.as_integer() {
        Some(number) => u32::try_from(number).ok(),
        None => None,
    }
}

/// The length, from 0 to 32, that a value is.
pub fn length(value: &Value) -> Option<u8>
    ensures { IfSome result (IsLength (view value.now)) }
{
    match whole_number(value) {
        Some(len @ 0..=32) => Some(len as u8),
        _ => None,
    }
}

/// The address, in host order, that a value writes as four decimal numbers from 0 to 255 with dots between
/// them and without needless zeros.
pub fn address(value: &Value) -> Option<u32>
    ensures found { IfSome result (IsAddress (view value.now)) }
    ensures none { IfNone result (StandsForNone IsAddress (view value.now)) }
{
    match value.as_str() {
        Some(text) => dotted_address(text),
        None => None,
    }
}

/// The subnet that a value writes as an address, a slash and a length from 0 to 32 without needless zeros.
/// Its host bits are cleared.
pub fn subnet(value: &Value) -> Option<Prefix>
    ensures found { IfSome result (IsSubnet (view value.now)) }
    ensures none { IfNone result (StandsForNone IsSubnet (view value.now)) }
{
    match value.as_str() {
        Some(text) => slashed_subnet(text),
        None => None,
    }
}

/// The texts of the list that a value is; none if it isn't a list of texts.
pub fn texts(alloc: Global, value: &Value) -> Result<Option<Vec<String>>, AllocError>
    ensures found { IfOk result (λ found. IfSome found
        (λ texts. IsTexts (view value.now) (map string_bytes texts.items))) }
    ensures none { IfOk result (λ found. IfNone found (StandsForNone IsTexts (view value.now))) }
{
    match value.as_array() {
        Some(values) => list_of_texts(alloc, values),
        None => Ok(None),
    }
}

// The texts that the values are; none if one of them isn't a text.
fn list_of_texts(alloc: Global, values: &[Value]) -> Result<Option<Vec<String>>, AllocError>
    ensures found { IfOk result (λ found. IfSome found
        (λ texts. AreTexts (items_view values.now) (map string_bytes texts.items))) }
    ensures none { IfOk result (λ found. IfNone found (StandsForNone AreTexts (items_view values.now))) }
{
    let mut texts = Vec::with_capacity(alloc, values.len())?;
    for value in values {
        let Some(text) = value.as_str() else {
            return Ok(None);
        };
        texts.push(String::from_str(alloc, text)?)?;
    }
    Ok(Some(texts))
}

// The address, in host order, that a text writes with dots.
fn dotted_address(text: &str) -> Option<u32>
    ensures found { IfSome result (IsDottedAddress text.now) }
    ensures none { IfNone result (StandsForNone IsDottedAddress text.now) }
{
    match text.parse::<Ipv4Addr>() {
        Ok(address) => Some(address.to_bits()),
        Err(_) => None,
    }
}

/// The prefix that a text writes as an address, a slash and a length from 0 to 32 without needless zeros. Its
/// host bits are cleared.
pub fn slashed_subnet(text: &str) -> Option<Prefix>
    ensures found { IfSome result (IsSlashedSubnet text.now) }
    ensures none { IfNone result (StandsForNone IsSlashedSubnet text.now) }
{
    let (address, len) = split_at_slash(text)?;
    Prefix::new(dotted_address(address)?, decimal_length(len.as_bytes())?)
}

// What stands before the first slash of a text, and what stands after it.
fn split_at_slash(text: &str) -> Option<(&str, &str)>
    ensures parts { IfSome result (λ (front, back). text.now ≡ front.now ++ codes "/" ++ back.now) }
    ensures first { IfSome result (λ (front, back). HasNoSlash front.now) }
    ensures none { IfNone result (HasNoSlash text.now) }
{
    text.split_once('/')
}

// The decimal number below 100 that a text writes without needless zeros.
fn decimal_length(text: &[u8]) -> Option<u8>
    ensures found { IfSome result (λ len. text.now ≡ decimal len) }
    ensures none { IfNone result ((len : ℕ) → len < 100 → ¬ (text.now ≡ decimal len)) }
{
    match text {
        [ones @ b'0'..=b'9'] => Some(*ones - b'0'),
        [tens @ b'1'..=b'9', ones @ b'0'..=b'9'] => Some(10 * (*tens - b'0') + (*ones - b'0')),
        _ => None,
    }
}
