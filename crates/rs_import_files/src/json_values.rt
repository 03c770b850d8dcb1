//! What the members of a JSON row are.

ghost use Rattle.std.specs.Prelude.{◌≡◌, ℕ, IfErr, IfOk, None, Some, codes, false, true};
ghost use Rattle.json.specs.Find.{get};
ghost use Rattle.json.specs.Value.{value_view};
ghost use Rattle.rs_import_files.specs.JsonRows.{IsAsValue, IsBound, IsExactLawful, IsLengthValue, has_bound, text_at};
ghost use Rattle.rs_import_files.specs.Texts.{IsNumber, StandsForNone};

use crate::fault::Flaw;
use crate::numbers::{length, number};
use crate::reasons::{need_number, shown};
use json::Value;
use std::alloc::Global;

// The value at a key, which must be there.
pub(crate) fn need_member<'v, 'a>(
    alloc: Global,
    row: &'v Value<'a>,
    key: &str,
) -> Result<&'v Value<'a>, Flaw>
    ensures found { IfOk result (λ value. get key.now (value_view row.now) ≡ Some (value_view value.now)) }
    ensures none { IfErr result (λ _. get key.now (value_view row.now) ≡ None) }
{
    match row.get(key) {
        Some(value) => Ok(value),
        None => Err(Flaw::of(format!(in alloc; "{key} is missing"))),
    }
}

// The text at a key, which must be there.
pub(crate) fn need_text<'a>(alloc: Global, row: &Value<'a>, key: &str) -> Result<&'a str, Flaw>
    ensures found { IfOk result (λ text. text_at key.now (value_view row.now) ≡ Some text.now) }
    ensures none { IfErr result (λ _. text_at key.now (value_view row.now) ≡ None) }
{
    let value = need_member(alloc, row, key)?;
    match value.as_str() {
        Some(text) => Ok(text),
        None => Err(Flaw::of(format!(in alloc; "{key} is not a text"))),
    }
}

// The AS number that a value must be.
pub(crate) fn need_as_value(alloc: Global, value: &Value<'_>) -> Result<u32, Flaw>
    ensures found { IfOk result (IsAsValue (value_view value.now)) }
    ensures none { IfErr result (λ _. StandsForNone IsAsValue (value_view value.now)) }
{
    match value {
        Value::String(text) => need_number(alloc, text),
        Value::Number(digits) => need_digits(alloc, digits),
        _ => Err(Flaw::of(String::from_str(alloc, "an AS number is neither a number nor a text"))),
    }
}

// The number of 32 bits that digits must be.
fn need_digits(alloc: Global, digits: &str) -> Result<u32, Flaw>
    ensures found { IfOk result (IsNumber digits.now) }
    ensures none { IfErr result (λ _. StandsForNone IsNumber digits.now) }
{
    match number(digits) {
        Some(asn) => Ok(asn),
        None => Err(Flaw::of(format!(in alloc; "{} is not an AS number", shown(digits)))),
    }
}

// The length at a key, which a value must be.
pub(crate) fn need_length_value(alloc: Global, key: &str, value: &Value<'_>) -> Result<u8, Flaw>
    ensures found { IfOk result (IsLengthValue (value_view value.now)) }
    ensures none { IfErr result (λ _. StandsForNone IsLengthValue (value_view value.now)) }
{
    match value.as_number() {
        Some(digits) => match length(digits) {
            Some(len) => Ok(len),
            None => Err(Flaw::of(format!(in alloc; "{key} is not a length of 0 to 32"))),
        },
        None => Err(Flaw::of(format!(in alloc; "{key} is not a number"))),
    }
}

// The bound at a key that may be there, or else the default.
pub(crate) fn bound_or(alloc: Global, row: &Value<'_>, key: &str, default: u8) -> Result<u8, Flaw>
    ensures found { IfOk result (IsBound (get key.now (value_view row.now)) default) }
    ensures none { IfErr result (λ _. (len : ℕ) → ¬ (IsBound (get key.now (value_view row.now)) default len)) }
{
    match row.get(key) {
        Some(value) => need_length_value(alloc, key, value),
        None => Ok(default),
    }
}

// Tests that `exact`, if it is there, doesn't stand beside bounds.
pub(crate) fn need_lawful_exact(alloc: Global, row: &Value<'_>) -> Result<(), Flaw>
    ensures found { IfOk result (λ _. IsExactLawful (value_view row.now)) }
    ensures none { IfErr result (λ _. ¬ (IsExactLawful (value_view row.now))) }
{
    match row.get("exact") {
        None => Ok(()),
        Some(value) => match value.as_bool() {
            Some(exact) => need_no_bound(alloc, row, exact),
            None => Err(Flaw::of(String::from_str(alloc, "exact is neither true nor false"))),
        },
    }
}

// Tests that a row which is exact has no bound.
fn need_no_bound(alloc: Global, row: &Value<'_>, exact: bool) -> Result<(), Flaw>
    ensures found { IfOk result (λ _. exact ≡ true → (has_bound (codes "greater-equal") (value_view row.now) ≡ false)
        × (has_bound (codes "less-equal") (value_view row.now) ≡ false)) }
    ensures none { IfErr result (λ _. (exact ≡ true)
        × (has_bound (codes "greater-equal") (value_view row.now) ≡ false
        → has_bound (codes "less-equal") (value_view row.now) ≡ true)) }
{
    if exact && (has_bound(row, "greater-equal") || has_bound(row, "less-equal")) {
        return Err(Flaw::of(String::from_str(alloc, "exact is true beside bounds")));
    }
    Ok(())
}

// Whether a row has a bound.
pub(crate) fn has_bound(row: &Value<'_>, key: &str) -> bool
    ensures { result ≡ has_bound key.now (value_view row.now) }
{
    row.get(key).is_some()
}
