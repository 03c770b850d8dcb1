//! The entries of a list in a configuration: patterns of prefixes, or ranges of AS numbers.

ghost use Rattle.std.specs.Prelude.{◌≡◌, ◌≤◌, ◌^◌, ◌-◌, IfOk, IfSome, OnOk, length};
ghost use Rattle.toml.specs.Data.{Data};
ghost use Rattle.toml.specs.View.{items_view, view};
ghost use Rattle.rs_setup.specs.Import.{IsPatternText, IsRange};
ghost use Rattle.rs_setup.specs.Values.{AreAll, AreListed};

use crate::values::whole_number;
use rs_import::{AsRange, Pattern};
use rs_import_files::{read_as_range, read_pattern};
use std::alloc::{AllocError, Global};
use toml::Value;

// The most entries that a set has room for.
const MOST_ENTRIES: usize = 4_294_967_295;

/// An entry of a list.
pub trait Entry: Sized {
    // What a value must be to stand for an entry.
    ghost is: { Data → Self → Type 0 };

    /// The entry that a value stands for.
    fn of(value: &Value) -> Option<Self>
        ensures { IfSome result (is (view value.now)) };
}

impl Entry for Pattern {
    ghost is = { IsPatternText };

    fn of(value: &Value) -> Option<Pattern> {
        match value.as_str() {
            Some(text) => read_pattern(text),
            None => None,
        }
    }
}

impl Entry for AsRange {
    ghost is = { IsRange };

    fn of(value: &Value) -> Option<AsRange> {
        match value.as_str() {
            Some(text) => read_as_range(text),
            None => single(value),
        }
    }
}

// The range of one AS number, which a value is.
fn single(value: &Value) -> Option<AsRange>
    ensures { IfSome result (IsRange (view value.now)) }
{
    let asn = whole_number(value)?;
    Some(AsRange {
        first: asn,
        last: asn,
    })
}

/// The entries of the list that a value is. There are none if it is no list, or if a value in it stands for no entry.
/// There are none either if it has more entries than a set has room for.
pub fn entries<E: Entry + Drop>(alloc: Global, value: &Value) -> Result<Option<Vec<E>>, AllocError>
    ensures found { IfOk result (λ found. IfSome found (λ entries. AreListed E.is (view value.now) entries.items)) }
    ensures room { IfOk result (λ found. IfSome found (λ entries. length entries.items ≤ 2 ^ 32 - 1)) }
{
    match value.as_array() {
        Some(values) if values.len() <= MOST_ENTRIES => entries_of(alloc, values),
        _ => Ok(None),
    }
}

// The entries that values stand for; none if one of them stands for none.
fn entries_of<E: Entry + Drop>(
    alloc: Global,
    values: &[Value],
) -> Result<Option<Vec<E>>, AllocError>
    ensures found { IfOk result (λ found. IfSome found (λ entries. AreAll E.is (items_view values.now) entries.items)) }
    ensures room { IfOk result (λ found. IfSome found (λ entries. length entries.items ≡ length values.now)) }
{
    let mut entries = Vec::with_capacity(alloc, values.len())?;
    for value in values {
        let Some(entry) = E::of(value) else {
            return Ok(None);
        };
        entries.push(entry)?;
    }
    Ok(Some(entries))
}
