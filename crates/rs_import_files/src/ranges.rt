//! Ranges of AS numbers as texts.

ghost use Rattle.std.specs.Prelude.{◌≡◌, ◌≤◌, IfNone, IfSome};
ghost use Rattle.rs_import_files.specs.Texts.{IsAsEntry, IsAsRange, IsSpan, StandsForNone};

use crate::cuts::cut_at;
use crate::numbers::{as_number, number};
use rs_types::AsRange;

/// The range that a text is: one AS number, or two in ascending order with a dash between them.
pub fn read_as_range(text: &str) -> Option<AsRange>
    ensures found { IfSome result (IsAsRange text.now) }
    ensures none { IfNone result (StandsForNone IsAsRange text.now) }
{
    match number(text) {
        Some(asn) => Some(AsRange {
            first: asn,
            last: asn,
        }),
        None => span(text),
    }
}

/// The range that a line of a list is: as `read_as_range`, and `AS` may stand before a single number.
pub fn read_as_entry(text: &str) -> Option<AsRange>
    ensures found { IfSome result (IsAsEntry text.now) }
    ensures none { IfNone result (StandsForNone IsAsEntry text.now) }
{
    match as_number(text) {
        Some(asn) => Some(AsRange {
            first: asn,
            last: asn,
        }),
        None => span(text),
    }
}

// The range that two numbers in ascending order are.
fn span(text: &str) -> Option<AsRange>
    ensures found { IfSome result (IsSpan text.now) }
    ensures none { IfNone result (StandsForNone IsSpan text.now) }
{
    let (front, back) = cut_at(text, '-')?;
    let first = number(front)?;
    let last = number(back)?;
    ascending(first, last)
}

// The range from the first number to the last, if it isn't below the first.
fn ascending(first: u32, last: u32) -> Option<AsRange>
    ensures found { IfSome result (λ range. (range.first ≡ first) × (range.last ≡ last) × (first ≤ last)) }
    ensures none { IfNone result (¬ (first ≤ last)) }
{
    if last < first {
        return None;
    }
    Some(AsRange { first, last })
}
