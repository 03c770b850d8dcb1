//! Numbers as texts: AS numbers, and lengths of prefixes.

ghost use Rattle.std.specs.Prelude.{◌≡◌, ◌≢◌, ◌↔◌, ◌<◌, ◌⊎◌, ℕ, IfNone, IfSome, IsFalse, IsTrue, length, slice_index};
ghost use Rattle.rs_import_files.specs.Texts.{IsAsNumber, IsLength, IsNumber, StandsForNone};

/// The AS number that a text is, with or without `AS` or `as` before it.
pub fn as_number(text: &str) -> Option<u32>
    ensures found { IfSome result (IsAsNumber text.now) }
    ensures none { IfNone result (StandsForNone IsAsNumber text.now) }
{
    number(without_title(text))
}

// A text without `AS` or `as` before it.
fn without_title(text: &str) -> &str
    ensures { (asn : ℕ) → IsAsNumber text.now asn ↔ IsNumber result.now asn }
{
    match text.strip_prefix("AS") {
        Some(digits) => digits,
        None => match text.strip_prefix("as") {
            Some(digits) => digits,
            None => text,
        },
    }
}

// The number of 32 bits that a text is.
pub(crate) fn number(text: &str) -> Option<u32>
    ensures found { IfSome result (IsNumber text.now) }
    ensures none { IfNone result (StandsForNone IsNumber text.now) }
{
    if is_padded(text.as_bytes()) {
        return None;
    }
    text.parse::<u32>().ok()
}

// Whether a text begins with a plus or with a needless zero.
fn is_padded(text: &[u8]) -> bool
    ensures no { IsFalse result → (slice_index text.now 0 ≢ 43) × (slice_index text.now 0 ≡ 48 → length text.now ≡ 1) }
    ensures yes { IsTrue result
        → (slice_index text.now 0 ≡ 43) ⊎ ((slice_index text.now 0 ≡ 48) × (1 < length text.now)) }
{
    match text.first() {
        Some(b'+') => true,
        Some(b'0') => text.len() > 1,
        _ => false,
    }
}

// The length of at most 32 bits that a text is.
pub(crate) fn length(text: &str) -> Option<u8>
    ensures found { IfSome result (IsLength text.now) }
    ensures none { IfNone result (StandsForNone IsLength text.now) }
{
    let len = number(text)?;
    if len > 32 {
        return None;
    }
    Some(len as u8)
}
