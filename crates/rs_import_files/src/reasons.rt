//! What must be an entry, and the reasons why a text is none, in words.

ghost use Rattle.std.specs.Prelude.{◌≡◌, ◌≤◌, IfErr, IfOk};
ghost use Rattle.rs_import_files.specs.Texts.{IsAsEntry, IsAsNumber, IsLength, IsPattern, IsPrefixText, StandsForNone};

use crate::fault::Flaw;
use crate::numbers::{as_number, length};
use crate::patterns::read_pattern;
use crate::prefixes::{has_host_bits, read_prefix};
use crate::ranges::read_as_entry;
use rs_types::{AsRange, Pattern, Prefix, Vrp};
use std::alloc::{AllocError, Global};

// The longest text that a reason repeats.
const MOST_SHOWN: usize = 64;

// The pattern that a text must be.
pub(crate) fn need_pattern(alloc: Global, text: &str) -> Result<Pattern, Flaw>
    ensures found { IfOk result (IsPattern text.now) }
    ensures none { IfErr result (λ _. StandsForNone IsPattern text.now) }
{
    match read_pattern(text) {
        Some(pattern) => Ok(pattern),
        None => Err(Flaw::of(why_no_pattern(alloc, text))),
    }
}

// The range of AS numbers that a text must be.
pub(crate) fn need_range(alloc: Global, text: &str) -> Result<AsRange, Flaw>
    ensures found { IfOk result (IsAsEntry text.now) }
    ensures none { IfErr result (λ _. StandsForNone IsAsEntry text.now) }
{
    match read_as_entry(text) {
        Some(range) => Ok(range),
        None => Err(Flaw::of(format!(in alloc;
            "{} is neither an AS number nor an ascending range",
            shown(text)
        ))),
    }
}

// The AS number that a text must be.
pub(crate) fn need_number(alloc: Global, text: &str) -> Result<u32, Flaw>
    ensures found { IfOk result (IsAsNumber text.now) }
    ensures none { IfErr result (λ _. StandsForNone IsAsNumber text.now) }
{
    match as_number(text) {
        Some(asn) => Ok(asn),
        None => Err(Flaw::of(format!(in alloc; "{} is not an AS number", shown(text)))),
    }
}

// The prefix that a text must be.
pub(crate) fn need_prefix(alloc: Global, text: &str) -> Result<Prefix, Flaw>
    ensures found { IfOk result (IsPrefixText text.now) }
    ensures none { IfErr result (λ _. StandsForNone IsPrefixText text.now) }
{
    match read_prefix(text) {
        Some(prefix) => Ok(prefix),
        None => Err(Flaw::of(why_no_prefix(alloc, text))),
    }
}

// The length of at most 32 bits that a text must be.
pub(crate) fn need_length(alloc: Global, text: &str) -> Result<u8, Flaw>
    ensures found { IfOk result (IsLength text.now) }
    ensures none { IfErr result (λ _. StandsForNone IsLength text.now) }
{
    match length(text) {
        Some(len) => Ok(len),
        None => Err(Flaw::of(format!(in alloc; "{} is not a length of 0 to 32", shown(text)))),
    }
}

// The VRP of these three, if the maximum length isn't below the prefix's own.
pub(crate) fn need_vrp(alloc: Global, asn: u32, prefix: Prefix, max_len: u8) -> Result<Vrp, Flaw>
    ensures found { IfOk result (λ vrp. (vrp ≡ record { prefix = prefix; max_len = max_len; asn = asn })
        × (prefix.len ≤ max_len)) }
    ensures none { IfErr result (λ _. ¬ (prefix.len ≤ max_len)) }
{
    let len = prefix.len();
    if max_len < len {
        return Err(Flaw::of(format!(in alloc;
            "the maximum length {max_len} is below the prefix's length {len}"
        )));
    }
    Ok(Vrp {
        prefix,
        max_len,
        asn,
    })
}

// Why a text is no pattern.
fn why_no_pattern(alloc: Global, text: &str) -> Result<String, AllocError> {
    let prefix = prefix_part(text);
    if has_host_bits(prefix) {
        return format!(in alloc; "{prefix} has host bits");
    }
    format!(in alloc; "{} is not a pattern of prefixes", shown(text))
}

// Why a text is no prefix.
fn why_no_prefix(alloc: Global, text: &str) -> Result<String, AllocError> {
    if has_host_bits(text) {
        return format!(in alloc; "{text} has host bits");
    }
    format!(in alloc; "{} is not a prefix", shown(text))
}

// What stands before the plus or the brace of a pattern.
fn prefix_part(text: &str) -> &str {
    match text.split_once('{') {
        Some((prefix, _bounds)) => prefix,
        None => text.trim_end_matches('+'),
    }
}

// A text, if it is short and of plain characters.
pub(crate) fn shown(text: &str) -> &str {
    if text.is_empty() {
        "an empty text"
    } else if text.len() <= MOST_SHOWN && text.bytes().all(|octet| octet.is_ascii_graphic()) {
        text
    } else {
        "the text"
    }
}
