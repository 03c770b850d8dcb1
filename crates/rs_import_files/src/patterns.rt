//! Patterns of prefixes as texts, as BIRD 2 writes them in prefix sets.

ghost use Rattle.std.specs.Prelude.{◌≡◌, ◌≢◌, ◌++◌, ℕ, List, IfNone, IfSome, codes};
ghost use Rattle.rs_import_files.specs.Texts.{AreBounds, AreWritten, IsPattern, StandsForNone};

use crate::cuts::{cut_at, without_last};
use crate::numbers::length;
use crate::prefixes::read_prefix;
use rs_types::{Pattern, Prefix};

/// The pattern that a text is. It is a prefix alone, or a prefix and `+`: all more specific ones match, too. Or it is
/// a prefix and `{n,m}`: the prefixes of n to m bits inside it match.
pub fn read_pattern(text: &str) -> Option<Pattern>
    ensures found { IfSome result (IsPattern text.now) }
    ensures none { IfNone result (StandsForNone IsPattern text.now) }
{
    match without_last(text, '+') {
        Some(front) => Some(with_more_specific(read_prefix(front)?)),
        None => bounded(text),
    }
}

// The pattern of a prefix and all more specific ones.
fn with_more_specific(prefix: Prefix) -> Pattern
    ensures { result ≡ record { prefix = prefix; least = prefix.len; most = 32 } }
{
    let least = prefix.len();
    Pattern {
        prefix,
        least,
        most: 32,
    }
}

// The pattern that a prefix alone, or one with bounds in braces, is.
fn bounded(text: &str) -> Option<Pattern>
    requires { (front : List ℕ) → text.now ≢ front ++ codes "+" }
    ensures found { IfSome result (IsPattern text.now) }
    ensures none { IfNone result (StandsForNone IsPattern text.now) }
{
    match cut_at(text, '{') {
        Some((front, tail)) => within(read_prefix(front)?, bounds(tail)?),
        None => Some(alone(read_prefix(text)?)),
    }
}

// The pattern of a prefix alone.
fn alone(prefix: Prefix) -> Pattern
    ensures { result ≡ record { prefix = prefix; least = prefix.len; most = prefix.len } }
{
    Pattern {
        prefix,
        least: prefix.len(),
        most: prefix.len(),
    }
}

// The bounds that a text gives: two lengths with a comma between them, and the closing brace.
fn bounds(text: &str) -> Option<(u8, u8)>
    ensures found { IfSome result (AreWritten text.now) }
    ensures none { IfNone result (StandsForNone AreWritten text.now) }
{
    let (front, tail) = cut_at(text, ',')?;
    let back = without_last(tail, '}')?;
    let least = length(front)?;
    let most = length(back)?;
    Some((least, most))
}

// The pattern of a prefix and bounds, if they lie between the prefix's length and 32.
pub(crate) fn within(prefix: Prefix, bounds: (u8, u8)) -> Option<Pattern>
    ensures found { IfSome result (λ pattern. (pattern ≡ record { prefix = prefix; least = bounds.0; most = bounds.1 })
        × AreBounds prefix.len bounds.0 bounds.1) }
    ensures none { IfNone result (¬ (AreBounds prefix.len bounds.0 bounds.1)) }
{
    let (least, most) = bounds;
    if least < prefix.len() || most < least || most > 32 {
        return None;
    }
    Some(Pattern {
        prefix,
        least,
        most,
    })
}
