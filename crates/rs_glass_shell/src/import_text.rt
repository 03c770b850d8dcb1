//! Why import policy doesn't take a route in, and the validity of a route by RPKI: as texts.

ghost use Rattle.std.specs.Prelude.{◌≡◌};
ghost use Rattle.std.specs.Option.{option_map};
ghost use Rattle.rs_import.specs.Rpki.{origin_of, validity_of};

use crate::names::{PrefixText, asn_at, name_at};
use rs_choice::Exchange;
use rs_explain::FilteredBy;
use rs_import::{ImportRules, Pattern, Validity, Vrp, Vrps, origin_as};
use rs_update::{Attributes, Prefix};
use std::fmt;

/// A pattern of prefixes, in the shortest of BIRD's forms.
#[derive(Clone, Copy, Debug, PartialEq, Eq)]
pub struct PatternText(pub Pattern);

impl fmt::Display for PatternText {
    fn fmt<W: fmt::Write>(&self, f: &mut fmt::Formatter<W>) -> fmt::Result {
        let Pattern {
            prefix,
            least,
            most,
        } = self.0;
        let (len, prefix) = (prefix.len(), PrefixText(prefix));
        if least != len {
            return write!(f, "{prefix}{{{least},{most}}}");
        }
        if most == len {
            write!(f, "{prefix}")
        } else if most == 32 {
            write!(f, "{prefix}+")
        } else {
            write!(f, "{prefix}{{{least},{most}}}")
        }
    }
}

/// The validity of a route by RPKI (RFC 6811, section 2); none if the exchange has no VRPs. Whether its sender is
/// asked does not count. It takes no memory.
pub fn rpki_validity(plan: &Exchange, prefix: Prefix, attributes: &Attributes) -> Option<Validity>
    ensures { result ≡ option_map (λ vrps.
        validity_of vrps prefix (origin_of plan.now.local.asn attributes.now.path)) plan.now.import.rules.vrps }
{
    match &plan.import().rules().vrps {
        Some(vrps) => Some(vrps.validity(prefix, origin_as(attributes, plan.local().asn))),
        None => None,
    }
}

/// The key of a validity.
pub fn validity_key(validity: Validity) -> &'static str {
    match validity {
        Validity::Valid => "valid",
        Validity::Invalid => "invalid",
        Validity::NotFound => "not_found",
    }
}

/// A validity in words.
pub fn validity_name(validity: Validity) -> &'static str {
    match validity {
        Validity::NotFound => "not found",
        _ => validity_key(validity),
    }
}

// Writes the condition of import policy that a route of a peer on a prefix fails.
pub(crate) fn write_filtered<W: fmt::Write>(
    f: &mut fmt::Formatter<W>,
    plan: &Exchange,
    peer: usize,
    prefix: Prefix,
    failed: FilteredBy,
) -> fmt::Result {
    let (rules, name) = (plan.import().rules(), name_at(plan, peer));
    match failed {
        FilteredBy::PrefixLength(len) => write_prefix_length(f, rules, len),
        FilteredBy::RefusedPrefix(pattern) => {
            let pattern = PatternText(pattern);
            write!(f, "prefix matches {pattern}, which is refused")
        }
        FilteredBy::PathLengthLimit(length) => write_path_length(f, rules, length),
        FilteredBy::RefusedAs(asn) => write!(f, "AS_PATH has AS {asn}, which is refused"),
        FilteredBy::FirstAs(first) => write_first_as(f, first, asn_at(plan, peer)),
        FilteredBy::PrefixList => write!(f, "not in the prefix list of {name}"),
        FilteredBy::OriginAs(Some(asn)) => {
            write!(f, "origin AS {asn} is not in the AS list of {name}")
        }
        FilteredBy::OriginAs(None) => f.write_str(NO_ORIGIN),
        FilteredBy::RpkiInvalid(origin) => write_invalid(f, rules, prefix, origin),
    }
}

// What a text says of a route without an origin AS.
const NO_ORIGIN: &str = "no origin AS";

// Writes that a prefix is so long, and the bound.
fn write_prefix_length<W: fmt::Write>(
    f: &mut fmt::Formatter<W>,
    rules: &ImportRules,
    len: u8,
) -> fmt::Result {
    let (least, most) = (rules.least_len, rules.most_len);
    if len < least {
        write!(f, "prefix length {len}, at least {least} is taken in")
    } else {
        write!(f, "prefix length {len}, at most {most} is taken in")
    }
}

// Writes that an AS_PATH is so long, and the limit.
fn write_path_length<W: fmt::Write>(
    f: &mut fmt::Formatter<W>,
    rules: &ImportRules,
    length: u32,
) -> fmt::Result {
    write!(f, "AS_PATH has length {length}")?;
    match rules.max_as_path {
        Some(most) => write!(f, ", at most {most} is taken in"),
        None => Ok(()),
    }
}

// Writes which AS number is first in an AS_PATH, in place of the sender's.
fn write_first_as<W: fmt::Write>(
    f: &mut fmt::Formatter<W>,
    first: Option<u32>,
    sender: u32,
) -> fmt::Result {
    match first {
        Some(first) => write!(f, "first AS is {first}, not {sender}"),
        None => f.write_str("AS_PATH has no first AS"),
    }
}

// Writes that a route is invalid by RPKI: its origin AS, and which ASes the VRPs allow.
fn write_invalid<W: fmt::Write>(
    f: &mut fmt::Formatter<W>,
    rules: &ImportRules,
    prefix: Prefix,
    origin: Option<u32>,
) -> fmt::Result {
    match origin {
        Some(asn) => write!(f, "RPKI invalid: origin AS {asn}; VRPs allow ")?,
        None => f.write_str("RPKI invalid: no origin; VRPs allow ")?,
    }
    match &rules.vrps {
        Some(vrps) => write_allowed(f, vrps, prefix),
        None => Ok(()),
    }
}

// Whether a VRP that covers a prefix, with so many before it, stands among these too. Two trust anchors may give it.
pub(crate) fn is_repeated(vrps: &Vrps, prefix: Prefix, place: usize, vrp: &Vrp) -> bool {
    vrps.covering(prefix)
        .take(place)
        .any(|earlier| earlier == *vrp)
}

// How many VRPs a text names.
const NAMED: usize = 4;

// Writes which ASes the VRPs that cover a prefix allow: the first four, and how many more VRPs there are, each counted
// once. AS 0 allows none.
fn write_allowed<W: fmt::Write>(
    f: &mut fmt::Formatter<W>,
    vrps: &Vrps,
    prefix: Prefix,
) -> fmt::Result {
    let mut place: usize = 0;
    let mut count: usize = 0;
    for vrp in vrps.covering(prefix) {
        if vrp.asn != 0 && !is_repeated(vrps, prefix, place, &vrp) {
            if count < NAMED {
                write_vrp(f, count, vrp)?;
            }
            count = count.saturating_add(1);
        }
        place = place.saturating_add(1);
    }
    if count == 0 {
        return f.write_str("no AS");
    }
    if count > NAMED {
        let more = count - NAMED;
        return write!(f, " and {more} more");
    }
    Ok(())
}

// Writes which AS a VRP allows up to which length, behind so many others.
fn write_vrp<W: fmt::Write>(f: &mut fmt::Formatter<W>, count: usize, vrp: Vrp) -> fmt::Result {
    let (asn, max_len) = (vrp.asn, vrp.max_len);
    f.write_str(if count == 0 { "" } else { ", " })?;
    write!(f, "AS {asn} up to /{max_len}")
}
