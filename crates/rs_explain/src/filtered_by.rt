//! The conditions of import policy, one by one, with the values that fail them (RFC 4271, section 9.1.1). The
//! conditions are those of `rs_import`.

ghost use Rattle.std.specs.Prelude.{◌≡◌, ◌<◌, length};
ghost use Rattle.rs_explain.specs.Filtered.{failed_filter, filter_in, value_of};

use rs_choice::Exchange;
use rs_import::{Filter, Pattern, first_as, origin_as, refused_as};
use rs_update::{Attributes, Prefix};

/// A condition of import policy that a route fails.
#[derive(Clone, Copy, Debug, PartialEq, Eq)]
pub enum FilteredBy {
    /// The length of its prefix, which is given in bits, is outside the bounds.
    PrefixLength(u8),
    /// This pattern of refused prefixes matches its prefix: of several the most specific one.
    RefusedPrefix(Pattern),
    /// The length of its AS_PATH, which is given, is above the limit. An AS_SET counts 1.
    PathLengthLimit(u32),
    /// This AS number, which is refused, is in its AS_PATH: of several the first one.
    RefusedAs(u32),
    /// Its AS_PATH does not begin with an AS_SEQUENCE whose first number is the sender's AS. The number is given, if
    /// it begins with one.
    FirstAs(Option<u32>),
    /// No entry of the sender's prefix list matches its prefix.
    PrefixList,
    /// Its origin AS, which is given, is not in the sender's list, or it has none.
    OriginAs(Option<u32>),
    /// It is invalid by RPKI (RFC 6811, section 2) with this origin AS, if it has one.
    RpkiInvalid(Option<u32>),
}

impl FilteredBy {
    /// Which filter it is.
    pub fn filter(self) -> Filter
        ensures { result ≡ filter_in self }
    {
        match self {
            FilteredBy::PrefixLength(_) => Filter::PrefixLength,
            FilteredBy::RefusedPrefix(_) => Filter::RefusedPrefix,
            FilteredBy::PathLengthLimit(_) => Filter::PathLengthLimit,
            FilteredBy::RefusedAs(_) => Filter::RefusedAs,
            FilteredBy::FirstAs(_) => Filter::FirstAs,
            FilteredBy::PrefixList => Filter::PrefixList,
            FilteredBy::OriginAs(_) => Filter::OriginAs,
            FilteredBy::RpkiInvalid(_) => Filter::RpkiInvalid,
        }
    }
}

// The first condition of import policy that a route of the peer of number `peer` on a prefix fails; none of a route
// that is taken in. Eligibility is not asked. It takes no memory.
pub(crate) fn failed_filter(
    plan: &Exchange,
    peer: usize,
    prefix: Prefix,
    attributes: &Attributes,
) -> Option<FilteredBy>
    requires { peer < length plan.now.peers }
    ensures { result ≡ failed_filter plan.now peer prefix attributes.now }
{
    let filter = plan.filter(peer, prefix, attributes)?;
    value_of(plan, filter, prefix, attributes)
}

// A filter that doesn't take a route in, with the value that fails it.
fn value_of(
    plan: &Exchange,
    filter: Filter,
    prefix: Prefix,
    attributes: &Attributes,
) -> Option<FilteredBy>
    ensures { result ≡ value_of plan.now prefix attributes.now filter }
{
    let rules = plan.import().rules();
    let own_as = plan.local().asn;
    match filter {
        Filter::PrefixLength => Some(FilteredBy::PrefixLength(prefix.len())),
        Filter::RefusedPrefix => {
            let pattern = rules.refuse_prefixes.matching(prefix)?;
            Some(FilteredBy::RefusedPrefix(pattern))
        }
        Filter::PathLengthLimit => Some(FilteredBy::PathLengthLimit(attributes.path_length())),
        Filter::RefusedAs => {
            let asn = refused_as(attributes, &rules.refuse_as)?;
            Some(FilteredBy::RefusedAs(asn))
        }
        Filter::FirstAs => Some(FilteredBy::FirstAs(first_as(attributes))),
        Filter::PrefixList => Some(FilteredBy::PrefixList),
        Filter::OriginAs => Some(FilteredBy::OriginAs(origin_as(attributes, own_as))),
        Filter::RpkiInvalid => Some(FilteredBy::RpkiInvalid(origin_as(attributes, own_as))),
    }
}
