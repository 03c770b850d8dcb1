//! Import policy: which routes are filtered, by which condition, and what that leaves the clients.
//!
//! The policy of an exchange is what is asked of all peers, and behind each semicolon what is asked of a peer, in the
//! order of the peers. Both are fields with commas between them, each a name and words. Of all peers these are
//! `lengths` (the bounds of a prefix's length), `prefixes` (refused ones) and `path` (the greatest length of AS_PATH).
//! So are `ases` (refused ones), `first` (the first AS is enforced) and `vrps`. Of a peer they are `unasked`, or else `asked`,
//! and its lists `list` (prefixes) and `origins` (AS numbers). A pattern is `10.0.0.0/8^9-24`, with the least and the
//! most bits. A VRP is `10.0.0.0/8^24-64501`, with the maximum length and the AS. A range of AS numbers is
//! `64501-64503`.

use super::check_rows;
use super::exchanges::{attributes, exchange, number, peer_of, prefix};
use rs_choice::Exchange;
use rs_import::{
    AsRange, AsSet, ImportPolicy, ImportRules, Pattern, PeerImport, PrefixSet, Vrp, Vrps, first_as,
    origin_as, refused_as,
};
use rs_update::{Attributes, Prefix};
use std::alloc::Global;
use std::fmt::Write;
use std::sync::Arc;
use std::test::Fail;

// The words of a field; None if it isn't there.
fn field<'a>(text: &'a str, name: &str) -> Option<&'a str> {
    for part in text.split(',') {
        if let Some(words) = part.trim().strip_prefix(name) {
            return Some(words.trim());
        }
    }
    None
}

// Two numbers with a hyphen between them.
fn pair(text: &str) -> Option<(u32, u32)> {
    let (first, last) = text.split_once('-')?;
    Some((number(first)?, number(last)?))
}

// A length in bits.
fn len(number: u32) -> Option<u8> {
    u8::try_from(number).ok()
}

// A prefix, and the two numbers behind it.
fn numbered(text: &str) -> Option<(Prefix, u32, u32)> {
    let (on, numbers) = text.split_once('^')?;
    let (first, last) = pair(numbers)?;
    Some((prefix(on)?, first, last))
}

// A pattern.
fn pattern(text: &str) -> Option<Pattern> {
    let (prefix, least, most) = numbered(text)?;
    Some(Pattern {
        prefix,
        least: len(least)?,
        most: len(most)?,
    })
}

// A VRP.
fn vrp(text: &str) -> Option<Vrp> {
    let (prefix, max_len, asn) = numbered(text)?;
    Some(Vrp {
        prefix,
        max_len: len(max_len)?,
        asn,
    })
}

// A set of prefixes.
fn prefixes(alloc: Global, text: &str) -> Option<PrefixSet> {
    let mut patterns = Vec::new(alloc);
    for word in text.split_whitespace() {
        patterns.push(pattern(word)?).ok()?;
    }
    if patterns.len() > 100 {
        return None;
    }
    PrefixSet::new(patterns).ok()
}

// A set of AS numbers.
fn ases(alloc: Global, text: &str) -> Option<AsSet> {
    let mut ranges = Vec::new(alloc);
    for word in text.split_whitespace() {
        let (first, last) = pair(word)?;
        ranges.push(AsRange { first, last }).ok()?;
    }
    AsSet::new(ranges).ok()
}

// A table of VRPs.
fn vrps(alloc: Global, text: &str) -> Option<Vrps> {
    let mut vrps = Vec::new(alloc);
    for word in text.split_whitespace() {
        vrps.push(vrp(word)?).ok()?;
    }
    if vrps.len() > 100 {
        return None;
    }
    Vrps::new(vrps).ok()
}

// The bounds of the length of a prefix.
fn bounds(text: &str) -> Option<(u8, u8)> {
    let (least, most) = pair(field(text, "lengths").unwrap_or("0-32"))?;
    Some((len(least)?, len(most)?))
}

// What is asked of all peers.
fn rules(alloc: Global, text: &str) -> Option<ImportRules> {
    let (least_len, most_len) = bounds(text)?;
    let max_as_path = match field(text, "path") {
        Some(most) => Some(number(most)?),
        None => None,
    };
    let refuse_prefixes = prefixes(alloc, field(text, "prefixes").unwrap_or(""))?;
    let refuse_as = ases(alloc, field(text, "ases").unwrap_or(""))?;
    let vrps = match field(text, "vrps") {
        Some(words) => Some(vrps(alloc, words)?),
        None => None,
    };
    Some(ImportRules {
        least_len,
        most_len,
        refuse_prefixes,
        max_as_path,
        refuse_as,
        enforce_first_as: field(text, "first").is_some(),
        vrps,
    })
}

// What is asked of a peer.
fn peer(alloc: Global, text: &str) -> Option<PeerImport> {
    let prefix_list = match field(text, "list") {
        Some(words) => Some(Arc::new(alloc, prefixes(alloc, words)?).ok()?),
        None => None,
    };
    let as_list = match field(text, "origins") {
        Some(words) => Some(Arc::new(alloc, ases(alloc, words)?).ok()?),
        None => None,
    };
    let is_asked = field(text, "unasked").is_none();
    Some(PeerImport::new(is_asked, prefix_list, as_list))
}

/// The import policy that a text describes. An empty one asks nothing.
pub fn policy(alloc: Global, text: &str) -> Option<ImportPolicy> {
    let mut parts = text.split(';');
    let rules = rules(alloc, parts.next()?)?;
    let mut peers = Vec::new(alloc);
    for part in parts {
        peers.push(peer(alloc, part)?).ok()?;
    }
    Some(ImportPolicy::new(rules, peers))
}

// The filter of a route, or a hyphen; None if the exchange takes in a route with one, or none without.
fn filter(
    alloc: Global,
    exchange: &Exchange,
    name: &str,
    on: Prefix,
    route: &Attributes,
) -> Option<String> {
    let peer = peer_of(exchange, name)?;
    let is_taken_in = exchange.accepts(peer, on, route);
    match exchange.filter(peer, on, route) {
        None if is_taken_in => String::from_str(alloc, "-").ok(),
        Some(filter) if !is_taken_in => format!(in alloc; "{filter:?}").ok(),
        _ => None,
    }
}

// The validity of a route by the VRPs of an exchange.
fn validity(alloc: Global, exchange: &Exchange, on: Prefix, route: &Attributes) -> Option<String> {
    let origin = origin_as(route, exchange.local().asn);
    let validity = exchange
        .import()
        .rules()
        .vrps
        .as_ref()?
        .validity(on, origin);
    format!(in alloc; "{validity:?}").ok()
}

// The origin AS of a route, its first AS, and the first one that is refused.
fn numbers(alloc: Global, exchange: &Exchange, route: &Attributes) -> Option<String> {
    let origin = origin_as(route, exchange.local().asn);
    let first = first_as(route);
    let refused = refused_as(route, &exchange.import().rules().refuse_as);
    format!(in alloc; "{origin:?} {first:?} {refused:?}").ok()
}

// The bounds of the refused pattern that a prefix matches, and the ASes of the VRPs that cover it.
fn lists(alloc: Global, exchange: &Exchange, on: Prefix) -> Option<String> {
    let rules = exchange.import().rules();
    let pattern = rules.refuse_prefixes.matching(on)?;
    let (least, most) = (pattern.least, pattern.most);
    let mut asns = Vec::new(alloc);
    for vrp in rules.vrps.as_ref()?.covering(on) {
        asns.push(vrp.asn).ok()?;
    }
    format!(in alloc; "{least}-{most} {asns:?}").ok()
}

// What is asked of a route: of the name of its peer, a prefix, and words for its attributes.
fn asked_of_one(alloc: Global, exchange: &Exchange, asked: &str, text: &str) -> Option<String> {
    let (name, rest) = text.trim().split_once(' ')?;
    let (on, words) = rest.split_once(' ')?;
    let on = prefix(on)?;
    let route = attributes(alloc, words)?;
    match asked {
        "filter" => filter(alloc, exchange, name, on, &route),
        "validity" => validity(alloc, exchange, on, &route),
        "numbers" => numbers(alloc, exchange, &route),
        _ => lists(alloc, exchange, on),
    }
}

/// What is asked of each route of a text, behind the import policy of the exchange.
pub fn answer(alloc: Global, plan: &str, asked: &str, given: &str) -> Option<String> {
    let (policy, routes) = given.split_once('|')?;
    let plan = format!(in alloc; "{plan} import {policy}").ok()?;
    let exchange = exchange(alloc, &plan)?;
    let mut text = String::new(alloc);
    for route in routes.split(';') {
        let answer = asked_of_one(alloc, &exchange, asked, route)?;
        let mark = if text.is_empty() { "" } else { "; " };
        write!(text, "{mark}{answer}").ok()?;
    }
    Some(text)
}

// A policy, routes, and the filter of each; a hyphen if it is taken in.
const FILTERS: &str = "
exchange 64500 192.0.2.0/24; a,64501,192.0.2.11,192.0.2.11; b,64502,192.0.2.12,192.0.2.12

# The bounds of a prefix's length, and the lengths beside them.
filter: 9 to 24 bits | lengths 9-24; asked | \
    a 10.0.0.0/8 plain; a 10.0.0.0/9 plain; a 10.0.0.0/24 plain; a 10.0.0.0/25 plain | PrefixLength; -; -; PrefixLength
filter: 24 bits | lengths 24-24; asked | \
    a 10.0.0.0/23 plain; a 10.0.0.0/24 plain; a 10.0.0.0/25 plain | PrefixLength; -; PrefixLength
filter: any length | lengths 0-32; asked | a 0.0.0.0/0 plain; a 10.11.12.13/32 plain | -; -

# A pattern matches prefixes inside its own: itself, one longer, one shorter and one outside.
filter: the prefix alone | prefixes 10.0.0.0/8^8-8; asked | \
    a 10.0.0.0/8 plain; a 10.0.0.0/9 plain; a 10.0.0.0/7 plain; a 11.0.0.0/8 plain | RefusedPrefix; -; -; -
filter: longer ones alone | prefixes 10.0.0.0/8^9-16; asked | a 10.0.0.0/8 plain; a 10.128.0.0/9 plain; \
    a 10.255.0.0/16 plain; a 10.255.0.0/17 plain; a 11.0.0.0/9 plain | -; RefusedPrefix; RefusedPrefix; -; -
filter: up to an address | prefixes 10.0.0.0/8^8-32; asked | a 10.0.0.0/8 plain; a 10.255.255.255/32 plain; \
    a 11.0.0.0/32 plain; a 10.0.0.0/7 plain | RefusedPrefix; RefusedPrefix; -; -
filter: a least length below its own | prefixes 10.0.0.0/16^8-16; asked | \
    a 10.0.0.0/8 plain; a 10.0.0.0/15 plain; a 10.0.0.0/16 plain; a 10.0.0.0/17 plain | -; -; RefusedPrefix; -
filter: the default route | prefixes 0.0.0.0/0^0-0; asked | \
    a 0.0.0.0/0 plain; a 0.0.0.0/1 plain; a 10.0.0.0/8 plain | RefusedPrefix; -; -
filter: what is longer than 24 bits | prefixes 0.0.0.0/0^25-32; asked | a 10.0.0.0/24 plain; a 10.0.0.0/25 plain; \
    a 0.0.0.0/0 plain; a 255.255.255.255/32 plain | -; RefusedPrefix; -; RefusedPrefix
filter: by the shorter of two | prefixes 10.0.0.0/8^8-24 10.1.0.0/16^16-16; asked | \
    a 10.1.0.0/16 plain; a 10.1.0.0/24 plain; a 10.1.0.0/25 plain | RefusedPrefix; RefusedPrefix; -

# The length of AS_PATH, in which an AS_SET counts 1 (RFC 4271, section 9.1.2.2, a).
filter: at most 2 | path 2; asked | a 10.0.0.0/8 igp no-path hop-a; a 10.0.0.0/8 igp 64501-65010 hop-a; \
    a 10.0.0.0/8 igp 64501-65010-65011 hop-a | -; -; PathLengthLimit
filter: at most 2, with an AS_SET | path 2; asked | a 10.0.0.0/8 igp 64501-{65010} hop-a; \
    a 10.0.0.0/8 igp {65010,65011}-65013 hop-a; a 10.0.0.0/8 igp 64501-{65010,65011}-65012 hop-a | -; -; PathLengthLimit
filter: at most 3 | path 3; asked | a 10.0.0.0/8 igp {65010,65011,65012}-65013-65014 hop-a; \
    a 10.0.0.0/8 igp 64501-65010-65011-65012 hop-a | -; PathLengthLimit
filter: none | path 0; asked | a 10.0.0.0/8 igp no-path hop-a; a 10.0.0.0/8 plain | -; PathLengthLimit

# Refused ASes: the first and the last of a range, and those beside it; in a sequence or a set, at any place.
filter: a range | ases 65010-65011; asked | a 10.0.0.0/8 igp 64501-65009 hop-a; a 10.0.0.0/8 igp 64501-65010 hop-a; \
    a 10.0.0.0/8 igp 64501-65011 hop-a; a 10.0.0.0/8 igp 64501-65012 hop-a | -; RefusedAs; RefusedAs; -
filter: in a set | ases 65011-65011; asked | a 10.0.0.0/8 igp 64501-{65010} hop-a; \
    a 10.0.0.0/8 igp {65010,65011}-65013 hop-a; a 10.0.0.0/8 igp 64501-{65010,65011}-65012 hop-a | \
    -; RefusedAs; RefusedAs
filter: at any place | ases 65010-65010; asked | a 10.0.0.0/8 igp 65010-64501 hop-a; \
    a 10.0.0.0/8 igp 64501-65010-65011 hop-a; a 10.0.0.0/8 igp no-path hop-a | RefusedAs; RefusedAs; -
filter: behind a set | ases 65012-65012; asked | \
    a 10.0.0.0/8 igp 64501-{65010,65011}-65012 hop-a; a 10.0.0.0/8 igp {65010,65011}-65013 hop-a | RefusedAs; -
filter: between two ranges | ases 65009-65009 65011-65012; asked | a 10.0.0.0/8 igp 64501-65009 hop-a; \
    a 10.0.0.0/8 igp 64501-65010 hop-a; a 10.0.0.0/8 igp 64501-65012 hop-a | RefusedAs; -; RefusedAs

# AS_PATH begins with the sender's AS, in a sequence (RFC 4271, section 6.3).
filter: the sender's AS | first; asked; asked | a 10.0.0.0/8 plain; a 10.0.0.0/8 igp 64501-{65010} hop-a; \
    a 10.0.0.0/8 igp 64502 hop-a; b 10.0.0.0/8 igp 64502 hop-a; b 10.0.0.0/8 plain | -; -; FirstAs; -; FirstAs
filter: no path, a set first, and not the first | first; asked | a 10.0.0.0/8 igp no-path hop-a; \
    a 10.0.0.0/8 igp {65010,65011}-65013 hop-a; a 10.0.0.0/8 igp {64501}-65010 hop-a; \
    a 10.0.0.0/8 igp 65010-64501 hop-a | FirstAs; FirstAs; FirstAs; FirstAs
filter: not enforced | ; asked | a 10.0.0.0/8 igp no-path hop-a; a 10.0.0.0/8 igp {64501}-65010 hop-a; \
    a 10.0.0.0/8 igp 64502 hop-a | -; -; -

# The prefix list of a peer: an empty one has no prefix, and another peer's is no matter.
filter: an empty list, and none | ; asked, list; asked | \
    a 10.0.0.0/8 plain; a 0.0.0.0/0 plain; b 10.0.0.0/8 plain | PrefixList; PrefixList; -
filter: by the shorter of two entries | ; asked, list 10.0.0.0/8^8-24 10.1.0.0/16^16-16 | a 10.1.0.0/16 plain; \
    a 10.1.0.0/24 plain; a 10.1.0.0/25 plain; a 10.0.0.0/7 plain; a 11.0.0.0/8 plain | \
    -; -; PrefixList; PrefixList; PrefixList
filter: each its own | ; asked, list 10.0.0.0/8^8-8; asked, list 11.0.0.0/8^8-8 | a 10.0.0.0/8 plain; \
    a 11.0.0.0/8 plain; b 10.0.0.0/8 plain; b 11.0.0.0/8 plain | -; PrefixList; PrefixList; -

# The list of origin ASes of a peer. NONE, which an AS_SET behind all gives, is in no list; with an empty AS_PATH the
# origin is the server's AS (RFC 6811, section 2).
filter: a range | ; asked, origins 65010-65011 | a 10.0.0.0/8 igp 64501-65009 hop-a; \
    a 10.0.0.0/8 igp 64501-65010 hop-a; a 10.0.0.0/8 igp 64501-65011 hop-a; a 10.0.0.0/8 igp 64501-65012 hop-a | \
    OriginAs; -; -; OriginAs
filter: the last AS alone | ; asked, origins 65010-65011 | a 10.0.0.0/8 igp 65010-64501 hop-a; \
    a 10.0.0.0/8 igp 64501-65010-65011 hop-a; a 10.0.0.0/8 igp {65010,65011}-65013 hop-a | OriginAs; -; OriginAs
filter: NONE | ; asked, origins 0-4294967295 | a 10.0.0.0/8 igp 64501-{65010} hop-a; \
    a 10.0.0.0/8 igp 64501-{65010,65011}-65012 hop-a; a 10.0.0.0/8 igp no-path hop-a | OriginAs; -; -
filter: an empty path | ; asked, origins 64500-64500; asked, origins 64501-64502 | \
    a 10.0.0.0/8 igp no-path hop-a; b 10.0.0.0/8 igp no-path hop-a | -; OriginAs
filter: an empty list, and none | ; asked, origins; asked | a 10.0.0.0/8 plain; b 10.0.0.0/8 plain | OriginAs; -

# A route is filtered by RPKI if it is invalid: not if it is valid, nor if it is not found.
filter: by its origin | vrps 10.0.0.0/8^16-65010; asked | a 10.0.0.0/8 igp 64501-65010 hop-a; \
    a 10.0.0.0/8 igp 64501-65011 hop-a; a 11.0.0.0/8 igp 64501-65011 hop-a | -; RpkiInvalid; -
filter: by its length | vrps 10.0.0.0/8^16-65010; asked | \
    a 10.0.0.0/16 igp 64501-65010 hop-a; a 10.0.0.0/17 igp 64501-65010 hop-a | -; RpkiInvalid
filter: no VRP | vrps; asked | a 10.0.0.0/8 plain; a 10.0.0.0/8 igp 64501-{65010} hop-a | -; -
";

#[test]
fn each_filter_has_its_routes_and_not_those_beside_them(rt: HostRuntime) -> Result<(), Fail> {
    check_rows(&rt, rt.alloc(), FILTERS)
}

// VRPs, routes, and the validity of each (RFC 6811, section 2). Then what it rests on: the origin AS of a route, its
// first AS and its first refused one. Then the least and most bits of the most specific pattern that a prefix matches,
// with the ASes of the VRPs that cover it, the most specific first.
const VALIDITIES: &str = "
exchange 64500 192.0.2.0/24; a,64501,192.0.2.11,192.0.2.11; b,64502,192.0.2.12,192.0.2.12
validity: up to the maximum length | vrps 10.0.0.0/8^16-65010; asked | a 10.0.0.0/8 igp 64501-65010 hop-a; \
    a 10.255.0.0/16 igp 64501-65010 hop-a; a 10.255.0.0/17 igp 64501-65010 hop-a | Valid; Valid; Invalid
validity: another origin | vrps 10.0.0.0/8^16-65010; asked | \
    a 10.0.0.0/8 igp 64501-65011 hop-a; a 10.0.0.0/8 igp 65010-64501 hop-a | Invalid; Invalid
validity: not covered | vrps 10.0.0.0/8^16-65010; asked | a 11.0.0.0/8 igp 64501-65010 hop-a; \
    a 10.0.0.0/7 igp 64501-65010 hop-a; a 0.0.0.0/0 igp 64501-65010 hop-a | NotFound; NotFound; NotFound
validity: no VRP | vrps; asked | a 10.0.0.0/8 igp 64501-65010 hop-a | NotFound
validity: AS 0 | vrps 10.0.0.0/8^32-0; asked | a 10.0.0.0/8 igp 64501-65010 hop-a; \
    a 10.0.0.0/8 igp no-path hop-a; a 10.0.0.0/8 igp 64501-{65010} hop-a; a 11.0.0.0/8 plain | \
    Invalid; Invalid; Invalid; NotFound
validity: AS 0 beside another | vrps 10.0.0.0/8^32-0 10.1.0.0/16^24-65010; asked | \
    a 10.1.0.0/24 igp 64501-65010 hop-a; a 10.1.0.0/25 igp 64501-65010 hop-a; a 10.2.0.0/16 igp 64501-65010 hop-a | \
    Valid; Invalid; Invalid
validity: by the shorter of two | vrps 10.0.0.0/8^24-65010 10.1.0.0/16^24-65011; asked | \
    a 10.1.0.0/24 igp 64501-65010 hop-a; a 10.1.0.0/24 igp 64501-65011 hop-a; \
    a 10.1.0.0/24 igp 64501-65012 hop-a; a 10.2.0.0/24 igp 64501-65011 hop-a | Valid; Valid; Invalid; Invalid
validity: by the longer of two | vrps 10.0.0.0/8^8-65010 10.1.0.0/16^24-65010; asked | \
    a 10.1.0.0/24 igp 64501-65010 hop-a; a 10.2.0.0/24 igp 64501-65010 hop-a | Valid; Invalid
validity: two of one prefix | vrps 10.0.0.0/8^8-65010 10.0.0.0/8^16-65011; asked | \
    a 10.0.0.0/8 igp 64501-65010 hop-a; a 10.0.0.0/16 igp 64501-65010 hop-a; a 10.0.0.0/16 igp 64501-65011 hop-a | \
    Valid; Invalid; Valid
validity: NONE | vrps 10.0.0.0/8^16-65010; asked | a 10.0.0.0/8 igp 64501-{65010} hop-a; \
    a 11.0.0.0/8 igp 64501-{65010} hop-a; a 10.0.0.0/8 igp 64501-{65010,65011}-65012 hop-a | Invalid; NotFound; Invalid
validity: an empty path | vrps 10.0.0.0/8^16-64500 11.0.0.0/8^16-64501; asked | \
    a 10.0.0.0/8 igp no-path hop-a; a 11.0.0.0/8 igp no-path hop-a | Valid; Invalid

numbers: an empty path | ases 64500-64501; asked | a 10.0.0.0/8 igp no-path hop-a | Some(64500) None None
numbers: a sequence | ases 65011-65012; asked | \
    a 10.0.0.0/8 igp 64501-65010-65011-65012 hop-a | Some(65012) Some(64501) Some(65011)
numbers: a set last | ases 65011-65012; asked | a 10.0.0.0/8 igp 64501-{65010} hop-a | None Some(64501) None
numbers: a set first | ases 65011-65013; asked | \
    a 10.0.0.0/8 igp {65010,65011}-65013 hop-a | Some(65013) None Some(65011)
lists: the most specific first | prefixes 10.0.0.0/8^8-24 10.1.0.0/16^16-32, \
    vrps 0.0.0.0/0^0-65009 10.0.0.0/8^8-65010 10.1.0.0/16^16-65011 10.1.1.0/24^24-65012; asked | \
    a 10.1.0.0/24 plain; a 10.1.1.0/24 plain; a 10.2.0.0/16 plain | \
    16-32 [65011, 65010, 65009]; 16-32 [65012, 65011, 65010, 65009]; 8-24 [65010, 65009]
lists: the most specific one that matches | prefixes 10.0.0.0/8^8-24 10.1.0.0/16^16-16, vrps; asked | \
    a 10.1.0.0/24 plain | 8-24 []
";

#[test]
fn each_route_has_its_validity(rt: HostRuntime) -> Result<(), Fail> {
    check_rows(&rt, rt.alloc(), VALIDITIES)
}

// Routes that fail several conditions, the first of which is the reason, and peers of which nothing is asked.
const ORDER: &str = "
exchange 64500 192.0.2.0/24; a,64501,192.0.2.11,192.0.2.11; b,64502,192.0.2.12,192.0.2.12

# Each row asks one condition less, and the route fails all of them.
filter: eight | lengths 8-24, prefixes 10.0.0.0/8^8-32, path 1, ases 65010-65010, first, vrps 10.0.0.0/8^8-65011; \
    asked, list, origins | a 10.0.0.0/25 igp 65010-64501 hop-a | PrefixLength
filter: seven | prefixes 10.0.0.0/8^8-32, path 1, ases 65010-65010, first, vrps 10.0.0.0/8^8-65011; \
    asked, list, origins | a 10.0.0.0/25 igp 65010-64501 hop-a | RefusedPrefix
filter: six | path 1, ases 65010-65010, first, vrps 10.0.0.0/8^8-65011; \
    asked, list, origins | a 10.0.0.0/25 igp 65010-64501 hop-a | PathLengthLimit
filter: five | ases 65010-65010, first, vrps 10.0.0.0/8^8-65011; \
    asked, list, origins | a 10.0.0.0/25 igp 65010-64501 hop-a | RefusedAs
filter: four | first, vrps 10.0.0.0/8^8-65011; asked, list, origins | a 10.0.0.0/25 igp 65010-64501 hop-a | FirstAs
filter: three | vrps 10.0.0.0/8^8-65011; asked, list, origins | a 10.0.0.0/25 igp 65010-64501 hop-a | PrefixList
filter: two | vrps 10.0.0.0/8^8-65011; asked, origins | a 10.0.0.0/25 igp 65010-64501 hop-a | OriginAs
filter: one | vrps 10.0.0.0/8^8-65011; asked | a 10.0.0.0/25 igp 65010-64501 hop-a | RpkiInvalid
filter: none | ; asked | a 10.0.0.0/25 igp 65010-64501 hop-a | -

# Nothing is asked of a peer that is not asked, by its lists neither, and of one without an entry.
filter: not asked | lengths 8-24, prefixes 10.0.0.0/8^8-32, path 1, ases 65010-65010, first, vrps 10.0.0.0/8^8-65011; \
    unasked, list, origins; asked | a 10.0.0.0/25 igp 65010-64501 hop-a; b 10.0.0.0/25 igp 65010-64501 hop-a | \
    -; PrefixLength
filter: no entry | lengths 8-24, prefixes 10.0.0.0/8^8-32, path 1, ases 65010-65010, first, vrps 10.0.0.0/8^8-65011; \
    asked | a 10.0.0.0/25 igp 65010-64501 hop-a; b 10.0.0.0/25 igp 65010-64501 hop-a | PrefixLength; -
filter: no entries | lengths 8-24, first | a 10.0.0.0/25 igp 65010-64501 hop-a; b 10.0.0.0/25 igp no-path hop-a | -; -
";

#[test]
fn the_first_condition_that_fails_is_the_reason(rt: HostRuntime) -> Result<(), Fail> {
    check_rows(&rt, rt.alloc(), ORDER)
}

// Lists whose entries are out of order, repeated or overlapping: the answers are those of the same in order and once.
const UNSORTED: &str = "
exchange 64500 192.0.2.0/24; a,64501,192.0.2.11,192.0.2.11; b,64502,192.0.2.12,192.0.2.12
filter: refused prefixes | prefixes 203.0.113.0/24^24-24 10.1.0.0/16^16-16 10.0.0.0/8^8-8 10.1.0.0/16^16-16 \
    10.0.0.0/8^20-24 10.0.0.0/8^8-8; asked | a 10.0.0.0/8 plain; a 10.1.0.0/16 plain; a 10.2.0.0/16 plain; \
    a 10.1.0.0/24 plain; a 10.1.0.0/25 plain; a 203.0.113.0/24 plain; a 203.0.112.0/24 plain | \
    RefusedPrefix; RefusedPrefix; -; RefusedPrefix; -; RefusedPrefix; -
filter: a prefix list | ; asked, list 203.0.113.0/24^24-24 10.1.0.0/16^16-16 10.0.0.0/8^8-8 10.1.0.0/16^16-16 \
    10.0.0.0/8^20-24 10.0.0.0/8^8-8 | a 10.0.0.0/8 plain; a 10.1.0.0/16 plain; a 10.2.0.0/16 plain; \
    a 10.1.0.0/24 plain; a 10.1.0.0/25 plain; a 203.0.113.0/24 plain; a 203.0.112.0/24 plain | \
    -; -; PrefixList; -; PrefixList; -; PrefixList
filter: refused ASes | ases 65012-65012 65009-65010 65010-65010 65012-65012 65009-65010; asked | \
    a 10.0.0.0/8 plain; a 10.0.0.0/8 igp 64501-65009 hop-a; a 10.0.0.0/8 igp 64501-65010 hop-a; \
    a 10.0.0.0/8 igp 64501-65011 hop-a; a 10.0.0.0/8 igp 64501-65012 hop-a | -; RefusedAs; RefusedAs; -; RefusedAs
filter: a list of origins | ; asked, origins 65012-65012 65009-65010 65010-65010 65012-65012 65009-65010 | \
    a 10.0.0.0/8 plain; a 10.0.0.0/8 igp 64501-65009 hop-a; a 10.0.0.0/8 igp 64501-65010 hop-a; \
    a 10.0.0.0/8 igp 64501-65011 hop-a; a 10.0.0.0/8 igp 64501-65012 hop-a | OriginAs; -; -; OriginAs; -
validity: VRPs | vrps 203.0.113.0/24^24-65012 10.1.0.0/16^16-65011 10.0.0.0/8^24-65010 10.1.0.0/16^16-65011 \
    10.0.0.0/8^24-65010 10.1.0.0/16^24-65009; asked | a 10.1.0.0/24 igp 64501-65010 hop-a; \
    a 10.1.0.0/24 igp 64501-65011 hop-a; a 10.1.0.0/24 igp 64501-65009 hop-a; a 10.1.0.0/16 igp 64501-65011 hop-a; \
    a 10.0.0.0/8 igp 64501-65009 hop-a; a 203.0.113.0/24 igp 64501-65012 hop-a; a 203.0.112.0/24 plain | \
    Valid; Invalid; Valid; Valid; Invalid; Valid; NotFound
";

#[test]
fn lists_answer_the_same_in_any_order(rt: HostRuntime) -> Result<(), Fail> {
    check_rows(&rt, rt.alloc(), UNSORTED)
}

// What filtered routes leave the clients: `bests` has a letter for each, as in DECISIONS.
const LEFT: &str = "
exchange 64500 192.0.2.0/24; a,64501,192.0.2.11,192.0.2.11; b,64502,192.0.2.12,192.0.2.12; \
    c,64503,192.0.2.13,192.0.2.13 import prefixes 20.0.0.0/8^8-8, ases 65010-65010; asked; asked; unasked

# A filtered route takes the place of the peer's earlier one: nobody has a route then, or another peer's.
after a 100 203.0.113.0/24 plain; a 101 203.0.113.0/24 igp 64501-65010 hop-a
bests | ---
why b a | Filtered
why a a | Own
table b |
after a 100 203.0.113.0/24 plain; b 100 203.0.113.0/24 igp 64502 hop-b
bests | baa
after a 100 203.0.113.0/24 plain; b 100 203.0.113.0/24 igp 64502 hop-b; a 101 203.0.113.0/24 igp 64501-65010 hop-a
bests | b-b
why c a | Filtered
why c b | Best
after a 100 203.0.113.0/24 plain; b 100 203.0.113.0/24 igp 64502 hop-b; a 101 203.0.113.0/24 igp 64501-65010 hop-a; \
    b 102 withdraw 203.0.113.0/24
bests | ---

# One that is taken in takes the place of a filtered one, and a withdrawal or a loss removes a filtered one.
after a 100 203.0.113.0/24 igp 64501-65010 hop-a; a 101 203.0.113.0/24 plain
bests | -aa
best b 203.0.113.0/24 | a 101 192.0.2.11
after a 100 203.0.113.0/24 igp 64501-65010 hop-a; a 101 withdraw 203.0.113.0/24
why b a | Absent
after a 100 203.0.113.0/24 igp 64501-65010 hop-a; a 101 lost
why b a | Absent

# The same attributes on two prefixes, of which one is refused; and c is not asked.
after a 100 20.0.0.0/8 plain; a 101 20.0.0.0/16 plain; c 102 20.0.0.0/8 igp 64503-65010 hop-c
table a | 20.0.0.0/8 c 102
table b | 20.0.0.0/8 c 102, 20.0.0.0/16 a 101
table c | 20.0.0.0/16 a 101

# A route that is not eligible is said to be that first, and one that is filtered before export policy is asked.
after a 100 203.0.113.0/24 igp 64501-65010 hop-server; b 100 203.0.113.0/24 igp 64502-65010 hop-b 0:64501
bests | ---
why b a | Ineligible
why a b | Filtered
told: both | a igp 64501-65010 hop-server | b a Ineligible(ServerAsNextHop(3221225985))
told: filtered, and refused to b | a igp 64501-65010 hop-a 0:64502 | \
    b a Filtered(RefusedAs(65010)); c a Filtered(RefusedAs(65010))
told: it is no rival | a igp 64501-65010 hop-a; b igp 64502 hop-b; c igp 64503-65010 hop-c | \
    c a Filtered(RefusedAs(65010)); c b Best([]); a b Best([2]); a c Lost(PathLength, 2, 2, 1, 1)
held: filtered | a igp 64501-65010 hop-a | 0 100 Filtered false false 2 64501 0
held: both | a igp 64501-65010 hop-server | 0 100 Filtered false false 2 64501 0
held: not asked | c igp 64503-65010 hop-c | 2 100 PlainOpenIgp true true 2 64503 0

# Changes in parts, and gathered ones.
merged: in parts | a 100 20.0.0.0/8 plain; b 101 20.0.0.0/8 igp 64502 hop-b; a 102 20.0.0.0/16 plain; \
    a 103 20.0.0.0/16 igp 64501-65010 hop-a; b 104 20.0.0.0/16 igp 64502 hop-b; \
    c 105 20.0.0.0/24 igp 64503-65010 hop-c | \
    a[20.0.0.0/16 b 104, 20.0.0.0/24 c 105] b[20.0.0.0/24 c 105] c[20.0.0.0/16 b 104]
gathered: | a 100 20.0.0.0/8 plain; b 101 20.0.0.0/8 igp 64502 hop-b; a 102 20.0.0.0/16 plain; \
    a 103 20.0.0.0/16 igp 64501-65010 hop-a; b 104 20.0.0.0/16 igp 64502 hop-b; \
    c 105 20.0.0.0/24 igp 64503-65010 hop-c; \
    a 106 20.0.0.0/24 igp 64501-65010 hop-a; a 107 20.0.0.0/24 plain | \
    a[20.0.0.0/16 b 104, 20.0.0.0/24 c 105] b[20.0.0.0/24 a 107] c[20.0.0.0/16 b 104, 20.0.0.0/24 a 107]
";

#[test]
fn a_filtered_route_leaves_no_client_a_route(rt: HostRuntime) -> Result<(), Fail> {
    check_rows(&rt, rt.alloc(), LEFT)
}
