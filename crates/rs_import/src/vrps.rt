//! Tables of VRPs, and the validity of a route by them (RFC 6811, section 2).

ghost use Rattle.std.specs.Prelude.{◌≡◌, true, ◌≤◌, ◌<◌, ◌^◌, ◌-◌, IfOk, find, length, map, reverse, slice_index_or};
ghost use Rattle.std.specs.List.{HoldsAt, list_any};
ghost use Rattle.std.specs.List.Sorted.{IsNonDecreasingBy, IsPermutation};
ghost use Rattle.rs_import.specs.Nesting.{rank_of};
ghost use Rattle.rs_import.specs.Rpki.{has_origin, is_covering, is_matching, validity_of};
ghost use Rattle.rs_import.specs.VrpsView.{IsLastCovering, pattern_of_vrp};

use crate::nesting::{Nesting, rank_of};
use crate::validity::Validity;
use rs_types::{Pattern, Prefix, Vrp, covers};
use std::alloc::{AllocError, Global};
use std::marker::Model;

/// VRPs, of which those that cover a prefix are found fast. It takes 17 octets for each VRP.
#[derive(Debug, Drop)]
pub struct Vrps {
    nesting: Nesting,
    asns: Vec<u32>,
}

impl Model for Vrps {
    ghost use Rattle.std.specs.Prelude.{◌≡◌, List, length};
    ghost use Rattle.rs_types.specs.declared.vrp.Vrp.{Vrp};
    ghost use Rattle.rs_import.specs.VrpsView.{vrps_of};

    ghost Value = { List Vrp };

    ghost view = { λ table. vrps_of table.nesting table.asns.items };

    ghost invariant = { λ table. length table.nesting ≡ length table.asns.items };
}

impl Vrps {
    /// The table of some VRPs, which may stand in any order and more than once. It has them in the order of their
    /// prefixes.
    pub fn new(vrps: Vec<Vrp>) -> Result<Vrps, AllocError>
        requires { length vrps.items ≤ 2 ^ 32 - 1 }
        ensures members { IfOk result (λ table. IsPermutation vrps.items table) }
        ensures order { IfOk result (λ table. IsNonDecreasingBy (λ vrp. rank_of vrp.prefix) table) }
    {
        let alloc = *vrps.allocator();
        let mut sorted = vrps;
        sorted.sort_by_key(|vrp| rank_of(vrp.prefix))?;
        table_of(alloc, &sorted)
    }

    /// The validity of a route with this prefix and this origin AS, None standing for NONE. It takes no memory.
    pub fn validity(&self, prefix: Prefix, origin: Option<u32>) -> Validity
        ensures { result ≡ validity_of self.now prefix origin }
    {
        let first = self.first(prefix);
        if first == 0 {
            Validity::NotFound
        } else if self.some_matches(prefix, origin, first) {
            Validity::Valid
        } else {
            Validity::Invalid
        }
    }

    // Whether some VRP matches a route, by the number of VRPs up to the last one that covers its prefix.
    fn some_matches(&self, prefix: Prefix, origin: Option<u32>, first: usize) -> bool
        requires { IsLastCovering self.now prefix (length self.now) first }
        ensures { result ≡ list_any (is_matching prefix origin) self.now }
    {
        let mut count = first;
        while count > 0 {
            if is_matching(&self.vrp(count - 1), prefix, origin) {
                return true;
            }
            count = self.next(prefix, count - 1);
        }
        false
    }

    // How many VRPs stand up to the last one that covers a prefix: 0 if none does.
    pub(crate) fn first(&self, prefix: Prefix) -> usize
        ensures { IsLastCovering self.now prefix (length self.now) result }
    {
        self.nesting.first(prefix)
    }

    // How many VRPs stand up to the last one that covers a prefix and stands before a place where one covers it.
    pub(crate) fn next(&self, prefix: Prefix, place: usize) -> usize
        requires inside { place < length self.now }
        requires covering { HoldsAt (λ vrp. is_covering prefix vrp ≡ true) self.now place }
        ensures { IsLastCovering self.now prefix place result }
    {
        self.nesting.next(prefix, place)
    }

    // The VRP at a place.
    pub(crate) fn vrp(&self, place: usize) -> Vrp
        requires { place < length self.now }
        ensures { result ≡ slice_index_or self.now place result }
    {
        let pattern = self.nesting.pattern(place);
        Vrp {
            prefix: pattern.prefix,
            max_len: pattern.most,
            asn: self.asns[place],
        }
    }

    /// How many VRPs there are.
    pub fn len(&self) -> usize
        ensures { result ≡ length self.now }
    {
        self.nesting.len()
    }
}

// The table of VRPs that are in the order of their prefixes.
fn table_of(alloc: Global, vrps: &[Vrp]) -> Result<Vrps, AllocError>
    requires order { IsNonDecreasingBy (λ vrp. rank_of vrp.prefix) vrps.now }
    requires room { length vrps.now ≤ 2 ^ 32 - 1 }
    ensures { IfOk result (λ table. table ≡ vrps.now) }
{
    let mut nesting = Nesting::with_capacity(alloc, vrps.len())?;
    let mut asns = Vec::with_capacity(alloc, vrps.len())?;
    for vrp in vrps {
        nesting.push(pattern_of(vrp))?;
        asns.push(vrp.asn)?;
    }
    let nesting = nesting.with_blocks()?;
    Ok(Vrps { nesting, asns })
}

// The pattern of the prefixes that a VRP's AS may originate.
fn pattern_of(vrp: &Vrp) -> Pattern
    ensures { result ≡ pattern_of_vrp vrp.now }
{
    Pattern {
        prefix: vrp.prefix,
        least: vrp.prefix.len(),
        most: vrp.max_len,
    }
}

// Whether a VRP covers a prefix.
fn is_covering(vrp: &Vrp, prefix: Prefix) -> bool
    ensures { result ≡ is_covering prefix vrp.now }
{
    covers(vrp.prefix, prefix)
}

// Whether a VRP matches a route.
fn is_matching(vrp: &Vrp, prefix: Prefix, origin: Option<u32>) -> bool
    ensures { result ≡ is_matching prefix origin vrp.now }
{
    is_covering(vrp, prefix) && prefix.len() <= vrp.max_len && has_origin(vrp, origin)
}

// Whether the AS of a VRP is the origin AS.
fn has_origin(vrp: &Vrp, origin: Option<u32>) -> bool
    ensures { result ≡ has_origin origin vrp.now }
{
    match origin {
        None => false,
        Some(asn) => vrp.asn == asn && vrp.asn != 0,
    }
}
