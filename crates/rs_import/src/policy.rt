//! Import policy (RFC 4271, section 9.1.1): what is asked of a route before it may be a candidate of anybody.
//!
//! The conditions and their order are our choice. The first one that a route fails is the reason why the route is not
//! taken in.

ghost use Rattle.std.specs.Prelude.{◌≡◌, ◌==◌, length, not, slice_get};
ghost use Rattle.std.specs.Option.{option_copied, option_map};
ghost use Rattle.rs_import.specs.Import.{begins_with, filter_by_peer, filter_of, import_tests, is_above, is_len_taken};
ghost use Rattle.rs_import.specs.Import.{is_origin_listed, is_prefix_listed, is_rpki_invalid, no_import, no_rules};
ghost use Rattle.rs_types.specs.AsPath.{path_length_of};
ghost use Rattle.rs_types.specs.FirstFault.{first_fault};

use crate::as_set::AsSet;
use crate::filter::Filter;
use crate::path::{first_as, holds_one_of, origin_as};
use crate::prefix_set::PrefixSet;
use crate::validity::Validity;
use crate::vrps::Vrps;
use rs_types::{Attributes, Prefix};
use std::alloc::Global;
use std::marker::Model;
use std::sync::Arc;

/// What is asked of the routes of all peers.
#[derive(Debug, Drop)]
pub struct ImportRules {
    /// The least length of a prefix, in bits: 0 if none is configured.
    pub least_len: u8,
    /// The greatest length of a prefix, in bits: 32 if none is configured.
    pub most_len: u8,
    /// Prefixes that are refused.
    pub refuse_prefixes: PrefixSet,
    /// The greatest length of AS_PATH, an AS_SET counting 1.
    pub max_as_path: Option<u32>,
    /// AS numbers that may not be in AS_PATH.
    pub refuse_as: AsSet,
    /// Whether AS_PATH must begin with an AS_SEQUENCE whose first number is the sender's AS.
    pub enforce_first_as: bool,
    /// The VRPs by which a route must not be invalid (RFC 6811).
    pub vrps: Option<Vrps>,
}

/// What is asked of the routes of one peer.
#[derive(Debug, Drop)]
pub struct PeerImport {
    is_asked: bool,
    prefix_list: Option<Arc<PrefixSet>>,
    as_list: Option<Arc<AsSet>>,
}

impl Model for PeerImport {
    ghost use Rattle.rs_import.specs.Import.{PeerImport};

    ghost Value = { PeerImport };

    ghost use Rattle.rs_import.specs.ImportView.{peer_view};

    ghost view = { peer_view };
}

/// Import policy: the rules for all peers, and what is asked of each peer.
#[derive(Debug, Drop)]
pub struct ImportPolicy {
    rules: ImportRules,
    peers: Vec<PeerImport>,
}

impl Model for ImportPolicy {
    ghost use Rattle.rs_import.specs.Import.{ImportPolicy};

    ghost Value = { ImportPolicy };

    ghost use Rattle.rs_import.specs.ImportView.{policy_view};

    ghost view = { policy_view };
}

impl PeerImport {
    /// What is asked of a peer with these lists: nothing at all unless `is_asked`, the lists neither.
    pub fn new(
        is_asked: bool,
        prefix_list: Option<Arc<PrefixSet>>,
        as_list: Option<Arc<AsSet>>,
    ) -> PeerImport
        ensures { result ≡ record {
          is_asked = is_asked;
          prefix_list = option_map (λ set. set.value) prefix_list;
          as_list = option_map (λ set. set.value) as_list;
        } }
    {
        PeerImport {
            is_asked,
            prefix_list,
            as_list,
        }
    }

    /// Whether anything is asked of the peer's routes.
    pub fn is_asked(&self) -> bool
        ensures { result ≡ self.now.is_asked }
    {
        self.is_asked
    }

    /// The peer's prefix list, if there is one.
    pub fn prefix_list(&self) -> Option<&PrefixSet>
        ensures { option_copied result ≡ self.now.prefix_list }
    {
        match &self.prefix_list {
            None => None,
            Some(list) => Some(list),
        }
    }

    /// The peer's list of AS numbers, if there is one.
    pub fn as_list(&self) -> Option<&AsSet>
        ensures { option_copied result ≡ self.now.as_list }
    {
        match &self.as_list {
            None => None,
            Some(list) => Some(list),
        }
    }
}

impl ImportRules {
    /// Rules that ask nothing. It takes no memory.
    pub fn none(alloc: Global) -> ImportRules
        ensures { result ≡ no_rules }
    {
        ImportRules {
            least_len: 0,
            most_len: 32,
            refuse_prefixes: PrefixSet::empty(alloc),
            max_as_path: None,
            refuse_as: AsSet::empty(alloc),
            enforce_first_as: false,
            vrps: None,
        }
    }
}

impl ImportPolicy {
    /// Import policy that asks nothing. It takes no memory.
    pub fn none(alloc: Global) -> ImportPolicy
        ensures { result ≡ no_import }
    {
        ImportPolicy {
            rules: ImportRules::none(alloc),
            peers: Vec::new(alloc),
        }
    }

    /// Import policy by the rules for all peers and what is asked of each peer, in the order of the peers.
    pub fn new(rules: ImportRules, peers: Vec<PeerImport>) -> ImportPolicy
        ensures { result ≡ record { rules = rules; peers = peers.items } }
    {
        ImportPolicy { rules, peers }
    }

    /// Whether import policy was configured at all: then each peer has an entry. It takes no memory.
    pub fn is_configured(&self) -> bool
        ensures { result ≡ not (length self.now.peers == 0) }
    {
        !self.peers.is_empty()
    }

    /// The rules for all peers.
    pub fn rules(&self) -> &ImportRules
        ensures { result.now ≡ self.now.rules }
    {
        &self.rules
    }

    /// What is asked of the peer of a number, if there is one.
    pub fn peer(&self, number: usize) -> Option<&PeerImport>
        ensures { option_copied result ≡ slice_get self.now.peers number }
    {
        self.peers.get(number)
    }

    /// The filter that does not take in a route of the peer of number `peer` and AS `sender_as`, for a server of AS
    /// `own_as`: the first condition that the route fails. None if it is taken in. It takes no memory.
    pub fn filter(
        &self,
        own_as: u32,
        peer: usize,
        sender_as: u32,
        prefix: Prefix,
        attributes: &Attributes,
    ) -> Option<Filter>
        ensures { result ≡ filter_of self.now own_as peer sender_as prefix attributes.now }
    {
        let lists = self.peers.get(peer)?;
        if !lists.is_asked {
            return None;
        }
        filter_by(&self.rules, lists, own_as, sender_as, prefix, attributes)
    }
}

// The first condition that a route fails.
fn filter_by(
    rules: &ImportRules,
    lists: &PeerImport,
    own_as: u32,
    sender_as: u32,
    prefix: Prefix,
    attributes: &Attributes,
) -> Option<Filter>
    ensures { result ≡ first_fault (import_tests rules.now lists.now own_as sender_as prefix attributes.now) }
{
    if !is_len_taken(rules, prefix.len()) {
        return Some(Filter::PrefixLength);
    }
    if rules.refuse_prefixes.matches(prefix) {
        return Some(Filter::RefusedPrefix);
    }
    if is_too_long(rules.max_as_path, attributes) {
        return Some(Filter::PathLengthLimit);
    }
    if holds_one_of(attributes, &rules.refuse_as) {
        return Some(Filter::RefusedAs);
    }
    if rules.enforce_first_as && !begins_with(attributes, sender_as) {
        return Some(Filter::FirstAs);
    }
    if !is_prefix_listed(lists, prefix) {
        return Some(Filter::PrefixList);
    }
    let origin = origin_as(attributes, own_as);
    if !is_origin_listed(lists, origin) {
        return Some(Filter::OriginAs);
    }
    if is_rpki_invalid(&rules.vrps, prefix, origin) {
        return Some(Filter::RpkiInvalid);
    }
    None
}

// Whether a length is within the bounds.
fn is_len_taken(rules: &ImportRules, len: u8) -> bool
    ensures { result ≡ is_len_taken rules.now len }
{
    rules.least_len <= len && len <= rules.most_len
}

// Whether an AS_PATH is longer than a limit, if there is one.
fn is_too_long(most: Option<u32>, attributes: &Attributes) -> bool
    ensures { result ≡ is_above most (path_length_of attributes.now.path) }
{
    match most {
        None => false,
        Some(most) => most < attributes.path_length(),
    }
}

// Whether an AS_PATH begins with an AS_SEQUENCE whose first number is this one.
fn begins_with(attributes: &Attributes, asn: u32) -> bool
    ensures { result ≡ begins_with asn attributes.now.path }
{
    match first_as(attributes) {
        None => false,
        Some(first) => first == asn,
    }
}

// Whether a prefix matches an entry of the peer's prefix list, if there is a list.
fn is_prefix_listed(lists: &PeerImport, prefix: Prefix) -> bool
    ensures { result ≡ is_prefix_listed lists.now.prefix_list prefix }
{
    match &lists.prefix_list {
        None => true,
        Some(set) => set.matches(prefix),
    }
}

// Whether an origin AS is in the peer's list, if there is a list.
fn is_origin_listed(lists: &PeerImport, origin: Option<u32>) -> bool
    ensures { result ≡ is_origin_listed lists.now.as_list origin }
{
    match (&lists.as_list, origin) {
        (None, _) => true,
        (Some(_), None) => false,
        (Some(set), Some(asn)) => set.holds(asn),
    }
}

// Whether a route is invalid by the VRPs, if there are some.
fn is_rpki_invalid(vrps: &Option<Vrps>, prefix: Prefix, origin: Option<u32>) -> bool
    ensures { result ≡ is_rpki_invalid vrps.now prefix origin }
{
    match vrps {
        None => false,
        Some(vrps) => vrps.validity(prefix, origin) == Validity::Invalid,
    }
}
