//! Export policy: which routes a client may get (RFC 7947, section 2.3). The five cases are our choice.
//!
//! A community that names a client holds its AS number in 16 bits (RFC 1997). A large community names any AS (RFC
//! 8092), and counts only if the plan says so.

ghost use Rattle.std.specs.Prelude.{◌≡◌, ◌≢◌, ◌<◌, ◌↔◌, ◌∷◌, [], IsTrue, false, length, map};
ghost use Rattle.rs_types.specs.Community.{has_community_in, has_value};
ghost use Rattle.rs_types.specs.Shapes.{numbers_in};
ghost use Rattle.rs_choice.specs.Held.{IsOpen};
ghost use Rattle.rs_choice.specs.LargeCommunity.{has_large_in, large_community_of};
ghost use Rattle.rs_choice.specs.Policy.{has_large, is_permitted, may_refuse, permits_by_communities};
ghost use Rattle.rs_choice.specs.PolicyCase.{first_case, permits_both};

use crate::exchange::Exchange;
use crate::large_community::{
    LARGE_LEN, has_large_community, has_large_community_of, is_large, large_communities,
};
use rs_types::{Attributes, Numbers};

// The numbers that half a community can hold (RFC 1997).
const HALF: u32 = 65536;

// The first part of the server's large communities (our choice). 0 refuses a route to the AS that is the second part,
// and 1 permits it to that AS.
const REFUSES: u32 = 0;

const PERMITS: u32 = 1;

// The second part of a large community that refuses a route to all clients.
const ALL: u32 = 0;

// What communities say of a route for one client: the first of the four cases that applies.
#[derive(Clone, Copy, Debug, PartialEq, Eq)]
enum Case {
    RefusedToClient,
    PermittedToClient,
    RefusedToAll,
    NoneNamed,
}

impl Exchange {
    /// Whether the peer of number `client` may get a route of the peer of number `peer`. No client gets a route of
    /// its own. It takes no memory.
    ///
    /// The first case that applies decides, for a server of AS s and a client of AS x:
    /// - The client refuses all routes of that peer.
    /// - The community 0:x or the large community s:0:x refuses the route.
    /// - The community s:x or the large community s:1:x permits the route.
    /// - The community 0:s or the large community s:0:0 refuses the route.
    /// - Otherwise the route is permitted.
    ///
    /// Large communities count only if `counts_large_communities` says so.
    pub fn permits(&self, client: usize, peer: usize, attributes: &Attributes) -> bool
        requires client_known { client < length self.now.peers }
        requires peer_known { peer < length self.now.peers }
        ensures { result ≡ is_permitted self.now client peer attributes.now }
    {
        client != peer
            && !self.refuses(client, peer)
            && self.permits_by_communities(self.peer(client).asn, attributes)
    }

    // Whether every client but the peer of number `peer` may get a route of that peer. The clients are looked at only
    // if some community may refuse the route or some client refuses the sender. For most routes neither is so.
    pub(crate) fn is_open(&self, peer: usize, attributes: &Attributes) -> bool
        requires { peer < length self.now.peers }
        ensures { IsTrue result ↔ IsOpen self.now peer attributes.now }
    {
        let refuses = self.may_refuse(attributes);
        if !refuses && !self.is_refused(peer) {
            return true;
        }
        for client in 0..self.count() {
            if client != peer && !self.permits_other(client, peer, attributes, refuses) {
                return false;
            }
        }
        true
    }

    /// Whether some community of a route may refuse it to a client: the community (0, AS), for any AS, or the server's
    /// large community with the first part 0, if large communities count. If none does, a client may get the route
    /// of another peer that it doesn't refuse. It takes no memory.
    pub fn may_refuse(&self, attributes: &Attributes) -> bool
        ensures { result ≡ may_refuse self.now attributes.now }
    {
        attributes.has_community_of(0)
            || (self.counts_large_communities()
                && has_large_community_of(attributes, self.local().asn, REFUSES))
    }

    /// Whether a route has the server's large community with these two parts, and large communities count (RFC 8092). It
    /// takes no memory.
    pub fn has_large_community(&self, attributes: &Attributes, first: u32, second: u32) -> bool
        ensures { result ≡ has_large self.now attributes.now first second }
    {
        self.counts_large_communities()
            && has_large_community(attributes, self.local().asn, first, second)
    }

    // Whether a client may get a route of another peer, if it is known whether some community may refuse the route.
    fn permits_other(
        &self,
        client: usize,
        peer: usize,
        attributes: &Attributes,
        refuses: bool,
    ) -> bool
        requires client_known { client < length self.now.peers }
        requires peer_known { peer < length self.now.peers }
        requires other { client ≢ peer }
        requires refuses { refuses ≡ may_refuse self.now attributes.now }
        ensures { result ≡ is_permitted self.now client peer attributes.now }
    {
        if refuses {
            self.permits(client, peer, attributes)
        } else {
            !self.refuses(client, peer)
        }
    }

    // Whether the communities of a route permit it to a client of this AS.
    fn permits_by_communities(&self, client_asn: u32, attributes: &Attributes) -> bool
        ensures { result ≡ permits_by_communities self.now client_asn attributes.now }
    {
        let named = named_by_communities(self.local().asn, client_asn, attributes);
        permits_both(
            named,
            self.named_by_large_communities(client_asn, attributes),
        )
    }

    // The case that large communities name, if they count.
    fn named_by_large_communities(&self, client_asn: u32, attributes: &Attributes) -> Case
        ensures { result ≡ first_case (has_large self.now attributes.now 0 client_asn)
            (has_large self.now attributes.now 1 client_asn) (has_large self.now attributes.now 0 0) }
    {
        if self.counts_large_communities() {
            named_by_large(self.local().asn, client_asn, large_communities(attributes))
        } else {
            Case::NoneNamed
        }
    }
}

// Whether the earlier of two cases permits a route.
fn permits_both(one: Case, other: Case) -> bool
    ensures { result ≡ permits_both one other }
{
    match (one, other) {
        (Case::RefusedToClient, _) | (_, Case::RefusedToClient) => false,
        (Case::PermittedToClient, _) | (_, Case::PermittedToClient) => true,
        (Case::RefusedToAll, _) | (_, Case::RefusedToAll) => false,
        (Case::NoneNamed, Case::NoneNamed) => true,
    }
}

// The case that the communities of a route name.
fn named_by_communities(local_asn: u32, client_asn: u32, attributes: &Attributes) -> Case
    ensures { result ≡ first_case (has_community_in attributes.now.communities 0 client_asn)
        (has_community_in attributes.now.communities local_asn client_asn)
        (has_community_in attributes.now.communities 0 local_asn) }
{
    match attributes.communities() {
        None => Case::NoneNamed,
        Some(list) => named_by_list(local_asn, client_asn, list.values),
    }
}

// The case that communities name. They are looked through once.
fn named_by_list(local_asn: u32, client_asn: u32, list: Numbers<'_>) -> Case
    ensures { result ≡ first_case (has_value (numbers_in list.entry) 0 client_asn)
        (has_value (numbers_in list.entry) local_asn client_asn) (has_value (numbers_in list.entry) 0 local_asn) }
{
    let mut permits = false;
    let mut refuses_all = false;
    let mut rest = list;
    while let Some(value) = rest.next() {
        if is_community(value, 0, client_asn) {
            return Case::RefusedToClient;
        }
        permits = permits || is_community(value, local_asn, client_asn);
        refuses_all = refuses_all || is_community(value, 0, local_asn);
    }
    case_of(permits, refuses_all)
}

// The case that large communities name. They are looked through once.
fn named_by_large(local_asn: u32, client_asn: u32, list: &[[u8; LARGE_LEN]]) -> Case
    ensures { result ≡ first_case (has_large_in (map large_community_of list.now) local_asn 0 client_asn)
        (has_large_in (map large_community_of list.now) local_asn 1 client_asn)
        (has_large_in (map large_community_of list.now) local_asn 0 0) }
{
    let mut permits = false;
    let mut refuses_all = false;
    let mut rest = list;
    while let [octets, behind @ ..] = rest {
        if is_large(octets, local_asn, REFUSES, client_asn) {
            return Case::RefusedToClient;
        }
        permits = permits || is_large(octets, local_asn, PERMITS, client_asn);
        refuses_all = refuses_all || is_large(octets, local_asn, REFUSES, ALL);
        rest = behind;
    }
    case_of(permits, refuses_all)
}

// The case of a route that no community refuses to the client.
fn case_of(permits: bool, refuses_all: bool) -> Case
    ensures { result ≡ first_case false permits refuses_all }
{
    if permits {
        Case::PermittedToClient
    } else if refuses_all {
        Case::RefusedToAll
    } else {
        Case::NoneNamed
    }
}

// Whether a value is the community (`high`, `low`).
fn is_community(value: u32, high: u32, low: u32) -> bool
    ensures { result ≡ has_value (value ∷ []) high low }
{
    high < HALF && low < HALF && value == high * HALF + low
}
