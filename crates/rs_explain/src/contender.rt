//! The candidates of a client for a prefix, by what the decision process asks of them (RFC 4271, sections
//! 9.1.1 and 9.1.2.2).

ghost use Rattle.std.specs.Prelude.{◌≡◌, ◌<◌, IfOk, IfSome, Some, length};
ghost use Rattle.rs_explain.specs.Contenders.{contender_from, contender_if, contender_of, AreContenders, HasOwnAddress};
ghost use Rattle.rs_table.specs.PrefixRoutes.{AreRoutesOf, entry_of};
ghost use Rattle.rs_table.specs.RouteView.{sent_route_of};

use rs_choice::{Candidate, Exchange, Standing};
use rs_table::{PrefixRoutes, Route, Tables};
use rs_update::Prefix;
use std::alloc::{AllocError, Global};

/// A candidate of a client for a prefix.
#[derive(Clone, Copy, Debug, PartialEq, Eq)]
pub struct Contender {
    /// The number of the peer that sent it.
    pub peer: usize,
    /// What the decision process asks of it.
    pub standing: Standing,
}

// A route by its peer and what the decision process asks of it.
pub(crate) fn contender_of(plan: &Exchange, route: &Route) -> Contender
    requires { route.now.peer < length plan.now.peers }
    ensures value { result ≡ contender_of plan.now (sent_route_of route.now) }
    ensures address { HasOwnAddress plan.now result }
{
    // For the prover: the plan has a peer of this number.
    let _sender = plan.peer(route.peer);
    let standing = plan.standing(&Candidate {
        peer: route.peer,
        attributes: route.attributes,
    });
    Contender {
        peer: route.peer,
        standing,
    }
}

// A route, if it is a candidate of a client.
fn candidate_of(plan: &Exchange, client: usize, prefix: Prefix, route: &Route) -> Option<Contender>
    requires client_known { client < length plan.now.peers }
    requires peer_known { route.now.peer < length plan.now.peers }
    ensures value { result ≡ contender_if plan.now client prefix (Some (sent_route_of route.now)) }
    ensures address { IfSome result (HasOwnAddress plan.now) }
{
    // For the prover: the plan has a peer of this number.
    let _sender = plan.peer(route.peer);
    if !plan.eligible(route.peer, route.attributes) {
        return None;
    }
    if !plan.accepts(route.peer, prefix, route.attributes) {
        return None;
    }
    if !plan.permits(client, route.peer, route.attributes) {
        return None;
    }
    Some(contender_of(plan, route))
}

// The route of a peer on a prefix, if it is a candidate of a client.
fn candidate_on(tables: &Tables, client: usize, peer: usize, on: &PrefixRoutes) -> Option<Contender>
    requires client_known { client < length tables.now.plan.peers }
    requires peer_known { peer < length tables.now.plan.peers }
    requires routes { AreRoutesOf tables.now (entry_of on.now) }
    ensures value { result ≡ contender_from tables.now client on.now.prefix peer }
    ensures address { IfSome result (HasOwnAddress tables.now.plan) }
{
    let route = on.route(peer)?;
    candidate_of(tables.plan(), client, on.prefix, &route)
}

// All candidates of a client for a prefix, in the order of the peers.
pub(crate) fn contenders(
    alloc: Global,
    tables: &Tables,
    client: usize,
    on: &PrefixRoutes,
) -> Result<Vec<Contender>, AllocError>
    requires client_known { client < length tables.now.plan.peers }
    requires routes { AreRoutesOf tables.now (entry_of on.now) }
    ensures { IfOk result (λ all. AreContenders tables.now client on.now.prefix all.items) }
{
    let mut all = Vec::new(alloc);
    for peer in 0..tables.count() {
        if let Some(one) = candidate_on(tables, client, peer, on) {
            all.push(one)?;
        }
    }
    Ok(all)
}
