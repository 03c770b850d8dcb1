//! The routes on one prefix that a client does not get (RFC 7947, section 2.3), each with the reason.

ghost use Rattle.std.specs.Prelude.{◌≡◌, ◌<◌, IfOk, IfSome, None, if◌then◌else◌, length};
ghost use Rattle.std.specs.Option.{option_map};
ghost use Rattle.rs_table.specs.PrefixRoutes.{AreRoutesOf, entry_of};
ghost use Rattle.rs_table.specs.RouteView.{sent_route_of};
ghost use Rattle.rs_table.specs.PrefixRoutes.{route_on};
ghost use Rattle.rs_table.specs.Table.{is_from};
ghost use Rattle.rs_explain.specs.Candidates.{AreCandidates};
ghost use Rattle.rs_explain.specs.Explanations.{IsExplanation};
ghost use Rattle.rs_survey.specs.Asked.{is_asked_sender};
ghost use Rattle.rs_survey.specs.Missing.{AreMissing, missing_among};

use crate::asked_rows::is_asked_sender;
use rs_explain::{Candidates, Explanation};
use rs_table::{PrefixRoutes, Route, Tables};
use rs_update::Prefix;
use std::alloc::{AllocError, Global};

/// The routes on one prefix that a client does not get.
#[derive(Drop)]
pub struct MissingOn<'a> {
    /// The prefix.
    pub prefix: Prefix,
    /// The route that the client gets there, if any.
    pub best: Option<Route<'a>>,
    /// The routes of other peers that it does not get, in the order of the peers.
    pub routes: Vec<MissingRoute<'a>>,
}

/// A route that a client does not get.
#[derive(Drop)]
pub struct MissingRoute<'a> {
    /// The route.
    pub route: Route<'a>,
    /// Why the client does not get it: it is ineligible, or filtered, or refused, or lost to another one.
    pub explanation: Explanation,
}

/// The routes on a prefix that the peer of number `client` does not get, each with the reason that `explain` gives:
/// those of the sender of number `from`, or of all senders if none is given.
pub fn missing_on<'a>(
    alloc: Global,
    tables: &Tables,
    client: usize,
    from: Option<usize>,
    on: &PrefixRoutes<'a>,
) -> Result<MissingOn<'a>, AllocError>
    requires client_known { client < length tables.now.plan.peers }
    requires routes { AreRoutesOf tables.now (entry_of on.now) }
    ensures prefix { IfOk result (λ missing. missing.prefix ≡ on.now.prefix) }
    ensures missing { IfOk result (AreMissing tables.now client from) }
{
    let best = on.best(client);
    let mut candidates = None;
    let mut routes = Vec::new(alloc);
    for peer in 0..tables.count() {
        if let Some(route) = asked_from(on, client, from, best, peer) {
            let explanation = explained(alloc, tables, client, peer, on, &mut candidates)?;
            routes.push(MissingRoute { route, explanation })?;
        }
    }
    Ok(MissingOn {
        prefix: on.prefix,
        best,
        routes,
    })
}

// Explains why the client does not get the route of a peer. Its candidates are collected for the first such route.
fn explained(
    alloc: Global,
    tables: &Tables,
    client: usize,
    peer: usize,
    on: &PrefixRoutes<'_>,
    collected: &mut Option<Candidates>,
) -> Result<Explanation, AllocError>
    requires client_known { client < length tables.now.plan.peers }
    requires peer_known { peer < length tables.now.plan.peers }
    requires routes { AreRoutesOf tables.now (entry_of on.now) }
    requires candidates { IfSome collected.old (AreCandidates tables.now client on.now.prefix) }
    ensures candidates { IfSome collected.new (AreCandidates tables.now client on.now.prefix) }
    ensures explains { IfOk result (IsExplanation tables.now client peer on.now.prefix) }
{
    if let Some(candidates) = collected {
        return candidates.explain(alloc, tables, client, peer, on);
    }
    let candidates = Candidates::new(alloc, tables, client, on)?;
    let explanation = candidates.explain(alloc, tables, client, peer, on);
    *collected = Some(candidates);
    explanation
}

// The route of a peer on a prefix, if the client does not get it and the peer is the sender that is asked for.
fn asked_from<'a>(
    on: &PrefixRoutes<'a>,
    client: usize,
    from: Option<usize>,
    best: Option<Route<'a>>,
    peer: usize,
) -> Option<Route<'a>>
    ensures { option_map sent_route_of result ≡ if is_asked_sender from peer
        then missing_among client peer (option_map sent_route_of best.entry) (route_on (entry_of on.now) peer)
        else None }
{
    if is_asked_sender(from, peer) {
        missing_from(on, client, best, peer)
    } else {
        None
    }
}

// The route of a peer on a prefix, if the client does not get it; the client gets this best one.
fn missing_from<'a>(
    on: &PrefixRoutes<'a>,
    client: usize,
    best: Option<Route<'a>>,
    peer: usize,
) -> Option<Route<'a>>
    ensures { option_map sent_route_of result ≡ missing_among client peer (option_map sent_route_of best.entry)
        (route_on (entry_of on.now) peer) }
{
    if peer == client || is_from(peer, best) {
        None
    } else {
        on.route(peer)
    }
}

// Whether a route is there, and of this peer.
fn is_from(peer: usize, route: Option<Route>) -> bool
    ensures { result ≡ is_from peer (option_map sent_route_of route.entry) }
{
    match route {
        Some(route) => route.peer == peer,
        None => false,
    }
}
