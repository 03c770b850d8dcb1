//! The routes on a prefix, each with what a summary asks of it: that is found once for all clients.

ghost use Rattle.std.specs.Prelude.{◌≡◌, ◌<◌, ◌≤◌, IfOk, filter, is_none, length, map};
ghost use Rattle.std.specs.List.{All};
ghost use Rattle.rs_choice.specs.Policy.{is_permitted};
ghost use Rattle.rs_table.specs.PrefixRoutes.{AreRoutesOf, entry_of};
ghost use Rattle.rs_table.specs.RouteView.{sent_route_of};
ghost use Rattle.rs_table.specs.Table.{routes_on};
ghost use Rattle.rs_survey.specs.Seen.{IsFilteredOn, IsSeen, sent_of_seen};

use rs_choice::{Candidate, Exchange, MAX_PEERS, Standing};
use rs_explain::{Condition, ConditionKind, failed_condition};
use rs_import::Filter;
use rs_table::{PrefixRoutes, Route, Tables};
use rs_update::Prefix;
use std::alloc::{AllocError, Global};

// A route with the values that decisions need.
#[derive(Clone, Copy)]
pub(crate) struct Seen<'a> {
    pub(crate) route: Route<'a>,
    // What the decision process asks of it.
    pub(crate) standing: Standing,
    // The first condition of eligibility that it fails.
    pub(crate) failed: Option<ConditionKind>,
    // The filter of import policy that doesn't take it in.
    pub(crate) filter: Option<Filter>,
    // Whether some community refuses it to someone: if none does, only its sender's name can be refused.
    pub(crate) restricted: bool,
}

// The routes on a prefix, in the order of the peers.
pub(crate) fn routes_seen<'a>(
    alloc: Global,
    tables: &Tables,
    on: &PrefixRoutes<'a>,
) -> Result<Vec<Seen<'a>>, AllocError>
    requires { AreRoutesOf tables.now (entry_of on.now) }
    ensures routes { IfOk result (λ seen. map sent_of_seen seen.items ≡ routes_on on.now.prefix tables.now.ribs) }
    ensures seen { IfOk result (λ seen. All (IsSeen tables.now.plan) seen.items) }
    ensures filtered { IfOk result (λ seen. All (IsFilteredOn tables.now.plan on.now.prefix) seen.items) }
    ensures bound { IfOk result (λ seen. length seen.items ≤ MAX_PEERS) }
{
    let mut seen = Vec::with_capacity(alloc, tables.count())?;
    for peer in 0..tables.count() {
        if let Some(route) = on.route(peer) {
            seen.push(route_seen(tables.plan(), peer, on.prefix, route))?;
        }
    }
    Ok(seen)
}

// Those of the routes that import policy takes in.
pub(crate) fn taken_in<'a>(alloc: Global, seen: &[Seen<'a>]) -> Result<Vec<Seen<'a>>, AllocError>
    ensures { IfOk result (λ taken. taken.items ≡ filter (λ one. is_none one.filter) seen.now) }
{
    seen.iter()
        .filter(|one| one.filter.is_none())
        .copied()
        .collect(alloc)
}

// The route of a peer, with the values that decisions need.
fn route_seen<'a>(plan: &Exchange, peer: usize, prefix: Prefix, route: Route<'a>) -> Seen<'a>
    requires known { peer < length plan.now.peers }
    requires own { route.peer ≡ peer }
    ensures route { sent_of_seen result ≡ sent_route_of route.entry }
    ensures seen { IsSeen plan.now result }
    ensures filtered { IsFilteredOn plan.now prefix result }
{
    Seen {
        route,
        standing: plan.standing(&Candidate {
            peer,
            attributes: route.attributes,
        }),
        failed: failed_condition(plan, peer, route.attributes).map(Condition::kind),
        filter: plan.filter(peer, prefix, route.attributes),
        restricted: plan.may_refuse(route.attributes),
    }
}

// Whether export policy permits a route to another peer as its client. Most routes have no community that refuses
// them, and then none is looked at.
pub(crate) fn permits(plan: &Exchange, client: usize, one: &Seen) -> bool
    requires client_known { client < length plan.now.peers }
    requires seen { IsSeen plan.now one.now }
    ensures { result ≡ is_permitted plan.now client one.now.route.peer one.now.route.attributes.now }
{
    let peer = one.route.peer;
    if one.restricted {
        return plan.permits(client, peer, one.route.attributes);
    }
    if client == peer {
        return false;
    }
    !plan.refuses(client, peer)
}
