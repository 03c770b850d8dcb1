//! Counts the findings on one prefix.

ghost use Rattle.std.specs.Prelude.{◌≡◌, ◌<◌, ◌==◌, ℕ, IfSome, OnOk, false, length, map};
ghost use Rattle.std.specs.List.{All, flat_map};
ghost use Rattle.std.specs.Option.{option_map, option_map_or};
ghost use Rattle.rs_choice.specs.Clients.{chosen_for};
ghost use Rattle.rs_explain.specs.Contenders.{contender_of};
ghost use Rattle.rs_table.specs.PrefixRoutes.{AreRoutesOf, entry_of};
ghost use Rattle.rs_table.specs.RouteView.{sent_route_of};
ghost use Rattle.rs_table.specs.Table.{accepted_on};
ghost use Rattle.rs_survey.specs.Findings.{IsKnown};
ghost use Rattle.rs_survey.specs.Seen.{IsFilteredOn, IsSeen, sent_of_seen};
ghost use Rattle.rs_survey.specs.Grows.{Grows};
ghost use Rattle.rs_survey.specs.Summary.{all_clients, findings_on, for_client, of_candidate, of_route, to_client, unfit};

use crate::finding::Finding;
use crate::hidden::{is_hiding, shared_choice};
use crate::removing::removing_step;
use crate::seen::{Seen, permits, routes_seen, taken_in};
use crate::tally::Tally;
use rs_choice::{Candidate, Exchange};
use rs_explain::Contender;
use rs_table::{PrefixRoutes, Route, Tables};
use rs_update::Prefix;
use std::alloc::{AllocError, Global};

// Counts the findings on a prefix.
pub(crate) fn count_on(
    alloc: Global,
    tables: &Tables,
    on: &PrefixRoutes<'_>,
    tally: &mut Tally,
) -> Result<(), AllocError>
    requires routes { AreRoutesOf tables.now (entry_of on.now) }
    requires peers { tally.old.peers ≡ length tables.now.plan.peers }
    ensures { OnOk result (Grows tally.old tally.new (findings_on tables.now on.now.prefix)) }
{
    let seen = routes_seen(alloc, tables, on)?;
    let plan = tables.plan();
    count_routes(plan, on.prefix, &seen, tally);
    let taken = taken_in(alloc, &seen)?;
    count_clients(tables, on, &taken, tally);
    let shared = shared_choice(alloc, plan, &taken)?;
    if is_hiding(tables, on, &shared) {
        tally.add(Finding::Hidden);
    }
    Ok(())
}

// Counts what is found of each route by itself.
fn count_routes(plan: &Exchange, prefix: Prefix, seen: &[Seen], tally: &mut Tally)
    requires seen { All (IsSeen plan.now) seen.now }
    requires filtered { All (IsFilteredOn plan.now prefix) seen.now }
    requires peers { tally.old.peers ≡ length plan.now.peers }
    ensures { Grows tally.old tally.new (flat_map (of_route plan.now prefix) (map sent_of_seen seen.now)) }
{
    for one in seen {
        count_route(plan, prefix, one, tally);
    }
}

// Counts what is found of a route by itself.
fn count_route(plan: &Exchange, _prefix: Prefix, one: &Seen, tally: &mut Tally)
    requires seen { IsSeen plan.now one.now }
    requires filtered { IsFilteredOn plan.now _prefix one.now }
    requires peers { tally.old.peers ≡ length plan.now.peers }
    ensures { Grows tally.old tally.new (of_route plan.now _prefix (sent_of_seen one.now)) }
{
    let _peers = plan.count();
    tally.add(Finding::Left(one.route.peer));
    if let Some(finding) = unfit(one) {
        tally.add(finding);
    }
}

// What is found of a route that may be a candidate of nobody.
fn unfit(one: &Seen) -> Option<Finding>
    ensures value { result ≡ unfit one.now.route.peer one.now.failed one.now.filter }
    ensures known { (peers : ℕ) → one.now.route.peer < peers → IfSome result (IsKnown peers) }
{
    let sender = one.route.peer;
    match (one.failed, one.filter) {
        (Some(condition), _) => Some(Finding::Ineligible(sender, condition)),
        (None, Some(filter)) => Some(Finding::Filtered(sender, filter)),
        (None, None) => None,
    }
}

// Counts what is found of the routes to all clients.
fn count_clients(tables: &Tables, on: &PrefixRoutes, seen: &[Seen], tally: &mut Tally)
    requires routes { AreRoutesOf tables.now (entry_of on.now) }
    requires seen { All (IsSeen tables.now.plan) seen.now }
    requires same { map sent_of_seen seen.now ≡ accepted_on tables.now on.now.prefix }
    requires peers { tally.old.peers ≡ length tables.now.plan.peers }
    ensures { Grows tally.old tally.new
        (flat_map (for_client tables.now.plan (map sent_of_seen seen.now)) (all_clients tables.now.plan)) }
{
    let plan = tables.plan();
    for client in 0..tables.count() {
        let best = contender(plan, on.best(client));
        count_for(plan, client, &best, seen, tally);
    }
}

// The route that a client gets, by what the decision process asks of it.
fn contender(plan: &Exchange, best: Option<Route>) -> Option<Contender>
    requires { IfSome best (λ one. one.peer < length plan.now.peers) }
    ensures { result ≡ option_map (contender_of plan.now) (option_map sent_route_of best.entry) }
{
    let best = best?;
    Some(Contender {
        peer: best.peer,
        standing: plan.standing(&Candidate {
            peer: best.peer,
            attributes: best.attributes,
        }),
    })
}

// Counts what is found of the routes to a client, which gets the best one.
#[tactic(auto, unfolding(crate::specs::Summary::for_client))]
fn count_for(
    plan: &Exchange,
    client: usize,
    best: &Option<Contender>,
    seen: &[Seen],
    tally: &mut Tally,
)
    requires client_known { client < length plan.now.peers }
    requires seen { All (IsSeen plan.now) seen.now }
    requires best { best.now ≡ option_map (contender_of plan.now)
        (chosen_for plan.now client (map sent_of_seen seen.now)) }
    requires peers { tally.old.peers ≡ length plan.now.peers }
    ensures { Grows tally.old tally.new (for_client plan.now (map sent_of_seen seen.now) client) }
{
    for one in seen {
        count_to(plan, client, best, seen, one, tally);
    }
}

// Counts what is found of one route to a client.
fn count_to(
    plan: &Exchange,
    client: usize,
    best: &Option<Contender>,
    seen: &[Seen],
    one: &Seen,
    tally: &mut Tally,
)
    requires client_known { client < length plan.now.peers }
    requires seen { All (IsSeen plan.now) seen.now }
    requires one { IsSeen plan.now one.now }
    requires best { best.now ≡ option_map (contender_of plan.now)
        (chosen_for plan.now client (map sent_of_seen seen.now)) }
    requires peers { tally.old.peers ≡ length plan.now.peers }
    ensures { Grows tally.old tally.new (to_client plan.now (map sent_of_seen seen.now) client (sent_of_seen one.now)) }
{
    let sender = one.route.peer;
    if client == sender {
        return;
    }
    if one.failed.is_some() {
        return;
    }
    if !permits(plan, client, one) {
        tally.add(Finding::Refused(client, sender));
        return;
    }
    count_candidate(plan, client, best, seen, one, tally);
}

// Counts what is found of a candidate of a client.
fn count_candidate(
    plan: &Exchange,
    client: usize,
    best: &Option<Contender>,
    seen: &[Seen],
    one: &Seen,
    tally: &mut Tally,
)
    requires client_known { client < length plan.now.peers }
    requires seen { All (IsSeen plan.now) seen.now }
    requires one { IsSeen plan.now one.now }
    requires best { best.now ≡ option_map (contender_of plan.now)
        (chosen_for plan.now client (map sent_of_seen seen.now)) }
    requires peers { tally.old.peers ≡ length plan.now.peers }
    ensures { Grows tally.old tally.new
        (of_candidate plan.now (map sent_of_seen seen.now) client (sent_of_seen one.now)) }
{
    let sender = one.route.peer;
    if is_best(sender, best) {
        tally.add(Finding::Best(client, sender));
        return;
    }
    tally.add(Finding::Lost(client, sender));
    if let Some(step) = removing_step(plan, client, best, seen, one) {
        tally.add(Finding::Removed(step));
    }
}

// Whether the best candidate is there, and of this peer.
fn is_best(sender: usize, best: &Option<Contender>) -> bool
    ensures { result ≡ option_map_or (λ one. one.peer == sender) best.now false }
{
    match best {
        Some(best) => best.peer == sender,
        None => false,
    }
}
