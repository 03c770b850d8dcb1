//! Why a client has a peer's route on a prefix, or not, with the reason.

ghost use Rattle.std.specs.Prelude.{◌≡◌, ◌≢◌, ◌<◌, IfOk, IfSome, Some, length};
ghost use Rattle.std.specs.Option.{option_map};
ghost use Rattle.rs_table.specs.PrefixRoutes.{AreRoutesOf, entry_of};
ghost use Rattle.rs_table.specs.RouteView.{sent_route_of};
ghost use Rattle.rs_table.specs.Table.{why_of};
ghost use Rattle.rs_explain.specs.Explanations.{answer_of, other_peers, reason_of, IsDecided, IsExplanation};
ghost use Rattle.rs_explain.specs.Candidates.{AreCandidates};
ghost use Rattle.rs_explain.specs.Contenders.{contender_from, contender_of};

use crate::condition::{Condition, failed_condition};
use crate::contender::{Contender, contender_of, contenders};
use crate::filtered_by::{FilteredBy, failed_filter};
use crate::refusal::{Refusal, refusing_rule};
use crate::removal::{Removal, STEPS, removed_by};
use rs_choice::{Exchange, peers_have_addresses_of_their_own, the_choice_is_unbeaten};
use rs_table::{PrefixRoutes, Route, Tables};
use rs_update::Prefix;
use std::alloc::{AllocError, Global};

/// Why a client has the route of a peer on a prefix, or not: the first case that holds, with its reason.
#[derive(Debug, PartialEq, Eq, Drop)]
pub enum Explanation {
    /// The client is the peer: it never gets a route of its own.
    Own,
    /// The peer has no route left on the prefix.
    Absent,
    /// The peer's route isn't eligible (RFC 4271, sections 6.3 and 9.1.2): the first condition that it fails.
    Ineligible(Condition),
    /// Import policy doesn't take the peer's route in (RFC 4271, section 9.1.1): the first condition that it fails.
    Filtered(FilteredBy),
    /// Export policy refuses the peer's route to the client (RFC 7947, section 2.3): the rule that refuses it.
    Refused(Refusal),
    /// The client's table has the peer's route: the numbers of the peers whose routes it beat, all other
    /// candidates of the client.
    Best(Vec<usize>),
    /// The decision process chose another peer's route (RFC 4271, section 9.1.2.2): the step that removed this one.
    Lost(Removal),
}

/// The candidates of a client for a prefix, collected once. The routes there are explained from them, one after
/// another.
#[derive(Drop)]
pub struct Candidates {
    // The one that the client gets, if there is one.
    best: Option<Contender>,
    // All of them, in the order of the peers.
    all: Vec<Contender>,
}

/// Explains why the peer of number `client` has the route of the peer of number `peer` on a prefix, or not.
///
/// Fails if memory is refused, which only the explanation of a candidate asks for.
pub fn explain(
    alloc: Global,
    tables: &Tables,
    client: usize,
    peer: usize,
    prefix: Prefix,
) -> Result<Explanation, AllocError>
    requires client_known { client < length tables.now.plan.peers }
    requires peer_known { peer < length tables.now.plan.peers }
    ensures explains { IfOk result (IsExplanation tables.now client peer prefix) }
    ensures agrees { IfOk result (λ explanation. answer_of explanation ≡ why_of tables.now client peer prefix) }
{
    if client == peer {
        return Ok(Explanation::Own);
    }
    let Some(on) = tables.on_prefix(prefix) else {
        return Ok(Explanation::Absent);
    };
    explain_other(alloc, tables, client, peer, &on, None)
}

impl Candidates {
    /// The candidates of the peer of number `client` for a prefix, of the routes there.
    pub fn new(
        alloc: Global,
        tables: &Tables,
        client: usize,
        on: &PrefixRoutes,
    ) -> Result<Candidates, AllocError>
        requires client_known { client < length tables.now.plan.peers }
        requires routes { AreRoutesOf tables.now (entry_of on.now) }
        ensures { IfOk result (AreCandidates tables.now client on.now.prefix) }
    {
        let all = contenders(alloc, tables, client, on)?;
        Ok(Candidates {
            best: best_contender(tables.plan(), on.best(client)),
            all,
        })
    }

    /// Explains why the client has the route of the peer of number `peer` on the prefix, or not, as `explain` does.
    pub fn explain(
        &self,
        alloc: Global,
        tables: &Tables,
        client: usize,
        peer: usize,
        on: &PrefixRoutes,
    ) -> Result<Explanation, AllocError>
        requires client_known { client < length tables.now.plan.peers }
        requires peer_known { peer < length tables.now.plan.peers }
        requires routes { AreRoutesOf tables.now (entry_of on.now) }
        requires candidates { AreCandidates tables.now client on.now.prefix self.now }
        ensures explains { IfOk result (IsExplanation tables.now client peer on.now.prefix) }
        ensures agrees { IfOk result (λ explanation.
            answer_of explanation ≡ why_of tables.now client peer on.now.prefix) }
    {
        if client == peer {
            return Ok(Explanation::Own);
        }
        explain_other(alloc, tables, client, peer, on, Some(self))
    }
}

// Explains why a client has the route of another peer on a prefix, or not. Its candidates are collected only if
// the decision process has to be asked, and they are not known.
fn explain_other(
    alloc: Global,
    tables: &Tables,
    client: usize,
    peer: usize,
    on: &PrefixRoutes,
    known: Option<&Candidates>,
) -> Result<Explanation, AllocError>
    requires client_known { client < length tables.now.plan.peers }
    requires peer_known { peer < length tables.now.plan.peers }
    requires differ { client ≢ peer }
    requires routes { AreRoutesOf tables.now (entry_of on.now) }
    requires candidates { IfSome known (λ known. AreCandidates tables.now client on.now.prefix known.now) }
    ensures explains { IfOk result (IsExplanation tables.now client peer on.now.prefix) }
    ensures agrees { IfOk result (λ explanation. answer_of explanation ≡ why_of tables.now client peer on.now.prefix) }
{
    let Some(route) = on.route(peer) else {
        return Ok(Explanation::Absent);
    };
    if let Some(reason) = reason(tables.plan(), client, on.prefix, &route) {
        return Ok(reason);
    }
    let one = contender_of(tables.plan(), &route);
    decided_on(alloc, tables, client, on, known, one)
}

// Explains what the decision process makes of a candidate of a client, whose other candidates may be known.
fn decided_on(
    alloc: Global,
    tables: &Tables,
    client: usize,
    on: &PrefixRoutes,
    known: Option<&Candidates>,
    one: Contender,
) -> Result<Explanation, AllocError>
    requires client_known { client < length tables.now.plan.peers }
    requires peer_known { one.peer < length tables.now.plan.peers }
    requires routes { AreRoutesOf tables.now (entry_of on.now) }
    requires candidate { contender_from tables.now client on.now.prefix one.peer ≡ Some one }
    requires candidates { IfSome known (λ known. AreCandidates tables.now client on.now.prefix known.now) }
    ensures { IfOk result (IsDecided tables.now client one.peer on.now.prefix) }
{
    if let Some(candidates) = known {
        return decided(alloc, tables, client, on.prefix, candidates, one);
    }
    let candidates = Candidates::new(alloc, tables, client, on)?;
    decided(alloc, tables, client, on.prefix, &candidates, one)
}

// Why a route of another peer is no candidate of a client, if it isn't.
fn reason(plan: &Exchange, client: usize, prefix: Prefix, route: &Route) -> Option<Explanation>
    requires client_known { client < length plan.now.peers }
    requires peer_known { route.now.peer < length plan.now.peers }
    ensures { result ≡ reason_of plan.now client route.now.peer prefix (Some (sent_route_of route.now)) }
{
    if let Some(condition) = failed_condition(plan, route.peer, route.attributes) {
        return Some(Explanation::Ineligible(condition));
    }
    if let Some(failed) = failed_filter(plan, route.peer, prefix, route.attributes) {
        return Some(Explanation::Filtered(failed));
    }
    let refusal = refusing_rule(plan, client, route.peer, route.attributes)?;
    Some(Explanation::Refused(refusal))
}

// The route that a client gets, by what the decision process asks of it.
fn best_contender(plan: &Exchange, best: Option<Route>) -> Option<Contender>
    requires { IfSome best (λ one. one.peer < length plan.now.peers) }
    ensures { result ≡ option_map (contender_of plan.now) (option_map sent_route_of best.entry) }
{
    let best = best?;
    Some(contender_of(plan, &best))
}

// Explains what the decision process makes of a candidate of a client.
fn decided(
    alloc: Global,
    tables: &Tables,
    client: usize,
    prefix: Prefix,
    candidates: &Candidates,
    one: Contender,
) -> Result<Explanation, AllocError>
    requires client_known { client < length tables.now.plan.peers }
    requires peer_known { one.peer < length tables.now.plan.peers }
    requires candidate { contender_from tables.now client prefix one.peer ≡ Some one }
    requires candidates { AreCandidates tables.now client prefix candidates.now }
    ensures { IfOk result (IsDecided tables.now client one.peer prefix) }
{
    let plan = tables.plan();
    // For the prover: the plan has no fault, so each peer has an address of its own.
    let _count = plan.count();
    peers_have_addresses_of_their_own();
    the_choice_is_unbeaten();
    let Some(best) = candidates.best else {
        unreachable!()
    };
    if best.peer == one.peer {
        return Ok(Explanation::Best(other_peers(alloc, &candidates.all, one.peer)?));
    }
    match removed_by(&STEPS, &candidates.all, &one, &best) {
        Some(removal) => Ok(Explanation::Lost(removal)),
        None => unreachable!(),
    }
}

// The peers of candidates but one.
fn other_peers(
    alloc: Global,
    contenders: &[Contender],
    peer: usize,
) -> Result<Vec<usize>, AllocError>
    ensures { IfOk result (λ peers. peers.items ≡ other_peers contenders.now peer) }
{
    contenders
        .iter()
        .filter(|one| one.peer != peer)
        .map(|one| one.peer)
        .collect(alloc)
}
