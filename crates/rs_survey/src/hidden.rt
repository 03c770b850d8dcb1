//! Whether one decision for all clients would hide every route on a prefix from some client (RFC 7947, section 2.3.1).

ghost use Rattle.std.specs.Prelude.{◌≡◌, ◌<◌, ◌≤◌, ℕ, false, is_none, IfOk, IfSome, filter, length, map};
ghost use Rattle.std.specs.List.{All};
ghost use Rattle.std.specs.Option.{option_map_or};
ghost use Rattle.rs_choice.specs.Clients.{is_sent_to};
ghost use Rattle.rs_choice.specs.Decision.{member_at};
ghost use Rattle.rs_table.specs.PrefixRoutes.{AreRoutesOf, entry_of};
ghost use Rattle.rs_table.specs.Table.{accepted_on};
ghost use Rattle.rs_survey.specs.Seen.{IsSeen, candidate_of_seen, is_open_to, sent_of_seen};
ghost use Rattle.rs_survey.specs.Summary as spec;

use crate::seen::Seen;
use rs_choice::{Candidate, Exchange, MAX_PEERS};
use rs_table::{PrefixRoutes, Tables};
use std::alloc::{AllocError, Global};

// The route that would be chosen if there were one decision for all clients: among all eligible routes that are taken
// in.
pub(crate) fn shared_choice<'a>(
    alloc: Global,
    plan: &Exchange,
    seen: &[Seen<'a>],
) -> Result<Option<Candidate<'a>>, AllocError>
    requires seen { All (IsSeen plan.now) seen.now }
    requires bound { length seen.now ≤ MAX_PEERS }
    ensures known { IfOk result (λ shared. IfSome shared (λ one. one.peer < length plan.now.peers)) }
    ensures sent { IfOk result (λ shared. (client : ℕ) → is_open_to plan.now shared client
        ≡ option_map_or (is_sent_to plan.now client) (spec.shared_choice plan.now (map sent_of_seen seen.now)) false) }
{
    let eligible = eligible(alloc, seen)?;
    let place = plan.choose_by_groups(&eligible);
    Ok(member(&eligible, place))
}

// The eligible routes.
fn eligible<'a>(alloc: Global, seen: &[Seen<'a>]) -> Result<Vec<Candidate<'a>>, AllocError>
    ensures { IfOk result (λ all. all.items ≡ map candidate_of_seen (filter (λ one. is_none one.failed) seen.now)) }
{
    seen.iter()
        .filter(|one| one.failed.is_none())
        .map(|one| Candidate {
            peer: one.route.peer,
            attributes: one.route.attributes,
        })
        .collect(alloc)
}

// The candidate at a place, if there is one.
fn member<'a>(candidates: &[Candidate<'a>], place: Option<usize>) -> Option<Candidate<'a>>
    ensures { result ≡ member_at candidates.now place }
{
    match place {
        Some(place) => candidates.get(place).copied(),
        None => None,
    }
}

// Whether some client gets a route now, and would get none if only the shared choice were sent, to those to which it is
// permitted.
#[tactic(auto, unfolding(crate::specs::Summary::is_hiding))]
pub(crate) fn is_hiding(tables: &Tables, on: &PrefixRoutes, shared: &Option<Candidate>) -> bool
    requires routes { AreRoutesOf tables.now (entry_of on.now) }
    requires known { IfSome shared.now (λ one. one.peer < length tables.now.plan.peers) }
    requires shared { (client : ℕ) → is_open_to tables.now.plan shared.now client
        ≡ option_map_or (is_sent_to tables.now.plan client)
        (spec.shared_choice tables.now.plan (accepted_on tables.now on.now.prefix)) false }
    ensures { result ≡ spec.is_hiding tables.now.plan (accepted_on tables.now on.now.prefix) }
{
    let plan = tables.plan();
    let mut hides = false;
    for client in 0..tables.count() {
        hides = hides || (on.best(client).is_some() && !is_open_to(plan, shared, client));
    }
    hides
}

// Whether a candidate, if there is one, is permitted to a client.
fn is_open_to(plan: &Exchange, candidate: &Option<Candidate>, client: usize) -> bool
    requires client_known { client < length plan.now.peers }
    requires known { IfSome candidate.now (λ one. one.peer < length plan.now.peers) }
    ensures { result ≡ is_open_to plan.now candidate.now client }
{
    match candidate {
        Some(one) => plan.permits(client, one.peer, one.attributes),
        None => false,
    }
}
