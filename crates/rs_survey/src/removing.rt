//! The step of the decision process that removes a candidate of a client (RFC 4271, sections 9.1.1 and 9.1.2.2), found
//! by the best one: but for MED, whoever is removed at a step is beaten there by the one that all steps leave.

ghost use Rattle.std.specs.Prelude.{◌≡◌, ◌<◌, length, map};
ghost use Rattle.std.specs.List.{All, list_any};
ghost use Rattle.std.specs.Option.{option_map};
ghost use Rattle.rs_choice.specs.Clients.{candidates_among, chosen_for};
ghost use Rattle.rs_choice.specs.Decision.{decision_steps, standing_of};
ghost use Rattle.rs_explain.specs.Contenders.{contender_of};
ghost use Rattle.rs_survey.specs.Seen.{IsSeen, keeps_out, sent_of_seen, step_by};
ghost use Rattle.rs_survey.specs.Summary.{removed_at};

use crate::seen::{Seen, permits};
use rs_choice::{Exchange, Standing, Step, the_choice_is_unbeaten};
use rs_explain::{Contender, beats_by_med};

// The step that removes a route from the candidates of a client, which gets the best one of the routes seen.
pub(crate) fn removing_step(
    plan: &Exchange,
    client: usize,
    best: &Option<Contender>,
    seen: &[Seen],
    one: &Seen,
) -> Option<Step>
    requires client_known { client < length plan.now.peers }
    requires seen { All (IsSeen plan.now) seen.now }
    requires one { IsSeen plan.now one.now }
    requires best { best.now ≡ option_map (contender_of plan.now)
        (chosen_for plan.now client (map sent_of_seen seen.now)) }
    ensures { result ≡ removed_at (standing_of plan.now) decision_steps
        (candidates_among plan.now client (map sent_of_seen seen.now)) (sent_of_seen one.now) }
{
    the_choice_is_unbeaten();
    match best {
        Some(best) => step_by_best(plan, client, &best.standing, seen, &one.standing),
        None => None,
    }
}

// The same by the best one.
fn step_by_best(
    plan: &Exchange,
    client: usize,
    best: &Standing,
    seen: &[Seen],
    one: &Standing,
) -> Option<Step>
    requires client_known { client < length plan.now.peers }
    requires seen { All (IsSeen plan.now) seen.now }
    ensures { result ≡ step_by best.now one.now
        (list_any (λ other. keeps_out plan.now client best.now one.now (sent_of_seen other)) seen.now) }
{
    if Step::Preference.beats(best, one) {
        Some(Step::Preference)
    } else if Step::PathLength.beats(best, one) {
        Some(Step::PathLength)
    } else if Step::Origin.beats(best, one) {
        Some(Step::Origin)
    } else if is_kept_out(plan, client, best, seen, one) {
        Some(Step::Med)
    } else if Step::Identifier.beats(best, one) {
        Some(Step::Identifier)
    } else if Step::Address.beats(best, one) {
        Some(Step::Address)
    } else {
        None
    }
}

// Whether a candidate of the client that reaches the step by MED beats one there. A MED of 0 is never beaten.
fn is_kept_out(
    plan: &Exchange,
    client: usize,
    best: &Standing,
    seen: &[Seen],
    one: &Standing,
) -> bool
    requires client_known { client < length plan.now.peers }
    requires seen { All (IsSeen plan.now) seen.now }
    ensures { result ≡ list_any (λ other. keeps_out plan.now client best.now one.now (sent_of_seen other)) seen.now }
{
    if one.med == 0 {
        return false;
    }
    let mut found = false;
    for other in seen {
        found = found || keeps_out(plan, client, best, one, other);
    }
    found
}

// Whether a route is such a candidate. Most routes have another neighbour AS, and no more is asked of them.
fn keeps_out(plan: &Exchange, client: usize, best: &Standing, one: &Standing, other: &Seen) -> bool
    requires client_known { client < length plan.now.peers }
    requires seen { IsSeen plan.now other.now }
    ensures { result ≡ keeps_out plan.now client best.now one.now (sent_of_seen other.now) }
{
    if !Step::Med.beats(&other.standing, one) {
        return false;
    }
    if other.failed.is_some() {
        return false;
    }
    if !beats_by_med(best, one, &other.standing) {
        return false;
    }
    permits(plan, client, other)
}
