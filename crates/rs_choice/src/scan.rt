//! The decision process for lists of any length (RFC 4271, sections 9.1.1 and 9.1.2.2).
//!
//! The first pass over the list finds a candidate that the first three steps leave. The second pass finds the
//! choice, with a look at all others for a lower MED.

ghost use Rattle.std.specs.Prelude.{◌≡◌, ◌<◌, ◌↔◌, IsTrue, length};
ghost use Rattle.std.specs.List.{All};
ghost use Rattle.rs_choice.specs.Decision.{standing_of_candidate, choice, member_at, place_of_choice};
ghost use Rattle.rs_choice.specs.Scan.{GoesFirst, HasLeastMed, IsBest, IsLeader, Leads};

use crate::candidate::{Candidate, Placed, Standing};
use crate::exchange::Exchange;
use crate::step::Step;

impl Exchange {
    /// The place of the choice among the candidates: the one that the six steps of the decision process leave. Each
    /// step looks at the whole set that the step before left. If several candidates of one peer are left, it is the
    /// first place. It is None for an empty list. The call takes no memory.
    ///
    /// The program itself doesn't call it, since it decides among the routes of its tables (`choose_for_all`).
    /// Callers with a list of candidates may.
    pub fn choose(&self, candidates: &[Candidate]) -> Option<usize>
        requires { All (λ candidate. candidate.peer < length self.now.peers) candidates.now }
        ensures place { result ≡ place_of_choice (standing_of_candidate self.now) candidates.now }
        ensures member { member_at candidates.now result ≡ choice (standing_of_candidate self.now) candidates.now }
    {
        self.best(candidates).map(|best| best.place)
    }

    // The first in order of those that the first four steps leave, by identifier, address and place; None of
    // an empty list.
    fn best(&self, candidates: &[Candidate]) -> Option<Placed>
        requires { All (λ candidate. candidate.peer < length self.now.peers) candidates.now }
        ensures { IsBest self.now candidates.now (length candidates.now) result }
    {
        let leader = self.leader(candidates)?;
        let mut best: Option<Placed> = None;
        for (place, candidate) in candidates.iter().enumerate() {
            let standing = self.standing(candidate);
            if standing.is_level_with(&leader)
                && self.has_least_med(candidates, &standing)
                && goes_first(&standing, &best)
            {
                best = Some(Placed { place, standing });
            }
        }
        best
    }

    // The standing of a candidate such that no other is before it by the first three steps; None for an empty list.
    fn leader(&self, candidates: &[Candidate]) -> Option<Standing>
        requires { All (λ candidate. candidate.peer < length self.now.peers) candidates.now }
        ensures { IsLeader self.now candidates.now (length candidates.now) result }
    {
        let mut leader: Option<Standing> = None;
        for candidate in candidates {
            let standing = self.standing(candidate);
            if leads(&standing, &leader) {
                leader = Some(standing);
            }
        }
        leader
    }

    // Whether no candidate that is equal by the first three steps has a lower MED from the same neighbour AS.
    fn has_least_med(&self, candidates: &[Candidate], one: &Standing) -> bool
        requires { All (λ candidate. candidate.peer < length self.now.peers) candidates.now }
        ensures { IsTrue result ↔ HasLeastMed self.now candidates.now one.now }
    {
        for candidate in candidates {
            let other = self.standing(candidate);
            if other.is_level_with(one) && Step::Med.beats(&other, one) {
                return false;
            }
        }
        true
    }
}

// Whether a standing is before the leader by the first three steps; true if there is no leader.
fn leads(standing: &Standing, leader: &Option<Standing>) -> bool
    ensures { IsTrue result ↔ Leads standing.now leader.now }
{
    match leader {
        None => true,
        Some(leader) => standing.is_ahead_of(leader),
    }
}

// Whether a standing goes before the best by the last two steps, if there is one.
fn goes_first(standing: &Standing, best: &Option<Placed>) -> bool
    ensures { IsTrue result ↔ GoesFirst standing.now best.now }
{
    match best {
        None => true,
        Some(best) => standing.precedes(&best.standing),
    }
}
