//! The decision process (RFC 4271, sections 9.1.1 and 9.1.2.2), in one pass over at most 256 entrants: those
//! that the six steps leave.
//!
//! MED is compared within one neighbour AS alone. So the pass looks at the entrants that the first three steps
//! leave, and keeps one for each neighbour AS. That is the one of least MED, and among equals the one that goes
//! before by identifier, address and place. The choice is the one of these that goes before all others.

ghost use Rattle.std.specs.Prelude.{◌≡◌, ◌<◌, ◌≤◌, ◌+◌, ◌↔◌, IsTrue, Some, length};
ghost use Rattle.std.specs.List.{All};
ghost use Rattle.rs_choice.specs.Decision.{standing_of_candidate, choice, member_at, place_of_choice};
ghost use Rattle.rs_choice.specs.Grouping.{places_of, standing_in, AreGroups, BeatsInGroup, GoesBeforeSome, IsFirstOf};
ghost use Rattle.rs_choice.specs.Grouping.{IsJoined, IsLevelWithSome, LeadsAll};

use crate::candidate::{Candidate, Placed, Standing};
use crate::entrants::{Entrants, Listed};
use crate::exchange::Exchange;
use crate::neighbour_groups::{Group, NeighbourGroups};
use crate::plan::MAX_PEERS;

impl Exchange {
    /// The choice among at most 256 candidates, as `choose` gives it, but in one pass by neighbour groups. It takes
    /// no memory. `rs_survey` calls it for a summary; `choose_for_all` makes such a pass over the routes of a table.
    pub fn choose_by_groups(&self, candidates: &[Candidate]) -> Option<usize>
        requires known { All (λ candidate. candidate.peer < length self.now.peers) candidates.now }
        requires bound { length candidates.now ≤ MAX_PEERS }
        ensures place { result ≡ place_of_choice (standing_of_candidate self.now) candidates.now }
        ensures member { member_at candidates.now result ≡ choice (standing_of_candidate self.now) candidates.now }
    {
        let entrants = Listed {
            plan: self,
            candidates,
        };
        let mut groups = NeighbourGroups::new();
        group_all(&entrants, &mut groups);
        first_of(&entrants, &groups).map(|first| first.place)
    }
}

// Puts the groups of all entrants in the place of others.
pub(crate) fn group_all<E: Entrants>(entrants: &E, groups: &mut NeighbourGroups)
    requires bound { length (E.standings entrants.now) ≤ MAX_PEERS }
    ensures { AreGroups (standing_in (E.standings entrants.now)) (length (E.standings entrants.now)) groups.new }
{
    groups.clear();
    let mut leader = None;
    for place in 0..entrants.count() {
        leader = Some(take_in(entrants, groups, leader, place));
    }
}

// Takes one more entrant into the groups: it begins them anew, joins them or is left out. The leader is equal to all
// entrants that stand for groups, by the first three steps; None if there is no group. The answer is the leader of
// the new groups.
fn take_in<E: Entrants>(
    entrants: &E,
    groups: &mut NeighbourGroups,
    leader: Option<Standing>,
    place: usize,
) -> Standing
    requires bound { length (E.standings entrants.now) ≤ MAX_PEERS }
    requires within { place < length (E.standings entrants.now) }
    requires grouped { AreGroups (standing_in (E.standings entrants.now)) place groups.old }
    requires leads { LeadsAll (standing_in (E.standings entrants.now)) groups.old leader }
    ensures grouped { AreGroups (standing_in (E.standings entrants.now)) (place + 1) groups.new }
    ensures leads { LeadsAll (standing_in (E.standings entrants.now)) groups.new (Some result) }
{
    let Some(leader) = leader else {
        let standing = entrants.standing(place);
        groups.restart(Group::of(place, &standing));
        return standing;
    };
    if entrants.is_behind(place, &leader) {
        return leader;
    }
    let standing = entrants.standing(place);
    if standing.is_ahead_of(&leader) {
        groups.restart(Group::of(place, &standing));
        return standing;
    }
    join(entrants, groups, place, &standing);
    leader
}

// Takes an entrant into the groups that is equal to theirs by the first three steps.
fn join<E: Entrants>(entrants: &E, groups: &mut NeighbourGroups, place: usize, standing: &Standing)
    requires bound { length (E.standings entrants.now) ≤ MAX_PEERS }
    requires within { place < length (E.standings entrants.now) }
    requires grouped { AreGroups (standing_in (E.standings entrants.now)) place groups.old }
    requires is_standing { standing.now ≡ standing_in (E.standings entrants.now) place }
    requires level { IsLevelWithSome (standing_in (E.standings entrants.now)) place (places_of groups.old) }
    ensures { AreGroups (standing_in (E.standings entrants.now)) (place + 1) groups.new }
{
    let Some(number) = groups.find(standing.neighbour) else {
        groups.push(Group::of(place, standing));
        return;
    };
    let group = groups.group(number);
    let held = entrants.standing(usize::from(group.place));
    groups.replace(number, joined(&group, &held, place, standing));
}

// A group with one more entrant of its neighbour AS: the one that stands for both.
fn joined(group: &Group, held: &Standing, place: usize, standing: &Standing) -> Group
    requires { place < MAX_PEERS }
    ensures { IsJoined group.now held.now place standing.now result }
{
    let beats = beats_in_group(standing, held);
    Group {
        place: if beats { place as u8 } else { group.place },
        keeps_out: group.keeps_out || standing.med != held.med,
        neighbour: group.neighbour,
    }
}

// Of the entrants that stand for groups, the one that goes before all others.
pub(crate) fn first_of<E: Entrants>(entrants: &E, groups: &NeighbourGroups) -> Option<Placed>
    requires grouped { AreGroups (standing_in (E.standings entrants.now))
        (length (E.standings entrants.now)) groups.now }
    ensures { IsFirstOf (standing_in (E.standings entrants.now)) (places_of groups.now)
        (length (places_of groups.now)) result }
{
    let mut first: Option<Placed> = None;
    for number in 0..groups.len() {
        let place = usize::from(groups.group(number).place);
        let placed = Placed {
            place,
            standing: entrants.standing(place),
        };
        if goes_before(&placed, &first) {
            first = Some(placed);
        }
    }
    first
}

// Whether one of two entrants from the same neighbour AS goes before by MED, identifier and address.
fn beats_in_group(one: &Standing, held: &Standing) -> bool
    ensures { IsTrue result ↔ BeatsInGroup one.now held.now }
{
    one.med < held.med || (one.med == held.med && one.precedes(held))
}

// Whether an entrant goes before the first, if there is one, by identifier, address and place.
fn goes_before(one: &Placed, first: &Option<Placed>) -> bool
    ensures { IsTrue result ↔ GoesBeforeSome one.now first.now }
{
    match first {
        None => true,
        Some(first) => one.goes_before(first),
    }
}
