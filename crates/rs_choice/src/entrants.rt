//! What takes part in a decision: standings, each asked for by its place.

ghost use Rattle.std.specs.Prelude.{◌≡◌, ◌<◌, ◌↔◌, IsTrue, List, length};
ghost use Rattle.rs_choice.specs.declared.candidate.Standing.{Standing};
ghost use Rattle.rs_choice.specs.Comparison.{IsAhead};
ghost use Rattle.rs_choice.specs.Grouping.{standing_in};

use crate::candidate::{Candidate, Standing};
use crate::exchange::Exchange;
use crate::held_route::HeldRoute;
use crate::places::Places;
use std::marker::Model;

// A list of standings.
pub(crate) trait Entrants {
    // The standings, in order.
    ghost standings: { Self → List Standing };

    // How many there are.
    fn count(&self) -> usize
        ensures { result ≡ length (standings self.now) };

    // The standing at a place.
    fn standing(&self, place: usize) -> Standing
        requires { place < length (standings self.now) }
        ensures { result ≡ standing_in (standings self.now) place };

    // Whether the leader is before the entrant at a place by preference, path length and origin.
    fn is_behind(&self, place: usize, leader: &Standing) -> bool
        requires { place < length (standings self.now) }
        ensures { IsTrue result ↔ IsAhead leader.now (standing_in (standings self.now) place) };
}

// The candidates of a list.
#[derive(Drop)]
pub(crate) struct Listed<'a> {
    pub(crate) plan: &'a Exchange,
    pub(crate) candidates: &'a [Candidate<'a>],
}

impl<'a> Model for Listed<'a> {
    ghost use Rattle.std.specs.Prelude.{List};
    ghost use Rattle.rs_choice.specs.declared.candidate.Standing.{Standing};

    ghost Value = { List Standing };

    ghost use Rattle.rs_choice.specs.Entrants.{listed_view, AreKnown};

    ghost view = { listed_view };

    ghost invariant = { AreKnown };
}

impl<'a> Entrants for Listed<'a> {
    ghost standings = { λ standings. standings };

    fn count(&self) -> usize {
        self.candidates.len()
    }

    fn standing(&self, place: usize) -> Standing {
        self.plan.standing(&self.candidates[place])
    }

    fn is_behind(&self, place: usize, leader: &Standing) -> bool {
        leader.is_ahead_of(&self.standing(place))
    }
}

// The routes at some places among those that are stored on a prefix.
#[derive(Drop)]
pub(crate) struct Chosen<'a> {
    pub(crate) plan: &'a Exchange,
    pub(crate) held: &'a [HeldRoute],
    pub(crate) places: &'a Places,
}

impl<'a> Model for Chosen<'a> {
    ghost use Rattle.std.specs.Prelude.{List};
    ghost use Rattle.rs_choice.specs.declared.candidate.Standing.{Standing};

    ghost Value = { List Standing };

    ghost use Rattle.rs_choice.specs.Entrants.{chosen_view, AreHeld};

    ghost view = { chosen_view };

    ghost invariant = { AreHeld };
}

impl<'a> Entrants for Chosen<'a> {
    ghost standings = { λ standings. standings };

    fn count(&self) -> usize {
        self.places.len()
    }

    fn standing(&self, place: usize) -> Standing {
        self.plan
            .held_standing(&self.held[self.places.place(place)])
    }

    fn is_behind(&self, place: usize, leader: &Standing) -> bool {
        self.plan
            .leaves_behind(leader, &self.held[self.places.place(place)])
    }
}
