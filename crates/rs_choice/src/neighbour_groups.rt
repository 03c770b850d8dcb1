//! The entrants that each stand for a neighbour AS, in arrays, which take no memory.
//!
//! Each route of a decision looks for the group of its neighbour AS. So that it need not look at all groups, they
//! are in chains. Groups whose neighbour AS is equal in its low bits are in one chain, the latest first.

ghost use Rattle.std.specs.Prelude.{◌≡◌, ◌<◌, ◌≤◌, [], ◌∷◌, ◌++◌, false, length, slice_get, slice_set, IfSome, Some};
ghost use Rattle.rs_choice.specs.Grouping.{IsNeighboursGroup};
ghost use Rattle.rs_choice.specs.GroupsView.{chain_of, mark_of};

use crate::candidate::Standing;
use crate::plan::MAX_PEERS;
use std::marker::Model;

/// How many chains there are, one for each value of the low six bits of an AS number.
pub(crate) const CHAINS: usize = 64;

/// The entrant that stands for all entrants of its neighbour AS.
#[derive(Clone, Copy)]
pub(crate) struct Group {
    // The place of the entrant.
    pub(crate) place: u8,
    // Whether the entrant removes another one, which has a higher MED.
    pub(crate) keeps_out: bool,
    // The neighbour AS.
    pub(crate) neighbour: u32,
}

impl Group {
    // A group of one entrant.
    pub(crate) fn of(place: usize, standing: &Standing) -> Group
        requires { place < MAX_PEERS }
        ensures { result ≡ record { place = place; keeps_out = false; neighbour = standing.now.neighbour } }
    {
        Group {
            place: place as u8,
            keeps_out: false,
            neighbour: standing.neighbour,
        }
    }
}

// A group without its neighbour AS.
#[derive(Clone, Copy)]
pub(crate) struct Mark {
    place: u8,
    keeps_out: bool,
}

impl Mark {
    // The neighbour AS of a group.
    fn of(group: &Group) -> Mark
        ensures { result ≡ mark_of group.now }
    {
        Mark {
            place: group.place,
            keeps_out: group.keeps_out,
        }
    }
}

/// At most 256 groups, in order. The neighbour ASes have an array of their own: a look-up reads them alone,
/// and two small arrays are filled more quickly than one of padded groups.
#[derive(Drop)]
pub(crate) struct NeighbourGroups {
    marks: [Mark; MAX_PEERS],
    neighbours: [u32; MAX_PEERS],
    // For each chain the last group in it, and for each group the one before it in its chain. If there is none, the
    // number is a rest of an earlier decision. The neighbour AS at that number shows this, so nothing is cleared
    // between decisions.
    latest: [u8; CHAINS],
    earlier: [u8; MAX_PEERS],
    len: usize,
}

impl Model for NeighbourGroups {
    ghost use Rattle.std.specs.Prelude.{List};
    ghost use Rattle.rs_choice.specs.declared.neighbour_groups.Group.{Group};

    ghost Value = { List Group };

    ghost use Rattle.rs_choice.specs.GroupsView.{groups_view, AreFull};

    ghost view = { groups_view };

    ghost invariant = { AreFull };
}

impl NeighbourGroups {
    // No group.
    pub(crate) fn new() -> NeighbourGroups
        ensures { result ≡ [] }
    {
        let unseen = Mark {
            place: 0,
            keeps_out: false,
        };
        NeighbourGroups {
            marks: [unseen; MAX_PEERS],
            neighbours: [0; MAX_PEERS],
            latest: [0; CHAINS],
            earlier: [0; MAX_PEERS],
            len: 0,
        }
    }

    // How many groups there are.
    pub(crate) fn len(&self) -> usize
        ensures value { result ≡ length self.now }
        ensures bound { result ≤ MAX_PEERS }
    {
        self.len
    }

    // The group of a number.
    pub(crate) fn group(&self, number: usize) -> Group
        requires { number < length self.now }
        ensures { slice_get self.now number ≡ Some result }
    {
        let marks = &self.marks;
        let neighbours = &self.neighbours;
        let mark = marks[number];
        Group {
            place: mark.place,
            keeps_out: mark.keeps_out,
            neighbour: neighbours[number],
        }
    }

    // The number of the group of a neighbour AS, if there is one: its chain is followed from the last group on.
    pub(crate) fn find(&self, neighbour: u32) -> Option<usize>
        ensures { IsNeighboursGroup self.now neighbour result }
    {
        let neighbours = &self.neighbours;
        let earlier = &self.earlier;
        let chain = chain_of(neighbour);
        let mut end = self.len;
        let mut number = usize::from(self.latest[chain]);
        while number < end {
            let found = neighbours[number];
            if found == neighbour {
                return Some(number);
            }
            if chain_of(found) != chain {
                return None;
            }
            end = number;
            number = usize::from(earlier[number]);
        }
        None
    }

    // Drops all groups.
    pub(crate) fn clear(&mut self)
        ensures { self.new ≡ [] }
    {
        self.len = 0;
    }

    // Drops all groups but this one.
    pub(crate) fn restart(&mut self, group: Group)
        ensures { self.new ≡ group ∷ [] }
    {
        self.clear();
        self.push(group);
    }

    // Adds a group, which comes first in its chain.
    pub(crate) fn push(&mut self, group: Group)
        requires { length self.old < MAX_PEERS }
        ensures { self.new ≡ self.old ++ group ∷ [] }
    {
        let number = self.len();
        let chain = chain_of(group.neighbour);
        self.marks[number] = Mark::of(&group);
        self.neighbours[number] = group.neighbour;
        self.earlier[number] = self.latest[chain];
        self.latest[chain] = number as u8;
        self.len = number + 1;
    }

    // Puts a group in the place of another of its neighbour AS.
    pub(crate) fn replace(&mut self, number: usize, group: Group)
        requires number { number < length self.old }
        requires neighbour { IfSome (slice_get self.old number) (λ held. group.neighbour ≡ held.neighbour) }
        ensures { self.new ≡ slice_set self.old number group }
    {
        let marks = &mut self.marks;
        marks[number] = Mark::of(&group);
    }
}

// The chain of a neighbour AS.
fn chain_of(neighbour: u32) -> usize
    ensures { result ≡ chain_of neighbour }
{
    neighbour as usize % CHAINS
}
