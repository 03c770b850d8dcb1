//! The six steps of the decision process, in their order (RFC 4271, sections 9.1.1 and 9.1.2.2).
//!
//! All peers are external and no interior cost is known, so the RFC's steps d and e remove nothing and are left out.

ghost use Rattle.std.specs.Prelude.{◌≡◌, ◌↔◌, IsTrue};
ghost use Rattle.rs_choice.specs.Comparison.{IsAhead, IsLevel, OutdoesByMed, Precedes};
ghost use Rattle.rs_choice.specs.Decision as spec;

use crate::candidate::Standing;

/// A step of the decision process: it removes each candidate that another one of the set beats.
#[derive(Clone, Copy, Debug, PartialEq, Eq)]
pub enum Step {
    /// A higher preference of the sending peer (section 9.1.1).
    Preference,
    /// Fewer AS numbers in AS_PATH, an AS_SET counting 1 (section 9.1.2.2, a).
    PathLength,
    /// A lower ORIGIN (section 9.1.2.2, b).
    Origin,
    /// A lower MULTI_EXIT_DISC from the same neighbour AS (section 9.1.2.2, c).
    Med,
    /// A lower BGP Identifier of the sending peer (section 9.1.2.2, f).
    Identifier,
    /// A lower address of the sending peer (section 9.1.2.2, g).
    Address,
}

impl Step {
    /// Whether one candidate removes another at this step. It takes no memory.
    pub fn beats(self, one: &Standing, other: &Standing) -> bool
        ensures { result ≡ spec.beats self one.now other.now }
    {
        match self {
            Step::Preference => one.preference > other.preference,
            Step::PathLength => one.path_length < other.path_length,
            Step::Origin => one.origin < other.origin,
            Step::Med => one.neighbour == other.neighbour && one.med < other.med,
            Step::Identifier => one.id < other.id,
            Step::Address => one.address < other.address,
        }
    }
}

impl Standing {
    // Whether the first three steps, one after another, remove the other and keep this one.
    pub(crate) fn is_ahead_of(&self, other: &Standing) -> bool
        ensures { IsTrue result ↔ IsAhead self.now other.now }
    {
        Step::Preference.beats(self, other)
            || (self.preference == other.preference
                && (Step::PathLength.beats(self, other)
                    || (self.path_length == other.path_length && Step::Origin.beats(self, other))))
    }

    // Whether the first three steps remove neither of two candidates.
    pub(crate) fn is_level_with(&self, other: &Standing) -> bool
        ensures { IsTrue result ↔ IsLevel self.now other.now }
    {
        self.preference == other.preference
            && self.path_length == other.path_length
            && self.origin == other.origin
    }

    // Whether the last two steps, one after another, remove the other and keep this one.
    pub(crate) fn precedes(&self, other: &Standing) -> bool
        ensures { IsTrue result ↔ Precedes self.now other.now }
    {
        Step::Identifier.beats(self, other)
            || (self.id == other.id && Step::Address.beats(self, other))
    }

    // Whether the last three steps, one after another, remove the other and keep this one, of two from one
    // neighbour AS.
    pub(crate) fn outdoes_by_med(&self, other: &Standing) -> bool
        ensures { IsTrue result ↔ OutdoesByMed self.now other.now }
    {
        self.neighbour == other.neighbour
            && (self.med < other.med || (self.med == other.med && self.precedes(other)))
    }
}
