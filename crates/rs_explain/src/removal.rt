//! The step of the decision process that removes a candidate (RFC 4271, sections 9.1.1 and 9.1.2.2).

ghost use Rattle.std.specs.Prelude.{◌≡◌, ◌++◌, ◌∷◌, List, MatchOption, Some};
ghost use Rattle.std.specs.List.{find, Contains};
ghost use Rattle.rs_choice.specs.Decision.{choice, decision_steps, remaining};
ghost use Rattle.rs_choice.specs.declared.step.Step as spec;
ghost use Rattle.rs_explain.specs.Contenders.{standing_in};
ghost use Rattle.rs_explain.specs.Removals.{beats_by_med, rival_of, IsRemoval};

use crate::contender::Contender;
use rs_choice::{Standing, Step};

/// How the decision process removes a candidate.
#[derive(Clone, Copy, Debug, PartialEq, Eq)]
pub struct Removal {
    /// The step that removes it.
    pub step: Step,
    /// The candidate that is removed.
    pub loser: Contender,
    /// A candidate that reaches the same step and beats it there: the one that the client gets, where that does.
    pub rival: Contender,
}

/// The steps of the decision process, in their order.
pub const STEPS: [Step; 6] = [
    Step::Preference,
    Step::PathLength,
    Step::Origin,
    Step::Med,
    Step::Identifier,
    Step::Address,
];

// How the steps of the decision process remove a candidate of a set; None if all of them leave it. The best one is
// the choice of the set. If it beats the candidate, it is the one that is named.
pub(crate) fn removed_by(
    steps: &[Step],
    set: &[Contender],
    loser: &Contender,
    best: &Contender,
) -> Option<Removal>
    requires steps { steps.now ≡ decision_steps }
    requires inside { Contains set.now loser.now }
    requires chosen { choice standing_in set.now ≡ Some best.now }
    ensures { MatchOption result (Contains (remaining standing_in decision_steps set.now) loser.now)
        (IsRemoval decision_steps set.now best.now loser.now) }
{
    for step in steps {
        if let Some(rival) = rival(*step, set, loser, best) {
            return Some(Removal {
                step: *step,
                loser: *loser,
                rival,
            });
        }
    }
    None
}

// The best one, if it beats a candidate at a step, or else the first of those that reach the step that does. But for
// MED, whoever is removed at a step is beaten there by the best one.
fn rival(step: Step, set: &[Contender], loser: &Contender, best: &Contender) -> Option<Contender>
    requires chosen { choice standing_in set.now ≡ Some best.now }
    ensures { (before : List spec.Step) → (after : List spec.Step) → decision_steps ≡ before ++ step ∷ after
        → result ≡ rival_of step best.now (remaining standing_in before set.now) loser.now }
{
    if step.beats(&best.standing, &loser.standing) {
        return Some(*best);
    }
    match step {
        Step::Med => first_by_med(set, loser, best),
        _ => None,
    }
}

// The first of a set that reaches the step by MED, of those that the best one leaves, and beats a candidate there.
fn first_by_med(set: &[Contender], loser: &Contender, best: &Contender) -> Option<Contender>
    ensures { result ≡ find (λ other. beats_by_med best.now.standing loser.now.standing other.standing) set.now }
{
    set.iter().copied().find(|other| beats_by_med(&best.standing, &loser.standing, &other.standing))
}

/// Whether a candidate that the best one removes at no step before MED beats another one there.
pub fn beats_by_med(best: &Standing, one: &Standing, other: &Standing) -> bool
    ensures { result ≡ beats_by_med best.now one.now other.now }
{
    if Step::Preference.beats(best, other) {
        return false;
    }
    if Step::PathLength.beats(best, other) {
        return false;
    }
    if Step::Origin.beats(best, other) {
        return false;
    }
    Step::Med.beats(other, one)
}
