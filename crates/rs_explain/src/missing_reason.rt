//! The reason for which a client does not get a route, without what belongs to it.

ghost use Rattle.std.specs.Prelude.{◌≡◌};
ghost use Rattle.rs_explain.specs.MissingReasons.{reason_in, reason_of_refusal};

use crate::condition::ConditionKind;
use crate::explanation::Explanation;
use crate::refusal::Refusal;
use rs_choice::Step;
use rs_import::Filter;

/// The reason for which a client does not get a route.
#[derive(Clone, Copy, Debug, PartialEq, Eq)]
pub enum MissingReason {
    /// The route fails this condition of eligibility.
    Ineligible(ConditionKind),
    /// This filter of import policy doesn't take the route in.
    Filtered(Filter),
    /// The client refuses all routes of the sender, by its name.
    RefusedByName,
    /// A community of the route refuses it.
    RefusedByCommunity,
    /// A large community of the route refuses it.
    RefusedByLargeCommunity,
    /// This step of the decision process removes it.
    Lost(Step),
}

impl MissingReason {
    /// The reason that an explanation has; none of a route that the client gets or that isn't there, and of its own.
    pub fn of(explanation: &Explanation) -> Option<MissingReason>
        ensures { result ≡ reason_in explanation.now }
    {
        match explanation {
            Explanation::Own => None,
            Explanation::Absent => None,
            Explanation::Ineligible(condition) => {
                Some(MissingReason::Ineligible(condition.kind()))
            }
            Explanation::Filtered(failed) => Some(MissingReason::Filtered(failed.filter())),
            Explanation::Refused(refusal) => Some(reason_of_refusal(*refusal)),
            Explanation::Best(_) => None,
            Explanation::Lost(removal) => Some(MissingReason::Lost(removal.step)),
        }
    }
}

// A refusing rule as a reason.
fn reason_of_refusal(refusal: Refusal) -> MissingReason
    ensures { result ≡ reason_of_refusal refusal }
{
    match refusal {
        Refusal::ByName => MissingReason::RefusedByName,
        Refusal::ToClient(_) => MissingReason::RefusedByCommunity,
        Refusal::LargeToClient { .. } => MissingReason::RefusedByLargeCommunity,
        Refusal::ToAll(_) => MissingReason::RefusedByCommunity,
        Refusal::LargeToAll(_) => MissingReason::RefusedByLargeCommunity,
    }
}
