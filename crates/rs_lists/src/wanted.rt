//! Which of the routes that a client does not get are listed or counted.

use rs_choice::Step;
use rs_explain::{ConditionKind, MissingReason};
use rs_query::AskedReason;
use rs_survey::Filter;

// Which of them: of which sender, for which answer or reason, and to which prefixes.
#[derive(Clone, Copy, Debug, PartialEq, Eq)]
pub(crate) struct Wanted {
    // The number of the sender; none for all senders.
    pub(crate) from: Option<usize>,
    // The answer or the reason; none for all of them.
    pub(crate) because: Option<AskedReason>,
    // Whether only those to prefixes for which the client gets no route at all.
    pub(crate) gets_none: bool,
}

impl Wanted {
    // Whether the routes of the sender that have a reason are among them.
    pub(crate) fn asks_for(&self, reason: MissingReason) -> bool {
        match self.because {
            Some(asked) => is_of(reason, asked),
            None => true,
        }
    }
}

// Whether a reason is the one that is asked for, or one of the answer that is asked for.
fn is_of(reason: MissingReason, asked: AskedReason) -> bool {
    match reason {
        MissingReason::Ineligible(condition) => {
            asked == AskedReason::Ineligible || asked == asked_condition(condition)
        }
        MissingReason::Filtered(filter) => {
            asked == AskedReason::Filtered || asked == asked_filter(filter)
        }
        MissingReason::RefusedByName => {
            matches!(asked, AskedReason::Refused | AskedReason::RefusedByName)
        }
        MissingReason::RefusedByCommunity => matches!(
            asked,
            AskedReason::Refused | AskedReason::RefusedByCommunity
        ),
        MissingReason::RefusedByLargeCommunity => matches!(
            asked,
            AskedReason::Refused
                | AskedReason::RefusedByCommunity
                | AskedReason::RefusedByLargeCommunity
        ),
        MissingReason::Lost(step) => asked == AskedReason::Lost || asked == asked_step(step),
    }
}

// The reason by which the routes are asked for that fail a condition of eligibility.
fn asked_condition(condition: ConditionKind) -> AskedReason {
    match condition {
        ConditionKind::OwnAs => AskedReason::ServerAsInPath,
        ConditionKind::ServerAsNextHop => AskedReason::ServerAddressAsNextHop,
        ConditionKind::NextHopOffExchange => AskedReason::NextHopOffExchange,
    }
}

// The reason by which the routes are asked for that a filter does not take in.
fn asked_filter(filter: Filter) -> AskedReason {
    match filter {
        Filter::PrefixLength => AskedReason::PrefixLength,
        Filter::RefusedPrefix => AskedReason::RefusedPrefix,
        Filter::PathLengthLimit => AskedReason::PathLengthLimit,
        Filter::RefusedAs => AskedReason::RefusedAs,
        Filter::FirstAs => AskedReason::FirstAs,
        Filter::PrefixList => AskedReason::PrefixList,
        Filter::OriginAs => AskedReason::OriginAs,
        Filter::RpkiInvalid => AskedReason::RpkiInvalid,
    }
}

// The reason by which the routes are asked for that a step removes.
fn asked_step(step: Step) -> AskedReason {
    match step {
        Step::Preference => AskedReason::Preference,
        Step::PathLength => AskedReason::PathLength,
        Step::Origin => AskedReason::Origin,
        Step::Med => AskedReason::Med,
        Step::Identifier => AskedReason::Identifier,
        Step::Address => AskedReason::Address,
    }
}
