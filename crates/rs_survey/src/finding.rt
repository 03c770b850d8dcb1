//! What is counted on each prefix: by a summary, and of the routes that a client does not get.

ghost use Rattle.std.specs.Prelude.{◌≡◌};
ghost use Rattle.rs_survey.specs.Findings.{key_of, reason_number, step_number};

use rs_choice::Step;
use rs_explain::{ConditionKind, MissingReason};
use rs_import::Filter;

/// The filters of import policy, in the order in which they are asked.
pub const FILTERS: [Filter; 8] = [
    Filter::PrefixLength,
    Filter::RefusedPrefix,
    Filter::PathLengthLimit,
    Filter::RefusedAs,
    Filter::FirstAs,
    Filter::PrefixList,
    Filter::OriginAs,
    Filter::RpkiInvalid,
];

/// What is counted on a prefix. Peers stand by their numbers.
#[derive(Clone, Copy, Debug, PartialEq, Eq)]
pub enum Finding {
    /// This peer has left a route.
    Left(usize),
    /// The route of this peer is not eligible: the first condition that it fails.
    Ineligible(usize, ConditionKind),
    /// Import policy doesn't take in the eligible route of this peer: the first condition that it fails.
    Filtered(usize, Filter),
    /// Export policy refuses to this client, which is given first, the eligible route of this sender that is taken in.
    Refused(usize, usize),
    /// This client, which is given first, gets another route than the candidate of this sender.
    Lost(usize, usize),
    /// This client, which is given first, gets the route of this sender.
    Best(usize, usize),
    /// This step of the decision process removes a candidate of some client.
    Removed(Step),
    /// Some client gets a route now, and would get none if there were one decision for all clients.
    Hidden,
    /// The client whose missing routes are counted does not get the route of this sender, for this reason. A summary
    /// counts none of these.
    Missing(usize, MissingReason),
}

// Three numbers that distinguish a finding from all others: its kind, and what it is about.
#[derive(Clone, Copy)]
pub(crate) struct Key {
    pub(crate) kind: usize,
    pub(crate) first: usize,
    pub(crate) second: usize,
}

impl Finding {
    // The numbers that tell it from others.
    pub(crate) fn key(self) -> Key
        ensures { result ≡ key_of self }
    {
        match self {
            Finding::Left(sender) => make_key(0, sender, 0),
            Finding::Ineligible(sender, condition) => make_key(1, sender, condition as usize),
            Finding::Refused(client, sender) => make_key(2, client, sender),
            Finding::Lost(client, sender) => make_key(3, client, sender),
            Finding::Best(client, sender) => make_key(4, client, sender),
            Finding::Removed(step) => make_key(5, step_number(step), 0),
            Finding::Hidden => make_key(6, 0, 0),
            Finding::Missing(sender, reason) => make_key(7, sender, reason_number(reason)),
            Finding::Filtered(sender, filter) => make_key(8, sender, filter as usize),
        }
    }
}

// The key of these numbers.
fn make_key(kind: usize, first: usize, second: usize) -> Key
    ensures { result ≡ record { kind = kind; first = first; second = second } }
{
    Key {
        kind,
        first,
        second,
    }
}

// The place of a reason among all: conditions, filters, rules, steps.
fn reason_number(reason: MissingReason) -> usize
    ensures { result ≡ reason_number reason }
{
    match reason {
        MissingReason::Ineligible(condition) => condition as usize,
        MissingReason::Filtered(filter) => 3 + filter as usize,
        MissingReason::RefusedByName => 11,
        MissingReason::RefusedByCommunity => 12,
        MissingReason::RefusedByLargeCommunity => 13,
        MissingReason::Lost(step) => 14 + step_number(step),
    }
}

// The place of a step in the decision process.
fn step_number(step: Step) -> usize
    ensures { result ≡ step_number step }
{
    step as usize
}
