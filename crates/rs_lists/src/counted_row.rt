//! How many routes of each sender a client does not get, for each reason.

ghost use Rattle.std.specs.Prelude.{◌<◌};

use crate::layout::{ANSWER_WIDTH, AS_WIDTH, REASON_WIDTH};
use crate::wanted::Wanted;
use rs_choice::{Exchange, Step};
use rs_explain::{ConditionKind, MissingReason};
use rs_glass_shell::{hand_peer, name_width, reason_answer, reason_key};
use rs_rows::{Column, Form, RowWriter};
use rs_survey::{Filter, Finding, Tally};
use std::alloc::{AllocError, Global};

// The columns, with that of peers so wide.
fn count_columns(names: usize) -> [Column; 5] {
    [
        Column::new("peer", "peer", names),
        Column::new("as", "AS", AS_WIDTH),
        Column::new("answer", "answer", ANSWER_WIDTH),
        Column::new("reason", "reason", REASON_WIDTH),
        Column::new("routes", "routes", 0),
    ]
}

// The reasons, in the order in which they are listed. The row of communities counts large ones too.
const REASONS: [MissingReason; 19] = [
    MissingReason::Ineligible(ConditionKind::OwnAs),
    MissingReason::Ineligible(ConditionKind::ServerAsNextHop),
    MissingReason::Ineligible(ConditionKind::NextHopOffExchange),
    MissingReason::Filtered(Filter::PrefixLength),
    MissingReason::Filtered(Filter::RefusedPrefix),
    MissingReason::Filtered(Filter::PathLengthLimit),
    MissingReason::Filtered(Filter::RefusedAs),
    MissingReason::Filtered(Filter::FirstAs),
    MissingReason::Filtered(Filter::PrefixList),
    MissingReason::Filtered(Filter::OriginAs),
    MissingReason::Filtered(Filter::RpkiInvalid),
    MissingReason::RefusedByName,
    MissingReason::RefusedByCommunity,
    MissingReason::Lost(Step::Preference),
    MissingReason::Lost(Step::PathLength),
    MissingReason::Lost(Step::Origin),
    MissingReason::Lost(Step::Med),
    MissingReason::Lost(Step::Identifier),
    MissingReason::Lost(Step::Address),
];

// The counts, a row for each sender and reason that are wanted and of which there are routes.
pub(crate) fn counts_text(
    alloc: Global,
    plan: &Exchange,
    form: Form,
    wanted: Wanted,
    counts: &Tally,
) -> Result<String, AllocError> {
    let columns = count_columns(name_width(plan, "peer"));
    let mut rows = RowWriter::new(alloc, form, &columns);
    rows.titles();
    for peer in 0..counts.peers() {
        hand_sender(&mut rows, plan, wanted, counts, peer);
    }
    rows.take()
}

// Hands over the rows of a sender.
fn hand_sender(
    rows: &mut RowWriter<'_>,
    plan: &Exchange,
    wanted: Wanted,
    counts: &Tally,
    peer: usize,
)
    requires { peer < counts.now.peers }
{
    for reason in REASONS {
        let count = count_of_row(wanted, counts, peer, reason);
        if count > 0 {
            hand_peer(rows, plan, peer);
            rows.text("answer", reason_answer(reason));
            rows.text("reason", reason_key(reason));
            rows.number("routes", count);
            rows.end_row();
        }
    }
}

// How many routes of a sender the row of a reason counts.
fn count_of_row(wanted: Wanted, counts: &Tally, peer: usize, reason: MissingReason) -> u64
    requires { peer < counts.now.peers }
{
    let count = count_wanted(wanted, counts, peer, reason);
    if reason != MissingReason::RefusedByCommunity {
        return count;
    }
    let large = MissingReason::RefusedByLargeCommunity;
    count.saturating_add(count_wanted(wanted, counts, peer, large))
}

// How many routes of a sender have a reason, if that is wanted.
fn count_wanted(wanted: Wanted, counts: &Tally, peer: usize, reason: MissingReason) -> u64
    requires { peer < counts.now.peers }
{
    if wanted.asks_for(reason) {
        counts.count(Finding::Missing(peer, reason))
    } else {
        0
    }
}
