//! Peers and the reasons of answers as fields of rows.

use crate::import_fields::hand_filtered;
use crate::names::{asn_at, name_at};
use crate::reasons::{origin_name, reason_key};
use rs_choice::{Exchange, Standing, Step};
use rs_explain::{Condition, Explanation, MissingReason, Refusal, Removal};
use rs_rows::{Form, RowWriter};
use rs_update::Prefix;
use std::net::Ipv4Addr;

/// Hands over a peer: its name and its AS number.
pub fn hand_peer(row: &mut RowWriter<'_>, plan: &Exchange, peer: usize) {
    row.text("peer", name_at(plan, peer));
    row.number("as", u64::from(asn_at(plan, peer)));
}

/// Hands over the reason for which a client does not get the route of a peer on a prefix; it is empty for another answer.
/// In JSON the details of the reason follow.
pub fn hand_reason(
    row: &mut RowWriter<'_>,
    plan: &Exchange,
    peer: usize,
    prefix: Prefix,
    explanation: &Explanation,
) {
    let key = match MissingReason::of(explanation) {
        Some(reason) => reason_key(reason),
        None => "",
    };
    row.text("reason", key);
    if row.form() == Form::Json {
        hand_values(row, plan, peer, prefix, explanation);
    }
}

// Hands over what belongs to a reason.
fn hand_values(
    row: &mut RowWriter<'_>,
    plan: &Exchange,
    peer: usize,
    prefix: Prefix,
    explanation: &Explanation,
) {
    match explanation {
        Explanation::Ineligible(Condition::OwnAs(asn)) => row.number("value", u64::from(*asn)),
        Explanation::Ineligible(Condition::ServerAsNextHop(address)) => {
            row.shown("value", &Ipv4Addr::from_bits(*address));
        }
        Explanation::Ineligible(Condition::NextHopOffExchange(address)) => {
            row.shown("value", &Ipv4Addr::from_bits(*address));
        }
        Explanation::Filtered(failed) => hand_filtered(row, plan, prefix, *failed),
        Explanation::Refused(Refusal::ByName) => row.text("name", name_at(plan, peer)),
        Explanation::Refused(Refusal::ToClient(asn)) => hand_community(row, *asn),
        Explanation::Refused(Refusal::ToAll(asn)) => hand_community(row, *asn),
        Explanation::Refused(Refusal::LargeToClient { server, client }) => {
            hand_large_community(row, *server, *client);
        }
        Explanation::Refused(Refusal::LargeToAll(server)) => hand_large_community(row, *server, 0),
        Explanation::Lost(removal) => hand_removal(row, plan, removal),
        _ => {}
    }
}

// Hands over the community that refuses a route.
fn hand_community(row: &mut RowWriter<'_>, asn: u32) {
    let alloc = row.alloc();
    row.made("community", format!(in alloc; "0:{asn}"));
}

// Hands over the large community that refuses a route to a client of this AS number, or to all clients if that is 0.
fn hand_large_community(row: &mut RowWriter<'_>, server: u32, client: u32) {
    let alloc = row.alloc();
    row.made("large_community", format!(in alloc; "{server}:0:{client}"));
}

// Hands over what the step that removed a route compared, and the peer whose route beat it there.
fn hand_removal(row: &mut RowWriter<'_>, plan: &Exchange, removal: &Removal) {
    let (step, rival) = (removal.step, &removal.rival);
    hand_compared(row, "value", step, &removal.loser.standing);
    row.text("rival", name_at(plan, rival.peer));
    hand_compared(row, "rival_value", step, &rival.standing);
    if let Step::Med = step {
        row.number("neighbour_as", u64::from(rival.standing.neighbour));
    }
}

// Hands over what a step compares of a candidate.
fn hand_compared(row: &mut RowWriter<'_>, key: &str, step: Step, standing: &Standing) {
    match step {
        Step::Preference => row.number(key, u64::from(standing.preference)),
        Step::PathLength => row.number(key, u64::from(standing.path_length)),
        Step::Origin => row.text(key, origin_name(standing.origin)),
        Step::Med => row.number(key, u64::from(standing.med)),
        Step::Identifier => row.shown(key, &Ipv4Addr::from_bits(standing.id)),
        Step::Address => row.shown(key, &Ipv4Addr::from_bits(standing.address)),
    }
}
