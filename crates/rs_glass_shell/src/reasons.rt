//! The reasons of answers: their keys, and their texts.

use crate::import_text::write_filtered;
use crate::names::{PrefixText, name_at};
use rs_choice::{Exchange, Standing, Step};
use rs_explain::{Condition, ConditionKind, Explanation, MissingReason, Refusal, Removal};
use rs_import::Filter;
use rs_query::reason_names::{
    ADDRESS, FILTERED, FIRST_AS, IDENTIFIER, INELIGIBLE, LOST, MED, NEXT_HOP_OFF_EXCHANGE, ORIGIN,
    ORIGIN_AS, PATH_LENGTH, PATH_LENGTH_LIMIT, PREFERENCE, PREFIX_LENGTH, PREFIX_LIST, REFUSED,
    REFUSED_AS, REFUSED_BY_COMMUNITY, REFUSED_BY_NAME, REFUSED_PREFIX, RPKI_INVALID,
    SERVER_ADDRESS_AS_NEXT_HOP, SERVER_AS_IN_PATH,
};
use rs_session::Reason;
use rs_update::{Origin, Prefix};
use std::alloc::{AllocError, Global};
use std::fmt;
use std::net::Ipv4Addr;

/// The name of an answer.
pub fn answer_name(explanation: &Explanation) -> &'static str {
    match explanation {
        Explanation::Own => "own",
        Explanation::Absent => "absent",
        Explanation::Ineligible(_) => INELIGIBLE,
        Explanation::Filtered(_) => FILTERED,
        Explanation::Refused(_) => REFUSED,
        Explanation::Best(_) => "best",
        Explanation::Lost(_) => LOST,
    }
}

/// The name of the answer that has a reason.
pub fn reason_answer(reason: MissingReason) -> &'static str {
    match reason {
        MissingReason::Ineligible(_) => INELIGIBLE,
        MissingReason::Filtered(_) => FILTERED,
        MissingReason::RefusedByName => REFUSED,
        MissingReason::RefusedByCommunity => REFUSED,
        MissingReason::RefusedByLargeCommunity => REFUSED,
        MissingReason::Lost(_) => LOST,
    }
}

/// The key of the reason for which a client does not get a route. It is the same for a community and a large one.
pub fn reason_key(reason: MissingReason) -> &'static str {
    match reason {
        MissingReason::Ineligible(ConditionKind::OwnAs) => SERVER_AS_IN_PATH,
        MissingReason::Ineligible(ConditionKind::ServerAsNextHop) => SERVER_ADDRESS_AS_NEXT_HOP,
        MissingReason::Ineligible(ConditionKind::NextHopOffExchange) => NEXT_HOP_OFF_EXCHANGE,
        MissingReason::Filtered(filter) => filter_key(filter),
        MissingReason::RefusedByName => REFUSED_BY_NAME,
        MissingReason::RefusedByCommunity => REFUSED_BY_COMMUNITY,
        MissingReason::RefusedByLargeCommunity => REFUSED_BY_COMMUNITY,
        MissingReason::Lost(step) => step_key(step),
    }
}

/// The key of a filter of import policy.
pub fn filter_key(filter: Filter) -> &'static str {
    match filter {
        Filter::PrefixLength => PREFIX_LENGTH,
        Filter::RefusedPrefix => REFUSED_PREFIX,
        Filter::PathLengthLimit => PATH_LENGTH_LIMIT,
        Filter::RefusedAs => REFUSED_AS,
        Filter::FirstAs => FIRST_AS,
        Filter::PrefixList => PREFIX_LIST,
        Filter::OriginAs => ORIGIN_AS,
        Filter::RpkiInvalid => RPKI_INVALID,
    }
}

/// The key of a step.
pub fn step_key(step: Step) -> &'static str {
    match step {
        Step::Preference => PREFERENCE,
        Step::PathLength => PATH_LENGTH,
        Step::Origin => ORIGIN,
        Step::Med => MED,
        Step::Identifier => IDENTIFIER,
        Step::Address => ADDRESS,
    }
}

/// What a step compares, as a text has it.
pub fn step_name(step: Step) -> &'static str {
    match step {
        Step::PathLength => "path length",
        Step::Med => "MED",
        _ => step_key(step),
    }
}

/// The name of an origin.
pub fn origin_name(origin: Origin) -> &'static str {
    match origin {
        Origin::Igp => "IGP",
        Origin::Egp => "EGP",
        Origin::Incomplete => "INCOMPLETE",
    }
}

/// Why a session closed.
pub fn close_text(alloc: Global, reason: Reason) -> Result<String, AllocError> {
    match reason {
        Reason::EndOfFile => String::from_str(alloc, "end"),
        Reason::Bgp { code, subcode } => format!(in alloc; "bgp {code}/{subcode}"),
        Reason::Mrt(number) => format!(in alloc; "mrt M{number}"),
        Reason::Memory => String::from_str(alloc, "memory"),
        Reason::Read => String::from_str(alloc, "read"),
    }
}

// What a step of the decision process compares of a candidate.
#[derive(Clone, Copy)]
struct Compared(Step, Standing);

impl fmt::Display for Compared {
    fn fmt<W: fmt::Write>(&self, f: &mut fmt::Formatter<W>) -> fmt::Result {
        let standing = &self.1;
        let number = match self.0 {
            Step::Preference => standing.preference,
            Step::PathLength => standing.path_length,
            Step::Med => standing.med,
            Step::Origin => return f.write_str(origin_name(standing.origin)),
            Step::Identifier => return write_address(f, standing.id),
            Step::Address => return write_address(f, standing.address),
        };
        write!(f, "{number}")
    }
}

// Writes an address.
fn write_address<W: fmt::Write>(f: &mut fmt::Formatter<W>, address: u32) -> fmt::Result {
    let address = Ipv4Addr::from_bits(address);
    write!(f, "{address}")
}

/// Why a client does not get the route of a peer, as a text: the condition, the rule, or the step with its value and
/// that of the route that beat it. Nothing for another answer.
#[derive(Clone, Copy)]
pub struct Because<'a> {
    /// The exchange, whose peers are named.
    pub plan: &'a Exchange,
    /// The number of the client.
    pub client: usize,
    /// The number of the peer.
    pub peer: usize,
    /// The prefix of the route.
    pub prefix: Prefix,
    /// The answer, with its reason.
    pub explanation: &'a Explanation,
}

impl fmt::Display for Because<'_> {
    fn fmt<W: fmt::Write>(&self, f: &mut fmt::Formatter<W>) -> fmt::Result {
        let plan = self.plan;
        match self.explanation {
            Explanation::Ineligible(condition) => write_condition(f, plan, *condition),
            Explanation::Filtered(failed) => {
                write_filtered(f, plan, self.peer, self.prefix, *failed)
            }
            Explanation::Refused(Refusal::ByName) => {
                let (client, peer) = (name_at(plan, self.client), name_at(plan, self.peer));
                write!(f, "{client} refuses routes from {peer}")
            }
            Explanation::Refused(Refusal::ToClient(asn)) => write_community(f, *asn),
            Explanation::Refused(Refusal::ToAll(asn)) => write_community(f, *asn),
            Explanation::Refused(Refusal::LargeToClient { server, client }) => {
                write_large_community(f, *server, *client)
            }
            Explanation::Refused(Refusal::LargeToAll(server)) => {
                write_large_community(f, *server, 0)
            }
            Explanation::Lost(removal) => write_removal(f, plan, removal),
            _ => Ok(()),
        }
    }
}

// Writes the community that refuses a route.
fn write_community<W: fmt::Write>(f: &mut fmt::Formatter<W>, asn: u32) -> fmt::Result {
    write!(f, "community 0:{asn}")
}

// Writes the large community that refuses a route to a client of this AS number, or to all clients if that is 0.
fn write_large_community<W: fmt::Write>(
    f: &mut fmt::Formatter<W>,
    server: u32,
    client: u32,
) -> fmt::Result {
    write!(f, "large community {server}:0:{client}")
}

// Writes the condition of eligibility that fails.
fn write_condition<W: fmt::Write>(
    f: &mut fmt::Formatter<W>,
    plan: &Exchange,
    condition: Condition,
) -> fmt::Result {
    match condition {
        Condition::OwnAs(asn) => write!(f, "AS_PATH has the server's AS {asn}"),
        Condition::ServerAsNextHop(address) => {
            let address = Ipv4Addr::from_bits(address);
            write!(f, "NEXT_HOP {address} is the server's address")
        }
        Condition::NextHopOffExchange(address) => {
            let address = Ipv4Addr::from_bits(address);
            match plan.local().subnet {
                Some(subnet) => {
                    let subnet = PrefixText(subnet);
                    write!(f, "NEXT_HOP {address} is not in {subnet}")
                }
                None => write!(f, "NEXT_HOP {address}"),
            }
        }
    }
}

// Writes at which step a route was removed, with its value and that of the one that beat it.
fn write_removal<W: fmt::Write>(
    f: &mut fmt::Formatter<W>,
    plan: &Exchange,
    removal: &Removal,
) -> fmt::Result {
    let (step, rival) = (step_name(removal.step), name_at(plan, removal.rival.peer));
    let value = Compared(removal.step, removal.loser.standing);
    let rival_value = Compared(removal.step, removal.rival.standing);
    write!(f, "{step} {value}, {rival} has {rival_value}")?;
    if let Step::Med = removal.step {
        let neighbour = removal.rival.standing.neighbour;
        return write!(f, " (neighbour AS {neighbour})");
    }
    Ok(())
}
