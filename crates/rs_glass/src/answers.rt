//! Why a client has each peer's route on a prefix, or not.

ghost use Rattle.std.specs.FinMap.{contains_key};
ghost use Rattle.std.specs.Prelude.{◌≡◌, ◌<◌, IfOk, MatchOption, Some, length, slice_get};
ghost use Rattle.rs_table.specs.Content.{rib_of};
ghost use Rattle.rs_table.specs.Listing.{is_held};
ghost use Rattle.rs_glass.specs.Covering.{IsLongestHeld, NoneIsHeld};
ghost use Rattle.rs_glass.specs.Explained.{AreExplained, IsLessSpecific, best_from};

use crate::covering::cover;
use crate::question::Question;
use crate::reading::Reading;
use crate::said::Said;
use rs_explain::{Explanation, explain};
use rs_table::Tables;
use rs_update::Prefix;
use std::alloc::{AllocError, Global};

/// Why a client has each peer's route on a prefix, or not.
#[derive(Drop)]
pub struct Answers {
    /// The number of the client.
    pub client: usize,
    /// The prefix.
    pub prefix: Prefix,
    /// The number of the peer whose route the client gets, if any.
    pub best: Option<usize>,
    /// An answer for each peer, in the order of the peers, the client itself included.
    pub peers: Vec<Answer>,
    /// If no peer has a route on the prefix: the longest prefix that covers it and on which one has, if any.
    pub less_specific: Option<LessSpecific>,
}

/// Why a client has a peer's route on a prefix, or not.
#[derive(Drop)]
pub struct Answer {
    /// Why, with the reason.
    pub explanation: Explanation,
    /// What the peer's changes say last of the prefix.
    pub said: Said,
}

/// A less specific prefix, and what the client gets on it.
#[derive(Clone, Copy, Debug, PartialEq, Eq, Drop)]
pub struct LessSpecific {
    /// The prefix.
    pub prefix: Prefix,
    /// The number of the peer whose route the client gets, if any.
    pub best: Option<usize>,
}

/// Answers, of what recorded sessions say, why the client of number `client` has each peer's route on the
/// prefix, or not.
pub fn explain_all(
    alloc: Global,
    reading: &Reading,
    client: usize,
    question: &Question,
) -> Result<Answers, AllocError>
    requires client_known { client < length reading.now.tables.plan.peers }
    requires one_for_each { length reading.now.said.items ≡ length reading.now.tables.plan.peers }
    ensures as_many { IfOk result (λ answers. length answers.peers.items ≡ length reading.now.said.items) }
    ensures explained { IfOk result (λ answers.
        AreExplained reading.now.tables client question.now.prefix reading.now.said.items
        (length answers.peers.items) answers.peers.items) }
    ensures best { IfOk result (λ answers. answers.best ≡ best_from reading.now.tables client question.now.prefix) }
    ensures asked { IfOk result (λ answers. (answers.client ≡ client) × (answers.prefix ≡ question.now.prefix)) }
    ensures less_specific { IfOk result (λ answers.
        IsLessSpecific reading.now.tables client question.now.prefix answers.less_specific) }
{
    let prefix = question.prefix;
    let tables = &reading.tables;
    let mut peers = Vec::with_capacity(alloc, tables.count())?;
    for peer in 0..tables.count() {
        let explanation = explain(alloc, tables, client, peer, prefix)?;
        let said = said_of(reading, peer);
        peers.push(Answer { explanation, said })?;
    }
    Ok(Answers {
        client,
        prefix,
        best: best_from(tables, client, prefix),
        peers,
        less_specific: less_specific(tables, client, prefix),
    })
}

// What is said of a peer.
fn said_of(reading: &Reading, peer: usize) -> Said
    requires { peer < length reading.now.said.items }
    ensures { slice_get reading.now.said.items peer ≡ Some result }
{
    reading.said[peer]
}

// The peer whose route a client gets on a prefix.
pub(crate) fn best_from(tables: &Tables, client: usize, prefix: Prefix) -> Option<usize>
    ensures { result ≡ best_from tables.now client prefix }
{
    match tables.best(client, prefix) {
        Some(route) => Some(route.peer),
        None => None,
    }
}

// The longest prefix that covers another and on which some peer has a route, if that isn't the other itself.
fn less_specific(tables: &Tables, client: usize, prefix: Prefix) -> Option<LessSpecific>
    ensures { IsLessSpecific tables.now client prefix result }
{
    let wide = longest_announced(tables, prefix)?;
    if wide == prefix {
        return None;
    }
    Some(LessSpecific {
        prefix: wide,
        best: best_from(tables, client, wide),
    })
}

/// The longest prefix that covers another, which may be itself, and on which some peer has a route; none if there is
/// no such prefix.
pub fn longest_announced(tables: &Tables, prefix: Prefix) -> Option<Prefix>
    ensures { MatchOption result (NoneIsHeld tables.now.ribs prefix) (IsLongestHeld tables.now.ribs prefix) }
{
    for dropped in 0..prefix.len() + 1 {
        let wide = cover(prefix, prefix.len() - dropped);
        if is_announced(tables, wide) {
            return Some(wide);
        }
    }
    None
}

// Whether any peer has a route on a prefix.
fn is_announced(tables: &Tables, prefix: Prefix) -> bool
    ensures { result ≡ is_held tables.now.ribs prefix }
{
    for peer in 0..tables.count() {
        if has_route(tables, peer, prefix) {
            return true;
        }
    }
    false
}

// Whether a peer has a route on a prefix.
fn has_route(tables: &Tables, peer: usize, prefix: Prefix) -> bool
    requires { peer < length tables.now.plan.peers }
    ensures { result ≡ contains_key (rib_of tables.now peer).routes prefix }
{
    tables.route(peer, prefix).is_some()
}
