//! Which route each client gets of several, and why; which rows its table has; and what is left of a peer whose session
//! closed or was lost.

use super::changes::after;
use super::check_rows;
use super::exchanges::{peer_of, prefix};
use rs_table::Tables;
use rs_update::Prefix;
use std::alloc::Global;
use std::fmt::Write;
use std::net::Ipv4Addr;
use std::test::Fail;

/// A row as the tests compare it: the prefix, the peer that sent the route, and when.
pub type Shown = (Prefix, usize, u32);

// The list of the rows of a client's table.
fn listed(alloc: Global, tables: &Tables, client: usize) -> Option<Vec<Shown>> {
    let rows = tables.rows(client).ok()?;
    rows.iter()
        .map(|row| (row.prefix, row.route.peer, row.route.time))
        .collect(alloc)
        .ok()
}

/// The rows of a client's table; None if they are others one after another than in the list.
pub fn shown(alloc: Global, tables: &Tables, client: usize) -> Option<Vec<Shown>> {
    let mut shown = Vec::new(alloc);
    for row in tables.iter_rows(client) {
        shown
            .push((row.prefix, row.route.peer, row.route.time))
            .ok()?;
    }
    if listed(alloc, tables, client)? == shown {
        Some(shown)
    } else {
        None
    }
}

/// The name of a peer.
pub fn name(tables: &Tables, peer: usize) -> &str {
    if peer < tables.plan().count() {
        tables.plan().peer(peer).name.as_str()
    } else {
        "-"
    }
}

// Adds a row to a text.
fn add_row(text: &mut String, tables: &Tables, (prefix, peer, time): Shown) -> Option<()> {
    let mark = if text.is_empty() { "" } else { ", " };
    let (address, len) = (Ipv4Addr::from_bits(prefix.address()), prefix.len());
    let name = name(tables, peer);
    write!(text, "{mark}{address}/{len} {name} {time}").ok()
}

/// The rows of a client's table, as a text.
pub fn table(alloc: Global, tables: &Tables, client: usize) -> Option<String> {
    let mut text = String::new(alloc);
    for row in &shown(alloc, tables, client)? {
        add_row(&mut text, tables, *row)?;
    }
    Some(text)
}

// What a client gets on a prefix: whose route, when it was announced, and its next hop.
fn best(alloc: Global, tables: &Tables, client: usize, on: &str) -> Option<String> {
    let Some(route) = tables.best(client, prefix(on)?) else {
        return String::from_str(alloc, "-").ok();
    };
    let (name, time) = (name(tables, route.peer), route.time);
    let next_hop = Ipv4Addr::from_bits(route.attributes.next_hop());
    format!(in alloc; "{name} {time} {next_hop}").ok()
}

// Whose routes the clients get on 203.0.113.0/24.
fn bests(alloc: Global, tables: &Tables) -> Option<String> {
    let on = prefix("203.0.113.0/24")?;
    let mut text = String::new(alloc);
    for client in 0..tables.count() {
        let best = tables.best(client, on).map(|route| route.peer);
        let name = name(tables, best.unwrap_or(usize::MAX));
        write!(text, "{name}").ok()?;
    }
    Some(text)
}

// Why a client has a peer's route on 203.0.113.0/24, or not.
fn why(alloc: Global, tables: &Tables, client: &str, peer: &str) -> Option<String> {
    let client = peer_of(tables.plan(), client)?;
    let peer = peer_of(tables.plan(), peer)?;
    let why = tables.why(client, peer, prefix("203.0.113.0/24")?);
    format!(in alloc; "{why:?}").ok()
}

// The names of the peers whose sessions are closed.
fn closed(alloc: Global, tables: &Tables) -> Option<String> {
    let mut text = String::new(alloc);
    for peer in 0..tables.count() {
        if tables.is_closed(peer) {
            text.push_str(name(tables, peer)).ok()?;
        }
    }
    Some(text)
}

// How many rows a client's table may have, at least and at most.
fn hint(alloc: Global, tables: &Tables, client: usize) -> Option<String> {
    let hint = tables.iter_rows(client).size_hint();
    format!(in alloc; "{hint:?}").ok()
}

// The answer to a question; `nobody` is a client that isn't there.
fn answer_of(alloc: Global, tables: &Tables, question: &str) -> Option<String> {
    let mut words = question.split_whitespace();
    let asked = words.next()?;
    let name = words.next().unwrap_or("");
    let client = peer_of(tables.plan(), name).unwrap_or(tables.count());
    match asked {
        "bests" => bests(alloc, tables),
        "best" => best(alloc, tables, client, words.next()?),
        "table" => table(alloc, tables, client),
        "why" => why(alloc, tables, name, words.next()?),
        "closed" => closed(alloc, tables),
        "hint" => hint(alloc, tables, client),
        _ => None,
    }
}

/// The answer to a question after some changes.
pub fn answer(alloc: Global, plan: &str, changes: &str, question: &str) -> Option<String> {
    let tables = after(alloc, plan, changes)?;
    answer_of(alloc, &tables, question)
}

const TABLES: &str = "
# Rows ascend by address, then by length, and show the last announcement.
exchange 64500 192.0.2.0/24; a,64501,192.0.2.11,192.0.2.11; b,64502,192.0.2.12,192.0.2.12; \
    c,64503,192.0.2.13,192.0.2.13; d,64504,192.0.2.14,192.0.2.14
table a |
after a 100 203.0.113.0/24 plain; c 101 10.0.0.0/16 igp 64503-65010 hop-a; a 102 10.0.0.0/8 plain; \
    a 103 10.0.0.0/16 plain; c 104 10.0.0.0/8 igp 64503-65010 hop-a; c 105 10.0.0.0/8 igp 64503-65010 hop-a
table a | 10.0.0.0/8 c 105, 10.0.0.0/16 c 101
table b | 10.0.0.0/8 a 102, 10.0.0.0/16 a 103, 203.0.113.0/24 a 100
table c | 10.0.0.0/8 a 102, 10.0.0.0/16 a 103, 203.0.113.0/24 a 100
table nobody |
best b 10.0.0.0/8 | a 102 192.0.2.11
best a 10.0.0.0/8 | c 105 192.0.2.11
best a 203.0.113.0/24 | -
best b 10.0.0.0/24 | -
best nobody 10.0.0.0/8 | -

# There are no more rows than prefixes.
after a 100 203.0.113.0/24 plain; b 100 203.0.113.0/24 igp 64502-65010 hop-a; a 100 10.0.0.0/8 plain
table a | 203.0.113.0/24 b 100
table b | 10.0.0.0/8 a 100, 203.0.113.0/24 a 100
table c | 10.0.0.0/8 a 100, 203.0.113.0/24 a 100
table d | 10.0.0.0/8 a 100, 203.0.113.0/24 a 100
table nobody |
hint a | (0, Some(2))
hint b | (0, Some(2))
hint c | (0, Some(2))
hint d | (0, Some(2))
hint nobody | (0, Some(2))

# Three prefixes of one address.
after b 100 10.0.0.0/24 igp 64502-65010 hop-a; c 100 10.0.0.0/16 igp 64503-65010 hop-a; a 100 10.0.0.0/8 plain
table a | 10.0.0.0/16 c 100, 10.0.0.0/24 b 100
table b | 10.0.0.0/8 a 100, 10.0.0.0/16 c 100
table c | 10.0.0.0/8 a 100, 10.0.0.0/24 b 100
table d | 10.0.0.0/8 a 100, 10.0.0.0/16 c 100, 10.0.0.0/24 b 100
";

#[test]
fn rows_ascend_one_after_another_as_in_the_list(rt: HostRuntime) -> Result<(), Fail> {
    check_rows(&rt, rt.alloc(), TABLES)
}
