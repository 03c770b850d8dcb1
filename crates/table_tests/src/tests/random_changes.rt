//! Random changes: after each one every client gets what the rules, read slowly, say.

use super::changes::{after, change, take_text};
use super::exchanges::{exchange, prefix};
use super::random::Random;
use super::slow_reading::History;
use super::tables::shown;
use rs_table::{Gathering, Tables};
use std::alloc::Global;
use std::test::Fail;

// Three peers of AS 64501, so that MED decides between them, and one that refuses all routes of another peer. That
// other peer is of an AS whose number has the low eight bits of 64501.
const SIX_PEERS: &str =
    "64500 192.0.2.0/24; a,64501,192.0.2.11,0.0.0.9; b,64501,192.0.2.12,0.0.0.4; \
    c,64502,192.0.2.13,0.0.0.5; d,64503,192.0.2.14,0.0.0.6; e,64501,192.0.2.15,0.0.0.1; f,64757,192.0.2.16,0.0.0.7,100,a";

const PEERS: [&str; 6] = ["a", "b", "c", "d", "e", "f"];

// Prefixes in ascending order, of which two are inside a third.
const PREFIXES: [&str; 4] = ["0.0.0.0/0", "10.0.0.0/8", "10.0.0.0/16", "203.0.113.0/24"];

// Path lengths 1 and 2, three neighbour ASes, with and without MED. One route is refused to AS 64502, and one to
// all. One is for the peers of AS 64501 and 64503 alone, one for those of AS 64757 alone, and one is not eligible.
const ROUTES: [&str; 10] = [
    "plain",
    "igp 64501-65010 hop-a med-10",
    "igp 64501-65010 hop-a med-5",
    "igp 64502-65010 hop-a",
    "igp 64503-65010 hop-a",
    "plain 0:64502",
    "plain 0:64500",
    "igp 64502 hop-a 0:64500,64500:64501,64500:64503",
    "plain 0:64500,64500:64757,0:64501",
    "igp 64501-64500 hop-a",
];

// How many exchanges are gathered: some 31 for each size of list from 2 to 64 entries.
const GATHERED_EXCHANGES: usize = 2_000;

// Most changes announce, some withdraw, and now and then a session is lost or closes, at the end of its file or at a
// fault.
fn some_change(alloc: Global, random: &mut Random, time: u32) -> Option<String> {
    let peer = random.one_of(&PEERS);
    let prefix = random.one_of(&PREFIXES);
    let route = random.one_of(&ROUTES);
    let (said, on, words) = match random.below(64) {
        0 => ("ended", "", ""),
        1 => ("mrt-2", "", ""),
        2 | 3 => ("lost", "", ""),
        4..=15 => ("withdraw ", prefix, ""),
        _ => ("", prefix, route),
    };
    format!(in alloc; "{peer} {time} {said}{on} {words}").ok()
}

// Takes a change, if the peer is open, in tables and in the list of all changes.
fn take_both(alloc: Global, tables: &mut Tables, history: &mut History, text: &str) -> Option<()> {
    let (peer, word) = change(alloc, tables.plan(), text)?;
    if tables.is_closed(peer) {
        return Some(());
    }
    history.add(peer, word)?;
    if take_text(alloc, tables, text)? {
        Some(())
    } else {
        None
    }
}

// Whether a client gets what the slow reading says: its rows, and its best route on each prefix.
fn agree(alloc: Global, tables: &Tables, history: &History, client: usize) -> Option<bool> {
    let mut rows = Vec::new(alloc);
    for text in PREFIXES {
        let on = prefix(text)?;
        let wanted = history.best(alloc, client, on)?;
        let best = tables.best(client, on);
        if best.map(|route| (route.peer, route.time)) != wanted {
            return Some(false);
        }
        if let Some((peer, time)) = wanted {
            rows.push((on, peer, time)).ok()?;
        }
    }
    Some(shown(alloc, tables, client)? == rows)
}

// The first client that gets something else than the slow reading says.
fn wronged(alloc: Global, tables: &Tables, history: &History) -> Option<usize> {
    (0..6).find(|client| agree(alloc, tables, history, *client) != Some(true))
}

// Takes a hundred changes of six peers. Answers the first that leaves a client something else than the slow reading
// says, and that client.
fn wrong_change(alloc: Global, random: &mut Random) -> Option<Result<(), (u32, usize)>> {
    let mut tables = after(alloc, SIX_PEERS, "")?;
    let mut history = History::new(alloc, exchange(alloc, SIX_PEERS)?);
    for time in 0..100 {
        let change = some_change(alloc, random, time)?;
        take_both(alloc, &mut tables, &mut history, &change)?;
        if let Some(client) = wronged(alloc, &tables, &history) {
            return Some(Err((time, client)));
        }
    }
    Some(Ok(()))
}

// Gathers a change, if the peer is open, and adds it to the list of all changes.
fn gather_both(
    alloc: Global,
    gathering: &mut Gathering,
    history: &mut History,
    text: &str,
) -> Option<()> {
    let (peer, word) = change(alloc, history.plan(), text)?;
    if peer >= gathering.count() || gathering.is_closed(peer) {
        return Some(());
    }
    gathering.receive(peer, word).ok()?;
    let (peer, word) = change(alloc, history.plan(), text)?;
    history.add(peer, word)
}

// No changes yet, gathered in lists of which those with so many entries are compacted.
fn nothing_gathered(alloc: Global, few: usize) -> Option<Gathering> {
    let tables = Tables::new(alloc, exchange(alloc, SIX_PEERS)?).ok()?;
    Gathering::new(tables, few).ok()
}

// Gathers a hundred changes of six peers. Answers the first client that gets something else than the slow reading says.
fn wrongly_gathered(alloc: Global, random: &mut Random, few: usize) -> Option<Result<(), usize>> {
    let mut gathering = nothing_gathered(alloc, few)?;
    let mut history = History::new(alloc, exchange(alloc, SIX_PEERS)?);
    for time in 0..100 {
        let change = some_change(alloc, random, time)?;
        gather_both(alloc, &mut gathering, &mut history, &change)?;
    }
    let tables = gathering.settle().ok()?;
    Some(wronged(alloc, &tables, &history).map_or(Ok(()), Err))
}

#[test]
fn gathered_changes_leave_what_the_rules_say(rt: HostRuntime) {
    let mut random = Random { state: 2 };
    for round in 0..GATHERED_EXCHANGES {
        let few = 2 + round % 63;
        let checked = wrongly_gathered(rt.alloc(), &mut random, few);
        assert_eq!(rt; checked, Some(Ok(())), "exchange {round}, lists of {few}");
    }
}

#[test]
fn random_changes_leave_what_the_rules_say(rt: HostRuntime) {
    let mut random = Random { state: 1 };
    for round in 0..6 {
        let checked = wrong_change(rt.alloc(), &mut random);
        assert_eq!(rt; checked, Some(Ok(())), "round {round}");
    }
}
