//! Memory that is refused, whichever allocation of the process it is: a change that wants it changes nothing, and the
//! same change again is taken; of gathered changes no tables come, or the right ones. One allocation is refused in a
//! run at most, so what is asked a second time comes.

use super::changes::{after, change, take_text};
use super::exchanges::exchange;
use super::tables::{name, table};
use super::{FOUR_PEERS, check};
use rs_choice::Exchange;
use rs_table::{Gathering, Tables};
use std::alloc::Global;
use std::fmt::Write;
use std::sync::Arc;
use std::test::Fail;

// Changes, and behind each the table of each client. Memory may be refused for a change behind a +, which announces a
// prefix on which no peer has a route.
const CHANGES: &str = "
+ a 203 203.0.0.0/8 plain 0:64502 | a[] b[] c[203.0.0.0/8 a 203] d[203.0.0.0/8 a 203]
c 203 203.0.0.0/8 igp 64503-65010 hop-a | \
    a[203.0.0.0/8 c 203] b[203.0.0.0/8 c 203] c[203.0.0.0/8 a 203] d[203.0.0.0/8 a 203]
+ a 198 198.0.0.0/8 plain | \
    a[203.0.0.0/8 c 203] b[198.0.0.0/8 a 198, 203.0.0.0/8 c 203] \
    c[198.0.0.0/8 a 198, 203.0.0.0/8 a 203] d[198.0.0.0/8 a 198, 203.0.0.0/8 a 203]
+ b 10 10.0.0.0/8 igp 64501-64500 hop-a | \
    a[203.0.0.0/8 c 203] b[198.0.0.0/8 a 198, 203.0.0.0/8 c 203] \
    c[198.0.0.0/8 a 198, 203.0.0.0/8 a 203] d[198.0.0.0/8 a 198, 203.0.0.0/8 a 203]
c 10 10.0.0.0/8 igp 64503-65010 hop-a | \
    a[10.0.0.0/8 c 10, 203.0.0.0/8 c 203] b[10.0.0.0/8 c 10, 198.0.0.0/8 a 198, 203.0.0.0/8 c 203] \
    c[198.0.0.0/8 a 198, 203.0.0.0/8 a 203] d[10.0.0.0/8 c 10, 198.0.0.0/8 a 198, 203.0.0.0/8 a 203]
a 203 withdraw 203.0.0.0/8 | \
    a[10.0.0.0/8 c 10, 203.0.0.0/8 c 203] b[10.0.0.0/8 c 10, 198.0.0.0/8 a 198, 203.0.0.0/8 c 203] \
    c[198.0.0.0/8 a 198] d[10.0.0.0/8 c 10, 198.0.0.0/8 a 198, 203.0.0.0/8 c 203]
c 203 withdraw 203.0.0.0/8 | \
    a[10.0.0.0/8 c 10] b[10.0.0.0/8 c 10, 198.0.0.0/8 a 198] c[198.0.0.0/8 a 198] d[10.0.0.0/8 c 10, 198.0.0.0/8 a 198]
b 10 ended | \
    a[10.0.0.0/8 c 10] b[10.0.0.0/8 c 10, 198.0.0.0/8 a 198] c[198.0.0.0/8 a 198] d[10.0.0.0/8 c 10, 198.0.0.0/8 a 198]
a 198 lost | a[10.0.0.0/8 c 10] b[10.0.0.0/8 c 10] c[] d[10.0.0.0/8 c 10]
c 10 mrt-2 | a[] b[] c[] d[]
";

/// The tables of all clients.
pub fn all_tables(alloc: Global, tables: &Tables) -> Option<String> {
    let mut text = String::new(alloc);
    for client in 0..tables.count() {
        let mark = if client == 0 { "" } else { " " };
        let (name, rows) = (name(tables, client), table(alloc, tables, client)?);
        write!(text, "{mark}{name}[{rows}]").ok()?;
    }
    Some(text)
}

// Takes a change, and once more where it is refused. Answers whether it came: where it was refused, it might be, and
// nothing had changed. None if memory is refused for something else.
fn comes(alloc: Global, tables: &mut Tables, text: &str, may_be_refused: bool) -> Option<bool> {
    let before = all_tables(alloc, tables)?;
    if take_text(alloc, tables, text)? {
        return Some(true);
    }
    let is_unchanged = all_tables(alloc, tables) == Some(before);
    let comes = take_text(alloc, tables, text) == Some(true);
    Some(may_be_refused && is_unchanged && comes)
}

// Takes the change of a row, and answers whether it came and each client has what the row says.
fn is_so(alloc: Global, tables: &mut Tables, row: &str) -> Option<bool> {
    let (text, wanted) = row.split_once('|')?;
    let came = match text.strip_prefix("+ ") {
        Some(text) => comes(alloc, tables, text, true)?,
        None => comes(alloc, tables, text, false)?,
    };
    Some(came && all_tables(alloc, tables)?.as_str() == wanted.trim())
}

// Takes all changes up to the first whose row is not so, which is the answer; an empty row if all are so.
fn wrong_row(alloc: Global) -> Option<&'static str> {
    let mut tables = after(alloc, FOUR_PEERS, "")?;
    for row in CHANGES.lines() {
        if !row.is_empty() && !is_so(alloc, &mut tables, row)? {
            return Some(row);
        }
    }
    Some("")
}

#[test]
fn a_refused_change_changes_nothing_and_comes_when_taken_again(rt: HostRuntime) {
    let wrong = wrong_row(rt.alloc()).or_else(|| wrong_row(rt.alloc()));
    assert_eq!(rt; wrong, Some(""));
}

// Changes most of which are on prefixes of one first octet. At the end b's session was lost after its first route, and
// a has withdrawn one of its own.
const GATHERED: &str =
    "a 1 10.0.0.0/8 plain; a 2 10.1.0.0/16 plain; c 3 10.1.0.0/16 igp 64503-65010 hop-a; \
    a 4 10.2.0.0/16 plain; a 5 10.3.0.0/16 plain 0:64502; a 6 10.4.0.0/16 plain; \
    b 7 203.0.0.0/8 igp 64502-65010 hop-a; b 8 lost; c 9 10.4.0.0/16 igp 64503-65010 hop-a; \
    a 10 withdraw 10.2.0.0/16; b 11 198.0.0.0/8 igp 64502-65010 hop-a; a 12 10.0.0.0/8 plain; c 13 ended";

// What they leave.
const SETTLED: &str = "a[10.1.0.0/16 c 3, 10.4.0.0/16 c 9, 198.0.0.0/8 b 11] \
    b[10.0.0.0/8 a 12, 10.1.0.0/16 a 2, 10.4.0.0/16 a 6] \
    c[10.0.0.0/8 a 12, 10.1.0.0/16 a 2, 10.3.0.0/16 a 5, 10.4.0.0/16 a 6, 198.0.0.0/8 b 11] \
    d[10.0.0.0/8 a 12, 10.1.0.0/16 a 2, 10.3.0.0/16 a 5, 10.4.0.0/16 a 6, 198.0.0.0/8 b 11]";

// Gathers a change of a peer whose session is open. None if memory is refused.
fn gather(alloc: Global, plan: &Exchange, gathering: &mut Gathering, text: &str) -> Option<()> {
    let (peer, word) = change(alloc, plan, text)?;
    if peer >= gathering.count() || gathering.is_closed(peer) {
        return None;
    }
    gathering.receive(peer, word).ok()
}

// Gathers changes, in lists that are compacted once they have so many entries. None if memory is refused.
fn gathered(alloc: Global, plan: &Arc<Exchange>, changes: &str, few: usize) -> Option<Gathering> {
    let tables = Tables::new(alloc, plan.clone().ok()?).ok()?;
    let mut gathering = Gathering::new(tables, few).ok()?;
    for text in changes.split(';') {
        gather(alloc, plan, &mut gathering, text)?;
    }
    Some(gathering)
}

/// The tables of all clients of an exchange that are made of gathered changes. None if memory is refused.
pub fn settled(alloc: Global, (plan, changes): (&str, &str), few: usize) -> Option<String> {
    let plan = exchange(alloc, plan)?;
    let tables = gathered(alloc, &plan, changes, few)?.settle().ok()?;
    all_tables(alloc, &tables)
}

// Lists of two are compacted three times while they grow, those of 64 when they are settled.
#[test]
fn gathered_changes_are_refused_memory_or_leave_the_right_tables(
    rt: HostRuntime,
) -> Result<(), Fail> {
    let all = (FOUR_PEERS, GATHERED);
    for few in [2, 64] {
        let found = settled(rt.alloc(), all, few).or_else(|| settled(rt.alloc(), all, few));
        check(found, SETTLED, ("gathered", GATHERED))?;
    }
    Ok(())
}
