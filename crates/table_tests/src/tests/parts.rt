//! Parts of an exchange's tables, made one: one has the prefixes of 8 bits, one those of 16 and one those of 24.

ghost use Rattle.std.specs.Prelude.{◌≡◌, ℕ, false, IfSome, IsTrue};
ghost use Rattle.rs_choice.specs.Plan.{Plan};
ghost use Rattle.rs_session.specs.Change.{change_of, is_close};
ghost use Rattle.table_tests.specs.Parts.{IsOnLength, IsPart};

use super::changes::change;
use super::exchanges::exchange;
use super::refusals::all_tables;
use super::{TWO_PEERS, check, check_rows};
use rs_choice::Exchange;
use rs_session::{Body, Word};
use rs_table::Tables;
use std::alloc::Global;
use std::sync::Arc;
use std::test::Fail;

// Whether a change belongs to the part of a length: it is on a prefix of that length, or the loss of a session.
fn belongs(len: u8, word: &Word) -> bool
    ensures on { IsTrue result → IsOnLength len (change_of word.now) }
    ensures open { IsTrue result → is_close (change_of word.now) ≡ false }
{
    match &word.body {
        Body::Announce(prefix, _) => prefix.len() == len,
        Body::Withdraw(prefix) => prefix.len() == len,
        Body::Down => true,
        Body::Close(_) => false,
    }
}

// The tables of an exchange before any change: a part of any length.
fn no_routes(alloc: Global, plan: Arc<Exchange>) -> Option<Tables>
    ensures { (len : ℕ) → IfSome result (IsPart plan.value len) }
{
    Tables::new(alloc, plan).ok()
}

// Takes a change of a peer, where it belongs to the part of a length. Answers whether memory sufficed.
fn take_part(tables: &mut Tables, len: u8, peer: usize, word: Word) -> bool
    ensures { (plan : Plan) → IsPart plan len tables.old → IsPart plan len tables.new }
{
    if peer >= tables.count() || tables.is_closed(peer) || !belongs(len, &word) {
        return true;
    }
    tables.apply(peer, word).is_ok()
}

// The part of a length, after some changes.
fn part(alloc: Global, plan: &Arc<Exchange>, len: u8, changes: &str) -> Option<Tables>
    ensures { IfSome result (IsPart plan.now.value len) }
{
    let mut tables = no_routes(alloc, plan.clone().ok()?)?;
    for text in changes.split(';') {
        let (peer, word) = change(alloc, plan, text)?;
        if !take_part(&mut tables, len, peer, word) {
            return None;
        }
    }
    Some(tables)
}

/// The tables of all clients after some changes, taken in three parts.
pub fn merged(alloc: Global, plan: &str, changes: &str) -> Option<String> {
    let plan = exchange(alloc, plan)?;
    let short = part(alloc, &plan, 8, changes)?;
    let middle = part(alloc, &plan, 16, changes)?;
    let long = part(alloc, &plan, 24, changes)?;
    let parts = vec![in alloc; short, middle, long].ok()?;
    all_tables(alloc, &Tables::merge(parts).ok()?)
}

// Changes, and behind them the table of each client: rows ascend by address and then by length, whichever part has
// them.
const MERGED: &str = "
exchange 64500 192.0.2.0/24; a,64501,192.0.2.11,192.0.2.11; b,64502,192.0.2.12,192.0.2.12; c,64503,192.0.2.13,192.0.2.13
merged: no route | a 100 lost | a[] b[] c[]
merged: the rows of three parts between each other | a 108 10.0.0.0/8 plain; a 109 20.0.0.0/8 plain; \
    b 116 10.0.0.0/16 plain; b 124 10.0.0.0/24 plain; b 117 198.51.0.0/16 plain | \
    a[10.0.0.0/16 b 116, 10.0.0.0/24 b 124, 198.51.0.0/16 b 117] b[10.0.0.0/8 a 108, 20.0.0.0/8 a 109] \
    c[10.0.0.0/8 a 108, 10.0.0.0/16 b 116, 10.0.0.0/24 b 124, 20.0.0.0/8 a 109, 198.51.0.0/16 b 117]

# Each client's choice is made among the routes on its prefix (RFC 4271, section 9.1.2.2; RFC 7947, section 2.3.2.1).
merged: the choice, a refused route and one that isn't eligible | a 100 10.0.0.0/8 plain 0:64503; \
    b 101 10.0.0.0/8 igp 64502-65010 hop-a; a 102 10.0.0.0/24 igp 64501-64500 hop-a; b 103 10.0.0.0/24 plain | \
    a[10.0.0.0/8 b 101, 10.0.0.0/24 b 103] b[10.0.0.0/8 a 100] c[10.0.0.0/8 b 101, 10.0.0.0/24 b 103]

# What is withdrawn is gone, and so is what a lost session had in each part (RFC 4271, sections 3.1 and 8.2.2).
merged: a withdrawal and a loss | a 100 10.0.0.0/8 plain; b 101 10.0.0.0/8 plain; a 102 10.0.0.0/16 plain; \
    a 103 20.0.0.0/24 plain; b 104 withdraw 10.0.0.0/8; a 105 lost; a 106 20.0.0.0/24 plain | \
    a[] b[20.0.0.0/24 a 106] c[20.0.0.0/24 a 106]
";

#[test]
fn parts_are_made_one(rt: HostRuntime) -> Result<(), Fail> {
    check_rows(&rt, rt.alloc(), MERGED)
}

// Changes in three parts, and the tables that are made of them.
const IN_PARTS: &str = "a 108 10.0.0.0/8 plain; a 109 20.0.0.0/8 plain; b 116 10.0.0.0/16 plain; \
    b 124 10.0.0.0/24 plain; b 117 198.51.0.0/16 plain";

const OF_PARTS: &str = "a[10.0.0.0/16 b 116, 10.0.0.0/24 b 124, 198.51.0.0/16 b 117] \
    b[10.0.0.0/8 a 108, 20.0.0.0/8 a 109]";

// One allocation is refused in a run at most, so the parts become one when it is tried again.
#[test]
fn parts_are_refused_memory_or_become_the_right_tables(rt: HostRuntime) -> Result<(), Fail> {
    let alloc = rt.alloc();
    let found = merged(alloc, TWO_PEERS, IN_PARTS).or_else(|| merged(alloc, TWO_PEERS, IN_PARTS));
    check(found, OF_PARTS, ("merged", IN_PARTS))
}
