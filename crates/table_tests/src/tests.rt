//! Exchanges as rows of text: who has which routes, what is asked, and what comes.
//!
//! A line `exchange` describes an exchange, and a line `after` has changes of its peers (`exchanges`, `changes`). The
//! rows below both are of that exchange. A row without a colon is a question and its answer after these changes. One
//! with a colon has three columns: what is asked and of which case, what is given, and the answer. What is given may be
//! two columns, an import policy and routes (`import`).
//!
//! The first tests are of plans and single routes (`plans`, `routes`), and of the choice among routes (`decisions`).
//! Then come the tables of clients (`clients`, `tables`, `random_changes`, `refusals`, `parts`), and what import policy
//! leaves them (`import`). Then comes why a client has a route (`reasons`, `last_said`). The last ones are of dumps
//! (`dumps`, `writers`, `side_by_side`).

mod changes;
mod clients;
mod decisions;
mod dumps;
mod exchanges;
mod held;
mod import;
mod last_said;
mod parts;
mod plans;
mod random;
mod random_changes;
mod reasons;
mod refusals;
mod routes;
mod side_by_side;
mod slow_reading;
mod tables;
mod writers;

use std::alloc::Global;
use std::test::Fail;
use std::thread::Threads;

// The peers by their numbers.
const A: usize = 0;

const B: usize = 1;

const TWO_PEERS: &str =
    "64500 192.0.2.0/24; a,64501,192.0.2.11,192.0.2.11; b,64502,192.0.2.12,192.0.2.12";

// Four peers whose identifiers ascend, so that of routes alike in all else the first is chosen.
const FOUR_PEERS: &str =
    "64500 192.0.2.0/24; a,64501,192.0.2.11,192.0.2.11; b,64502,192.0.2.12,192.0.2.12; \
    c,64503,192.0.2.13,192.0.2.13; d,64504,192.0.2.14,192.0.2.14";

// What was found is what was wanted. A failure in place of an assertion, which takes long to prove.
fn check(found: Option<String>, wanted: &str, (row, changes): (&str, &str)) -> Result<(), Fail> {
    if found.as_deref() == Some(wanted) {
        return Ok(());
    }
    Err(Fail::new(format_args!("{row} after {changes}: {found:?}")))
}

// What is found where a row asks this, whose last column is wanted.
fn answer(
    alloc: Global,
    (plan, changes): (&str, &str),
    asked: &str,
    wanted: &str,
) -> Option<String> {
    let Some((head, given)) = asked.split_once('|') else {
        return tables::answer(alloc, plan, changes, asked);
    };
    let (given, (kind, _)) = (given.trim(), head.split_once(':')?);
    match kind {
        "fault" => plans::fault_of(alloc, given),
        "merged" => parts::merged(alloc, plan, given),
        "gathered" => refusals::settled(alloc, (plan, given), 2),
        "filter" | "validity" | "numbers" | "lists" => import::answer(alloc, plan, kind, given),
        "told" => reasons::told(alloc, plan, given, wanted),
        "said" => last_said::last_said(alloc, given),
        _ => held::answer(alloc, plan, kind, given),
    }
}

// A row has its answer.
fn check_row<T: Threads + Sync>(
    rt: &T,
    alloc: Global,
    above: (&str, &str),
    row: &str,
) -> Result<(), Fail> {
    let Some((asked, wanted)) = row.rsplit_once('|') else {
        return Err(Fail::new(format_args!("{row}: no answer is wanted")));
    };
    if let Some(asked) = asked.strip_prefix("dump ") {
        return dumps::check_dump(rt, alloc, above, (asked, wanted));
    }
    let wanted = wanted.trim();
    check(answer(alloc, above, asked, wanted), wanted, (row, above.1))
}

// Each row of a text has its answer.
fn check_rows<T: Threads + Sync>(rt: &T, alloc: Global, rows: &str) -> Result<(), Fail> {
    let (mut plan, mut changes) = ("", "");
    for line in rows.lines() {
        if let Some(text) = line.strip_prefix("exchange ") {
            plan = text;
            changes = "";
        } else if let Some(text) = line.strip_prefix("after ") {
            changes = text;
        } else if !line.is_empty() && !line.starts_with('#') {
            check_row(rt, alloc, (plan, changes), line)?;
        }
    }
    Ok(())
}
