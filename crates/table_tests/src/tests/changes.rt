//! Changes as text, and the tables after them.
//!
//! A change is the name of its peer, its time and what it says: a prefix and words for the attributes of its route;
//! `withdraw` and a prefix; that the session is `lost`; or why it closes.

use super::exchanges::{attributes, exchange, number, peer_of, prefix};
use rs_choice::Exchange;
use rs_session::{Body, Reason, Word};
use rs_table::Tables;
use std::alloc::Global;

// Why a session closes.
fn reason(text: &str) -> Option<Reason> {
    Some(match text {
        "ended" => Reason::EndOfFile,
        "bgp-3/6" => Reason::Bgp {
            code: 3,
            subcode: 6,
        },
        "mrt-2" => Reason::Mrt(2),
        "memory" => Reason::Memory,
        "read" => Reason::Read,
        _ => return None,
    })
}

// What a change says.
fn body(alloc: Global, text: &str) -> Option<Body> {
    if let Some(withdrawn) = text.strip_prefix("withdraw ") {
        return Some(Body::Withdraw(prefix(withdrawn)?));
    }
    if let Some((announced, words)) = text.split_once(' ') {
        let announced = prefix(announced)?;
        return Some(Body::Announce(announced, attributes(alloc, words)?));
    }
    if text == "lost" {
        return Some(Body::Down);
    }
    Some(Body::Close(reason(text)?))
}

/// A change without its peer.
pub fn word(alloc: Global, text: &str) -> Option<Word> {
    let (time, said) = text.trim().split_once(' ')?;
    Some(Word {
        time: number(time)?,
        body: body(alloc, said)?,
    })
}

/// The number of a peer, and its change.
pub fn change(alloc: Global, exchange: &Exchange, text: &str) -> Option<(usize, Word)> {
    let (name, rest) = text.trim().split_once(' ')?;
    Some((peer_of(exchange, name)?, word(alloc, rest)?))
}

/// Takes the next change of a peer, and answers whether memory sufficed; None if there is no such peer or its
/// session closed.
pub fn take(tables: &mut Tables, peer: usize, word: Word) -> Option<bool> {
    if peer >= tables.count() || tables.is_closed(peer) {
        return None;
    }
    Some(tables.apply(peer, word).is_ok())
}

/// Takes the change that a text says.
pub fn take_text(alloc: Global, tables: &mut Tables, text: &str) -> Option<bool> {
    let (peer, word) = change(alloc, tables.plan(), text)?;
    take(tables, peer, word)
}

/// The tables of an exchange after some changes.
pub fn after(alloc: Global, plan: &str, changes: &str) -> Option<Tables> {
    let mut tables = Tables::new(alloc, exchange(alloc, plan)?).ok()?;
    for text in changes.split(';') {
        if !text.trim().is_empty() && !take_text(alloc, &mut tables, text)? {
            return None;
        }
    }
    Some(tables)
}
