//! Routes as a decision takes them, and what is asked of them alone, without tables.
//!
//! A route is the name of its peer and words for its attributes.

use super::exchanges::{attributes, exchange, peer_of};
use super::{decisions, plans, routes};
use rs_choice::{Exchange, HeldRoute};
use rs_update::Prefix;
use std::alloc::Global;

// The time at which each route came.
const TIME: u32 = 100;

// The prefix on which each route came, 10.0.0.0/8.
const ADDRESS: u32 = 167772160;

const LEN: u8 = 8;

// A route as it is stored.
fn hold(alloc: Global, exchange: &Exchange, text: &str) -> Option<HeldRoute> {
    let (name, words) = text.trim().split_once(' ')?;
    let peer = peer_of(exchange, name)?;
    let prefix = Prefix::new(ADDRESS, LEN)?;
    Some(exchange.hold(peer, prefix, TIME, attributes(alloc, words)?))
}

// The routes of a text as they are stored, in their order.
fn hold_all(alloc: Global, exchange: &Exchange, text: &str) -> Option<Vec<HeldRoute>> {
    let mut all = Vec::new(alloc);
    for route in text.split(';') {
        if !route.trim().is_empty() {
            all.push(hold(alloc, exchange, route)?).ok()?;
        }
    }
    Some(all)
}

/// What comes of routes in an exchange.
pub fn answer(alloc: Global, plan: &str, asked: &str, routes: &str) -> Option<String> {
    let exchange = exchange(alloc, plan)?;
    let held = hold_all(alloc, &exchange, routes)?;
    match asked {
        "chosen" => decisions::chosen(alloc, &exchange, &held),
        "held" => routes::shown(alloc, &exchange, held.first()?),
        "eligible" => routes::shown_eligible(alloc, &exchange, held.first()?),
        "exported" => routes::shown_clients(alloc, &exchange, held.first()?),
        "plan" => plans::shown(alloc, &exchange),
        _ => None,
    }
}
