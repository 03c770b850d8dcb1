//! Which peers left routes of which import policy takes in none (RFC 4271, section 9.1.1).
//!
//! Our choice: eligibility is not asked. So a route that is taken in counts, though it may be a candidate of nobody.

ghost use Rattle.std.specs.Prelude.{◌<◌, length};

use rs_choice::MAX_PEERS;
use rs_table::{PrefixRoutes, Tables};

/// What import policy takes in of the routes that a peer has left.
#[derive(Clone, Copy, Debug, PartialEq, Eq)]
pub(crate) enum Intake {
    /// The peer has left no route.
    NoRoute,
    /// It has left some, and import policy takes in none of them.
    Nothing,
    /// Import policy takes in at least one of them.
    Something,
}

/// What import policy takes in of each peer, by its number. Eligibility is not asked. If import policy is not configured,
/// no route is looked at, and it is as if there were none. It takes no memory.
pub(crate) fn intakes(tables: &Tables) -> [Intake; MAX_PEERS] {
    let mut all = [Intake::NoRoute; MAX_PEERS];
    if !tables.plan().import().is_configured() {
        return all;
    }
    for on in tables.iter_prefixes() {
        if !take_prefix(tables, &on, &mut all) {
            break;
        }
    }
    all
}

// Counts the routes on one more prefix, but for those of peers of which a route is taken in. Answers whether there is
// any other peer.
fn take_prefix(tables: &Tables, on: &PrefixRoutes<'_>, all: &mut [Intake; MAX_PEERS]) -> bool {
    let mut open = false;
    for peer in 0..tables.count() {
        if all[peer] != Intake::Something {
            all[peer] = with_route(tables, peer, on, all[peer]);
            open = open || all[peer] != Intake::Something;
        }
    }
    open
}

// What is taken in of a peer, with its route on one more prefix.
fn with_route(tables: &Tables, peer: usize, on: &PrefixRoutes<'_>, before: Intake) -> Intake
    requires { peer < length tables.now.plan.peers }
{
    match on.route(peer) {
        None => before,
        Some(route) if tables.plan().accepts(peer, on.prefix, route.attributes) => {
            Intake::Something
        }
        Some(_) => Intake::Nothing,
    }
}
