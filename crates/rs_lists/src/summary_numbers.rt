//! The numbers of a summary.

ghost use Rattle.std.specs.Prelude.{◌<◌};

use rs_explain::ConditionKind;
use rs_query::reason_names::{
    NEXT_HOP_OFF_EXCHANGE, SERVER_ADDRESS_AS_NEXT_HOP, SERVER_AS_IN_PATH,
};
use rs_survey::{FILTERS, Finding, Tally};

// A number by its key.
pub(crate) type Number = (&'static str, u64);

// How many routes a peer has left, and how many of them are not eligible, by the first condition that they fail.
pub(crate) fn of_peer(tally: &Tally, peer: usize) -> [Number; 4]
    requires { peer < tally.now.peers }
{
    [
        ("left", tally.count(Finding::Left(peer))),
        (
            SERVER_AS_IN_PATH,
            ineligible(tally, peer, ConditionKind::OwnAs),
        ),
        (
            SERVER_ADDRESS_AS_NEXT_HOP,
            ineligible(tally, peer, ConditionKind::ServerAsNextHop),
        ),
        (
            NEXT_HOP_OFF_EXCHANGE,
            ineligible(tally, peer, ConditionKind::NextHopOffExchange),
        ),
    ]
}

// How many routes of a peer fail a condition.
fn ineligible(tally: &Tally, peer: usize, condition: ConditionKind) -> u64
    requires { peer < tally.now.peers }
{
    tally.count(Finding::Ineligible(peer, condition))
}

// How many eligible routes of a peer import policy does not take in.
pub(crate) fn filtered(tally: &Tally, peer: usize) -> u64
    requires { peer < tally.now.peers }
{
    let mut sum: u64 = 0;
    for filter in FILTERS {
        sum = sum.saturating_add(tally.count(Finding::Filtered(peer, filter)));
    }
    sum
}

// The numbers of a sender and all clients.
pub(crate) fn at_all_clients(tally: &Tally, peer: usize) -> [Number; 3]
    requires { peer < tally.now.peers }
{
    let mut sums = [0; 3];
    for client in 0..tally.peers() {
        add_pair(&mut sums, &of_pair(tally, client, peer));
    }
    [("refused", sums[0]), ("lost", sums[1]), ("best", sums[2])]
}

// Adds the numbers of a client and a sender to sums.
fn add_pair(sums: &mut [u64; 3], pair: &[Number; 3]) {
    for (sum, (_, number)) in sums.iter_mut().zip(pair.iter()) {
        *sum = sum.saturating_add(*number);
    }
}

// The numbers of a client and a sender.
pub(crate) fn of_pair(tally: &Tally, client: usize, peer: usize) -> [Number; 3]
    requires client_known { client < tally.now.peers }
    requires peer_known { peer < tally.now.peers }
{
    [
        ("refused", tally.count(Finding::Refused(client, peer))),
        ("lost", tally.count(Finding::Lost(client, peer))),
        ("best", tally.count(Finding::Best(client, peer))),
    ]
}
