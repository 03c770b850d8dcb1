//! The numbers of each peer, as `summary` has them.

ghost use Rattle.std.specs.Prelude.{◌<◌};

use crate::bars::Bar;
use crate::filters::filtered_of;
use crate::times::Times;
use rs_survey::{ConditionKind, Finding, Tally};
use std::alloc::{AllocError, Global};

/// What a number counts.
#[derive(Clone, Copy, Debug, PartialEq, Eq)]
pub(crate) enum Measure {
    /// Prefixes that the peer announced, repeated ones too.
    Announced,
    /// Prefixes on which it left a route.
    Left,
    /// Its routes whose AS_PATH has the server's AS.
    OwnAs,
    /// Its routes whose NEXT_HOP is the server.
    ServerAsNextHop,
    /// Its routes whose NEXT_HOP is off the subnet.
    NextHopOffSubnet,
    /// Its eligible routes that import policy filters.
    Filtered,
    /// Its routes that are refused, once for each client.
    Refused,
    /// Its routes that are candidates, once for each client.
    Candidates,
    /// Its routes of these that another one beats, once for each client.
    Lost,
    /// Its routes that are chosen, once for each client.
    Best,
}

impl Measure {
    /// The label of its bars.
    pub(crate) fn label(self) -> &'static str {
        match self {
            Measure::Announced => "announced",
            Measure::Left => "left",
            Measure::OwnAs => "server AS",
            Measure::ServerAsNextHop => "server hop",
            Measure::NextHopOffSubnet => "off subnet",
            Measure::Filtered => "filtered",
            Measure::Refused => "refused",
            Measure::Candidates => "candidates",
            Measure::Lost => "lost",
            Measure::Best => "best",
        }
    }

    // The class of its bars.
    fn class(self) -> &'static str {
        match self {
            Measure::Announced | Measure::Left => "kb",
            Measure::OwnAs
            | Measure::ServerAsNextHop
            | Measure::NextHopOffSubnet
            | Measure::Filtered => "ko",
            Measure::Refused => "kr",
            Measure::Candidates | Measure::Lost | Measure::Best => "kg",
        }
    }
}

/// The numbers of a peer, or of several together.
#[derive(Clone, Copy, Debug, PartialEq, Eq, Drop)]
pub(crate) struct Member {
    announced: u64,
    left: u64,
    own_as: u64,
    server_as_next_hop: u64,
    next_hop_off_subnet: u64,
    filtered: u64,
    refused: u64,
    lost: u64,
    best: u64,
}

// The numbers of nobody.
const NOBODY: Member = Member {
    announced: 0,
    left: 0,
    own_as: 0,
    server_as_next_hop: 0,
    next_hop_off_subnet: 0,
    filtered: 0,
    refused: 0,
    lost: 0,
    best: 0,
};

impl Member {
    /// One of the numbers.
    pub(crate) fn number(&self, measure: Measure) -> u64 {
        match measure {
            Measure::Announced => self.announced,
            Measure::Left => self.left,
            Measure::OwnAs => self.own_as,
            Measure::ServerAsNextHop => self.server_as_next_hop,
            Measure::NextHopOffSubnet => self.next_hop_off_subnet,
            Measure::Filtered => self.filtered,
            Measure::Refused => self.refused,
            Measure::Candidates => self.lost.saturating_add(self.best),
            Measure::Lost => self.lost,
            Measure::Best => self.best,
        }
    }

    /// Bars of some of the numbers, on the scale of this greatest one.
    pub(crate) fn bars(
        &self,
        alloc: Global,
        measures: &[Measure],
        most: u64,
    ) -> Result<Vec<Bar>, AllocError> {
        let mut bars = Vec::new(alloc);
        for measure in measures {
            bars.push(Bar {
                label: measure.label(),
                number: self.number(*measure),
                most,
                class: measure.class(),
            })?;
        }
        Ok(bars)
    }

    // The numbers of this peer and of another one together.
    fn with(self, other: &Member) -> Member {
        Member {
            announced: self.announced.saturating_add(other.announced),
            left: self.left.saturating_add(other.left),
            own_as: self.own_as.saturating_add(other.own_as),
            server_as_next_hop: self
                .server_as_next_hop
                .saturating_add(other.server_as_next_hop),
            next_hop_off_subnet: self
                .next_hop_off_subnet
                .saturating_add(other.next_hop_off_subnet),
            filtered: self.filtered.saturating_add(other.filtered),
            refused: self.refused.saturating_add(other.refused),
            lost: self.lost.saturating_add(other.lost),
            best: self.best.saturating_add(other.best),
        }
    }
}

/// The numbers of all peers, in their order.
pub(crate) fn members_of(
    alloc: Global,
    tally: &Tally,
    times: &Times,
) -> Result<Vec<Member>, AllocError> {
    let mut members = Vec::new(alloc);
    for peer in 0..tally.peers() {
        let announced = match times.peers.get(peer) {
            Some(one) => one.announced,
            None => 0,
        };
        members.push(member_of(tally, peer, announced))?;
    }
    Ok(members)
}

// The numbers of a peer that announced so many prefixes.
fn member_of(tally: &Tally, peer: usize, announced: u64) -> Member
    requires { peer < tally.now.peers }
{
    let mut member = Member {
        announced,
        left: tally.count(Finding::Left(peer)),
        own_as: tally.count(Finding::Ineligible(peer, ConditionKind::OwnAs)),
        server_as_next_hop: tally.count(Finding::Ineligible(peer, ConditionKind::ServerAsNextHop)),
        next_hop_off_subnet: tally.count(Finding::Ineligible(
            peer,
            ConditionKind::NextHopOffExchange,
        )),
        filtered: filtered_of(tally, peer),
        ..NOBODY
    };
    for client in 0..tally.peers() {
        member = member.with(&pair_of(tally, client, peer));
    }
    member
}

// What becomes of a peer's routes at a client.
fn pair_of(tally: &Tally, client: usize, peer: usize) -> Member
    requires client_known { client < tally.now.peers }
    requires peer_known { peer < tally.now.peers }
{
    Member {
        refused: tally.count(Finding::Refused(client, peer)),
        lost: tally.count(Finding::Lost(client, peer)),
        best: tally.count(Finding::Best(client, peer)),
        ..NOBODY
    }
}

/// The numbers of all peers together.
pub(crate) fn total_of(members: &[Member]) -> Member {
    let mut total = NOBODY;
    for member in members {
        total = total.with(member);
    }
    total
}

/// The greatest of some numbers of all peers.
pub(crate) fn most_of(members: &[Member], measures: &[Measure]) -> u64 {
    let mut most = 0;
    for member in members {
        for measure in measures {
            most = most.max(member.number(*measure));
        }
    }
    most
}
