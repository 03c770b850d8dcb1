//! The rules read slowly: all changes are kept in one list, and what a client gets is worked out from it anew
//! each time.

use rs_choice::{Exchange, Local, PeerSpec};
use rs_session::{Body, Reason, Word};
use rs_update::{Attributes, Origin, Prefix};
use std::alloc::Global;
use std::sync::Arc;

// A route that a peer has left, with what the decision process asks of it (RFC 4271, sections 9.1.1 and 9.1.2.2).
#[derive(Clone, Copy)]
struct Member {
    peer: usize,
    time: u32,
    preference: u32,
    path_length: u32,
    origin: Origin,
    neighbour: u32,
    med: u32,
    id: u32,
    address: u32,
}

impl Member {
    // The member that a route of a peer is.
    fn new(peer: usize, sender: &PeerSpec, time: u32, route: &Attributes) -> Member {
        Member {
            peer,
            time,
            preference: sender.preference,
            path_length: route.path_length(),
            origin: route.origin(),
            neighbour: route.neighbour(sender.asn),
            med: route.med().unwrap_or(0),
            id: sender.id,
            address: sender.address,
        }
    }

    // Whether this member removes another one by the step of that number.
    fn beats(&self, step: u32, other: &Member) -> bool {
        match step {
            1 => self.preference > other.preference,
            2 => self.path_length < other.path_length,
            3 => self.origin < other.origin,
            4 => self.neighbour == other.neighbour && self.med < other.med,
            5 => self.id < other.id,
            _ => self.address < other.address,
        }
    }
}

// What a step leaves: those that no member beats.
fn unbeaten(alloc: Global, step: u32, members: &[Member]) -> Option<Vec<Member>> {
    let mut left = Vec::new(alloc);
    for member in members {
        if !members.iter().any(|other| other.beats(step, member)) {
            left.push(*member).ok()?;
        }
    }
    Some(left)
}

// Whether a route of a peer may be used at all (RFC 4271, sections 6.3 and 9.1.2).
fn is_eligible(local: &Local, sender: &PeerSpec, route: &Attributes) -> bool {
    let next_hop = route.next_hop();
    let is_reachable = match local.subnet {
        None => true,
        Some(subnet) => {
            next_hop == sender.address || Prefix::new(next_hop, subnet.len()) == Some(subnet)
        }
    };
    is_reachable && next_hop != local.address && !route.holds_as(local.asn)
}

// Whether export policy lets a client have a route of another peer (RFC 7947, section 2.3).
fn is_permitted(local: &Local, client: &PeerSpec, sender: &PeerSpec, route: &Attributes) -> bool {
    let refuses = client
        .refuse_from
        .iter()
        .any(|name| name.as_str() == sender.name.as_str());
    if refuses || route.has_community(0, client.asn) {
        return false;
    }
    route.has_community(local.asn, client.asn) || !route.has_community(0, local.asn)
}

// The plan, and all changes so far, each with the number of its peer.
#[derive(Drop)]
pub struct History {
    plan: Arc<Exchange>,
    changes: Vec<(usize, Word)>,
}

impl History {
    /// Begins with no change.
    pub fn new(alloc: Global, plan: Arc<Exchange>) -> History {
        History {
            plan,
            changes: Vec::new(alloc),
        }
    }

    /// The exchange.
    pub fn plan(&self) -> &Exchange {
        &self.plan
    }

    /// Appends a change.
    pub fn add(&mut self, peer: usize, word: Word) -> Option<()> {
        self.changes.push((peer, word)).ok()
    }

    // Whether a peer's session closed but at the end of its file.
    fn is_at_fault(&self, peer: usize) -> bool {
        self.changes.iter().any(|(of, word)| {
            *of == peer && matches!(word.body, Body::Close(reason) if reason != Reason::EndOfFile)
        })
    }

    // The route that a peer has left on a prefix: that of its last change there, if its session wasn't lost since.
    fn route(&self, peer: usize, prefix: Prefix) -> Option<(u32, &Attributes)> {
        if self.is_at_fault(peer) {
            return None;
        }
        for (of, word) in self.changes.iter().rev() {
            match &word.body {
                Body::Announce(on, route) if *of == peer && *on == prefix => {
                    return Some((word.time, &**route));
                }
                Body::Withdraw(on) if *of == peer && *on == prefix => return None,
                Body::Down if *of == peer => return None,
                _ => {}
            }
        }
        None
    }

    // A peer's route on a prefix, where a client may get it.
    fn candidate(&self, client: usize, peer: usize, prefix: Prefix) -> Option<Member> {
        if client == peer || client >= self.plan.count() || peer >= self.plan.count() {
            return None;
        }
        let (time, route) = self.route(peer, prefix)?;
        let local = self.plan.local();
        let sender = self.plan.peer(peer);
        if is_eligible(local, sender, route)
            && is_permitted(local, self.plan.peer(client), sender, route)
        {
            Some(Member::new(peer, sender, time, route))
        } else {
            None
        }
    }

    /// Whose route a client gets on a prefix, and when it was announced: what the six steps leave of its candidates.
    pub fn best(
        &self,
        alloc: Global,
        client: usize,
        prefix: Prefix,
    ) -> Option<Option<(usize, u32)>> {
        let mut members = Vec::new(alloc);
        for peer in 0..self.plan.count() {
            if let Some(member) = self.candidate(client, peer, prefix) {
                members.push(member).ok()?;
            }
        }
        for step in 1..7 {
            members = unbeaten(alloc, step, &members)?;
        }
        Some(members.first().map(|member| (member.peer, member.time)))
    }
}
