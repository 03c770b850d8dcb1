//! Peers and prefixes as texts.

use crate::known::PeerSession;
use rs_choice::Exchange;
use rs_host::Utc;
use rs_notes::Down;
use rs_update::Prefix;
use std::alloc::{AllocError, Global};
use std::fmt;
use std::net::Ipv4Addr;

/// The name of the peer of a number; none if there is no such peer.
pub fn name_at(plan: &Exchange, number: usize) -> &str {
    if number < plan.count() {
        plan.peer(number).name.as_str()
    } else {
        ""
    }
}

/// The AS number of the peer of a number; 0 if there is no such peer.
pub fn asn_at(plan: &Exchange, number: usize) -> u32 {
    if number < plan.count() {
        plan.peer(number).asn
    } else {
        0
    }
}

/// How wide a column of names is under a title: two spaces stand behind the longest.
pub fn name_width(plan: &Exchange, title: &str) -> usize {
    let mut longest = title.len();
    for peer in 0..plan.count() {
        longest = longest.max(plan.peer(peer).name.len());
    }
    longest.saturating_add(2)
}

/// A prefix as it is written: address, slash, length.
#[derive(Clone, Copy, Debug, PartialEq, Eq, Drop)]
pub struct PrefixText(pub Prefix);

impl fmt::Display for PrefixText {
    fn fmt<W: fmt::Write>(&self, f: &mut fmt::Formatter<W>) -> fmt::Result {
        let (address, len) = (Ipv4Addr::from_bits(self.0.address()), self.0.len());
        write!(f, "{address}/{len}")
    }
}

/// The names of peers, with commas between them.
pub fn names_text(alloc: Global, plan: &Exchange, peers: &[usize]) -> Result<String, AllocError> {
    let mut text = String::new(alloc);
    for (place, peer) in peers.iter().enumerate() {
        if place > 0 {
            text.push_str(", ")?;
        }
        text.push_str(name_at(plan, *peer))?;
    }
    Ok(text)
}

/// Adds what a client gets on a prefix: `b (AS 64502) gets no route to 192.0.2.0/24`.
pub fn add_gets(
    text: &mut String,
    plan: &Exchange,
    (client, best): (usize, Option<usize>),
    prefix: Prefix,
) -> Result<(), AllocError> {
    let (name, asn) = (name_at(plan, client), asn_at(plan, client));
    let prefix = PrefixText(prefix);
    match best {
        Some(peer) => {
            let best = name_at(plan, peer);
            write!(
                text,
                "{name} (AS {asn}) gets the route of {best} to {prefix}"
            )
        }
        None => write!(text, "{name} (AS {asn}) gets no route to {prefix}"),
    }
}

/// The name of a peer, if there is one.
pub fn peer_name(plan: &Exchange, peer: Option<usize>) -> Option<&str> {
    match peer {
        Some(peer) => Some(name_at(plan, peer)),
        None => None,
    }
}

// How many peers a line names.
const NAMED: usize = 8;

/// Adds that the session of a peer is down.
pub fn add_down(
    text: &mut String,
    plan: &Exchange,
    peer: usize,
    down: Down,
) -> Result<(), AllocError> {
    let name = name_at(plan, peer);
    match down {
        Down::Since(time) => {
            let time = Utc(time);
            write!(text, "session of {name} is down since {time} UTC")
        }
        Down::NotBegun => write!(text, "session of {name} has not begun"),
    }
}

/// Which sessions are down, the first eight by name; none if no session is known to be down.
pub fn downs_text(
    alloc: Global,
    plan: &Exchange,
    sessions: &[PeerSession],
) -> Result<Option<String>, AllocError> {
    let mut text = String::new(alloc);
    let mut count: usize = 0;
    for (peer, session) in sessions.iter().enumerate() {
        if let Some(down) = session.down {
            if count < NAMED {
                text.push_str(if count == 0 { "" } else { "; " })?;
                add_down(&mut text, plan, peer, down)?;
            }
            count = count.saturating_add(1);
        }
    }
    if count > NAMED {
        let more = count - NAMED;
        write!(text, "; and {more} more are down")?;
    }
    Ok(if count == 0 { None } else { Some(text) })
}

/// Adds that the session of a route's sender began again at a time, in seconds since 1970, behind the route.
pub fn add_again(text: &mut String, again: u32) -> Result<(), AllocError> {
    let again = Utc(again);
    write!(
        text,
        "session began again at {again} UTC; its recorded loss is missing"
    )
}
