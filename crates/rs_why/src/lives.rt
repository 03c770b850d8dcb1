//! How long the routes of each peer stood, and what else happened to the peer.

use rs_glass::{Event, Gets, History};
use rs_session::Reason;
use std::alloc::{AllocError, Global};

/// A time in which a peer had one route, and the client got it, or did not.
#[derive(Clone, Copy, Debug, PartialEq, Eq, Drop)]
pub(crate) struct Life {
    /// From when on, in seconds since 1970.
    pub(crate) from: u32,
    /// Up to when; none if it goes on behind all that happened.
    pub(crate) to: Option<u32>,
    /// Which event announced the route.
    pub(crate) announced: usize,
    /// Whether it was announced at the beginning of this time.
    pub(crate) begins: bool,
    /// Whether the client got it.
    pub(crate) chosen: bool,
}

/// What happened to a peer that announced the prefix.
#[derive(Drop)]
pub(crate) struct PeerLives {
    /// The number of the peer.
    pub(crate) peer: usize,
    /// The times in which it had a route.
    pub(crate) lives: Vec<Life>,
    /// Which events withdrew its route, or lost or closed its session.
    pub(crate) ends: Vec<usize>,
}

/// What happened to each of so many peers that announced the prefix, in ascending order of their numbers.
pub(crate) fn lives_of(
    alloc: Global,
    history: &History,
    peers: usize,
) -> Result<Vec<PeerLives>, AllocError> {
    let mut all = none_yet(alloc, peers)?;
    let mut best = None;
    for (place, gets) in history.events.iter().enumerate() {
        take_event(&mut all, place, gets)?;
        if best != gets.best {
            choose(&mut all, best, false, gets.time)?;
            choose(&mut all, gets.best, true, gets.time)?;
            best = gets.best;
        }
    }
    all.retain(|one| !one.lives.is_empty());
    Ok(all)
}

// So many peers to which nothing happened yet.
fn none_yet(alloc: Global, peers: usize) -> Result<Vec<PeerLives>, AllocError> {
    let mut all = Vec::with_capacity(alloc, peers)?;
    for peer in 0..peers {
        all.push(PeerLives {
            peer,
            lives: Vec::new(alloc),
            ends: Vec::new(alloc),
        })?;
    }
    Ok(all)
}

// Takes what happened to a peer. If its file ends, its route stands on.
fn take_event(all: &mut [PeerLives], place: usize, gets: &Gets) -> Result<(), AllocError> {
    let Some(one) = all.get_mut(gets.peer) else {
        return Ok(());
    };
    match gets.event {
        Event::Announced(_) => {
            end_life(one, gets.time);
            one.lives.push(Life {
                from: gets.time,
                to: None,
                announced: place,
                begins: true,
                chosen: gets.best == Some(gets.peer),
            })?;
        }
        Event::Closed(Reason::EndOfFile) => one.ends.push(place)?,
        Event::Withdrawn | Event::Treated(_) | Event::Lost(_) | Event::Closed(_) => {
            end_life(one, gets.time);
            one.ends.push(place)?;
        }
    }
    Ok(())
}

// Ends the time of the route that a peer has, if it has one.
fn end_life(one: &mut PeerLives, time: u32) {
    if let Some(life) = one.lives.last_mut() {
        if life.to.is_none() {
            life.to = Some(time);
        }
    }
}

// Notes that from a time on the client gets the route that a peer has, or no longer gets it.
fn choose(
    all: &mut [PeerLives],
    peer: Option<usize>,
    chosen: bool,
    time: u32,
) -> Result<(), AllocError> {
    let Some(one) = peer.and_then(|peer| all.get_mut(peer)) else {
        return Ok(());
    };
    let mut next = match one.lives.last() {
        Some(life) if life.to.is_none() && life.chosen != chosen => *life,
        _ => return Ok(()),
    };
    end_life(one, time);
    next.from = time;
    next.begins = false;
    next.chosen = chosen;
    Ok(one.lives.push(next)?)
}
