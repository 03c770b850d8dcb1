//! The notes on what is lawful and yet suspicious in the records of peers. Records that are all later than
//! what is read. Messages that aren't read, and large communities of the server without an effect. A recording that
//! begins in mid-session, and a session that began again without a recorded loss. A loss that is recorded with the
//! address of no peer. A session that is down at the end.
//!
//! Our choices: a session gets such a note only if it did not close before the end of its file. If it did, its routes are
//! gone. Without `large_communities` the configuration asks for large communities to have no effect, so the note on them
//! is no reason for a status.

use crate::contents::Contents;
use crate::down::{SEVERAL_DOWN, down_at_end, down_told};
use crate::group::{Detail, Group, Told};
use crate::lost::{Lost, lost_of};
use crate::note::{
    again_line, at_text, first_text, inside_line, large_text, lost_text, no_effect_text,
    unread_text, up_to_text,
};
use crate::notes::Notes;
use crate::subject::{Close, Ending, Subject, Telling};
use rs_choice::PeerSpec;
use rs_inventory::Unread;
use std::alloc::{AllocError, Global};

/// The notes on what is suspicious.
#[derive(Drop)]
pub(crate) struct Doubts<'a> {
    // Peers whose records are all later than what is read.
    later: Group<'a>,
    // Peers of which messages aren't read, and peers whose large communities of the server have no effect.
    unread: Group<'a>,
    large: Group<'a>,
    // Three groups of peers: those whose recordings begin in mid-session, and those whose session began again
    // without a recorded loss. The third are those of which a loss is recorded with the address of no peer.
    inside: Group<'a>,
    again: Group<'a>,
    lost: Group<'a>,
    // Peers whose sessions are down at the end.
    down: Group<'a>,
}

impl<'a> Doubts<'a> {
    /// No note yet.
    pub(crate) fn none(alloc: Global) -> Doubts<'a> {
        Doubts {
            later: Group::none(alloc),
            unread: Group::none(alloc),
            large: Group::none(alloc),
            inside: Group::none(alloc),
            again: Group::none(alloc),
            lost: Group::none(alloc),
            down: Group::none(alloc),
        }
    }

    /// Takes a peer whose records are all later than what is read, which is up to a time: its first one has this time.
    pub(crate) fn take_later(
        &mut self,
        alloc: Global,
        spec: &'a PeerSpec,
        until: Option<u32>,
        first: u32,
    ) {
        if let Some(until) = until {
            self.later
                .add(&spec.name, later_told(alloc, &spec.name, until, first));
        }
    }

    /// Takes how many messages of a peer aren't read, and how many have large communities without an effect.
    pub(crate) fn take_unread(
        &mut self,
        alloc: Global,
        subject: Subject<'a>,
        spec: &'a PeerSpec,
        unread: Unread,
    ) {
        let plan = &subject.setup.plan;
        if !unread.is_none() {
            self.unread
                .add(&spec.name, unread_told(alloc, &spec.name, unread));
        }
        if subject.telling == Telling::All && unread.large > 0 && !plan.counts_large_communities() {
            let told = large_told(alloc, &spec.name, plan.local().asn, unread.large);
            self.large.add(&spec.name, told);
        }
    }

    /// Takes what is suspicious of the sessions of a peer.
    pub(crate) fn take_sessions(
        &mut self,
        alloc: Global,
        subject: Subject<'a>,
        spec: &'a PeerSpec,
        contents: &Contents<'_>,
        ending: Ending,
    ) {
        if ending.close != Close::AtEnd {
            return;
        }
        let Some(records) = contents.held.peers().get(&spec.peer_id()) else {
            return;
        };
        let (name, course) = (&spec.name, records.course());
        if course.inside {
            self.inside.add(name, inside_told(alloc, name));
        }
        if subject.telling == Telling::All {
            if let Some(down) = down_at_end(subject, &contents.held, records, spec.peer_id()) {
                self.down.add(name, down_told(alloc, name, down));
            }
        }
        if subject.inferred {
            return;
        }
        if let Some(time) = course.again {
            self.again.add(name, again_told(alloc, name, time));
        }
        if let Some(lost) = lost_of(subject.setup, &contents.held, records, spec.peer_id()) {
            self.lost.add(name, lost_told(alloc, name, lost));
        }
    }

    /// Adds the notes.
    pub(crate) fn add_to(&self, alloc: Global, subject: Subject<'_>, notes: &mut Notes) {
        if let Some(until) = subject.bounds.until {
            notes.add_group_with(alloc, &self.later, up_to_text(alloc, "them", until));
        }
        notes.add_group(alloc, &self.unread, "messages of them are not read");
        if let Ok(several) = no_effect_text(alloc, subject.setup.plan.local().asn) {
            notes.add_group_as_asked(alloc, &self.large, &several);
        }
        notes.add_group(
            alloc,
            &self.inside,
            "their recordings begin in mid-session; routes announced before are missing",
        );
        notes.add_group(
            alloc,
            &self.again,
            "a session of each began again without a recorded loss; their earlier routes stay",
        );
        notes.add_group(
            alloc,
            &self.lost,
            "losses are recorded without their addresses; --losses inferred counts them",
        );
        notes.add_group_as_asked(alloc, &self.down, SEVERAL_DOWN);
    }
}

// The note on a peer whose records are all later than a time.
fn later_told(alloc: Global, name: &str, until: u32, first: u32) -> Result<Told, AllocError> {
    let (until, first) = (up_to_text(alloc, "it", until)?, first_text(alloc, first)?);
    Ok(Told {
        line: format!(in alloc; "peer {name}: {until}; {first}")?,
        detail: Detail::Part(first),
    })
}

// The note on a peer of which messages aren't read.
fn unread_told(alloc: Global, name: &str, unread: Unread) -> Result<Told, AllocError> {
    let detail = unread_text(alloc, unread)?;
    Ok(Told {
        line: format!(in alloc; "peer {name}: messages of it are not read: {detail}")?,
        detail: Detail::Part(detail),
    })
}

// The note on a peer of which so many UPDATEs have large communities of a server, which have no effect.
fn large_told(alloc: Global, name: &str, server: u32, updates: u64) -> Result<Told, AllocError> {
    let (no_effect, detail) = (no_effect_text(alloc, server)?, large_text(alloc, updates)?);
    Ok(Told {
        line: format!(in alloc; "peer {name}: {no_effect} ({detail})")?,
        detail: Detail::Part(detail),
    })
}

// The note on a peer whose recording begins in mid-session.
fn inside_told(alloc: Global, name: &str) -> Result<Told, AllocError> {
    Ok(Told {
        line: inside_line(alloc, name)?,
        detail: Detail::Nothing,
    })
}

// The note on a peer of which a session began again at a time.
fn again_told(alloc: Global, name: &str, time: u32) -> Result<Told, AllocError> {
    Ok(Told {
        line: again_line(alloc, name, time)?,
        detail: Detail::Part(at_text(alloc, time)?),
    })
}

// The note on a peer of which a loss is recorded with the address of no peer.
fn lost_told(alloc: Global, name: &str, lost: Lost) -> Result<Told, AllocError> {
    let text = lost_text(alloc, lost)?;
    Ok(Told {
        line: format!(in alloc; "peer {name}: {text}")?,
        detail: Detail::Part(at_text(alloc, lost.time)?),
    })
}
