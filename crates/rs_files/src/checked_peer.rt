//! The lines of one peer before a run: which records of it are read, how many UPDATEs are treated as withdrawn, and where
//! its session closes.

use crate::early_close::early_close_at;
use crate::found::{Found, add_line};
use crate::treated::treated_at;
use rs_choice::PeerSpec;
use rs_glass_shell::{Unanswered, close_text};
use rs_host::{Unready, on_one_line};
use rs_inventory::{Inventory, Kind, PeerId, PeerRecords};
use rs_notes::{Close, Contents};
use rs_query::CheckQuery;
use rs_session::is_cut_short;
use rs_setup::Recording;
use rs_update::Errors;
use std::alloc::AllocError;
use std::fs::Files;

/// Adds the lines of a peer, if the content of its file is known. A file that may give its octets only once gets
/// none. Answers where its session closes.
pub(crate) fn add_peer<R: AllocGlobal + Files>(
    rt: &R,
    text: &mut String,
    spec: &PeerSpec,
    recording: Recording<'_>,
    contents: Option<&Contents<'_>>,
    query: &CheckQuery,
) -> Result<Close, Unanswered> {
    let held = contents.map(|contents| &contents.held);
    add_records(rt, text, spec, recording, held, query)?;
    match contents {
        Some(contents) if may_close(&contents.held, spec.peer_id()) => {
            add_close(rt, text, spec, contents, query)
        }
        _ => Ok(Close::AtEnd),
    }
}

// Adds the line of a peer's records.
fn add_records<R: AllocGlobal + Files>(
    rt: &R,
    text: &mut String,
    spec: &PeerSpec,
    recording: Recording<'_>,
    held: Option<&Inventory>,
    query: &CheckQuery,
) -> Result<(), Unready> {
    let shown = format!(in rt.alloc(); "{recording}")?;
    let shown = on_one_line(rt.alloc(), &shown)?;
    let found = match held {
        Some(held) => match held.peers().get(&spec.peer_id()) {
            Some(records) => {
                let treated = treated_of(rt, spec, recording, records, query)?;
                Found::Records(&shown, records, treated)
            }
            None => Found::NoRecord(&shown),
        },
        None => Found::Unread(&shown),
    };
    Ok(add_line(text, &spec.name, found)?)
}

// How many UPDATEs of a peer are treated as withdrawn; none if the standard treats none so.
fn treated_of<R: AllocGlobal + Files>(
    rt: &R,
    spec: &PeerSpec,
    recording: Recording<'_>,
    records: &PeerRecords,
    query: &CheckQuery,
) -> Result<Option<u64>, Unready> {
    match query.errors {
        Errors::Rfc4271 => Ok(None),
        Errors::Rfc7606 if records.faulty() == 0 => Ok(Some(0)),
        Errors::Rfc7606 => Ok(Some(treated_at(rt, recording, spec.peer_id(), query)?)),
    }
}

// Whether the session of a peer may close before the end of its file.
fn may_close(held: &Inventory, peer: PeerId) -> bool {
    if held.end().is_some() || held.count_of(Kind::CutShort) > 0 {
        return true;
    }
    match held.peers().get(&peer) {
        Some(records) => records.faulty() > 0,
        None => false,
    }
}

// Adds the line of a peer's session, if the session closes before the end of its recording. Answers where it closes. Of
// several files that one is named in which it does.
fn add_close<R: AllocGlobal + Files>(
    rt: &R,
    text: &mut String,
    spec: &PeerSpec,
    contents: &Contents<'_>,
    query: &CheckQuery,
) -> Result<Close, Unanswered> {
    let recording = contents.recording;
    let Some(close) = early_close_at(rt, recording, spec.peer_id(), query)? else {
        return Ok(Close::AtEnd);
    };
    let reason = close_text(rt.alloc(), close.reason)?;
    let place = contents.locate(close.octet);
    let path = on_one_line(rt.alloc(), place.path)?;
    let found = if recording.count() > 1 {
        Found::ClosesIn(&reason, place.octet, &path)
    } else {
        Found::Closes(&reason, place.octet)
    };
    add_line(text, &spec.name, found)?;
    Ok(if is_cut_short(close.reason) {
        Close::WithinRecord
    } else {
        Close::AtFault
    })
}
