//! The sessions that are written to files.
//!
//! A table tells nothing of its collector but the BGP Identifier. Our choices: it is the Local IP Address of the
//! records, and the Local AS is 65535, which no router has (RFC 7300). Sessions are read without both.

use crate::listed::{Listed, Part, Table};
use crate::session_files::{SessionFile, create};
use rs_glass_shell::Unanswered;
use rs_mrt::{IoWriter, Write};
use rs_query::StartQuery;
use rs_session::PeerId;
use rs_start::{Counts, PeerSession, SessionWriter, Start};
use std::alloc::{AllocError, Global};
use std::fs::Files;

/// The AS number of a collector, which no table has.
pub(crate) const COLLECTOR_AS: u32 = 65535;

/// Begins the sessions of the peers of a table, in its order. Their files get to `files`.
pub(crate) fn begin_sessions<R: AllocGlobal + Files>(
    rt: &R,
    query: &StartQuery,
    table: &Table,
    files: &mut Vec<SessionFile>,
) -> Result<Vec<PeerSession<IoWriter<R::File>>>, Unanswered> {
    let mut sessions = Vec::new(rt.alloc());
    for listed in &table.peers {
        let session = PeerSession {
            writer: begin_session(rt, query, table, *listed, files)?,
            counts: Counts::none(),
        };
        let Ok(()) = sessions.push(session) else {
            return Err(Unanswered::Memory);
        };
    }
    Ok(sessions)
}

// Begins the session of a peer, if it gets a file.
fn begin_session<R: AllocGlobal + Files>(
    rt: &R,
    query: &StartQuery,
    table: &Table,
    listed: Listed,
    files: &mut Vec<SessionFile>,
) -> Result<Option<SessionWriter<IoWriter<R::File>>>, Unanswered> {
    let Part::Written(address) = listed.part else {
        return Ok(None);
    };
    let start = Start {
        time: table.time,
        peer: PeerId {
            address,
            asn: listed.peer.asn,
        },
        local: PeerId {
            address: table.collector,
            asn: COLLECTOR_AS,
        },
    };
    let file = create(rt, query, address, files)?;
    let writer = SessionWriter::begin(rt.alloc(), IoWriter::new(file), start)?;
    Ok(Some(writer))
}

/// What became of the entries of each peer.
pub(crate) fn counts_of<W: Write + Drop>(
    alloc: Global,
    sessions: &[PeerSession<W>],
) -> Result<Vec<Counts>, AllocError> {
    let mut counts = Vec::with_capacity(alloc, sessions.len())?;
    for session in sessions {
        counts.push(session.counts)?;
    }
    Ok(counts)
}
