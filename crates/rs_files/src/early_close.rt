//! Where the recorded session of a peer closes before the end of its file, by RFC 4271 or RFC 7606 (docs/MANUAL.md,
//! "Report and dumps").

use rs_host::{Reached, Unready, open_recording};
use rs_mrt::{Lenient, RecordReader, Source};
use rs_query::CheckQuery;
use rs_session::{Body, PeerId, Reason, Session};
use rs_setup::Recording;
use std::alloc::AllocError;
use std::fs::Files;

/// Where a session closes before the end of its file.
#[derive(Clone, Copy, Drop)]
pub(crate) struct EarlyClose {
    /// How many octets stand before the record that closes it.
    pub(crate) octet: u64,
    /// Why.
    pub(crate) reason: Reason,
}

/// Where the session of a peer closes before the end of a recording; none if it doesn't. The recording is read within the
/// bounds and by the standard that are asked for. Fails with `Unread` if a file of it can't be read, with `Memory` if
/// memory is refused.
pub(crate) fn early_close_at<'a, R: AllocGlobal + Files>(
    rt: &'a R,
    recording: Recording<'a>,
    peer: PeerId,
    query: &CheckQuery,
) -> Result<Option<EarlyClose>, Unready> {
    let alloc = rt.alloc();
    let reached = Reached::first();
    let records = match open_recording(rt, recording, Some(&reached)) {
        Ok(file) => RecordReader::up_to(file, query.bounds.until),
        Err(fault) => return Err(Unready::by_file(alloc, fault, recording.path(0))),
    };
    let source = Lenient::new(records, query.bounds.tail);
    let mut session = Session::over_by(alloc, source, peer, query.errors);
    let reason = reason_of(&mut session)?;
    let octet = session.source().source().place();
    match reason {
        Reason::EndOfFile => Ok(None),
        Reason::Read => Err(Unready::by_path(alloc, reached.path(recording))),
        _ => Ok(Some(EarlyClose { octet, reason })),
    }
}

// Why a session closes.
fn reason_of<S: Source>(session: &mut Session<S>) -> Result<Reason, AllocError> {
    for _ in 0..u64::MAX {
        let Some(word) = session.next_word()? else {
            break;
        };
        if let Body::Close(reason) = word.body {
            return Ok(reason);
        }
    }
    Ok(Reason::EndOfFile)
}
