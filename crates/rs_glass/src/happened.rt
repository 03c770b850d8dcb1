//! What happened on a prefix: the changes on it and the losses and closes of all peers, in the order of time.
//!
//! Each peer's recording is read on a thread of its own, if the system grants one.

ghost use Rattle.std.specs.Prelude.{◌≡◌, ◌+◌, ◌≤◌, true, IfErr, IfOk, length};
ghost use Rattle.rs_glass.specs.Happened.{AreHappenings, AreHappeningsOf, happened_at};
ghost use Rattle.rs_glass.specs.Listed.{FailsNext, TakesNext};
ghost use Rattle.rs_glass.specs.Recorded.{IsFaultAmong, IsFaultOf};

use crate::cause::Cause;
use crate::fault::GlassFault;
use crate::listing::Listing;
use crate::moment::Moment;
use crate::question::Question;
use crate::recording::{Recording, recordings};
use rs_choice::Exchange;
use rs_losses::PutsIn;
use rs_mrt::{Source, SourceFault};
use rs_session::{PeerId, Reason, Word};
use rs_update::Errors;
use std::alloc::Global;
use std::thread;
use std::thread::Threads;

/// A change on a prefix, or a loss or a close of a session.
#[derive(Drop)]
pub struct Happening {
    /// The number of the peer.
    pub peer: usize,
    /// When it counts, in seconds since 1970: at its own time, but no earlier than anything before it in its recording.
    /// A close at the end of a recording has no time of its own, and counts at the latest time before it.
    pub time: u32,
    /// The microseconds of that time, if they are known.
    pub microseconds: Option<u32>,
    /// What changed.
    pub word: Word,
    /// Why it changed, if the record says more than that.
    pub cause: Option<Cause>,
    /// Whether the record was put in: then it is an inferred loss.
    pub put_in: bool,
}

impl Happening {
    // When it counts.
    fn moment(&self) -> Moment
        ensures { result ≡ happened_at self.now }
    {
        Moment {
            seconds: self.time,
            microseconds: self.microseconds,
        }
    }
}

/// What happened on the prefix, of all peers, in the order of time, to the microsecond if that is known. Things of
/// one moment come in the order of the peers, and those of one peer in the order of its records. `sources` has one
/// source for each peer, in the order of the peers. It gives the MRT records of the peer's recording one after another,
/// and then the end or a fault.
///
/// Fails if memory is refused, or if a session closes because its records can't be read: its source answers that a read
/// failed.
pub fn read_happenings<T: Threads + Sync, S: Source + PutsIn + Send + Drop>(
    rt: &T,
    alloc: Global,
    plan: &Exchange,
    sources: Vec<S>,
    question: &Question,
) -> Result<Vec<Happening>, GlassFault>
    requires one_for_each { length sources.items ≡ length plan.now.peers }
    ensures happenings { IfOk result (λ all.
        AreHappenings S.comes S.shows question.now plan.now sources.items all.items) }
    ensures fault { IfErr result (IsFaultAmong S.comes S.shows question.now plan.now sources.items) }
{
    let jobs = recordings(alloc, plan, sources)?;
    let lists = thread::map_vec(
        rt,
        jobs,
        &|recording| happenings_of(alloc, recording, question),
    )?;
    let mut all = Vec::new(alloc);
    for list in lists {
        let mut listed = list?;
        all.append(&mut listed)?;
    }
    all.sort_by_key(|happening: &Happening| happening.moment().in_microseconds())?;
    Ok(all)
}

// What happened in the recorded session of a peer, in the order of its records.
fn happenings_of<S: Source + PutsIn + Drop>(
    alloc: Global,
    recording: Recording<S>,
    question: &Question,
) -> Result<Vec<Happening>, GlassFault>
    ensures happenings { IfOk result (λ all.
        AreHappeningsOf S.comes S.shows question.now recording.id recording.source recording.peer all.items) }
    ensures fault { IfErr result
        (IsFaultOf S.comes S.shows question.now recording.id recording.source recording.peer) }
{
    let Recording {
        peer,
        id,
        mut source,
    } = recording;
    let mut listing = Listing::of_nothing(alloc, peer, *question);
    while take_next(alloc, &mut listing, &mut source, id, question.errors)? {}
    Ok(listing.all)
}

// Takes what the next record says, or the close at the end of the records. Answers whether the session goes on.
fn take_next<S: Source + PutsIn>(
    alloc: Global,
    listing: &mut Listing,
    source: &mut S,
    id: PeerId,
    errors: Errors,
) -> Result<bool, GlassFault>
    ensures takes { IfOk result
        (TakesNext S.comes errors id source.old source.new listing.old listing.new) }
    ensures room { IfOk result (λ goes_on. goes_on ≡ true → S.room source.new + 12 ≤ S.room source.old) }
    ensures fault { IfErr result (FailsNext S.comes source.old listing.old.peer) }
{
    match source.advance() {
        Ok(true) => {}
        Ok(false) => {
            listing.take_end(alloc, Reason::EndOfFile)?;
            return Ok(false);
        }
        Err(SourceFault::Mrt(fault)) => {
            listing.take_end(alloc, Reason::Mrt(fault.number()))?;
            return Ok(false);
        }
        Err(SourceFault::Read) => return Err(GlassFault::Read(listing.peer)),
    }
    let put_in = source.is_put_in();
    let Some(record) = source.shown() else {
        unreachable!();
    };
    Ok(listing.take_record(alloc, errors, id, &record, put_in)?)
}
