//! What holds of the definitions that the contracts cite: each law is the contract of a function that does nothing.

ghost use Rattle.rs_session.specs.Laws.{ClosesOnce, SaysNoMoreThanOctets, FrontSuffices, SomethingMayCome};
ghost use Rattle.rs_session.specs.Laws.{GivesFileOrFails, FailedReadCloses};

use crate::session::Session;
use rs_mrt::{Read, Source, front_of_a_record_says_the_same};

/// Whatever the records, a session says exactly one close, as its last change, and never for want of memory.
pub fn a_session_closes_once()
    ensures { ClosesOnce }
{}

/// A file says at most one change more than it has octets.
pub fn a_file_says_no_more_changes_than_octets()
    ensures { SaysNoMoreThanOctets }
{}

/// The first 4,121 octets of a record's body say what the body says.
pub fn the_front_of_a_record_suffices()
    ensures { FrontSuffices }
{
    front_of_a_record_says_the_same();
}

/// There is always something that may come: what a session gives is a beginning of something that its source may show.
pub fn something_may_come<S: Source>(_session: &Session<S>)
    ensures { SomethingMayCome S.comes S.shows _session.now }
{}

/// A session over a `RecordReader` gives one of two lists of changes, whichever its reader is. Either they are those of a
/// file that the reader may give, which is read as far as the record that closes the session. Or a read failed: then
/// they are the changes of the whole records that came, and a close that says so.
pub fn a_reader_gives_a_file_or_fails<R: Read>()
    ensures { (reader : R) → GivesFileOrFails R.gives reader }
{
    front_of_a_record_says_the_same();
}

/// If no record that came ends the session, a failed read closes it, as the last change.
pub fn a_failed_read_closes_last()
    ensures { FailedReadCloses }
{}
