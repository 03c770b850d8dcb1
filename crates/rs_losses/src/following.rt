//! How a session is followed, record by record: whether it is up, and before which record a loss is inserted (RFC
//! 4271, section 8.2.2).
//!
//! Our choices: the crate `rs_inventory` says which records show that a session begins, is up or is lost. A loss may
//! be recorded with another address. Then the Peer IP Address is 0.0.0.0, as after a lost connection, or the two
//! addresses are swapped.

ghost use Rattle.std.specs.Prelude.{◌≡◌};
ghost use Rattle.rs_mrt.specs.Record.{record_of};
ghost use Rattle.rs_losses.specs.Losses.{before_record, behind_record, is_begun, is_lost_before, is_misplaced};
ghost use Rattle.rs_losses.specs.Losses.{is_recorder, news_of, up_with};

use crate::losses::Sought;
use rs_inventory::{News, Note, outlined, recorder};
use rs_mrt::Record;
use rs_types::PeerId;

/// The session that is followed.
#[derive(Clone, Copy, Debug, PartialEq, Eq, Drop)]
pub(crate) struct Followed {
    /// Whose it is.
    pub who: Sought,
    /// Whether it is up, by the records so far.
    pub up: bool,
}

impl Followed {
    // The session after a record with this meaning for the peer.
    fn behind(self, news: Option<News>) -> Followed
        ensures { result ≡ record self { up = up_with self.up news } }
    {
        Followed {
            who: self.who,
            up: match news {
                Some(news) => !news.is_loss() && (news.shows_up() || self.up),
                None => self.up,
            },
        }
    }

    /// Whether a loss comes before a record, and the session behind that record.
    pub(crate) fn meet(self, recorded: &Record<'_>) -> (bool, Followed)
        ensures lost { result.0 ≡ is_lost_before self (record_of recorded.now) }
        ensures behind { result.1
            ≡ behind_record (before_record self (record_of recorded.now)) (record_of recorded.now) }
    {
        let note = outlined(recorded);
        let news = news_of(note, self.who.peer);
        let is_lost = self.up
            && (is_begun(news) || is_misplaced(note, recorder(recorded), self.who));
        let before = Followed {
            who: self.who,
            up: !is_lost && self.up,
        };
        (is_lost, before.behind(news))
    }
}

// What a note says of the peer itself.
fn news_of(note: Option<Note>, peer: PeerId) -> Option<News>
    ensures { result ≡ news_of peer note }
{
    let note = note?;
    if note.peer.address == peer.address && note.peer.asn == peer.asn {
        Some(note.news)
    } else {
        None
    }
}

// Whether a session begins with what is said.
fn is_begun(news: Option<News>) -> bool
    ensures { result ≡ is_begun news }
{
    match news {
        Some(news) => news.begins(),
        None => false,
    }
}

// Whether a note is of the peer's loss, under another address than the peer's.
fn is_misplaced(note: Option<Note>, recorder: Option<PeerId>, who: Sought) -> bool
    ensures { result ≡ is_misplaced who note recorder }
{
    let Some(note) = note else {
        return false;
    };
    note.news.is_loss()
        && note.peer.asn == who.peer.asn
        && note.peer.address != who.peer.address
        && ((note.peer.address == 0 && who.alone) || is_recorder(recorder, who.peer.address))
}

// Whether the recorder has this address.
fn is_recorder(recorder: Option<PeerId>, address: u32) -> bool
    ensures { result ≡ is_recorder recorder address }
{
    match recorder {
        Some(recorder) => recorder.address == address,
        None => false,
    }
}
