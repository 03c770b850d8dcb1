//! What a record says of a peer by itself, of its message no more than the type (RFC 4271, section 4.1; RFC 6396,
//! section 4.4).

ghost use Rattle.std.specs.Prelude.{◌≡◌};
ghost use Rattle.rs_mrt.specs.Record.{record_of};
ghost use Rattle.rs_inventory.specs.Outline.{outline_note};

use crate::finding::{Note, kind_of_type, news_of_kind, state_news, two_octet_note};
use rs_mrt::{Entry, Record, entry};

/// What a record says of a peer, as `read_outline` reads it: of a message no more than its type is read, so an UPDATE
/// counts no prefixes. None if the record names no peer that is read, or is shorter than its fields.
pub fn outlined(recorded: &Record<'_>) -> Option<Note>
    ensures { result ≡ outline_note (record_of recorded.now) }
{
    match entry(recorded) {
        Ok(
            Entry::Message {
                peer_as,
                peer,
                message,
            },
        ) => Some(Note::of(peer, peer_as, news_of_kind(message, kind_of_type(message)))),
        Ok(
            Entry::State {
                peer_as,
                peer,
                old,
                new,
            },
        ) => Some(Note::of(peer, peer_as, state_news(old, new))),
        Ok(Entry::Other) => two_octet_note(recorded),
        Err(_) => None,
    }
}
