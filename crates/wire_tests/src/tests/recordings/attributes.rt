//! The attributes of what is announced, and the most items of a ring of changes.

use super::{PEER, file_of};
use rs_mrt::Records;
use rs_ring::Closing;
use rs_session::{Body, Reason, Session, Word};
use rs_update::{Attributes, Errors, Origin};
use std::alloc::Global;
use std::sync::Arc;
use std::test::*;

// The attributes of the next change of a session over a file at hand, which is an announcement.
fn next_attributes(session: &mut Session<Records<'_>>) -> Option<Arc<Attributes>> {
    let word = session.next_word().ok()?;
    match word {
        Some(
            Word {
                body: Body::Announce(_, attributes),
                ..
            },
        ) => Some(attributes),
        _ => None,
    }
}

// An UPDATE that announces 1.0.0.0/8, 2.0.0.0/8 and 3.0.0.0/8.
const THREE: &str = "100 16.4 of-64501 MARKER 0031 02 0000 0014 MANDATORY 0801 0802 0803";

// Of the first two announcements of a file: whether they have the same attributes, whether these are shared with the
// third one too, and their NEXT_HOP.
fn shared(alloc: Global) -> Option<(bool, bool, u32)> {
    let file = file_of(alloc, THREE);
    let mut session = Session::new(alloc, file.whole()?, PEER);
    let one = next_attributes(&mut session)?;
    let other = next_attributes(&mut session)?;
    let (count, others_count) = (Arc::strong_count(&one), Arc::strong_count(&other));
    Some((count == others_count, count >= 3, one.next_hop()))
}

// The two share with one another, and with the announcement that is still to come.
#[test]
fn announcements_of_one_update_share_their_attributes(rt: HostRuntime) {
    assert_eq!(rt; shared(rt.alloc()), Some((true, true, 0xC000_020B)));
}

// A second ORIGIN, and an AGGREGATOR of six octets: both are discarded (RFC 7606, sections 3, 7.7).
const DISCARDED: &str =
    "100 16.4 of-64501 MARKER 003C 02 0000 0021 40010100 40010103 40020602010000FBF5 400304C000020B C007060000FBF5C000 18CB0071";

// ORIGIN of the first announcement of a file, and whether it has no AGGREGATOR, faults being handled by RFC 7606.
fn first_attributes(alloc: Global) -> Option<(Origin, bool)> {
    let file = file_of(alloc, DISCARDED);
    let records = Records::new(file.whole()?);
    let mut session = Session::over_by(alloc, records, PEER, Errors::Rfc7606);
    let attributes = next_attributes(&mut session)?;
    Some((attributes.origin(), attributes.aggregator().is_none()))
}

#[test]
fn what_is_discarded_is_not_announced(rt: HostRuntime) {
    assert_eq!(rt; first_attributes(rt.alloc()), Some((Origin::Igp, true)));
}

#[test]
fn a_ring_of_changes_is_closed_by_any_close(rt: HostRuntime) {
    let word = Word {
        time: 100,
        body: Body::Close(Reason::Memory),
    };
    assert_eq!(rt;
        (word.is_close(), Word::LIMIT),
        (true, 2_251_799_813_685_248)
    );
}
