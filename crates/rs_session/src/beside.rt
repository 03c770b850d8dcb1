//! Which records may be passed over if only one prefix is asked for, up to a time: UPDATEs that list no prefix that
//! covers it (RFC 4271, sections 4.3 and 9.1.4).

ghost use Rattle.std.specs.Prelude.{◌≡◌, IsTrue, Some};
ghost use Rattle.rs_mrt.specs.Record.{record_of};
ghost use Rattle.rs_session.specs.Concerning.{IsBeside, is_past};
ghost use Rattle.rs_session.specs.Effect.{effect_of};

use rs_mrt::{Entry, Record, entry};
use rs_types::PeerId;
use rs_update::{Errors, Prefix, concerns_prefix};

// The changes that are asked for, unless every change is: those on one prefix, up to a time.
#[derive(Clone, Copy, Drop)]
pub(crate) struct Only {
    pub(crate) prefix: Prefix,
    // In seconds since 1970; None is no limit.
    pub(crate) until: Option<u32>,
}

// Whether a record may be passed over. It is an UPDATE of the peer, not past the time, with faults handled by one of
// the standards. It lists no prefix that covers the one asked for. Nothing is allocated.
#[tactic(auto, unfolding(crate::specs::Effect::effect_of), using(crate::proofs::BesideLemmas::beside_message))]
pub(crate) fn is_beside(errors: Errors, peer: PeerId, record: &Record<'_>, only: Only) -> bool
    ensures { IsTrue result → IsBeside (Some only) (effect_of errors peer (record_of «record».now)) }
{
    if is_past(only.until, record.time) {
        return false;
    }
    match entry(record) {
        Ok(
            Entry::Message {
                peer_as,
                peer: address,
                message,
            },
        ) if peer.is(peer_as, address) => !concerns_prefix(errors, message, only.prefix),
        _ => false,
    }
}

// Whether a time is past a limit; no time is past if there is no limit.
fn is_past(until: Option<u32>, time: u32) -> bool
    ensures { result ≡ is_past until time }
{
    match until {
        Some(until) => time > until,
        None => false,
    }
}
