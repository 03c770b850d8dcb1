//! What a record says to the session of one peer (RFC 6396, sections 4.4.3 and 4.4.4; RFC 4271, sections 4.2
//! to 4.5 and 6).
//!
//! Our choices: a record of another kind or of another peer is passed over. Of the changes of state only one from
//! Established to another state counts. After a loss and after a NOTIFICATION reading goes on, whatever the
//! recorded state is. A fault of the recording or of a message closes the session.

ghost use Rattle.std.specs.Prelude.{◌≡◌, IfOk, OnErr};
ghost use Rattle.rs_mrt.specs.Record.{record_of};
ghost use Rattle.rs_update.specs.Message.{ListsPrefix};
ghost use Rattle.rs_update.specs.Treating.{message_by};
ghost use Rattle.rs_session.specs.Effect.{ListsPrefixOf, effect_of, effect_of_message, effect_of_state};
ghost use Rattle.rs_session.specs.EffectView.{effect_value, IsRecorded};

use crate::pending::Pending;
use rs_change::Reason;
use rs_mrt::{ESTABLISHED, Entry, Record, entry};
use rs_types::PeerId;
use rs_update::{Errors, Message, MessageFault, read_message_by};
use std::alloc::{AllocError, Global};

/// What a record says to the session of one peer.
#[derive(Drop)]
pub enum Effect {
    /// Nothing: it is of another peer, or of a kind that is not read.
    PassesOver,
    /// The session goes on with these changes, perhaps none, in this order.
    Gives(Pending),
    /// The session ends, for this reason. The close is its last change, at the time of the record.
    Ends(Reason),
}

/// Reads what a record says to the session of a peer (RFC 6396, sections 4.4.3 and 4.4.4), faults in messages being
/// handled by one of the standards. The record counts alone: what the session said before makes no difference.
///
/// Only an UPDATE of the peer that lists a prefix can fail, if memory is refused.
#[tactic(auto, unfolding(crate::specs::Effect::effect_of))]
pub fn read_record(
    alloc: Global,
    errors: Errors,
    peer: PeerId,
    record: &Record<'_>,
) -> Result<Effect, AllocError>
    ensures says { IfOk result (λ effect. effect_value effect ≡ effect_of errors peer (record_of «record».now)) }
    ensures recorded { IfOk result IsRecorded }
    ensures refused { OnErr result (ListsPrefixOf errors peer (record_of «record».now)) }
{
    match entry(record) {
        Ok(
            Entry::Message {
                peer_as,
                peer: address,
                message,
            },
        ) if peer.is(peer_as, address) => read_recorded_message(
            alloc,
            errors,
            record.time,
            message,
        ),
        Ok(
            Entry::State {
                peer_as,
                peer: address,
                old,
                new,
            },
        ) if peer.is(peer_as, address) => Ok(effect_of_state(alloc, record.time, old, new)),
        Ok(_) => Ok(Effect::PassesOver),
        Err(fault) => Ok(Effect::Ends(Reason::Mrt(fault.number()))),
    }
}

// What a change of state says, recorded at a time.
fn effect_of_state(alloc: Global, time: u32, old: u16, new: u16) -> Effect
    ensures says { effect_value result ≡ effect_of_state time old new }
    ensures recorded { IsRecorded result }
{
    if old == ESTABLISHED && new != ESTABLISHED {
        Effect::Gives(Pending::of_loss(alloc, time))
    } else {
        Effect::Gives(Pending::none(alloc))
    }
}

// What a message says, recorded at a time. Only an UPDATE that lists a prefix can fail.
fn read_recorded_message(
    alloc: Global,
    errors: Errors,
    time: u32,
    octets: &[u8],
) -> Result<Effect, AllocError>
    ensures says { IfOk result (λ effect. effect_value effect ≡ effect_of_message time (message_by errors octets.now)) }
    ensures recorded { IfOk result IsRecorded }
    ensures refused { OnErr result (ListsPrefix (message_by errors octets.now)) }
{
    let effect = match read_message_by(alloc, errors, octets) {
        Ok(Message::Open) => Effect::Gives(Pending::none(alloc)),
        Ok(Message::Update(update)) => Effect::Gives(Pending::of_update(alloc, time, update)?),
        Ok(Message::Treated { withdrawn, nlri }) => Effect::Gives(Pending::of_treated(
            alloc, time, withdrawn, nlri,
        )?),
        Ok(Message::Notification) => Effect::Gives(Pending::of_loss(alloc, time)),
        Ok(Message::KeepAlive) => Effect::Gives(Pending::none(alloc)),
        Ok(Message::Refresh) => Effect::Gives(Pending::none(alloc)),
        Err(MessageFault::Bgp { code, subcode }) => Effect::Ends(Reason::Bgp { code, subcode }),
        Err(MessageFault::Memory) => return Err(AllocError),
    };
    Ok(effect)
}
