//! Messages of BGP-4 (RFC 4271, sections 4.1, 4.3, 6.1 and 6.3).

ghost use Rattle.std.specs.Prelude.{IfOk};
ghost use Rattle.rs_update.specs.Message.{message_of, Answers, HasAttributesForRoutes, IsUntreated};
ghost use Rattle.rs_update.specs.Treating.{message_by};

use crate::errors::Errors;
use crate::fault::MessageFault;
use crate::header::{HEADER_LEN, MessageType, read_header};
use crate::update::read_update_by;
use rs_types::{Attributes, Prefix};
use std::alloc::Global;

/// An UPDATE: the routes that it withdraws, and those that it announces with their common attributes.
#[derive(Drop)]
pub struct Update {
    /// The withdrawn prefixes, in order, repeated ones too.
    pub withdrawn: Vec<Prefix>,
    /// The attributes: there exactly if `nlri` isn't empty.
    pub attributes: Option<Attributes>,
    /// The announced prefixes, in order, repeated ones too.
    pub nlri: Vec<Prefix>,
}

/// A message of one of the five types (RFC 4271, section 4.1; RFC 2918). The contents of the others than
/// UPDATE aren't read.
#[derive(Drop)]
pub enum Message {
    /// OPEN, type 1.
    Open,
    /// UPDATE, type 2.
    Update(Update),
    /// UPDATE, type 2, all of whose routes are treated as withdrawn (RFC 7606, section 2): only
    /// `read_message_by` gives it.
    Treated {
        /// The withdrawn prefixes, in order, repeated ones too.
        withdrawn: Vec<Prefix>,
        /// The prefixes that were to be announced, in order, repeated ones too: they are withdrawn.
        nlri: Vec<Prefix>,
    },
    /// NOTIFICATION, type 3.
    Notification,
    /// KEEPALIVE, type 4.
    KeepAlive,
    /// ROUTE-REFRESH, type 5.
    Refresh,
}

/// Reads one message, the octets of which are `octets`, or answers its first fault (RFC 4271, section 6):
/// `read_message_by` with `Errors::Rfc4271`.
///
/// The faults, in the order of testing: first those of the header. Then come those of an UPDATE: its lengths, its
/// path attributes from front to back, a missing mandatory attribute, the withdrawn routes, and the NLRI.
///
/// `MessageFault::Memory` comes only if memory was refused, and only for an UPDATE without fault that lists a
/// prefix.
pub fn read_message(alloc: Global, octets: &[u8]) -> Result<Message, MessageFault>
    ensures answer { Answers result (message_of octets.now) }
    ensures routes { IfOk result HasAttributesForRoutes }
    ensures untreated { IfOk result IsUntreated }
{
    read_message_by(alloc, Errors::Rfc4271, octets)
}

/// Reads one message, the octets of which are `octets`, with faults in path attributes handled by the standard
/// `errors`.
///
/// By RFC 7606 an attribute that is repeated, or ATOMIC_AGGREGATE or AGGREGATOR of a wrong length, is left out. For
/// any other fault of an attribute the answer is `Message::Treated`. The same answer is given if announced routes
/// lack a mandatory attribute.
///
/// These faults still close the session, in the order of testing:
/// - Faults of the header.
/// - The lengths of an UPDATE.
/// - In its path attributes, front to back: a well-known one that isn't recognized, and a repeated MP_REACH_NLRI or
/// MP_UNREACH_NLRI.
/// - Octets left over behind the path attributes.
/// - The withdrawn routes.
/// - The NLRI.
///
/// `MessageFault::Memory` comes only if memory was refused, and only for an UPDATE that closes no session and lists
/// a prefix.
#[tactic(auto, unfolding(crate::specs::Treating::message_by))]
pub fn read_message_by(
    alloc: Global,
    errors: Errors,
    octets: &[u8],
) -> Result<Message, MessageFault>
    ensures answer { Answers result (message_by errors octets.now) }
    ensures routes { IfOk result HasAttributesForRoutes }
{
    let kind = read_header(octets)?;
    let body = &octets[HEADER_LEN..];
    match kind {
        MessageType::Open => Ok(Message::Open),
        MessageType::Update => read_update_by(alloc, errors, body),
        MessageType::Notification => Ok(Message::Notification),
        MessageType::KeepAlive => Ok(Message::KeepAlive),
        MessageType::Refresh => Ok(Message::Refresh),
    }
}
