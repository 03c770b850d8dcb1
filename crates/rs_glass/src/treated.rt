//! The fault for which an UPDATE is treated as a withdrawal of its routes (RFC 7606, sections 2 and 5; RFC 4271,
//! section 6.3).
//!
//! Our choice: the fault is the first one that RFC 4271 finds in the UPDATE, in the order of its tests.

ghost use Rattle.std.specs.Prelude.{◌≡◌, IfOk};
ghost use Rattle.rs_mrt.specs.Record.{record_of};
ghost use Rattle.rs_update.specs.Treating.{message_by};
ghost use Rattle.rs_update.specs.declared.errors.Errors.TheVariants.{Rfc4271};
ghost use Rattle.rs_glass.specs.Treating.{TreatedIsAtFault, fault_told, is_treated, treated_by};

use rs_mrt::{Entry, Record, entry};
use rs_update::{
    Errors, Message, MessageFault, Prefix, by_rfc_4271_a_message_says_what_it_says,
    read_message_by, without_a_fault_both_standards_agree,
};
use std::alloc::{AllocError, Global};

/// The first fault of an UPDATE that is treated as a withdrawal of its routes, by code and subcode (RFC 4271, section
/// 4.5).
#[derive(Clone, Copy, Debug, PartialEq, Eq, Drop)]
pub struct Treated {
    /// The error code.
    pub code: u8,
    /// The error subcode.
    pub subcode: u8,
}

// The fault because of which the record's UPDATE is treated as a withdrawal of a prefix that it announces. None if
// it isn't treated so, or if it only lists the prefix as withdrawn. It reads the message up to two times.
pub(crate) fn treated_of(
    alloc: Global,
    errors: Errors,
    prefix: Prefix,
    recorded: &Record<'_>,
) -> Result<Option<Treated>, AllocError>
    ensures { IfOk result (λ fault. fault ≡ treated_by errors prefix (record_of recorded.now)) }
{
    match entry(recorded) {
        Ok(Entry::Message { message, .. }) => {
            if is_treated(alloc, errors, prefix, message)? {
                first_fault(alloc, message)
            } else {
                Ok(None)
            }
        }
        _ => Ok(None),
    }
}

// Whether a message is an UPDATE that is treated as a withdrawal of its routes, and announces a prefix.
fn is_treated(
    alloc: Global,
    errors: Errors,
    prefix: Prefix,
    octets: &[u8],
) -> Result<bool, AllocError>
    ensures { IfOk result (λ treated. treated ≡ is_treated prefix (message_by errors octets.now)) }
{
    match read_message_by(alloc, errors, octets) {
        Ok(Message::Treated { nlri, .. }) => Ok(nlri.contains(&prefix)),
        Ok(_) => Ok(false),
        Err(MessageFault::Bgp { .. }) => Ok(false),
        Err(MessageFault::Memory) => Err(AllocError),
    }
}

// The first fault that RFC 4271 finds in a message.
fn first_fault(alloc: Global, octets: &[u8]) -> Result<Option<Treated>, AllocError>
    ensures { IfOk result (λ fault. fault ≡ fault_told (message_by Rfc4271 octets.now)) }
{
    match read_message_by(alloc, Errors::Rfc4271, octets) {
        Ok(_) => Ok(None),
        Err(MessageFault::Bgp { code, subcode }) => Ok(Some(Treated { code, subcode })),
        Err(MessageFault::Memory) => Err(AllocError),
    }
}

/// An UPDATE that is treated as a withdrawal of its routes is at fault by RFC 4271 too. So each of these withdrawals names
/// a fault.
pub fn a_treated_update_is_at_fault()
    ensures { TreatedIsAtFault }
{
    by_rfc_4271_a_message_says_what_it_says();
    without_a_fault_both_standards_agree();
}
