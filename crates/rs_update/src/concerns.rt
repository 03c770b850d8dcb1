//! Whether a message may concern a prefix, found without taking memory: a reader of recorded messages passes
//! over the UPDATEs that list no prefix that covers the one asked for (RFC 4271, sections 4.3, 6 and 9.1.4).
//!
//! A fault that closes the session is never passed over, so each message is tested as when it is read.

ghost use Rattle.std.specs.Prelude.{◌≡◌, ◌≤◌, length, is_some};
ghost use Rattle.rs_update.specs.declared.errors.Errors.TheVariants.{Rfc4271};
ghost use Rattle.rs_update.specs.Concerns.{field_concerns as field_concerns_of, has_mandatory};
ghost use Rattle.rs_update.specs.Concerns.{message_concerns, section_closes};
ghost use Rattle.rs_update.specs.Treating.{message_by, reset_of, update_by};

use crate::errors::Errors;
use crate::header::{HEADER_LEN, MessageType, read_header};
use crate::prefix_list::split_first;
use crate::section::{TYPES, find_fault};
use crate::treating::section_handling;
use crate::update::split_fields;
use rs_types::{AS_PATH, Handling, NEXT_HOP, ORIGIN, Prefix, covers};

/// Whether a message with these octets may concern a prefix. An UPDATE without fault concerns it only if a
/// withdrawn route or NLRI covers it. Each faulty message and each message of another type may concern it.
/// It takes no memory.
pub fn concerns_prefix(errors: Errors, octets: &[u8], prefix: Prefix) -> bool
    ensures { result ≡ message_concerns prefix (message_by errors octets.now) }
{
    let Ok(kind) = read_header(octets) else {
        return true;
    };
    match kind {
        MessageType::Update => update_concerns(errors, &octets[HEADER_LEN..], prefix),
        _ => true,
    }
}

// Whether the UPDATE with this body, which stands behind its header, may concern a prefix.
fn update_concerns(errors: Errors, body: &[u8], prefix: Prefix) -> bool
    requires { 4 ≤ length body.now }
    ensures { result ≡ message_concerns prefix (update_by errors body.now) }
{
    let Ok(fields) = split_fields(body) else {
        return true;
    };
    closes(errors, fields.section, fields.nlri)
        || field_concerns(fields.withdrawn, prefix)
        || field_concerns(fields.nlri, prefix)
}

// Whether the path attributes of an UPDATE close the session by one of the two standards.
fn closes(errors: Errors, section: &[u8], nlri: &[u8]) -> bool
    ensures { result ≡ section_closes errors section.now nlri.now }
{
    match errors {
        Errors::Rfc4271 => is_at_fault(section, nlri),
        Errors::Rfc7606 => is_reset(section_handling(section)),
    }
}

// Whether the session is closed.
fn is_reset(handling: Handling) -> bool
    ensures { result ≡ is_some (reset_of handling) }
{
    matches!(handling, Handling::SessionReset(_))
}

// Whether path attributes are at fault, or routes are announced without a mandatory one.
fn is_at_fault(section: &[u8], nlri: &[u8]) -> bool
    ensures { result ≡ section_closes Rfc4271 section.now nlri.now }
{
    let mut seen = [false; TYPES];
    if find_fault(section, &mut seen).is_some() {
        return true;
    }
    !nlri.is_empty() && !has_mandatory(&seen)
}

// Whether `seen` has the types ORIGIN, AS_PATH and NEXT_HOP.
fn has_mandatory(seen: &[bool; TYPES]) -> bool
    ensures { result ≡ has_mandatory seen.now }
{
    seen[usize::from(ORIGIN)] && seen[usize::from(AS_PATH)] && seen[usize::from(NEXT_HOP)]
}

// Whether a field is no list of prefixes, or lists one that covers a prefix.
fn field_concerns(field: &[u8], prefix: Prefix) -> bool
    ensures { result ≡ field_concerns_of prefix field.now }
{
    let mut rest = field;
    while let Some(split) = split_first(rest) {
        if covers(split.0, prefix) {
            return true;
        }
        rest = split.1;
    }
    !rest.is_empty()
}
