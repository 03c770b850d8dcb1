//! The fields of an UPDATE and their first fault (RFC 4271, sections 4.3 and 6.3).
//!
//! The standard leaves the order of the tests open. Ours: both lengths, the path attributes, the mandatory
//! attributes, the withdrawn routes, the NLRI.

ghost use Rattle.std.specs.Prelude.{◌≡◌, ◌<◌, ◌≤◌, length, None, Some, IfOk, IfErr, OnOk, OnErr};
ghost use Rattle.std.specs.Result.{is_err};
ghost use Rattle.rs_types.specs.FirstFault.{first_fault};
ghost use Rattle.rs_update.specs.Handling.{kept_of, strongest_in};
ghost use Rattle.rs_types.specs.Gathered.{attributes_of};
ghost use Rattle.rs_update.specs.Message as spec;
ghost use Rattle.rs_update.specs.Treating.{standing_attributes as standing_attributes_of, treating_update_of};
ghost use Rattle.rs_update.specs.Treating.{treating_message, update_by, attributes_in, reset_of};
ghost use Rattle.rs_update.specs.Found.{Finds};
ghost use Rattle.rs_types.specs.Section.{items_of, section_fault as section_fault_of};

use crate::errors::Errors;
use crate::fault::MessageFault;
use crate::found::{Found, NOWHERE, find_items};
use crate::gather::{find_and_gather, gather};
use crate::handling::is_keep;
use crate::message::{Message, Update};
use crate::prefix_list::{count_prefixes, read_prefixes};
use crate::section::{TYPES, section_fault};
use crate::treating::{keep_attributes, section_handling};
use byteorder::{BigEndian, ByteOrder};
use rs_types::{Attributes, Handling, UpdateFault};
use std::alloc::{AllocError, Global};

/// The fields of an UPDATE, at their places in it.
#[derive(Clone, Copy)]
pub(crate) struct UpdateFields<'a> {
    /// Withdrawn Routes.
    pub(crate) withdrawn: &'a [u8],
    /// Path Attributes.
    pub(crate) section: &'a [u8],
    /// Network Layer Reachability Information.
    pub(crate) nlri: &'a [u8],
}

/// The fields of an UPDATE, or the fault of their lengths.
pub(crate) fn split_fields(body: &[u8]) -> Result<UpdateFields<'_>, UpdateFault>
    requires { 4 ≤ length body.now }
    ensures withdrawn { IfOk result (λ fields. fields.withdrawn.now ≡ spec.withdrawn_field body.now) }
    ensures section { IfOk result (λ fields. fields.section.now ≡ spec.section_field body.now) }
    ensures nlri { IfOk result (λ fields. fields.nlri.now ≡ spec.nlri_field body.now) }
    ensures lengths { OnOk result (first_fault (spec.length_tests body.now) ≡ None) }
    ensures fault { IfErr result (λ fault. first_fault (spec.length_tests body.now) ≡ Some fault) }
{
    let withdrawn_len = usize::from(BigEndian::read_u16(body));
    if body.len() < withdrawn_len + 4 {
        return Err(UpdateFault::MalformedAttributeList);
    }
    let behind = &body[2 + withdrawn_len..];
    let section_len = usize::from(BigEndian::read_u16(behind));
    if body.len() < withdrawn_len + section_len + 4 {
        return Err(UpdateFault::MalformedAttributeList);
    }
    Ok(UpdateFields {
        withdrawn: &body[2..2 + withdrawn_len],
        section: &behind[2..2 + section_len],
        nlri: &behind[2 + section_len..],
    })
}

// Whether routes are announced without one of the mandatory attributes.
fn lacks_mandatory(fields: UpdateFields<'_>, found: &Found<'_>) -> bool
    requires { Finds found.now fields.section.now }
    ensures { result ≡ is_err (spec.announced_attributes fields.entry.section.now fields.entry.nlri.now) }
{
    !fields.nlri.is_empty() && !found.has_mandatory()
}

// The attributes of the announced routes, or None if none is announced.
fn announced_attributes(
    alloc: Global,
    fields: UpdateFields<'_>,
    found: &Found<'_>,
) -> Result<Option<Attributes>, AllocError>
    requires faultless { section_fault_of fields.section.now ≡ None }
    requires short { length fields.section.now ≤ 4073 }
    requires are_found { Finds found.now fields.section.now }
    ensures memory { OnErr result (0 < length fields.entry.nlri.now) }
    ensures value { IfOk result (λ attributes. IfOk
        (spec.announced_attributes fields.entry.section.now fields.entry.nlri.now)
        (λ announced. attributes ≡ announced)) }
{
    if fields.nlri.is_empty() {
        return Ok(None);
    }
    gather(alloc, fields.section, found)
}

// Reads an UPDATE behind its header by RFC 4271. Memory is taken only once it is known to be without fault.
#[tactic(auto, unfolding(crate::specs::Message::update_of))]
fn read_update(alloc: Global, body: &[u8]) -> Result<Update, MessageFault>
    requires least { 4 ≤ length body.now }
    requires most { length body.now ≤ 4077 }
    ensures { spec.AnswersUpdate result (spec.update_of body.now) }
{
    let fields = split_fields(body)?;
    if let Some(fault) = section_fault(fields.section) {
        return Err(fault.into());
    }
    let mut places = [NOWHERE; TYPES];
    let end = find_items(fields.section, &mut places);
    let found = Found {
        places: &places,
        end,
    };
    if lacks_mandatory(fields, &found) {
        return Err(UpdateFault::MissingWellKnown.into());
    }
    let withdrawn_count = count_prefixes(fields.withdrawn).ok_or(UpdateFault::InvalidNetworkField)?;
    let nlri_count = count_prefixes(fields.nlri).ok_or(UpdateFault::InvalidNetworkField)?;
    let attributes = announced_attributes(alloc, fields, &found)?;
    let withdrawn = read_prefixes(alloc, fields.withdrawn, withdrawn_count)?;
    let nlri = read_prefixes(alloc, fields.nlri, nlri_count)?;
    Ok(Update {
        withdrawn,
        attributes,
        nlri,
    })
}

// What becomes of the routes of an UPDATE by RFC 7606.
#[derive(Drop)]
enum Treatment {
    // They are treated as withdrawn.
    Withdrawn,
    // They count, with attributes if any route is announced.
    Stands(Option<Attributes>),
}

// The attributes of the announced routes without those that are discarded, or that the routes are treated as withdrawn.
fn standing_attributes(
    alloc: Global,
    fields: UpdateFields<'_>,
    handling: Handling,
) -> Result<Treatment, AllocError>
    requires handled { handling ≡ strongest_in fields.section.now }
    requires stands { reset_of handling ≡ None }
    requires short { length fields.section.now ≤ 4073 }
    ensures memory { OnErr result (0 < length fields.entry.nlri.now) }
    ensures value { IfOk result (λ standing. attributes_in standing
        ≡ standing_attributes_of handling fields.entry.section.now fields.entry.nlri.now) }
{
    if let Handling::TreatAsWithdraw = handling {
        return Ok(Treatment::Withdrawn);
    }
    if fields.nlri.is_empty() {
        return Ok(Treatment::Stands(None));
    }
    match kept_attributes(alloc, fields.section, handling)? {
        None => Ok(Treatment::Withdrawn),
        Some(attributes) => Ok(Treatment::Stands(Some(attributes))),
    }
}

// The attributes that a section gives announced routes, without those that are discarded. None if a mandatory
// attribute is missing.
fn kept_attributes(
    alloc: Global,
    section: &[u8],
    handling: Handling,
) -> Result<Option<Attributes>, AllocError>
    requires handled { handling ≡ strongest_in section.now }
    requires short { length section.now ≤ 4073 }
    ensures { IfOk result (λ attributes. attributes ≡ attributes_of (kept_of (items_of section.now))) }
{
    if is_keep(handling) {
        return find_and_gather(alloc, section);
    }
    let kept = keep_attributes(alloc, section)?;
    find_and_gather(alloc, &kept)
}

// Reads an UPDATE behind its header by RFC 7606. Memory is taken only once no fault can close the session.
#[tactic(auto, unfolding(crate::specs::Treating::treating_update_of))]
fn read_treating(alloc: Global, body: &[u8]) -> Result<Message, MessageFault>
    requires least { 4 ≤ length body.now }
    requires most { length body.now ≤ 4077 }
    ensures { spec.Answers result (treating_message (treating_update_of body.now)) }
{
    let fields = split_fields(body)?;
    let handling = section_handling(fields.section);
    if let Handling::SessionReset(fault) = handling {
        return Err(fault.into());
    }
    let withdrawn_count = count_prefixes(fields.withdrawn).ok_or(UpdateFault::InvalidNetworkField)?;
    let nlri_count = count_prefixes(fields.nlri).ok_or(UpdateFault::InvalidNetworkField)?;
    let standing = standing_attributes(alloc, fields, handling)?;
    let withdrawn = read_prefixes(alloc, fields.withdrawn, withdrawn_count)?;
    let nlri = read_prefixes(alloc, fields.nlri, nlri_count)?;
    match standing {
        Treatment::Withdrawn => Ok(Message::Treated { withdrawn, nlri }),
        Treatment::Stands(attributes) => Ok(Message::Update(Update {
            withdrawn,
            attributes,
            nlri,
        })),
    }
}

/// Reads an UPDATE behind its header by one of the two standards.
pub(crate) fn read_update_by(
    alloc: Global,
    errors: Errors,
    body: &[u8],
) -> Result<Message, MessageFault>
    requires least { 4 ≤ length body.now }
    requires most { length body.now ≤ 4077 }
    ensures { spec.Answers result (update_by errors body.now) }
{
    match errors {
        Errors::Rfc4271 => Ok(Message::Update(read_update(alloc, body)?)),
        Errors::Rfc7606 => read_treating(alloc, body),
    }
}
