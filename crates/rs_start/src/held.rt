//! The UPDATE of a session that is being filled: prefixes with equal path attributes stand in one (RFC 4271, section
//! 4.3).

ghost use Rattle.std.specs.Prelude.{◌≡◌, ◌+◌, ◌^◌, ◌<◌, ◌≤◌, [], ◌++◌, length, IfOk, IsTrue, OnOk, OnErr};
ghost use Rattle.std.specs.List.{AllByRecursion};
ghost use Rattle.rs_start.specs.Opening.{IsRoutePrefix, IsSound, fixed_len, sound_attributes};
ghost use Rattle.rs_start.specs.Opening.{update_spelling, updates_spelling};
ghost use Rattle.rs_start.specs.Joins.{Joins, Begins, attributes_told};
ghost use Rattle.rs_update.specs.Message.{content_of};
ghost use Rattle.rs_update.specs.IpPrefix.{IsPrefix};
ghost use Rattle.rs_update.specs.Prefix.{spelled_prefix};

use crate::added::Reason;
use crate::spelling::{FIXED_LEN, MESSAGE_LEN, spell_record, spell_update, spelled_len};
use crate::start::Start;
use rs_update::{Attributes, Message, MessageFault, Prefix, a_prefix_covers_itself, read_message};
use std::alloc::{AllocError, Global};
use std::marker::Model;

/// An UPDATE that is being filled, if one is.
#[derive(Drop)]
pub(crate) struct Held {
    // The path attributes as they stand in the table, and what they say; none where no UPDATE is being filled.
    section: Vec<u8>,
    attributes: Option<Attributes>,
    // The prefixes, and in how many octets they are spelled.
    prefixes: Vec<Prefix>,
    nlri_len: usize,
}

impl Model for Held {
    ghost use Rattle.std.specs.Prelude.{List};
    ghost use Rattle.rs_start.specs.Opening.{Announcing};
    ghost use Rattle.rs_start.specs.HeldView.{IsHeld, held_of};

    ghost Value = { List Announcing };

    ghost view = { held_of };

    ghost invariant = { IsHeld };
}

impl Held {
    /// No UPDATE.
    pub(crate) fn nothing(alloc: Global) -> Held
        ensures { result ≡ [] }
    {
        Held {
            section: Vec::new(alloc),
            attributes: None,
            prefixes: Vec::new(alloc),
            nlri_len: 0,
        }
    }

    /// Begins an UPDATE with one prefix, or tells why the entry is left out.
    pub(crate) fn begin(
        alloc: Global,
        prefix: Prefix,
        section: &[u8],
    ) -> Result<Result<Held, Reason>, AllocError>
        ensures { IfOk result (λ begun. Begins begun prefix section.now) }
    {
        if prefix.is_multicast() {
            return Ok(Err(Reason::Multicast));
        }
        if section.len() > MESSAGE_LEN - FIXED_LEN - spelled_len(prefix) {
            return Ok(Err(Reason::TooLong));
        }
        prefix_is_cleared(prefix);
        let Some(attributes) = attributes_in(alloc, prefix, section)? else {
            return Ok(Err(Reason::AttributesAtFault));
        };
        let mut prefixes = Vec::new(alloc);
        prefixes.push(prefix)?;
        Ok(Ok(Held {
            section: Vec::from_slice(alloc, section)?,
            attributes: Some(attributes),
            prefixes,
            nlri_len: spelled_len(prefix),
        }))
    }

    /// Adds a prefix, where its path attributes are those of the UPDATE and there is room. Answers whether it did.
    pub(crate) fn join(&mut self, prefix: Prefix, section: &[u8]) -> Result<bool, AllocError>
        ensures ok { IfOk result (λ joined. Joins joined self.old self.new prefix section.now) }
        ensures err { OnErr result (self.new ≡ self.old) }
    {
        if self.attributes.is_none() || prefix.is_multicast() {
            return Ok(false);
        }
        let len = spelled_len(prefix);
        if !has_room(&self.section, self.nlri_len, section, len) {
            return Ok(false);
        }
        prefix_is_cleared(prefix);
        self.prefixes.push(prefix)?;
        self.nlri_len += len;
        Ok(true)
    }

    /// Appends the record of the UPDATE, if there is one.
    pub(crate) fn spell(&self, out: &mut Vec<u8>, start: &Start) -> Result<(), AllocError>
        ensures sound { AllByRecursion IsSound self.now }
        ensures spelled { OnOk result (out.new.items ≡ out.old.items ++ updates_spelling start.now self.now) }
    {
        if self.attributes.is_none() {
            return Ok(());
        }
        spell_record(out, start, &self.section, &self.prefixes, self.nlri_len)
    }
}

// Whether the path attributes are those of an UPDATE whose prefixes are spelled in `nlri_len` octets, and there is room
// for `len` octets more.
fn has_room(held: &[u8], nlri_len: usize, section: &[u8], len: usize) -> bool
    requires fits { fixed_len + length held.now + nlri_len ≤ MESSAGE_LEN }
    requires short { len ≤ 5 }
    ensures same { IsTrue result → section.now ≡ held.now }
    ensures room { IsTrue result → fixed_len + length held.now + (nlri_len + len) ≤ MESSAGE_LEN }
{
    nlri_len + len <= MESSAGE_LEN - FIXED_LEN - held.len() && held == section
}

// Bits past the length are 0.
fn prefix_is_cleared(prefix: Prefix)
    ensures address { prefix.address < 2 ^ 32 }
    ensures cleared { IsPrefix prefix.address prefix.len }
{
    let _address = prefix.address();
    let _len = prefix.len();
    a_prefix_covers_itself(prefix);
}

// The attributes that a section gives the route of a prefix, where it has no fault: as an UPDATE of both is read.
fn attributes_in(
    alloc: Global,
    prefix: Prefix,
    section: &[u8],
) -> Result<Option<Attributes>, AllocError>
    requires fits { fixed_len + length section.now + length (spelled_prefix prefix) ≤ MESSAGE_LEN }
    requires is_prefix { IsRoutePrefix prefix }
    ensures { IfOk result (λ found. found ≡ sound_attributes section.now) }
{
    let message = update_of_one(alloc, prefix, section)?;
    match read_message(alloc, &message) {
        Ok(message) => Ok(attributes_told(message)),
        Err(MessageFault::Memory) => Err(AllocError),
        Err(
            MessageFault::Bgp {
                code: _,
                subcode: _,
            },
        ) => Ok(None),
    }
}

// The attributes that a message announces prefixes with.
fn attributes_told(message: Message) -> Option<Attributes>
    ensures { result ≡ attributes_told (content_of message) }
{
    match message {
        Message::Update(update) => update.attributes,
        Message::Open => None,
        Message::Treated {
            withdrawn: _,
            nlri: _,
        } => None,
        Message::Notification => None,
        Message::KeepAlive => None,
        Message::Refresh => None,
    }
}

// An UPDATE that announces one prefix.
fn update_of_one(alloc: Global, prefix: Prefix, section: &[u8]) -> Result<Vec<u8>, AllocError>
    requires { fixed_len + length section.now + length (spelled_prefix prefix) ≤ MESSAGE_LEN }
    ensures { IfOk result (λ message. message.items ≡ update_spelling section.now (spelled_prefix prefix)) }
{
    let nlri_len = spelled_len(prefix);
    let mut message = Vec::with_capacity(alloc, FIXED_LEN + section.len() + nlri_len)?;
    spell_update(&mut message, section, &[prefix], nlri_len)?;
    Ok(message)
}
