//! How an UPDATE of the peer is spelled, and the record that it stands in (RFC 4271, sections 4.1 and 4.3; RFC 6396,
//! sections 4.4.3 and 4.4.4).

ghost use Rattle.std.specs.Prelude.{◌≡◌, ◌+◌, ◌<◌, ◌≤◌, ◌++◌, length, OnOk, IfOk};
ghost use Rattle.rs_mrt.specs.Record.{record_spelling};
ghost use Rattle.rs_start.specs.Opening.{fixed_len, update_head, message_record, nlri_spelling, parties, record_head};
ghost use Rattle.rs_update.specs.Prefix.{spelled_prefix};
ghost use Rattle.rs_start.specs.Opening.{up_record, update_spelling};

use crate::start::Start;
use byteorder::{BigEndian, ByteOrder};
use rs_mrt::{AFI_IPV4, BGP4MP, ESTABLISHED, MESSAGE_AS4, STATE_CHANGE_AS4, write_header};
use rs_update::Prefix;
use std::alloc::AllocError;

/// How many octets an UPDATE has beside its path attributes and NLRI.
pub(crate) const FIXED_LEN: usize = 23;

/// How many octets a message has at most (RFC 4271, section 4.1).
pub(crate) const MESSAGE_LEN: usize = 4096;

// Where the Length, the Type and the Total Path Attribute Length of an UPDATE begin that withdraws nothing.
const LENGTH_AT: usize = 16;

const TYPE_AT: usize = 18;

const WITHDRAWN_AT: usize = 19;

const SECTION_LEN_AT: usize = 21;

// The Type of an UPDATE.
const UPDATE: u8 = 2;

// How many octets of a record stand before its message or its states.
const PARTIES_LEN: usize = 20;

// The state before the session is up (RFC 6396, section 4.4.1).
const OPEN_CONFIRM: u8 = 5;

// How many octets the two states have.
const STATES_LEN: usize = 4;

/// How many octets spell a prefix.
pub(crate) fn spelled_len(prefix: Prefix) -> usize
    ensures value { result ≡ length (spelled_prefix prefix) }
    ensures bound { result ≤ 5 }
{
    1 + usize::from(prefix.len()).div_ceil(8)
}

// Appends a prefix.
fn spell_prefix(out: &mut Vec<u8>, prefix: Prefix) -> Result<(), AllocError>
    ensures { OnOk result (out.new.items ≡ out.old.items ++ spelled_prefix prefix) }
{
    out.push(prefix.len())?;
    out.extend_from_slice(&prefix.address().to_be_bytes()[..spelled_len(prefix) - 1])
}

// Appends prefixes, one after another.
fn spell_prefixes(out: &mut Vec<u8>, prefixes: &[Prefix]) -> Result<(), AllocError>
    ensures { OnOk result (out.new.items ≡ out.old.items ++ nlri_spelling prefixes.now) }
{
    for place in 0..prefixes.len() {
        spell_prefix(out, prefixes[place])?;
    }
    Ok(())
}

// Appends the fields of an UPDATE before its path attributes: none are withdrawn.
fn spell_head(out: &mut Vec<u8>, section_len: usize, nlri_len: usize) -> Result<(), AllocError>
    requires { fixed_len + section_len + nlri_len ≤ MESSAGE_LEN }
    ensures { OnOk result (out.new.items ≡ out.old.items ++ update_head section_len nlri_len) }
{
    out.extend_from_slice(&head_octets(section_len, nlri_len))
}

// These fields.
fn head_octets(section_len: usize, nlri_len: usize) -> [u8; FIXED_LEN]
    requires { fixed_len + section_len + nlri_len ≤ MESSAGE_LEN }
    ensures { result ≡ update_head section_len nlri_len }
{
    let mut head = [0xFF; FIXED_LEN];
    BigEndian::write_u16(
        &mut head[LENGTH_AT..],
        (FIXED_LEN + section_len + nlri_len) as u16,
    );
    head[TYPE_AT] = UPDATE;
    BigEndian::write_u16(&mut head[WITHDRAWN_AT..], 0);
    BigEndian::write_u16(&mut head[SECTION_LEN_AT..], section_len as u16);
    head
}

/// Appends an UPDATE that announces prefixes, which are spelled in `nlri_len` octets.
#[tactic(auto, unfolding(crate::specs::Opening::update_spelling))]
pub(crate) fn spell_update(
    out: &mut Vec<u8>,
    section: &[u8],
    prefixes: &[Prefix],
    nlri_len: usize,
) -> Result<(), AllocError>
    requires counted { nlri_len ≡ length (nlri_spelling prefixes.now) }
    requires fits { fixed_len + length section.now + nlri_len ≤ MESSAGE_LEN }
    ensures { OnOk result (out.new.items
        ≡ out.old.items ++ update_spelling section.now (nlri_spelling prefixes.now)) }
{
    spell_head(out, section.len(), nlri_len)?;
    out.extend_from_slice(section)?;
    spell_prefixes(out, prefixes)
}

// The fields of a record before its message or its states.
fn parties_octets(start: &Start) -> [u8; PARTIES_LEN]
    ensures { result ≡ parties start.now }
{
    let mut octets = [0; PARTIES_LEN];
    BigEndian::write_u32(&mut octets, start.peer.asn);
    BigEndian::write_u32(&mut octets[4..], start.local.asn);
    BigEndian::write_u16(&mut octets[10..], AFI_IPV4);
    BigEndian::write_u32(&mut octets[12..], start.peer.address);
    BigEndian::write_u32(&mut octets[16..], start.local.address);
    octets
}

// Appends the header of a record, and its fields before its message or its states.
fn spell_record_head(
    out: &mut Vec<u8>,
    start: &Start,
    subtype: u16,
    body_len: usize,
) -> Result<(), AllocError>
    requires { body_len ≤ u32.MAX }
    ensures { OnOk result (out.new.items ≡ out.old.items ++ record_head start.now subtype body_len) }
{
    write_header(out, start.time, BGP4MP, subtype, body_len as u32)?;
    out.extend_from_slice(&parties_octets(start))?;
    Ok(())
}

/// Appends the record of the change of state to Established.
pub(crate) fn spell_up(out: &mut Vec<u8>, start: &Start) -> Result<(), AllocError>
    ensures { OnOk result (out.new.items ≡ out.old.items ++ record_spelling (up_record start.now)) }
{
    spell_record_head(out, start, STATE_CHANGE_AS4, PARTIES_LEN + STATES_LEN)?;
    out.extend_from_slice(&[0, OPEN_CONFIRM, 0, ESTABLISHED as u8])?;
    Ok(())
}

/// Appends the record of an UPDATE that announces prefixes, which are spelled in `nlri_len` octets.
pub(crate) fn spell_record(
    out: &mut Vec<u8>,
    start: &Start,
    section: &[u8],
    prefixes: &[Prefix],
    nlri_len: usize,
) -> Result<(), AllocError>
    requires counted { nlri_len ≡ length (nlri_spelling prefixes.now) }
    requires fits { fixed_len + length section.now + nlri_len ≤ MESSAGE_LEN }
    ensures { OnOk result (out.new.items ≡ out.old.items
        ++ record_spelling (message_record start.now (update_spelling section.now (nlri_spelling prefixes.now)))) }
{
    let body_len = PARTIES_LEN + FIXED_LEN + section.len() + nlri_len;
    spell_record_head(out, start, MESSAGE_AS4, body_len)?;
    spell_update(out, section, prefixes, nlri_len)?;
    Ok(())
}
