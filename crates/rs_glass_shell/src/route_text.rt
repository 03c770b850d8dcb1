//! Path attributes as texts.

use crate::reasons::origin_name;
use rs_choice::{LARGE_COMMUNITY, LARGE_LEN, large_communities, large_communities_in};
use rs_update::{Attributes, Numbers, SegmentView, Unrecognized};
use std::alloc::{AllocError, Global};
use std::net::Ipv4Addr;

/// An AS_PATH: its AS numbers, an AS_SET between braces.
pub fn path_text(alloc: Global, attributes: &Attributes) -> Result<String, AllocError> {
    let mut text = String::new(alloc);
    for segment in attributes.path() {
        add_segment(&mut text, segment)?;
    }
    Ok(text)
}

// Adds a segment of an AS_PATH.
fn add_segment(text: &mut String, segment: SegmentView<'_>) -> Result<(), AllocError> {
    if !text.is_empty() {
        text.push(' ')?;
    }
    match segment {
        SegmentView::Sequence(numbers) => add_numbers(text, numbers, " "),
        SegmentView::Set(numbers) => {
            text.push('{')?;
            add_numbers(text, numbers, ",")?;
            text.push('}')
        }
    }
}

// Adds numbers with a separator between them.
fn add_numbers(text: &mut String, numbers: Numbers<'_>, separator: &str) -> Result<(), AllocError> {
    let mut is_first = true;
    for number in numbers {
        if !is_first {
            text.push_str(separator)?;
        }
        is_first = false;
        write!(text, "{number}")?;
    }
    Ok(())
}

// A community: two halves with a colon between them (RFC 1997).
fn community_of(alloc: Global, community: u32) -> Result<String, AllocError> {
    let (high, low) = (community >> 16, community & 0xFFFF);
    format!(in alloc; "{high}:{low}")
}

/// The communities of a route.
pub fn community_texts(alloc: Global, attributes: &Attributes) -> Result<Vec<String>, AllocError> {
    let mut texts = Vec::new(alloc);
    let Some(communities) = attributes.communities() else {
        return Ok(texts);
    };
    for community in communities.values {
        texts.push(community_of(alloc, community)?)?;
    }
    Ok(texts)
}

/// Whether an attribute lists large communities: a LARGE_COMMUNITY of another length names none.
pub fn lists_large_communities(other: &Unrecognized<'_>) -> bool {
    other.kind == LARGE_COMMUNITY && !large_communities_in(other.value).is_empty()
}

/// The large communities of a route.
pub fn large_community_texts(
    alloc: Global,
    attributes: &Attributes,
) -> Result<Vec<String>, AllocError> {
    let mut texts = Vec::new(alloc);
    for community in large_communities(attributes) {
        texts.push(large_community_of(alloc, community)?)?;
    }
    Ok(texts)
}

// A large community: three numbers with colons between them (RFC 8092, section 5).
fn large_community_of(alloc: Global, octets: &[u8; LARGE_LEN]) -> Result<String, AllocError> {
    let [a, b, c, d, e, f, g, h, i, j, k, l] = *octets;
    let global = u32::from_be_bytes([a, b, c, d]);
    let first = u32::from_be_bytes([e, f, g, h]);
    let second = u32::from_be_bytes([i, j, k, l]);
    format!(in alloc; "{global}:{first}:{second}")
}

/// The attributes of a route that decide where it goes.
pub fn attributes_text(alloc: Global, attributes: &Attributes) -> Result<String, AllocError> {
    let path = path_text(alloc, attributes)?;
    let origin = origin_name(attributes.origin());
    let next_hop = Ipv4Addr::from_bits(attributes.next_hop());
    let mut text = format!(in alloc; "path {path}, {origin}, next hop {next_hop}")?;
    if let Some(med) = attributes.med() {
        write!(text, ", MED {med}")?;
    }
    add_texts(
        &mut text,
        ", communities",
        &community_texts(alloc, attributes)?,
    )?;
    add_texts(
        &mut text,
        ", large communities",
        &large_community_texts(alloc, attributes)?,
    )?;
    Ok(text)
}

// Adds texts behind their title, if there are any.
fn add_texts(text: &mut String, title: &str, texts: &[String]) -> Result<(), AllocError> {
    if texts.is_empty() {
        return Ok(());
    }
    text.push_str(title)?;
    for one in texts {
        text.push(' ')?;
        text.push_str(one)?;
    }
    Ok(())
}

/// Octets as hexadecimal digits.
pub fn hex_text(alloc: Global, octets: &[u8]) -> Result<String, AllocError> {
    let mut text = String::new(alloc);
    for octet in octets {
        let octet = *octet;
        write!(text, "{octet:02x}")?;
    }
    Ok(text)
}
