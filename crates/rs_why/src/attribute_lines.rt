//! All path attributes of a route as lines of a text (RFC 4271, section 4.3; RFC 1997; RFC 8092), and its validity by
//! RPKI (RFC 6811).

use rs_choice::Exchange;
use rs_glass_shell::{
    community_texts, hex_text, large_community_texts, lists_large_communities, origin_name,
    path_text, rpki_validity, validity_name,
};
use rs_rows::{add_cell, add_words, joined};
use rs_update::{Attributes, Prefix, Unrecognized};
use std::alloc::{AllocError, Global};
use std::net::Ipv4Addr;

// How far the lines are indented.
const INDENT: usize = 6;

// A line for each path attribute of a route, in ascending order of their types: its name, or its type if it is not
// recognized, and its value.
pub(crate) fn attribute_lines(
    alloc: Global,
    attributes: &Attributes,
) -> Result<String, AllocError> {
    let mut text = String::new(alloc);
    add_attributes(&mut text, alloc, attributes)?;
    Ok(text)
}

// The line of a route's validity by RPKI; empty if the exchange has no VRPs.
pub(crate) fn rpki_line(
    alloc: Global,
    plan: &Exchange,
    prefix: Prefix,
    attributes: &Attributes,
) -> Result<String, AllocError> {
    let mut text = String::new(alloc);
    if let Some(validity) = rpki_validity(plan, prefix, attributes) {
        add_line(&mut text, "RPKI", validity_name(validity))?;
    }
    Ok(text)
}

// Adds the lines of the path attributes.
fn add_attributes(
    text: &mut String,
    alloc: Global,
    attributes: &Attributes,
) -> Result<(), AllocError> {
    let next_hop = Ipv4Addr::from_bits(attributes.next_hop()).to_string(alloc)?;
    add_line(text, "ORIGIN", origin_name(attributes.origin()))?;
    add_line(text, "AS_PATH", &path_text(alloc, attributes)?)?;
    add_line(text, "NEXT_HOP", &next_hop)?;
    if let Some(med) = attributes.med() {
        add_line(text, "MED", &med.to_string(alloc)?)?;
    }
    if attributes.atomic() {
        add_line(text, "ATOMIC_AGGREGATE", "")?;
    }
    if let Some(aggregator) = attributes.aggregator() {
        let (asn, address) = (aggregator.asn, Ipv4Addr::from_bits(aggregator.address));
        add_line(
            text,
            "AGGREGATOR",
            &format!(in alloc; "AS {asn} {address}")?,
        )?;
    }
    let communities = community_texts(alloc, attributes)?;
    add_list(text, "COMMUNITIES", &joined(alloc, &communities)?)?;
    for other in attributes.others() {
        add_other(text, alloc, attributes, &other)?;
    }
    Ok(())
}

// Adds the line of an attribute.
fn add_line(text: &mut String, name: &str, value: &str) -> Result<(), AllocError> {
    let start = text.len();
    add_cell(text, "", INDENT)?;
    text.push_str(name)?;
    if !value.is_empty() {
        text.push(' ')?;
        add_words(text, start, value)?;
    }
    text.push('\n')
}

// Adds the line of a list, if it has an element.
fn add_list(text: &mut String, name: &str, list: &str) -> Result<(), AllocError> {
    if list.is_empty() {
        return Ok(());
    }
    add_line(text, name, list)
}

// Adds the line of an attribute of another type: large communities, or the octets of an attribute that isn't read.
fn add_other(
    text: &mut String,
    alloc: Global,
    attributes: &Attributes,
    other: &Unrecognized<'_>,
) -> Result<(), AllocError> {
    if lists_large_communities(other) {
        let communities = large_community_texts(alloc, attributes)?;
        return add_list(text, "LARGE_COMMUNITY", &joined(alloc, &communities)?);
    }
    let kind = other.kind;
    let name = format!(in alloc; "attribute {kind}")?;
    add_line(text, &name, &hex_text(alloc, other.value)?)
}
