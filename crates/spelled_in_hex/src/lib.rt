//! What tests spell in hexadecimal digits, two an octet, with white space for the reader: octets, and the
//! attributes of a route.
#![tactic(auto)]

use hex::FromHexError;
use rs_update::{Attributes, Message, read_message};
use std::alloc::Global;

/// The octets that the digits of the texts spell, one text after another; the digits are of either case. What is
/// neither a digit nor white space is answered as such, so is a digit that is left over, and so is want of memory.
pub fn octets(alloc: Global, texts: &[&str]) -> Result<Vec<u8>, FromHexError> {
    let mut digits = Vec::new(alloc);
    for text in texts {
        digits.extend(text.bytes().filter(|octet| !octet.is_ascii_whitespace()))?;
    }
    hex::decode(alloc, digits)
}

// An UPDATE that announces 203.0.113.0/24 with the path attributes that the texts spell.
fn announcement(alloc: Global, texts: &[&str]) -> Option<Vec<u8>> {
    let section = octets(alloc, texts).ok()?;
    let section_len = u16::try_from(section.len()).ok()?;
    let len = section_len.checked_add(27)?;
    let mut message = vec![in alloc; 0xFFu8; 16].ok()?;
    let fields: [&[u8]; 5] = [
        &len.to_be_bytes(),
        &[2, 0, 0],
        &section_len.to_be_bytes(),
        &section,
        &[24, 203, 0, 113],
    ];
    for field in fields {
        message.extend_from_slice(field).ok()?;
    }
    Some(message)
}

/// The attributes of a route, from the path attributes that the texts spell (RFC 4271, section 4.3). None where an
/// UPDATE of one route with them is at fault, where the digits are no octets, and where memory is refused.
pub fn attributes(alloc: Global, texts: &[&str]) -> Option<Attributes> {
    let message = announcement(alloc, texts)?;
    let Ok(Message::Update(update)) = read_message(alloc, &message) else {
        return None;
    };
    update.attributes
}
