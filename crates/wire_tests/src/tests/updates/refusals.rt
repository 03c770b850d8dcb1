//! A refused allocation is answered as want of memory, and the same call again answers as if none had been refused.
//!
//! These tests pass whether or not one allocation of the process is refused: the answer is want of memory or
//! the plain one, never a third.

use super::*;

// An UPDATE with attributes of every kind that is kept, one prefix withdrawn and two announced.
const RECEIVED: &str =
    "0067 02 0002 080A 0046 40010100 400210 0102 0000FBF7 0000FBF8 0201 0000FDF2 400304C000020B 80040400000007 400600
    E00708 0000FBF5 C0000201 C00808 FBF4FBF6 FDE80001 C0200107 C0210108 18CB0071 18C63364";

// Its attributes as they are written.
const WRITTEN: &str =
    "40010100 400210 0102 0000FBF7 0000FBF8 0201 0000FDF2 400304C000020B 80040400000007 400600
    E00708 0000FBF5 C0000201 C00808 FBF4FBF6 FDE80001 E0200107 E0210108";

// The Marker of a header.
const MARKER: &str = "FFFFFFFFFFFFFFFFFFFFFFFFFFFFFFFF";

// The octets that texts spell, spelled once more where memory was refused.
fn octets_again(alloc: Global, texts: &[&str]) -> Option<Vec<u8>> {
    match octets(alloc, texts) {
        Ok(octets) => Some(octets),
        Err(_) => octets(alloc, texts).ok(),
    }
}

// What is written of a route's attributes, written once more where memory was refused: nothing was written then.
fn written_again(alloc: Global, attributes: &Attributes) -> Option<Vec<u8>> {
    let mut out = Vec::new(alloc);
    if write_attributes(attributes, &mut out).is_err() {
        if !out.is_empty() {
            return None;
        }
        write_attributes(attributes, &mut out).ok()?;
    }
    Some(out)
}

// Whether a route's attributes are written as they are to be.
fn are_written(alloc: Global, attributes: &Attributes) -> bool {
    let written = written_again(alloc, attributes);
    written.is_some() && written == octets_again(alloc, &[WRITTEN])
}

// How many segments a route's AS_PATH has, and how many attributes of unknown type there are.
fn counts(attributes: &Attributes) -> (u32, u32) {
    let (mut segments, mut others) = (0u32, 0u32);
    for _ in attributes.path() {
        segments = segments.wrapping_add(1);
    }
    for _ in attributes.others() {
        others = others.wrapping_add(1);
    }
    (segments, others)
}

// The content of an UPDATE with attributes: how many prefixes are withdrawn and announced, and how many segments its
// AS_PATH has. Also how many attributes of unknown type there are, and whether all are written as they are to be.
fn seen(alloc: Global, read: &Update) -> Option<(usize, usize, (u32, u32), bool)> {
    let attributes = read.attributes.as_ref()?;
    Some((
        read.withdrawn.len(),
        read.nlri.len(),
        counts(attributes),
        are_written(alloc, attributes),
    ))
}

// The UPDATE that a message is, read once more where memory was refused: no other fault may come.
fn read_again(alloc: Global, received: &[u8]) -> Option<Update> {
    let read = match read_message(alloc, received) {
        Err(MessageFault::Memory) => read_message(alloc, received),
        other => other,
    };
    match read {
        Ok(Message::Update(update)) => Some(update),
        _ => None,
    }
}

#[test]
fn refused_memory_is_no_fault_of_a_message(rt: HostRuntime) -> Result<(), Fail> {
    let received = octets_again(rt.alloc(), &[MARKER, RECEIVED]).ok_or("octets")?;
    let read = read_again(rt.alloc(), &received).ok_or("an UPDATE")?;
    assert_eq!(rt; seen(rt.alloc(), &read), Some((1, 2, (2, 2), true)));
    Ok(())
}

// The UPDATE with an ORIGIN more, which RFC 7606 discards.
const REPEATED: &str =
    "006B 02 0002 080A 004A 40010100 400210 0102 0000FBF7 0000FBF8 0201 0000FDF2 400304C000020B 80040400000007 400600
    E00708 0000FBF5 C0000201 C00808 FBF4FBF6 FDE80001 C0200107 C0210108 40010102 18CB0071 18C63364";

// The attributes of an UPDATE whose routes stand by RFC 7606, read once more where memory was refused.
fn standing_again(alloc: Global, received: &[u8]) -> Option<Attributes> {
    standing(match read_message_by(alloc, Errors::Rfc7606, received) {
        Err(MessageFault::Memory) => read_message_by(alloc, Errors::Rfc7606, received),
        other => other,
    })
}

#[test]
fn refused_memory_treats_no_update_as_withdrawn(rt: HostRuntime) -> Result<(), Fail> {
    let received = octets_again(rt.alloc(), &[MARKER, REPEATED]).ok_or("octets")?;
    let attributes = standing_again(rt.alloc(), &received).ok_or("routes that stand")?;
    assert!(rt; are_written(rt.alloc(), &attributes));
    Ok(())
}
