//! Changes as words and as lines, and rings.

ghost use Rattle.std.specs.Prelude.{◌≡◌, [], IfSome};

use rs_ring::{Closing, Receiver, Sender, ring};
use rs_session::{Body, Reason, Word};
use rs_update::{Attributes, Prefix};
use spelled_in_hex::attributes;
use std::alloc::{AllocError, Global};
use std::net::Ipv4Addr;
use std::sync::Arc;

/// The attributes of a route.
pub fn route_of(alloc: Global) -> Option<Arc<Attributes>> {
    let digits = "40010100 40020602010000FBF5 400304C000020B";
    Arc::new(alloc, attributes(alloc, &[digits])?).ok()
}

/// The prefix of eight bits with this first octet.
pub fn prefix_at(first: u8) -> Option<Prefix> {
    Prefix::new(u32::from_be_bytes([first, 0, 0, 0]), 8)
}

// The prefix of eight bits whose first octet follows a sign.
fn prefix_of(word: &str, sign: char) -> Option<Prefix> {
    prefix_at(word.strip_prefix(sign)?.parse().ok()?)
}

/// The change that a word says: `+198` announces 198.0.0.0/8 by this route, `-198` withdraws it, `down` is a loss, and
/// `end` and `fault` are closes.
pub fn change_of(route: &Arc<Attributes>, time: u32, word: &str) -> Option<Word> {
    let body = match word {
        "down" => Body::Down,
        "end" => Body::Close(Reason::EndOfFile),
        "fault" => Body::Close(Reason::Bgp {
            code: 3,
            subcode: 6,
        }),
        _ => match prefix_of(word, '+') {
            Some(prefix) => Body::Announce(prefix, route.clone().ok()?),
            None => Body::Withdraw(prefix_of(word, '-')?),
        },
    };
    Some(Word { time, body })
}

/// Appends a prefix.
pub fn add_prefix(said: &mut String, prefix: Prefix) -> Result<(), AllocError> {
    let address = Ipv4Addr::from_bits(prefix.address());
    let len = prefix.len();
    write!(said, "{address}/{len}")
}

// Appends a sign and a prefix.
fn add_signed(said: &mut String, sign: char, prefix: Prefix) -> Result<(), AllocError> {
    said.push(sign)?;
    add_prefix(said, prefix)
}

// Appends what changed.
fn add_body(said: &mut String, body: &Body) -> Result<(), AllocError> {
    match body {
        Body::Announce(prefix, _) => add_signed(said, '+', *prefix),
        Body::Withdraw(prefix) => add_signed(said, '-', *prefix),
        Body::Down => said.push_str("down"),
        Body::Close(reason) => write!(said, "{reason:?}"),
    }
}

/// Appends a change without its attributes.
pub fn add_change(said: &mut String, change: &Word) -> Result<(), AllocError> {
    let time = change.time;
    write!(said, "{time} ")?;
    add_body(said, &change.body)?;
    said.push_str("; ")
}

/// A ring of this capacity, or none if memory is refused.
pub fn ring_of<T: Closing>(alloc: Global, capacity: usize) -> Option<(Sender<T>, Receiver<T>)>
    ensures ring { IfSome result (λ ends. ends.0.ring ≡ ends.1.ring) }
    ensures sender { IfSome result (λ ends. ends.0.sent ≡ []) }
    ensures receiver { IfSome result (λ ends. ends.1.received ≡ []) }
{
    match ring::<T>(alloc, capacity) {
        Ok(ends) => Some(ends),
        Err(_) => None,
    }
}
