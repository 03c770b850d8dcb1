//! Finds the peer that a question names.

ghost use Rattle.std.specs.Prelude.{◌≡◌, ◌↔◌, ◌<◌, true, IfNone, IfOk, IfSome, length};
ghost use Rattle.std.specs.Int.{to_be_bytes, w32};
ghost use Rattle.std.specs.Net.Addr.{ipv4_octets};
ghost use Rattle.rs_glass_shell.specs.Named.{IsFirstFrom, IsNameOf, IsOf, Names, NoneFrom, WritesAs};

use crate::names::names_text;
use crate::unanswered::Unanswered;
use rs_choice::Exchange;
use rs_setup::Setup;
use std::alloc::{AllocError, Global};
use std::net::Ipv4Addr;

/// Finds the number of the peer that a word names: the first peer of that name. If no peer has that name, it is the
/// peer whose address or AS number the word is. An AS number may stand behind `AS` or `as`. A word that names no
/// peer is refused, and so is the AS number of several peers.
pub fn peer_named<R: AllocGlobal>(rt: &R, setup: &Setup, word: &str) -> Result<usize, Unanswered>
    ensures known { IfOk result (λ number. number < length setup.now.plan.value.peers) }
    ensures named { IfOk result (Names word.now setup.now.plan.value.peers) }
{
    named_in(rt.alloc(), &setup.plan, word)
}

// Finds the number of the peer of an exchange that a word names.
fn named_in(alloc: Global, plan: &Exchange, word: &str) -> Result<usize, Unanswered>
    ensures known { IfOk result (λ number. number < length plan.now.peers) }
    ensures named { IfOk result (Names word.now plan.now.peers) }
{
    if let Some(number) = peer_of_name(plan, word) {
        return Ok(number);
    }
    // For the prover: there are fewer peers than the greatest number.
    let _count = plan.count();
    let Some(number) = first_of(alloc, plan, word, 0)? else {
        return Err(Unanswered::NoPeer(String::from_str(alloc, word)?));
    };
    match first_of(alloc, plan, word, number + 1)? {
        None => Ok(number),
        Some(_) => Err(several(alloc, plan, plan.peer(number).asn)?),
    }
}

// That an AS number is that of several peers, with their names.
fn several(alloc: Global, plan: &Exchange, asn: u32) -> Result<Unanswered, AllocError> {
    let mut peers = Vec::new(alloc);
    for number in 0..plan.count() {
        if plan.peer(number).asn == asn {
            peers.push(number)?;
        }
    }
    let names = names_text(alloc, plan, &peers)?;
    let whose = format!(in alloc; "{asn} is that of several peers: {names}")?;
    Ok(Unanswered::SeveralPeers(whose))
}

/// The first peer of a name.
pub fn peer_of_name(plan: &Exchange, name: &str) -> Option<usize>
    ensures known { IfSome result (λ number. number < length plan.now.peers) }
    ensures found { IfSome result (IsNameOf name.now plan.now.peers) }
    ensures none { IfNone result (NoneFrom (IsNameOf name.now plan.now.peers) 0 (length plan.now.peers)) }
{
    for number in 0..plan.count() {
        if has_name(plan, number, name) {
            return Some(number);
        }
    }
    None
}

// Whether the peer of a number has a name.
fn has_name(plan: &Exchange, number: usize, name: &str) -> bool
    requires { number < length plan.now.peers }
    ensures { (result ≡ true) ↔ IsNameOf name.now plan.now.peers number }
{
    plan.peer(number).name.as_str() == name
}

// The first peer, from a number on, whose address or AS number a word is.
fn first_of(
    alloc: Global,
    plan: &Exchange,
    word: &str,
    from: usize,
) -> Result<Option<usize>, AllocError>
    ensures known { IfOk result (λ found. IfSome found (λ number. number < length plan.now.peers)) }
    ensures found { IfOk result (λ found. IfSome found (IsFirstFrom (IsOf word.now plan.now.peers) from)) }
    ensures none { IfOk result (λ found.
        IfNone found (NoneFrom (IsOf word.now plan.now.peers) from (length plan.now.peers))) }
{
    for number in from..plan.count() {
        let found = is_of(alloc, plan, number, word)?;
        if found {
            return Ok(Some(number));
        }
    }
    Ok(None)
}

// Whether a word is the address of the peer of a number, or its AS number.
fn is_of(alloc: Global, plan: &Exchange, number: usize, word: &str) -> Result<bool, AllocError>
    requires { number < length plan.now.peers }
    ensures { IfOk result (λ is. (is ≡ true) ↔ IsOf word.now plan.now.peers number) }
{
    let peer = plan.peer(number);
    let address = address_of(peer.address);
    let address = format!(in alloc; "{address}")?;
    Ok(word == address.as_str() || writes_as(alloc, word, peer.asn)?)
}

// Whether a word writes an AS number, behind `AS` or `as` or alone.
fn writes_as(alloc: Global, word: &str, asn: u32) -> Result<bool, AllocError>
    ensures { IfOk result (λ writes. (writes ≡ true) ↔ WritesAs word.now asn) }
{
    let alone = format!(in alloc; "{asn}")?;
    let behind_capitals = format!(in alloc; "AS{asn}")?;
    let behind_small_letters = format!(in alloc; "as{asn}")?;
    Ok(
        word == alone.as_str()
            || word == behind_capitals.as_str()
            || word == behind_small_letters.as_str(),
    )
}

// An address as std has it.
#[tactic(auto, unfolding(std::specs::Net::Addr::IsIpv4OfBits))]
fn address_of(address: u32) -> Ipv4Addr
    ensures { ipv4_octets result ≡ to_be_bytes w32 address }
{
    Ipv4Addr::from(address)
}
