//! The faults of a plan in words, with the names of its peers (docs/MANUAL.md, "Texts").
//!
//! Our choice: what a plan doesn't say of a peer at fault is read from the text of the configuration.

use rs_choice::{MAX_NAME_LEN, MAX_PEERS, PlanFault};
use rs_host::on_one_line;
use std::alloc::{AllocError, Global};
use toml::{Table, Value};

/// Adds the fault of a plan in words: what is wrong, and with the names of which peers. `octets` are the
/// configuration.
pub(crate) fn add_plan_fault(
    alloc: Global,
    text: &mut String,
    octets: &[u8],
    fault: PlanFault,
) -> Result<(), AllocError> {
    let Ok(table) = toml::table_from_slice(alloc, octets) else {
        return Ok(());
    };
    let peers = peers_of(&table);
    match fault {
        PlanFault::NoPeer => text.push_str(": there is no peer"),
        PlanFault::TooManyPeers => add_too_many(text, peers),
        PlanFault::InvalidName(peer) => add_invalid_name(alloc, text, peers, peer),
        PlanFault::RepeatedName(peer) => add_repeated_name(alloc, text, peers, peer),
        PlanFault::RepeatedAddress(peer) => add_repeated_address(alloc, text, peers, peer),
        PlanFault::ZeroAs(None) => text.push_str(": the AS number of the server is 0"),
        PlanFault::ZeroAs(Some(peer)) => add_zero_as(alloc, text, peers, peer),
        PlanFault::UnknownName(peer) => add_unknown(alloc, text, peers, peer),
        PlanFault::Memory => Ok(()),
    }
}

// Adds how many peers there are, which are too many.
fn add_too_many(text: &mut String, peers: &[Value]) -> Result<(), AllocError> {
    let count = peers.len();
    write!(text, ": there are {count} peers; {MAX_PEERS} is the limit")
}

// Adds what is wrong with the name of a peer.
fn add_invalid_name(
    alloc: Global,
    text: &mut String,
    peers: &[Value],
    peer: usize,
) -> Result<(), AllocError> {
    let name = text_of(peers, peer, "name");
    let count = name.len();
    let shown = on_one_line(alloc, name)?;
    if name.is_empty() {
        let address = on_one_line(alloc, text_of(peers, peer, "address"))?;
        write!(text, ": the name of the peer of {address} is empty")
    } else if count > MAX_NAME_LEN {
        write!(
            text,
            ": the name {shown} has {count} octets; {MAX_NAME_LEN} is the limit"
        )
    } else {
        write!(
            text,
            ": the name {shown} has a character other than ASCII letters, digits, - and _"
        )
    }
}

// Adds the name that an earlier peer has, too.
fn add_repeated_name(
    alloc: Global,
    text: &mut String,
    peers: &[Value],
    peer: usize,
) -> Result<(), AllocError> {
    let name = on_one_line(alloc, text_of(peers, peer, "name"))?;
    write!(text, ": the name {name} is another peer's too")
}

// Adds the address that an earlier peer has, too, and the name of that one.
fn add_repeated_address(
    alloc: Global,
    text: &mut String,
    peers: &[Value],
    peer: usize,
) -> Result<(), AllocError> {
    let address = text_of(peers, peer, "address");
    let earlier = peers
        .iter()
        .position(|other| other.get("address").and_then(Value::as_str) == Some(address))
        .unwrap_or(peer);
    let name = on_one_line(alloc, text_of(peers, peer, "name"))?;
    let other = on_one_line(alloc, text_of(peers, earlier, "name"))?;
    let address = on_one_line(alloc, address)?;
    write!(
        text,
        ": the address {address} of {name} is that of {other} too"
    )
}

// Adds the name of the peer whose AS number is 0.
fn add_zero_as(
    alloc: Global,
    text: &mut String,
    peers: &[Value],
    peer: usize,
) -> Result<(), AllocError> {
    let name = on_one_line(alloc, text_of(peers, peer, "name"))?;
    write!(text, ": the AS number of {name} is 0")
}

// Adds the names in a peer's `refuse_from` that no peer has.
fn add_unknown(
    alloc: Global,
    text: &mut String,
    peers: &[Value],
    peer: usize,
) -> Result<(), AllocError> {
    let Some(refusing) = peers.get(peer) else {
        return Ok(());
    };
    for name in names_refused(refusing) {
        add_unless_known(alloc, text, peers, name)?;
    }
    Ok(())
}

// Adds a name, unless a peer has it.
fn add_unless_known(
    alloc: Global,
    text: &mut String,
    peers: &[Value],
    name: &Value,
) -> Result<(), AllocError> {
    let Some(name) = name.as_str() else {
        return Ok(());
    };
    for peer in peers {
        if peer.get("name").and_then(Value::as_str) == Some(name) {
            return Ok(());
        }
    }
    let name = on_one_line(alloc, name)?;
    write!(text, ": no peer is named {name}")
}

// The peers of a configuration.
fn peers_of(table: &Table) -> &[Value] {
    match table.get("peer") {
        Some(Value::Array(peers)) => peers,
        _ => &[],
    }
}

// The names that a peer refuses.
fn names_refused(peer: &Value) -> &[Value] {
    match peer.get("refuse_from") {
        Some(Value::Array(names)) => names,
        _ => &[],
    }
}

// What the peer of a number has at a key, if it is a text; else nothing.
fn text_of<'a>(peers: &'a [Value], peer: usize, key: &str) -> &'a str {
    match peers.get(peer).and_then(|peer| peer.get(key)) {
        Some(value) => value.as_str().unwrap_or(""),
        None => "",
    }
}
