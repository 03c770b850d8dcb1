//! A configuration to start from: each peer that gets a file, with the files behind its session.

use crate::chosen::add_chosen_line;
use crate::listed::{Listed, Part, Table};
use crate::peer_lines::{add_peer_line, add_table_line};
use crate::recording_keys::{add_recording, recording};
use crate::session_files::session_path;
use crate::sessions::COLLECTOR_AS;
use rs_glass_shell::PeerNames;
use rs_query::StartQuery;
use rs_start::{Counts, IndexPeer, LeftOut};
use std::alloc::{AllocError, Global};
use std::net::Ipv4Addr;

/// A configuration to start from, with the peers of a table that get files. The lines of peers are comments.
pub(crate) fn as_toml(
    alloc: Global,
    query: &StartQuery,
    table: &Table,
    counts: &[Counts],
    left_out: &LeftOut,
) -> Result<String, AllocError> {
    let mut text = String::new(alloc);
    let mut names = PeerNames::new(alloc);
    add_chosen_line(&mut text, "# ", table)?;
    add_server(&mut text, table.collector)?;
    for (listed, counts) in table.peers.iter().zip(counts) {
        add_listed(alloc, &mut text, &mut names, query, (listed, counts))?;
    }
    add_table_line(alloc, &mut text, "\n# ", left_out)?;
    Ok(text)
}

// Adds the server, which no table names.
fn add_server(text: &mut String, collector: u32) -> Result<(), AllocError> {
    let address = Ipv4Addr::from_bits(collector);
    writeln!(
        text,
        "# The server: put your route server in its place. A table has the BGP Identifier of its collector alone."
    )?;
    writeln!(text, "[server]")?;
    writeln!(text, "as = {COLLECTOR_AS}")?;
    writeln!(text, "address = \"{address}\"")
}

// Adds a peer that is asked for: its line as a comment, and its keys if it gets a file.
fn add_listed(
    alloc: Global,
    text: &mut String,
    names: &mut PeerNames,
    query: &StartQuery,
    (listed, counts): (&Listed, &Counts),
) -> Result<(), AllocError> {
    add_peer_line(alloc, text, "\n# ", query, (listed, counts))?;
    let Part::Written(address) = listed.part else {
        return Ok(());
    };
    writeln!(text, "[[peer]]")?;
    names.add_name(text, listed.peer.asn)?;
    add_peer(text, &listed.peer, address)?;
    let session = session_path(alloc, &query.out, address)?;
    let paths = recording(alloc, &session, &query.behind)?;
    add_recording(alloc, text, &paths)
}

// Adds the entry of the index for a peer with an address.
fn add_peer(text: &mut String, peer: &IndexPeer, address: u32) -> Result<(), AllocError> {
    let (asn, address, id) = (
        peer.asn,
        Ipv4Addr::from_bits(address),
        Ipv4Addr::from_bits(peer.id),
    );
    writeln!(text, "as = {asn}")?;
    writeln!(text, "address = \"{address}\"")?;
    writeln!(text, "id = \"{id}\"")
}
