//! What was written of a table, a line for each peer.

use crate::chosen::add_chosen_line;
use crate::listed::{Listed, Part, Table};
use crate::session_files::session_path;
use rs_host::on_one_line;
use rs_query::StartQuery;
use rs_start::{Counts, LeftOut};
use std::alloc::{AllocError, Global};
use std::net::Ipv4Addr;

/// A line for the table that is taken, if there are several or it names a view, and one for each peer that is asked for.
/// The last line is for what is left out of the table otherwise.
pub(crate) fn as_text(
    alloc: Global,
    query: &StartQuery,
    table: &Table,
    counts: &[Counts],
    left_out: &LeftOut,
) -> Result<String, AllocError> {
    let mut text = String::new(alloc);
    add_chosen_line(&mut text, "", table)?;
    for (listed, counts) in table.peers.iter().zip(counts) {
        add_peer_line(alloc, &mut text, "", query, (listed, counts))?;
    }
    add_table_line(alloc, &mut text, "", left_out)?;
    Ok(text)
}

/// Adds the line of a peer behind a mark, if the peer is asked for.
pub(crate) fn add_peer_line(
    alloc: Global,
    text: &mut String,
    mark: &str,
    query: &StartQuery,
    (listed, counts): (&Listed, &Counts),
) -> Result<(), AllocError> {
    let asn = listed.peer.asn;
    match listed.part {
        Part::Unasked => return Ok(()),
        Part::Written(address) => {
            let path = session_path(alloc, &query.out, address)?;
            let path = on_one_line(alloc, &path)?;
            let (address, written) = (Ipv4Addr::from_bits(address), counts.written);
            write!(text, "{mark}{address} (AS {asn}): {path}, routes {written}")?;
        }
        Part::Repeated(address) => {
            let address = Ipv4Addr::from_bits(address);
            write!(
                text,
                "{mark}{address} (AS {asn}): no file, since an earlier peer has this address"
            )?;
        }
        Part::Ipv6 => {
            let id = Ipv4Addr::from_bits(listed.peer.id);
            write!(
                text,
                "{mark}identifier {id} (AS {asn}): no file, since its address is IPv6"
            )?;
        }
    }
    add_counts(text, counts)?;
    writeln!(text)
}

// Adds which entries of a peer are left out.
fn add_counts(text: &mut String, counts: &Counts) -> Result<(), AllocError> {
    let left_out = [
        ("routes", counts.unwritten),
        ("multicast prefixes", counts.multicast),
        ("attributes too long for a message", counts.too_long),
        ("attributes at fault", counts.at_fault),
    ];
    add_left_out(text, "; left out: ", &left_out)
}

/// Adds the line of what is left out of a table beside entries of peers, behind a mark, if anything is.
pub(crate) fn add_table_line(
    alloc: Global,
    text: &mut String,
    mark: &str,
    left_out: &LeftOut,
) -> Result<(), AllocError> {
    let left_out = [
        ("TABLE_DUMP records", left_out.two_octet),
        ("IPv6 records", left_out.ipv6),
        ("RIB_IPV4_MULTICAST records", left_out.multicast),
        ("RIB_GENERIC records", left_out.generic),
        ("ADD-PATH records", left_out.add_path),
        ("other records", left_out.other),
        ("entries of unknown peers", left_out.unknown_peer),
    ];
    let mut line = String::new(alloc);
    add_left_out(&mut line, "left out: ", &left_out)?;
    if line.is_empty() {
        return Ok(());
    }
    writeln!(text, "{mark}{line}")
}

// Adds what is left out, each kind by its name and number, behind a text: nothing if nothing is.
fn add_left_out(
    text: &mut String,
    front: &str,
    left_out: &[(&str, u64)],
) -> Result<(), AllocError> {
    let mut before = front;
    for (what, count) in left_out {
        if *count > 0 {
            write!(text, "{before}{what} {count}")?;
            before = ", ";
        }
    }
    Ok(())
}
