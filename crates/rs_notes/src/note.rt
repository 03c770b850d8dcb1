//! The texts of notes.

ghost use Rattle.std.specs.Prelude.{◌≡◌, IfOk, string_bytes};
ghost use Rattle.std.specs.Int.{to_be_bytes, w32};
ghost use Rattle.std.specs.Net.Addr.{ipv4_octets};
ghost use Rattle.rs_notes.specs.Note.{count_text, cut_note, format_text, kind_text};
ghost use Rattle.rs_notes.specs.Note.{loss_text, note_of, others_text, text_of, whose_text};

use crate::hint::Hint;
use crate::lost::Lost;
use crate::near::Near;
use rs_host::{Utc, on_one_line};
use rs_inventory::{Back, Kind, PeerId, Unread};
use rs_mrt::{Cut, Tail};
use rs_types::Prefix;
use std::alloc::{AllocError, Global};
use std::net::Ipv4Addr;

/// The text of what is noted of a peer's recorded file, without a line break at its end: `name` is the peer's,
/// `path` that of its file, whose control characters are escaped.
pub fn note_line(
    alloc: Global,
    name: &str,
    path: &str,
    peer: PeerId,
    hint: Hint,
) -> Result<String, AllocError>
    ensures { IfOk result (λ line. string_bytes line ≡ note_of name.now path.now peer hint) }
{
    let text = hint_text(alloc, path, peer, hint)?;
    format!(in alloc; "peer {name}: {text}")
}

/// The text of the note on a recorded file that ends within a record, without a line break at its end: `path` is
/// that of the file, whose control characters are escaped.
pub fn cut_line(alloc: Global, path: &str, cut: Cut, tail: Tail) -> Result<String, AllocError>
    ensures { IfOk result (λ line. string_bytes line ≡ cut_note path.now cut tail) }
{
    let path = on_one_line(alloc, path)?;
    let (octet, len, loss) = (cut.octet, cut.len, loss_text(tail));
    format!(in alloc;
        "{path} ends within its last record, which begins at octet {octet} (octets {loss}: {len})"
    )
}

/// The text that says how the file is cut there.
pub(crate) fn advised_line(
    alloc: Global,
    path: &str,
    cut: Cut,
    tail: Tail,
) -> Result<String, AllocError> {
    let path = on_one_line(alloc, path)?;
    let (octet, len, loss) = (cut.octet, cut.len, loss_text(tail));
    format!(in alloc;
        "{path} ends within its last record, which begins at octet {octet} (octets {loss}: {len}; head -c {octet} cuts it there)"
    )
}

/// The text of the note on several recorded files that end within a record: on the first one, and so many more.
pub(crate) fn cut_lines(
    alloc: Global,
    path: &str,
    more: usize,
    cut: Cut,
    tail: Tail,
) -> Result<String, AllocError> {
    let path = on_one_line(alloc, path)?;
    let (octet, len, loss) = (cut.octet, cut.len, loss_text(tail));
    format!(in alloc;
        "{path} and {more} more end within their last records; that of {path} begins at octet {octet} (octets {loss}: {len})"
    )
}

// What becomes of the octets of a record that is cut short.
fn loss_text(tail: Tail) -> &'static str
    ensures { result.now ≡ loss_text tail }
{
    match tail {
        Tail::Strict => "lost",
        Tail::Lenient => "left out",
    }
}

/// What is noted of a peer's recorded file.
pub(crate) fn hint_text(
    alloc: Global,
    path: &str,
    peer: PeerId,
    hint: Hint,
) -> Result<String, AllocError>
    ensures { IfOk result (λ text. string_bytes text ≡ text_of path.now peer hint) }
{
    match hint {
        Hint::NotMrt(format) => format_text(alloc, path, format.name()),
        Hint::NoRecord { others, kind } => {
            let whose = whose_text(alloc, peer)?;
            let count = count_text(alloc, others, kind)?;
            others_text(alloc, path, &whose, &count)
        }
    }
}

// A file is of another format.
fn format_text(alloc: Global, path: &str, format: &str) -> Result<String, AllocError>
    ensures { IfOk result (λ text. string_bytes text ≡ format_text path.now format.now) }
{
    let path = on_one_line(alloc, path)?;
    format!(in alloc; "{path} is {format}; only uncompressed MRT is read")
}

// A file's records are all of others.
fn others_text(alloc: Global, path: &str, whose: &str, count: &str) -> Result<String, AllocError>
    ensures { IfOk result (λ text. string_bytes text ≡ others_text path.now whose.now count.now) }
{
    let path = on_one_line(alloc, path)?;
    format!(in alloc; "no record of {whose} in {path} ({count})")
}

// Whose records are looked for.
fn whose_text(alloc: Global, peer: PeerId) -> Result<String, AllocError>
    ensures { IfOk result (λ text. string_bytes text ≡ whose_text peer) }
{
    let (address, asn) = (address_of(peer.address), peer.asn);
    format!(in alloc; "{address} AS {asn}")
}

// How many records there are, and of what kind.
fn count_text(alloc: Global, others: u64, kind: Option<Kind>) -> Result<String, AllocError>
    ensures { IfOk result (λ text. string_bytes text ≡ count_text others kind) }
{
    let kind = kind_text(kind);
    format!(in alloc; "{others} of others{kind}")
}

// An address as std has it.
#[tactic(auto, unfolding(std::specs::Net::Addr::IsIpv4OfBits))]
fn address_of(address: u32) -> Ipv4Addr
    ensures { ipv4_octets result ≡ to_be_bytes w32 address }
{
    Ipv4Addr::from(address)
}

// The kind of all records, if one kind explains them.
fn kind_text(kind: Option<Kind>) -> &'static str
    ensures { result.now ≡ kind_text kind }
{
    match kind {
        Some(Kind::TableDumpV2) => ", all TABLE_DUMP_V2",
        Some(Kind::TwoOctet) => ", all of two-octet sessions",
        Some(Kind::AddPath) => ", all of ADD-PATH sessions",
        Some(Kind::Ipv6) => ", all of IPv6 peers",
        _ => "",
    }
}

/// The text of the note on a peer whose recording begins in mid-session.
pub(crate) fn inside_line(alloc: Global, name: &str) -> Result<String, AllocError> {
    format!(in alloc;
        "peer {name}: the recording begins in mid-session; routes announced before are missing"
    )
}

/// The text of the note on a peer whose session began again at a time.
pub(crate) fn again_line(alloc: Global, name: &str, time: u32) -> Result<String, AllocError> {
    let time = Utc(time);
    format!(in alloc;
        "peer {name}: a session began again at {time} UTC without a recorded loss; its earlier routes stay"
    )
}

/// Which peer of a file is probably meant, behind the text that the file has no record of its peer.
pub(crate) fn near_text(alloc: Global, near: Near) -> Result<String, AllocError> {
    let (whose, records) = (whose_text(alloc, near.peer)?, near.records);
    let what = if near.by_address {
        "address"
    } else {
        "AS number"
    };
    format!(in alloc; "; {whose} has {records}: is its {what} meant?")
}

/// The text on an empty file.
pub(crate) fn empty_text(alloc: Global, path: &str) -> Result<String, AllocError> {
    let path = on_one_line(alloc, path)?;
    format!(in alloc; "{path} is empty")
}

/// The text on peers, named by a pronoun, of which no record is read up to a time.
pub(crate) fn up_to_text(alloc: Global, whom: &str, until: u32) -> Result<String, AllocError> {
    let until = Utc(until);
    format!(in alloc; "no record of {whom} up to {until} UTC")
}

/// Of which time the first record of such a peer is.
pub(crate) fn first_text(alloc: Global, first: u32) -> Result<String, AllocError> {
    let first = Utc(first);
    format!(in alloc; "its first is of {first} UTC")
}

/// How many messages of a peer aren't read, and which.
pub(crate) fn unread_text(alloc: Global, unread: Unread) -> Result<String, AllocError> {
    let mut text = String::new(alloc);
    add_count(&mut text, unread.add_path, "of ADD-PATH sessions")?;
    add_count(&mut text, unread.two_octet, "of two-octet sessions")?;
    add_count(&mut text, unread.ipv6, "with IPv6 routes")?;
    Ok(text)
}

/// That large communities of a server of this AS number have no effect.
pub(crate) fn no_effect_text(alloc: Global, server: u32) -> Result<String, AllocError> {
    format!(in alloc;
        "large communities {server}:*:* have no effect without large_communities = true"
    )
}

/// How many UPDATEs have such large communities.
pub(crate) fn large_text(alloc: Global, updates: u64) -> Result<String, AllocError> {
    format!(in alloc; "UPDATEs with them: {updates}")
}

// Adds how many messages are of a kind, if there are any.
fn add_count(text: &mut String, count: u64, kind: &str) -> Result<(), AllocError> {
    if count == 0 {
        return Ok(());
    }
    let before = if text.is_empty() { "" } else { ", " };
    write!(text, "{before}{count} {kind}")?;
    Ok(())
}

/// The text on a loss that is recorded with the address of no peer.
pub(crate) fn lost_text(alloc: Global, lost: Lost) -> Result<String, AllocError> {
    let time = Utc(lost.time);
    let address = if lost.is_swapped {
        "with the server's address in place of the peer's"
    } else {
        "without the peer's address"
    };
    format!(in alloc; "a loss at {time} UTC is recorded {address}; --losses inferred counts it")
}

/// The text of the note on a recorded file in which times go back.
pub(crate) fn back_line(alloc: Global, path: &str, back: Back) -> Result<String, AllocError> {
    let (path, text) = (on_one_line(alloc, path)?, back_text(alloc, back)?);
    format!(in alloc; "{path}: times go back {text} (pieces joined in the wrong order?)")
}

/// The text of the note on several such files: on the first one, and so many more.
pub(crate) fn back_lines(
    alloc: Global,
    path: &str,
    more: usize,
    back: Back,
) -> Result<String, AllocError> {
    let (path, text) = (on_one_line(alloc, path)?, back_text(alloc, back)?);
    format!(in alloc;
        "{path} and {more} more: times go back; in {path} {text} (pieces joined in the wrong order?)"
    )
}

// By how much times go back, and where.
fn back_text(alloc: Global, back: Back) -> Result<String, AllocError> {
    let seconds = back.seconds;
    match back.octet {
        Some(octet) => format!(in alloc; "by {seconds} s at octet {octet}"),
        None => format!(in alloc; "by {seconds} s behind {} records", back.records),
    }
}

/// The text of the note on a subnet in which nobody is.
pub(crate) fn subnet_line(alloc: Global, subnet: Prefix) -> Result<String, AllocError> {
    let (address, len) = (address_of(subnet.address()), subnet.len());
    format!(in alloc; "subnet {address}/{len} has neither the server nor any peer")
}

/// At which time something happened, behind a text on several peers.
pub(crate) fn at_text(alloc: Global, time: u32) -> Result<String, AllocError> {
    let time = Utc(time);
    format!(in alloc; "at {time} UTC")
}

/// The text of the note on files of which no record names the server as their recorder. The first message of the
/// file at a path names another one.
pub(crate) fn server_line(
    alloc: Global,
    server: PeerId,
    path: &str,
    recorder: PeerId,
) -> Result<String, AllocError> {
    let (server, recorder) = (whose_text(alloc, server)?, whose_text(alloc, recorder)?);
    let path = on_one_line(alloc, path)?;
    format!(in alloc; "no record is of the server {server}; {path} is of {recorder}")
}

/// The text of the note on a peer of recorded files that no peer of the configuration is, with its records.
pub(crate) fn unconfigured_line(
    alloc: Global,
    peer: PeerId,
    records: u64,
) -> Result<String, AllocError> {
    let (whose, count) = (whose_text(alloc, peer)?, records_text(alloc, records)?);
    format!(in alloc; "{whose} has {count}; no peer of the configuration has this address and AS")
}

/// Adds a peer to the line on so many such peers, at a place: the first one with the word for what is counted.
pub(crate) fn add_counted(
    alloc: Global,
    line: &mut String,
    place: usize,
    peers: usize,
    peer: PeerId,
    records: u64,
) -> Result<(), AllocError> {
    let (before, whose) = (before_place(place, peers), whose_text(alloc, peer)?);
    if place > 0 {
        write!(line, "{before}{whose} ({records})")?;
        return Ok(());
    }
    let count = records_text(alloc, records)?;
    write!(line, "{before}{whose} ({count})")?;
    Ok(())
}

/// Ends the line on such peers: so many more are not named.
pub(crate) fn add_unconfigured_end(line: &mut String, more: usize) -> Result<(), AllocError> {
    if more > 0 {
        write!(line, " and {more} more")?;
    }
    line.push_str(": no peer of the configuration has their addresses and AS numbers")
}

// How many records there are, in words.
fn records_text(alloc: Global, records: u64) -> Result<String, AllocError> {
    if records == 1 {
        return String::from_str(alloc, "1 record");
    }
    format!(in alloc; "{records} records")
}

/// What stands before the name at a place, if a line is about so many.
pub(crate) fn before_place(place: usize, count: usize) -> &'static str {
    if place == 0 {
        " "
    } else if place.saturating_add(1) == count {
        " and "
    } else {
        ", "
    }
}

/// The text of the note on two peers whose AS numbers are probably swapped, and on so many more pairs. Behind their
/// names come their addresses with the AS number of the other, and how many records these have.
pub(crate) fn swapped_line(
    alloc: Global,
    names: (&str, &str),
    more: usize,
    crossed: (PeerId, PeerId),
    records: (u64, u64),
) -> Result<String, AllocError> {
    let (one, other) = (whose_text(alloc, crossed.0)?, whose_text(alloc, crossed.1)?);
    let mut line = format!(in alloc; "peers {} and {}", names.0, names.1)?;
    if more == 1 {
        line.push_str(", and 1 more pair")?;
    } else if more > 1 {
        write!(line, ", and {more} more pairs")?;
    }
    let (of_one, of_other) = records;
    write!(
        line,
        ": no record of them in their files; {one} has {of_one} and {other} has {of_other}: are their AS numbers swapped?"
    )?;
    Ok(line)
}
