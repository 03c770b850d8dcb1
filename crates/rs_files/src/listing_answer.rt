//! What recorded files hold, as a text and as JSON (RFC 8259).

use crate::recorded_file::RecordedFile;
use rs_host::{Utc, on_one_line};
use rs_inventory::{Compression, Inventory, Kind, PeerId, PeerRecords, SessionTimes};
use rs_mrt::MrtFault;
use rs_rows::{Column, Form, RowWriter};
use serde_json::Value;
use std::alloc::{AllocError, Global};
use std::net::Ipv4Addr;

// The peer's address in a change of state that BIRD records when the connection is gone.
const NO_ADDRESS: u32 = 0;

// How wide the columns of addresses, of AS numbers and of numbers are.
const ADDRESS_WIDTH: usize = 17;

const AS_WIDTH: usize = 12;

const NUMBER_WIDTH: usize = 9;

const FAULTY_WIDTH: usize = 6;

// The kinds of records by their keys.
const KINDS: [(&str, Kind); 13] = [
    ("update", Kind::Update),
    ("open", Kind::Open),
    ("notification", Kind::Notification),
    ("keepalive", Kind::KeepAlive),
    ("route_refresh", Kind::RouteRefresh),
    ("faulty", Kind::Faulty),
    ("state_change", Kind::StateChange),
    ("two_octet", Kind::TwoOctet),
    ("add_path", Kind::AddPath),
    ("ipv6", Kind::Ipv6),
    ("table_dump_v2", Kind::TableDumpV2),
    ("cut_short", Kind::CutShort),
    ("other", Kind::Other),
];

/// What each file holds, in lines for people: the file; its records by kind and their times; how it ends; then each
/// peer with its sessions. Between two files stands an empty line.
pub fn as_text(alloc: Global, files: &[RecordedFile]) -> Result<String, AllocError> {
    let mut text = String::new(alloc);
    for (number, file) in files.iter().enumerate() {
        if number > 0 {
            writeln!(text)?;
        }
        add_file(alloc, &mut text, file)?;
    }
    Ok(text)
}

/// What each file holds, as one JSON object and a line break.
pub fn as_json(alloc: Global, files: &[RecordedFile]) -> Result<String, AllocError> {
    let mut list = RowWriter::objects(alloc);
    for file in files {
        hand_file(&mut list, file);
        list.end_row();
    }
    let mut object = RowWriter::object(alloc);
    object.value("files", list.into_value());
    object.end_row();
    object.take()
}

// Adds the lines of a file.
fn add_file(alloc: Global, text: &mut String, file: &RecordedFile) -> Result<(), AllocError> {
    let path = on_one_line(alloc, &file.path)?;
    let inventory = &file.inventory;
    writeln!(text, "{path}")?;
    if let Some(compression) = inventory.compression() {
        return add_compression(text, compression);
    }
    if let Some(format) = file.format {
        let name = format.name();
        return writeln!(text, "{name}: only uncompressed MRT is read");
    }
    add_records(text, inventory)?;
    add_end(text, inventory)?;
    if inventory.peers().is_empty() {
        return Ok(());
    }
    text.push_str(&peers_text(alloc, inventory)?)
}

// Adds the line of a compressed file.
fn add_compression(text: &mut String, compression: Compression) -> Result<(), AllocError> {
    let name = compression.name();
    writeln!(text, "compressed by {name}: no record was read")
}

// Adds the line of all records, and one of each kind of which there are any.
fn add_records(text: &mut String, inventory: &Inventory) -> Result<(), AllocError> {
    let records = inventory.records();
    match (inventory.first(), inventory.last()) {
        (Some(first), Some(last)) => {
            let (first, last) = (Utc(first), Utc(last));
            writeln!(text, "records {records}, {first} to {last} UTC")?;
        }
        _ => writeln!(text, "records {records}")?,
    }
    for kind in Kind::all() {
        add_kind(text, kind, inventory.count_of(kind))?;
    }
    Ok(())
}

// Adds the line of a kind, if there are records of it.
fn add_kind(text: &mut String, kind: Kind, count: u64) -> Result<(), AllocError> {
    if count == 0 {
        return Ok(());
    }
    let name = kind.name();
    writeln!(text, "  {name} {count}")
}

// Adds the line of a file that ends within a record.
fn add_end(text: &mut String, inventory: &Inventory) -> Result<(), AllocError> {
    let Some(fault) = inventory.end() else {
        return Ok(());
    };
    let part = part_of(fault);
    let number = inventory.records().saturating_add(1);
    write!(text, "ends within the {part} of record {number}")?;
    match inventory.octets() {
        Some(octets) => writeln!(text, ", which begins at octet {octets}"),
        None => writeln!(text),
    }
}

// The part of a record in which a file ends.
fn part_of(fault: MrtFault) -> &'static str {
    match fault {
        MrtFault::HeaderCutShort => "header",
        _ => "body",
    }
}

// Hands over what a file holds, in JSON. A compressed one has no records, and one of another format has none of a known
// kind.
fn hand_file(object: &mut RowWriter<'_>, file: &RecordedFile) {
    let (alloc, inventory) = (object.alloc(), &file.inventory);
    let compressed = inventory
        .compression()
        .map(|compression| compression.name());
    object.text("file", &file.path);
    object.text_or("compressed", compressed, "");
    object.text_or("format", file.format.map(|format| format.name()), "");
    object.number_or_none("first", inventory.first());
    object.number_or_none("last", inventory.last());
    object.value("records", counts_value(alloc, inventory));
    object.value("ends_within", cut_value(alloc, inventory));
    let mut peers = RowWriter::objects(alloc);
    hand_peers(&mut peers, inventory);
    object.value("peers", peers.into_value());
}

// How many records there are, in all and of each kind.
fn counts_value(alloc: Global, inventory: &Inventory) -> Result<Value, AllocError> {
    let mut object = RowWriter::object(alloc);
    object.number("all", inventory.records());
    for (key, kind) in KINDS {
        object.number(key, inventory.count_of(kind));
    }
    object.into_value()
}

// The part of the record in which a file ends, and which record that is, counted from 1. Also the octet at which the
// record begins, counted from 0. Null if the file ends with a record.
fn cut_value(alloc: Global, inventory: &Inventory) -> Result<Value, AllocError> {
    let Some(fault) = inventory.end() else {
        return Ok(Value::Null);
    };
    let mut object = RowWriter::object(alloc);
    object.number("record", inventory.records().saturating_add(1));
    object.text("part", part_of(fault));
    object.value("octet", Ok(Value::from(inventory.octets())));
    object.into_value()
}

// The table of peers, with the lines of their sessions.
fn peers_text(alloc: Global, inventory: &Inventory) -> Result<String, AllocError> {
    let columns = [
        Column::new("address", "peer", ADDRESS_WIDTH),
        Column::new("as", "AS", AS_WIDTH),
        Column::right("records", "records", NUMBER_WIDTH),
        Column::right("announced", "announced", NUMBER_WIDTH),
        Column::right("withdrawn", "withdrawn", NUMBER_WIDTH),
        Column::right("faulty", "faulty", FAULTY_WIDTH),
        Column::new("identifiers", "identifier", 0),
    ];
    let mut rows = RowWriter::new(alloc, Form::Text, &columns);
    rows.titles();
    hand_peers(&mut rows, inventory);
    rows.take()
}

// Hands over the peers, in order.
fn hand_peers(rows: &mut RowWriter<'_>, inventory: &Inventory) {
    for (peer, records) in inventory.peers() {
        hand_peer(rows, *peer, records);
    }
}

// Hands over a peer, and in text a line of each of its sessions.
fn hand_peer(row: &mut RowWriter<'_>, peer: PeerId, records: &PeerRecords) {
    let alloc = row.alloc();
    row.shown("address", &Ipv4Addr::from_bits(peer.address));
    row.number("as", u64::from(peer.asn));
    row.number("records", records.records());
    row.number("announced", records.announced());
    row.number("withdrawn", records.withdrawn());
    row.number("faulty", records.faulty());
    if row.form() == Form::Json {
        row.list(
            "identifiers",
            identifier_texts(alloc, records.identifiers()),
        );
        row.value("sessions", sessions_value(alloc, records.sessions()));
        return row.end_row();
    }
    row.made_words(
        "identifiers",
        identifiers_text(alloc, records.identifiers()),
    );
    row.end_row();
    for session in records.sessions() {
        if !session.shown {
            row.lines(session_lines(alloc, peer, *session));
        }
    }
}

// The BGP Identifiers, in order.
fn identifier_texts(alloc: Global, identifiers: &[u32]) -> Result<Vec<String>, AllocError> {
    let mut texts = Vec::new(alloc);
    for identifier in identifiers {
        texts.push(Ipv4Addr::from_bits(*identifier).to_string(alloc)?)?;
    }
    Ok(texts)
}

// The whole listing as one text.
fn identifiers_text(alloc: Global, identifiers: &[u32]) -> Result<String, AllocError> {
    if identifiers.is_empty() {
        return String::from_str(alloc, "-");
    }
    let mut text = String::new(alloc);
    for (number, identifier) in identifiers.iter().enumerate() {
        if number > 0 {
            text.push_str(", ")?;
        }
        let identifier = Ipv4Addr::from_bits(*identifier);
        write!(text, "{identifier}")?;
    }
    Ok(text)
}

// The sessions that changes of state and losses show, in order.
fn sessions_value(alloc: Global, sessions: &[SessionTimes]) -> Result<Value, AllocError> {
    let mut list = RowWriter::objects(alloc);
    for session in sessions {
        if !session.shown {
            list.number_or_none("up", session.up);
            list.number_or_none("down", session.down);
            list.end_row();
        }
    }
    list.into_value()
}

// The line of a session, and one of a loss that takes no route away, as its record lacks the peer's address.
fn session_lines(alloc: Global, peer: PeerId, session: SessionTimes) -> Result<String, AllocError> {
    let up = time_text(alloc, session.up)?;
    let down = time_text(alloc, session.down)?;
    let mut lines = format!(in alloc; "  session  up {up:<19}  down {down}\n")?;
    if peer.address == NO_ADDRESS && session.down.is_some() {
        lines.push_str(
            "    recorded without the peer's address, so not read as its loss: its routes stay\n",
        )?;
    }
    Ok(lines)
}

// A time, or a dash if it isn't recorded.
fn time_text(alloc: Global, time: Option<u32>) -> Result<String, AllocError> {
    match time {
        Some(time) => {
            let time = Utc(time);
            format!(in alloc; "{time}")
        }
        None => String::from_str(alloc, "-"),
    }
}
