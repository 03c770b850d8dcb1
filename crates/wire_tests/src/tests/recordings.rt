//! Recorded files, row by row, as records, as sessions and as inventories, and what no row shows: readers, writers,
//! shared attributes, and refused memory.
//!
//! A row has its name, and then its records, each on a line of its own. A record is its time, Type and Subtype (RFC
//! 6396, section 2), and the words of its body; or it is `octets`, and words.
//!
//! Each line `by ..` says how the file is read. The lines after it say what is wanted:
//! - `session`: what the session says, by RFC 4271, or by the standard of handling faults that is named behind it.
//! - `prefix`: a session that is asked for 203.0.113.0/24, and up to which time.
//! - `entries`: what each record says.
//! - `bodies` and `lengths`: the records themselves.
//! - `marks`: the time of each record, and which ones were put in.
//! - `places`: the time of each record, where it begins, and where one is cut short; up to which time.
//! - `inventory`: what the file holds; the lines are some of it.
//! - `whole inventory`: what the file holds; the lines are all of it.
//!
//! Of the file there may be just some `octets`. A reader gives at most a piece at a time, of each of these `pieces`.
//! A read `fails` after so many octets. With `losses` they are put in: those `inferred`, or none. The peer is alone
//! with its AS number, or `beside another`.

mod attributes;
mod inventories;
mod losses;
mod outlines;
mod places;
mod records;
mod refusals;
mod sessions;
mod streams;
mod told;

use super::said::Said;
use super::words::Octets;
use rs_losses::{PutsIn, Sought, WithLosses};
use rs_mrt::{
    Cut, Entry, Losses, MemoryReader, MrtFault, Read, ReadLimits, Record, RecordReader, Records,
    Source, SourceFault, entry,
};
use rs_ring::Closing;
use rs_session::{Body, PeerId, Reason, Session, Word};
use rs_update::{Errors, Prefix};
use std::alloc::{AllocError, Global};
use std::net::Ipv4Addr;
use std::test::Fail;
use told::add_told;

// The peer whose sessions are read: AS 64501 at 192.0.2.11.
const PEER: PeerId = PeerId {
    address: 0xC000_020B,
    asn: 64501,
};

// Appends the record of a line: its time, Type and Subtype, its Length counted, and the words of its body.
fn add_record(file: &mut Octets, line: &str) {
    let (time, line) = line.trim_start().split_once(' ').unwrap_or((line, ""));
    let (kind, line) = line.split_once('.').unwrap_or((line, ""));
    let (subtype, words) = line.split_once(' ').unwrap_or((line, ""));
    let len = u32::try_from(file.len_of(words)).unwrap_or(u32::MAX);
    match (time.parse(), kind.parse(), subtype.parse()) {
        (Ok(time), Ok(kind), Ok(subtype)) => file.add_header(time, kind, subtype, len),
        _ => file.spell("no record"),
    }
    file.spell(words);
}

// Appends the octets or the record of a line.
fn add_line(file: &mut Octets, line: &str) {
    match line.trim_start().strip_prefix("octets ") {
        Some(words) => file.spell(words),
        None => add_record(file, line),
    }
}

/// The file of these lines.
pub fn file_of(alloc: Global, lines: &str) -> Octets {
    let mut file = Octets::new(alloc);
    for line in lines.lines() {
        add_line(&mut file, line);
    }
    file
}

// The number after a word of a line.
fn number_after(line: &str, word: &str) -> Option<usize> {
    let (_, behind) = line.split_once(word)?;
    behind.split_whitespace().next()?.parse().ok()
}

// Appends why a session closed: by a NOTIFICATION with its code and subcode (RFC 4271, section 4.5), by the number of a
// fault of the recording, or else.
fn add_reason(said: &mut Said, reason: Reason) {
    match reason {
        Reason::Bgp { code, subcode } => said.add(format_args!(" NOTIFICATION {code}/{subcode}")),
        Reason::Mrt(number) => said.add(format_args!(" recording's fault {number}")),
        Reason::EndOfFile => said.add(" end of file"),
        Reason::Memory => said.add(" out of memory"),
        Reason::Read => said.add(" failed read"),
    }
}

// Appends a sign and a prefix.
fn add_prefix(said: &mut Said, sign: char, prefix: Prefix) {
    let address = Ipv4Addr::from_bits(prefix.address());
    let len = prefix.len();
    said.add(format_args!(" {sign}{address}/{len}"));
}

/// Appends the line of a change without its attributes. Only the close of a session closes its ring.
pub fn add_change(said: &mut Said, word: &Word) {
    let time = word.time;
    said.add(format_args!("\n    {time}"));
    if word.is_close() {
        said.add(" closed:");
    }
    match &word.body {
        Body::Announce(prefix, _) => add_prefix(said, '+', *prefix),
        Body::Withdraw(prefix) => add_prefix(said, '-', *prefix),
        Body::Down => said.add(" down"),
        Body::Close(reason) => add_reason(said, *reason),
    }
}

// The next change of a session that is asked for all, or for one prefix, up to a time.
fn next<S: Source>(
    session: &mut Session<S>,
    prefix: Option<Prefix>,
    until: Option<u32>,
) -> Result<Option<Word>, AllocError> {
    match prefix {
        None => session.next_word(),
        Some(prefix) => session.next_word_on(prefix, until),
    }
}

/// Appends what a session says in its first thousand changes, and how many records are passed over, if there are
/// any. After its last change there is none, also if it is asked again.
pub fn add_session<S: Source>(said: &mut Said, session: &mut Session<S>, asked: &Asked) {
    for _ in 0..1000 {
        if !add_next(said, session, asked) {
            break;
        }
    }
    add_next(said, session, asked);
    let passed = session.passed_over();
    if passed != 0 {
        said.add(format_args!("\n    passed over {passed}"));
    }
}

// Appends the next change of a session, and answers whether there is one.
fn add_next<S: Source>(said: &mut Said, session: &mut Session<S>, asked: &Asked) -> bool {
    match next(session, asked.prefix, asked.until) {
        Ok(Some(word)) => {
            add_change(said, &word);
            true
        }
        Ok(None) => false,
        Err(AllocError) => {
            said.refuse();
            false
        }
    }
}

// Appends octets as digits, if there are any.
fn add_digits(said: &mut Said, octets: &[u8]) {
    if !octets.is_empty() {
        said.add(" ");
    }
    for octet in octets {
        said.add(format_args!("{octet:02X}"));
    }
}

// Appends a fault of a record: its number and its text.
fn add_fault(said: &mut Said, fault: MrtFault) {
    let number = fault.number();
    said.add(format_args!(" fault {number}: {fault}"));
}

// Appends whose message a record has, and its octets; or whose change of state it is, and the states; or neither.
fn add_entry(said: &mut Said, record: &Record) {
    match entry(record) {
        Ok(
            Entry::Message {
                peer_as,
                peer,
                message,
            },
        ) => {
            let address = Ipv4Addr::from_bits(peer);
            said.add(format_args!(" {address} AS{peer_as} message"));
            add_digits(said, message);
        }
        Ok(
            Entry::State {
                peer_as,
                peer,
                old,
                new,
            },
        ) => {
            let address = Ipv4Addr::from_bits(peer);
            said.add(format_args!(" {address} AS{peer_as} state {old} to {new}"));
        }
        Ok(Entry::Other) => said.add(" other"),
        Err(fault) => add_fault(said, fault),
    }
}

// Appends what of a record is asked for.
fn add_shown(said: &mut Said, record: &Record, way: &str) {
    let (time, len) = (record.time, record.body.len());
    said.add(format_args!("\n    {time}"));
    if way.starts_with("entries") {
        return add_entry(said, record);
    }
    let (kind, subtype) = (record.kind, record.subtype);
    said.add(format_args!(" {kind}.{subtype}"));
    if way.starts_with("bodies") {
        return add_digits(said, record.body);
    }
    said.add(format_args!(" {len} octets"));
}

// Appends how a source answers that shows no record.
fn add_stop(said: &mut Said, answer: Result<bool, SourceFault>) {
    match answer {
        Ok(true) => said.add("\n    nothing"),
        Ok(false) => said.add("\n    end"),
        Err(SourceFault::Mrt(fault)) => {
            said.add("\n   ");
            add_fault(said, fault);
        }
        Err(fault) => said.add(format_args!("\n    {fault}")),
    }
}

// Goes one record on, and appends what is shown then. Answers whether it is a record.
fn add_step<S: Source>(said: &mut Said, source: &mut S, way: &str) -> bool {
    let answer = source.advance();
    match source.shown() {
        Some(record) => {
            add_shown(said, &record, way);
            true
        }
        None => {
            add_stop(said, answer);
            false
        }
    }
}

// Appends the records of a source, and how it answers twice after them. At first it shows nothing.
fn add_source<S: Source>(said: &mut Said, source: &mut S, way: &str) {
    if source.shown().is_some() {
        said.add("\n    a record too soon");
    }
    for _ in 0..1000 {
        if !add_step(said, source, way) {
            break;
        }
    }
    add_step(said, source, way);
}

// The standard by which faults are handled.
fn standard(way: &str) -> Errors {
    if way.contains("RFC 7606") {
        Errors::Rfc7606
    } else {
        Errors::Rfc4271
    }
}

/// The prefix for which a session is asked, where it is, and the time up to which UPDATEs are passed over.
#[derive(Drop)]
pub struct Asked {
    pub prefix: Option<Prefix>,
    pub until: Option<u32>,
}

// What a session is asked for.
fn asked_by(way: &str) -> Asked {
    if !way.starts_with("prefix") {
        return Asked {
            prefix: None,
            until: None,
        };
    }
    Asked {
        prefix: Prefix::new(0xCB00_7100, 24),
        until: number_after(way, "until ").and_then(|time| u32::try_from(time).ok()),
    }
}

// The session of a source: by RFC 4271 if no standard is named.
fn session_of<S: Source>(alloc: Global, source: S, way: &str) -> Session<S> {
    if way == "session" {
        Session::over(alloc, source, PEER)
    } else {
        Session::over_by(alloc, source, PEER, standard(way))
    }
}

// Appends what a source says to the one who reads it so.
fn add_said_by<S: Source + Drop>(said: &mut Said, alloc: Global, source: S, way: &str) {
    let mut source = source;
    if way.starts_with("session") || way.starts_with("prefix") {
        add_session(said, &mut session_of(alloc, source, way), &asked_by(way));
    } else {
        add_source(said, &mut source, way);
    }
}

// The limits of a reader that gives pieces of at most so many octets, or of none.
fn limits_of(way: &str, piece: usize) -> ReadLimits {
    if piece == 0 {
        return ReadLimits::none();
    }
    ReadLimits {
        octets_before_failure: number_after(way, "fails "),
        piece,
        ..ReadLimits::none()
    }
}

// Which losses are read, and whose.
fn losses_of(way: &str) -> (Losses, Sought) {
    let losses = if way.contains("inferred") {
        Losses::Inferred
    } else {
        Losses::Recorded
    };
    let peer = Sought {
        peer: PEER,
        alone: !way.contains("beside another"),
    };
    (losses, peer)
}

// Goes one record on, and appends its time and whether it was put in. Answers whether there is one.
fn add_mark<S: Source>(said: &mut Said, source: &mut WithLosses<S>) -> bool {
    let more = source.advance();
    let mark = if source.is_put_in() { " put in" } else { "" };
    match source.shown() {
        Some(record) => {
            let time = record.time;
            said.add(format_args!("\n    {time}{mark}"));
            true
        }
        None => {
            add_stop(said, more);
            said.add(mark);
            false
        }
    }
}

// Appends which of the records were put in.
fn add_marks<S: Source>(said: &mut Said, source: &mut WithLosses<S>) {
    for _ in 0..1000 {
        if !add_mark(said, source) {
            break;
        }
    }
}

// Appends what a file says with losses put in.
fn add_with_losses(said: &mut Said, alloc: Global, file: &[u8], way: &str, piece: usize) {
    let (losses, peer) = losses_of(way);
    let records = RecordReader::new(MemoryReader::new(file, limits_of(way, piece)));
    let mut source = WithLosses::new(records, losses, peer);
    if way.starts_with("marks") {
        return add_marks(said, &mut source);
    }
    add_said_by(said, alloc, source, way);
}

// Appends where a record is cut short, behind how many of its octets, and its time, if one is.
fn add_cut(said: &mut Said, cut: Option<Cut>) {
    let Some(Cut { octet, len, time }) = cut else {
        return;
    };
    said.add(format_args!("\n    cut at {octet} behind {len} of its octets"));
    if let Some(time) = time {
        said.add(format_args!(", time {time}"));
    }
}

// Goes one record on, and appends its time and where it begins, or how the reader stops, and where. Answers whether
// there is one.
fn add_place<R: Read>(said: &mut Said, records: &mut RecordReader<R>) -> bool {
    let more = records.advance();
    let shown = records.shown().map(|record| record.time);
    match shown {
        Some(time) => said.add(format_args!("\n    {time}")),
        None => add_stop(said, more),
    }
    let place = records.place();
    said.add(format_args!(" at {place}"));
    add_cut(said, records.cut());
    shown.is_some()
}

// Appends where the records of a file begin, and how the reader stops twice.
fn add_places(said: &mut Said, file: &[u8], way: &str, piece: usize) {
    let until = number_after(way, "until ").and_then(|time| u32::try_from(time).ok());
    let reader = MemoryReader::new(file, limits_of(way, piece));
    let mut records = RecordReader::up_to(reader, until);
    for _ in 0..1000 {
        if !add_place(said, &mut records) {
            break;
        }
    }
    add_place(said, &mut records);
}

// What a file says to the one who reads it so, in pieces of at most so many octets, or at hand if they are none.
fn read(alloc: Global, file: &[u8], way: &str, piece: usize) -> Said {
    let mut said = Said::new(alloc);
    let count = number_after(way, "octets ").unwrap_or(file.len());
    let Some(file) = file.get(..count) else {
        said.refuse();
        return said;
    };
    if way.contains("inventory") {
        add_told(&mut said, alloc, file, limits_of(way, piece));
    } else if way.starts_with("places") {
        add_places(&mut said, file, way, piece);
    } else if way.contains("losses") {
        add_with_losses(&mut said, alloc, file, way, piece);
    } else if piece == 0 {
        add_said_by(&mut said, alloc, Records::new(file), way);
    } else {
        let reader = MemoryReader::new(file, limits_of(way, piece));
        add_said_by(&mut said, alloc, RecordReader::new(reader), way);
    }
    said
}

// Whether a text has a line.
fn has_line(text: &str, line: &str) -> bool {
    for told in text.lines() {
        if told == line {
            return true;
        }
    }
    false
}

// Whether a text has all of these lines.
fn has_lines(text: &str, lines: &str) -> bool {
    for line in lines.lines() {
        if !has_line(text, line) {
            return false;
        }
    }
    true
}

// Whether what is said in a way to read a file is what its lines want: that they are all, or of an inventory some.
fn is_wanted(said: &str, way: &str, wanted: &str) -> bool {
    if way.starts_with("inventory") {
        has_lines(said, wanted)
    } else {
        said.trim() == wanted.trim()
    }
}

// Appends what comes of one way of reading a file, if that is not what its lines say.
fn check_way(wrong: &mut Said, alloc: Global, row: &str, file: &[u8], lines: &str) {
    let (way, wanted) = lines.split_once('\n').unwrap_or((lines, ""));
    let first = number_after(way, "pieces ").unwrap_or(0);
    let last = number_after(way, "to ").unwrap_or(first);
    for piece in first..=last {
        let said = read(alloc, file, way, piece);
        let said = said.text().unwrap_or("no answer");
        if !is_wanted(said, way, wanted) {
            wrong.add(format_args!("{row}, by {way}: {said}; "));
        }
    }
}

// Appends what comes of each way of reading a row's file, if that is not what the row says.
fn check_row(wrong: &mut Said, alloc: Global, row: &str) {
    let (head, ways) = row.split_once("\n  by ").unwrap_or((row, "no way"));
    let (name, lines) = head.split_once('\n').unwrap_or((head, ""));
    let file = file_of(alloc, lines);
    let Some(file) = file.whole() else {
        return wrong.add(format_args!("no file in {row}; "));
    };
    for way in ways.split("\n  by ") {
        check_way(wrong, alloc, name, file, way);
    }
}

/// Each of these rows is right. Empty lines part them, and what begins with # is a comment.
pub fn check_rows(alloc: Global, rows: &str) -> Result<(), Fail> {
    let mut wrong = Said::new(alloc);
    for row in rows.trim().split("\n\n") {
        if !row.starts_with('#') {
            check_row(&mut wrong, alloc, row);
        }
    }
    wrong.nothing()
}
