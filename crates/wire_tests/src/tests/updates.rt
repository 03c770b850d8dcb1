//! Messages by hand, each with what it says, by the formats of RFC 4271, RFC 6793, RFC 1997 and RFC 7606.
//!
//! They are rows of texts. What is wanted stands behind a bar; a line without one is a remark. A message is spelled
//! whole, or as the fields of an UPDATE: withdrawn routes / path attributes / NLRI.

mod concerning;
mod messages;
mod pairs;
mod prefixes;
mod refusals;
mod routes;

use super::said::Said;
use super::words::{Octets, spelled};
use rs_update::{
    Attributes, Errors, Message, MessageFault, Prefix, Update, read_message, read_message_by,
    write_attributes,
};
use spelled_in_hex::octets;
use std::alloc::Global;
use std::net::Ipv4Addr;
use std::test::Fail;

// Appends a length of two octets.
fn add_len(message: &mut Octets, len: usize) {
    message.add(&u16::try_from(len).unwrap_or(u16::MAX).to_be_bytes());
}

// An UPDATE of withdrawn routes, path attributes and NLRI. With its header, its type and both lengths it has 23 octets
// more than these.
fn update(alloc: Global, withdrawn: &str, section: &str, nlri: &str) -> Octets {
    let mut message = Octets::new(alloc);
    let withdrawn_len = message.len_of(withdrawn);
    let section_len = message.len_of(section);
    let len = message
        .len_of(nlri)
        .saturating_add(withdrawn_len)
        .saturating_add(section_len);
    message.spell("MARKER");
    add_len(&mut message, len.saturating_add(23));
    message.add(&[2]);
    add_len(&mut message, withdrawn_len);
    message.spell(withdrawn);
    add_len(&mut message, section_len);
    message.spell(section);
    message.spell(nlri);
    message
}

// The message of a row.
fn message(alloc: Global, text: &str) -> Octets {
    let Some((withdrawn, behind)) = text.split_once('/') else {
        return spelled(alloc, text);
    };
    let (section, nlri) = behind.split_once('/').unwrap_or((behind, ""));
    update(alloc, withdrawn, section, nlri)
}

// Appends prefixes, each behind a sign.
fn add_prefixes(said: &mut Said, sign: char, prefixes: &[Prefix]) {
    for prefix in prefixes {
        let (address, len) = (Ipv4Addr::from_bits(prefix.address()), prefix.len());
        said.add(format_args!(" {sign}{address}/{len}"));
    }
}

// Appends a word, the withdrawn prefixes and the announced ones, each in order.
fn add_with_prefixes(said: &mut Said, word: &str, withdrawn: &[Prefix], announced: &[Prefix]) {
    said.add(word);
    add_prefixes(said, '-', withdrawn);
    add_prefixes(said, '+', announced);
}

// Appends what a message says: its type, and of an UPDATE its prefixes.
fn add_message(said: &mut Said, message: &Message) {
    match message {
        Message::Open => said.add("OPEN"),
        Message::Update(read) => add_with_prefixes(said, "UPDATE", &read.withdrawn, &read.nlri),
        Message::Treated { withdrawn, nlri } => add_with_prefixes(said, "TREATED", withdrawn, nlri),
        Message::Notification => said.add("NOTIFICATION"),
        Message::KeepAlive => said.add("KEEPALIVE"),
        Message::Refresh => said.add("ROUTE-REFRESH"),
    }
}

// Appends what is answered to a message: what it says, or its fault.
fn add_answer(said: &mut Said, read: &Result<Message, MessageFault>) {
    match read {
        Ok(message) => add_message(said, message),
        Err(fault) => said.add(format_args!("{fault}")),
    }
}

// What rows of a kind have before their bar, and what is said of it.
#[derive(Clone, Copy)]
enum Topic {
    // A message, and what it says by RFC 4271, and by RFC 7606 if that is something else.
    Message,
    // A message, and whether it may concern 203.0.113.0/24 by the two.
    Concern,
    // An address and a length, and the prefix that they give.
    Prefix,
    // Path attributes, and what they say.
    Route,
    // Path attributes as received -> as written, and that they are written so.
    Written,
}

// Appends what is said of the text before the bar of a row.
fn say(said: &mut Said, alloc: Global, topic: Topic, text: &str) {
    match topic {
        Topic::Message => messages::say(said, alloc, text),
        Topic::Concern => concerning::say(said, alloc, text),
        Topic::Prefix => prefixes::say(said, text),
        Topic::Route => routes::say(said, alloc, text),
        Topic::Written => routes::say_of_writing(said, alloc, text),
    }
}

// Appends what is said in a row, if that is not what is wanted. A row without a bar is a remark.
fn add_wrong(wrong: &mut Said, alloc: Global, topic: Topic, row: &str) {
    let Some((text, wanted)) = row.split_once(" | ") else {
        return;
    };
    let mut said = Said::new(alloc);
    say(&mut said, alloc, topic, text);
    compare(wrong, &said, wanted, row);
}

// Appends what is said, if that is not what is wanted in a row.
fn compare(wrong: &mut Said, said: &Said, wanted: &str, row: &str) {
    let found = said.text();
    if found != Some(wanted) {
        wrong.add(format_args!("{found:?} in place of {wanted} in the row {row}; "));
    }
}

// In each row is said what is wanted.
fn check_rows(alloc: Global, topic: Topic, rows: &str) -> Result<(), Fail> {
    let mut wrong = Said::new(alloc);
    for row in rows.lines() {
        add_wrong(&mut wrong, alloc, topic, row);
    }
    wrong.nothing()
}

// The attributes of an UPDATE whose routes stand.
fn standing(read: Result<Message, MessageFault>) -> Option<Attributes> {
    match read {
        Ok(Message::Update(read)) => read.attributes,
        _ => None,
    }
}
