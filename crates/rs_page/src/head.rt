//! The head of the page: which exchange, which time, and what is noted of the recordings.

use crate::elements::close_section;
use crate::shown::Shown;
use rs_glass_shell::downs_text;
use rs_host::Utc;
use rs_notes::BEFORE_IMPORT;
use rs_picture::{Grouped, add_text};
use rs_update::Errors;
use std::alloc::{AllocError, Global};
use std::net::Ipv4Addr;

// Up to how many notes are seen at once.
const FEW: usize = 8;

/// Adds it.
pub(crate) fn add_head(
    text: &mut String,
    alloc: Global,
    shown: &Shown<'_>,
) -> Result<(), AllocError> {
    let local = shown.setup.plan.local();
    let (asn, address) = (local.asn, Ipv4Addr::from_bits(local.address));
    let peers = shown.tally.peers();
    writeln!(text, "<header>\n<h1>Exchange of AS {asn}</h1>")?;
    let noun = if peers == 1 { "peer" } else { "peers" };
    let peers = Grouped(peers as u64);
    write!(text, "<p>Route server {address}, {peers} {noun}")?;
    add_range(text, shown)?;
    text.push_str(match shown.query.tables.errors {
        Errors::Rfc4271 => ". Faults in path attributes are handled by RFC 4271.</p>\n",
        Errors::Rfc7606 => ". Faults in path attributes are handled by RFC 7606.</p>\n",
    })?;
    add_import(text, shown)?;
    add_downs(text, alloc, shown)?;
    text.push_str("</header>\n")?;
    add_notes(text, shown)
}

// Adds what that means for the page if no import policy is configured.
fn add_import(text: &mut String, shown: &Shown<'_>) -> Result<(), AllocError> {
    if shown.has_import() {
        return Ok(());
    }
    writeln!(text, "<p>{BEFORE_IMPORT}.</p>")
}

// Adds which sessions are down.
fn add_downs(text: &mut String, alloc: Global, shown: &Shown<'_>) -> Result<(), AllocError> {
    if let Some(downs) = downs_text(alloc, &shown.setup.plan, shown.sessions)? {
        text.push_str("<p>")?;
        add_text(text, &downs)?;
        text.push_str(".</p>\n")?;
    }
    Ok(())
}

// Adds of which time records were read.
fn add_range(text: &mut String, shown: &Shown<'_>) -> Result<(), AllocError> {
    let changes = &shown.times.changes;
    if shown.times.any {
        let (first, last) = (Utc(changes.first), Utc(changes.last));
        write!(text, ", recorded from {first} to {last} UTC")?;
    } else {
        text.push_str(", no record of them")?;
    }
    match shown.query.tables.until {
        Some(until) => {
            let until = Utc(until);
            write!(text, ", read until {until} UTC")
        }
        None => Ok(()),
    }
}

// Adds the notes, if there are any. Many are folded, so that the pictures stay in sight.
fn add_notes(text: &mut String, shown: &Shown<'_>) -> Result<(), AllocError> {
    if shown.notes.is_empty() {
        return Ok(());
    }
    let count = shown.notes.len();
    text.push_str("<section>\n<h2>Notes on the recordings</h2>\n<details class=\"notes\"")?;
    if count <= FEW {
        text.push_str(" open=\"open\"")?;
    }
    let noun = if count == 1 { "note" } else { "notes" };
    let count = Grouped(count as u64);
    writeln!(text, "><summary>{count} {noun}</summary>\n<ul>")?;
    for note in shown.notes {
        text.push_str("<li>")?;
        add_text(text, note)?;
        text.push_str("</li>\n")?;
    }
    text.push_str("</ul>\n</details>\n")?;
    close_section(text, shown, "check", &[])
}
