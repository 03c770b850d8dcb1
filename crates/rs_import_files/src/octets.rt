//! What the octets of a file are: a text without its byte order mark, and JSON or not.

ghost use Rattle.std.specs.Prelude.{◌≡◌, IfErr, IfOk, drop};
ghost use Rattle.std.specs.Char.{is_ascii_whitespace};
ghost use Rattle.std.specs.List.{prefix_len};
ghost use Rattle.std.specs.Str.{IsUtf8};
ghost use Rattle.csv.specs.Reading.{strip_bom};
ghost use Rattle.rs_import_files.specs.Files.{is_json};

use crate::fault::ListFault;
use std::alloc::Global;

// The byte order mark in UTF-8.
const BYTE_ORDER_MARK: [u8; 3] = [0xEF, 0xBB, 0xBF];

// The text of some octets, without the byte order mark at its front.
pub(crate) fn text_of<'a>(alloc: Global, octets: &'a [u8]) -> Result<&'a str, ListFault>
    ensures found { IfOk result (λ text. text.now ≡ strip_bom octets.now) }
    ensures none { IfErr result (λ _. ¬ (IsUtf8 (strip_bom octets.now))) }
{
    let octets = without_mark(octets);
    match str::from_utf8(octets) {
        Ok(text) => Ok(text),
        Err(error) => Err(not_utf8(alloc, line_at(octets, error.valid_up_to()))),
    }
}

// The fault of a line whose octets are no text.
pub(crate) fn not_utf8(alloc: Global, line: usize) -> ListFault {
    match String::from_str(alloc, "the octets are not UTF-8") {
        Ok(reason) => ListFault::Line(line, reason),
        Err(_) => ListFault::Memory,
    }
}

// Octets without the byte order mark at their front.
fn without_mark(octets: &[u8]) -> &[u8]
    ensures { result.now ≡ strip_bom octets.now }
{
    match octets.strip_prefix(&BYTE_ORDER_MARK) {
        Some(rest) => rest,
        None => octets,
    }
}

// The line, counted from 1, on which a record of CSV begins that was looked for from a place on. Ends of lines may
// stand before it: one ends the record before, others make blank lines.
pub(crate) fn record_line(octets: &[u8], place: usize) -> usize {
    let body = without_mark(octets);
    let front = place.saturating_sub(octets.len().saturating_sub(body.len()));
    let blank = body
        .iter()
        .skip(front)
        .take_while(|octet| **octet == b'\r' || **octet == b'\n')
        .count();
    line_at(body, front.saturating_add(blank))
}

// The line, counted from 1, of the octet at a place.
pub(crate) fn line_at(octets: &[u8], place: usize) -> usize {
    octets
        .iter()
        .take(place)
        .filter(|octet| **octet == b'\n')
        .count()
        .saturating_add(1)
}

// Whether the first character of a text that is no blank is an opening brace.
pub(crate) fn is_json(text: &str) -> bool
    ensures { result ≡ is_json text.now }
{
    match after_blanks(text).as_bytes() {
        [b'{', ..] => true,
        _ => false,
    }
}

// A text from its first character on that is no blank.
fn after_blanks(text: &str) -> &str
    ensures { result.now ≡ drop (prefix_len is_ascii_whitespace text.now) text.now }
{
    text.trim_ascii_start()
}
