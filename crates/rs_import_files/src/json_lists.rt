//! VRPs and lists as JSON: the `roas` of a VRP file, and the lists of an object.

ghost use Rattle.std.specs.Prelude.{◌≡◌, List, Err, IfErr, IfOk, IsSomeAnd, MatchOption, None, Ok, Some, codes};
ghost use Rattle.std.specs.Prelude.{false, if◌then◌else◌, map, true};
ghost use Rattle.json.specs.Find.{get};
ghost use Rattle.json.specs.Json.{document};
ghost use Rattle.json.specs.Value.{members_view, value_view};
ghost use Rattle.rs_types.specs.declared.vrp.Vrp.{Vrp};
ghost use Rattle.rs_import_files.specs.declared.fault.Flaw.{Flaw};
ghost use Rattle.rs_import_files.specs.Faults.{Refuses, is_of_file};
ghost use Rattle.rs_import_files.specs.JsonRows.{AreListsOf, ArePatternRows, AreRangeRows, AreVrpRows};
ghost use Rattle.rs_import_files.specs.JsonRows.{IsJsonOfPatterns, IsJsonOfRanges, IsJsonOfVrps, IsListOf};
ghost use Rattle.rs_import_files.specs.JsonRows.{IsPatternRow, IsRangeRow, IsVrpRow, counts, has_bound, text_at};
ghost use Rattle.rs_import_files.specs.Texts.{AreBounds, StandsForNone};

use crate::cuts::has_colon;
use crate::fault::{Flaw, ListFault};
use crate::json_values::{
    bound_or, has_bound, need_as_value, need_lawful_exact, need_length_value, need_member,
    need_text,
};
use crate::octets::line_at;
use crate::patterns::within;
use crate::reasons::{need_prefix, need_vrp};
use json::{Error, MAX_DEPTH, Reader, Scratch, Value};
use rs_types::{AsRange, Pattern, Prefix, Vrp};
use std::alloc::Global;

// The VRP of a row, or none if its prefix is of IPv6.
fn vrp_of(alloc: Global, row: &Value<'_>) -> Result<Option<Vrp>, Flaw>
    ensures found { IfOk result (λ found. MatchOption found (counts (value_view row.now) ≡ false)
        (λ vrp. (counts (value_view row.now) ≡ true) × IsVrpRow (value_view row.now) vrp)) }
    ensures none { IfErr result
        (λ _. (counts (value_view row.now) ≡ true) × StandsForNone IsVrpRow (value_view row.now)) }
{
    let text = need_text(alloc, row, "prefix")?;
    if has_colon(text) {
        return Ok(None);
    }
    Ok(Some(ipv4_vrp(alloc, row, text)?))
}

// The VRP of a row with a prefix of IPv4.
fn ipv4_vrp(alloc: Global, row: &Value<'_>, text: &str) -> Result<Vrp, Flaw>
    requires { text_at (codes "prefix") (value_view row.now) ≡ Some text.now }
    ensures found { IfOk result (IsVrpRow (value_view row.now)) }
    ensures none { IfErr result (λ _. StandsForNone IsVrpRow (value_view row.now)) }
{
    let number = need_member(alloc, row, "asn")?;
    let asn = need_as_value(alloc, number)?;
    let prefix = need_prefix(alloc, text)?;
    let maximum = need_member(alloc, row, "maxLength")?;
    let max_len = need_length_value(alloc, "maxLength", maximum)?;
    need_vrp(alloc, asn, prefix, max_len)
}

// The pattern of a row, or none if its prefix is of IPv6.
fn pattern_of(alloc: Global, row: &Value<'_>) -> Result<Option<Pattern>, Flaw>
    ensures found { IfOk result (λ found. MatchOption found (counts (value_view row.now) ≡ false)
        (λ pattern. (counts (value_view row.now) ≡ true) × IsPatternRow (value_view row.now) pattern)) }
    ensures none { IfErr result
        (λ _. (counts (value_view row.now) ≡ true) × StandsForNone IsPatternRow (value_view row.now)) }
{
    let text = need_text(alloc, row, "prefix")?;
    if has_colon(text) {
        return Ok(None);
    }
    Ok(Some(ipv4_pattern(alloc, row, text)?))
}

// The pattern of a row with a prefix of IPv4.
fn ipv4_pattern(alloc: Global, row: &Value<'_>, text: &str) -> Result<Pattern, Flaw>
    requires { text_at (codes "prefix") (value_view row.now) ≡ Some text.now }
    ensures found { IfOk result (IsPatternRow (value_view row.now)) }
    ensures none { IfErr result (λ _. StandsForNone IsPatternRow (value_view row.now)) }
{
    let prefix = need_prefix(alloc, text)?;
    let least = bound_or(alloc, row, "greater-equal", prefix.len())?;
    let most = bound_or(alloc, row, "less-equal", greatest(row, prefix))?;
    need_lawful_exact(alloc, row)?;
    need_within(alloc, prefix, least, most)
}

// The most length of a row that doesn't tell it.
fn greatest(row: &Value<'_>, prefix: Prefix) -> u8
    ensures { result ≡ (if has_bound (codes "greater-equal") (value_view row.now) then 32 else prefix.len) }
{
    if has_bound(row, "greater-equal") {
        32
    } else {
        prefix.len()
    }
}

// The pattern of a prefix and bounds, which must lie between the prefix's length and 32.
fn need_within(alloc: Global, prefix: Prefix, least: u8, most: u8) -> Result<Pattern, Flaw>
    ensures found { IfOk result (λ pattern. (pattern ≡ record { prefix = prefix; least = least; most = most })
        × AreBounds prefix.len least most) }
    ensures none { IfErr result (λ _. ¬ (AreBounds prefix.len least most)) }
{
    match within(prefix, (least, most)) {
        Some(pattern) => Ok(pattern),
        None => Err(Flaw::of(format!(in alloc;
            "the bounds {least} and {most} do not ascend from the prefix's length"
        ))),
    }
}

// The range of a row.
fn range_of(alloc: Global, row: &Value<'_>) -> Result<AsRange, Flaw>
    ensures found { IfOk result (IsRangeRow (value_view row.now)) }
    ensures none { IfErr result (λ _. StandsForNone IsRangeRow (value_view row.now)) }
{
    let asn = need_as_value(alloc, row)?;
    Ok(AsRange {
        first: asn,
        last: asn,
    })
}

// The VRPs of some rows.
fn vrps_of(alloc: Global, rows: &[Value<'_>]) -> Result<Vec<Vrp>, ListFault>
    ensures found { IfOk result (λ vrps. AreVrpRows (map value_view rows.now) vrps.items) }
    ensures refused { IfErr result (Refuses AreVrpRows (map value_view rows.now)) }
{
    let mut vrps = Vec::new(alloc);
    for (index, row) in rows.iter().enumerate() {
        if let Some(vrp) = in_row(0, index, vrp_of(alloc, row))? {
            vrps.push(vrp)?;
        }
    }
    Ok(vrps)
}

// The patterns of some rows, which stand behind others.
fn patterns_of(alloc: Global, rows: &[Value<'_>], before: usize) -> Result<Vec<Pattern>, ListFault>
    ensures found { IfOk result (λ patterns. ArePatternRows (map value_view rows.now) patterns.items) }
    ensures refused { IfErr result (Refuses ArePatternRows (map value_view rows.now)) }
{
    let mut patterns = Vec::new(alloc);
    for (index, row) in rows.iter().enumerate() {
        if let Some(pattern) = in_row(before, index, pattern_of(alloc, row))? {
            patterns.push(pattern)?;
        }
    }
    Ok(patterns)
}

// The ranges of some rows, which stand behind others.
fn ranges_of(alloc: Global, rows: &[Value<'_>], before: usize) -> Result<Vec<AsRange>, ListFault>
    ensures found { IfOk result (λ ranges. AreRangeRows (map value_view rows.now) ranges.items) }
    ensures refused { IfErr result (Refuses AreRangeRows (map value_view rows.now)) }
{
    let mut ranges = Vec::new(alloc);
    for (index, row) in rows.iter().enumerate() {
        ranges.push(in_row(before, index, range_of(alloc, row))?)?;
    }
    Ok(ranges)
}

// What was read of the row at an index, or why it is wrong. Other rows stand before.
fn in_row<T: Drop>(before: usize, index: usize, read: Result<T, Flaw>) -> Result<T, ListFault>
    ensures found { IfOk result (λ found. read ≡ Ok found) }
    ensures wrong { IfErr result (λ _. (flaw : Flaw) × (read ≡ Err flaw)) }
{
    match read {
        Ok(found) => Ok(found),
        Err(flaw) => Err(flaw.in_row(before.saturating_add(index).saturating_add(1))),
    }
}

// The patterns of all lists of an object.
fn all_patterns(alloc: Global, members: &[(&str, Value<'_>)]) -> Result<Vec<Pattern>, ListFault>
    ensures found { IfOk result (λ patterns. AreListsOf ArePatternRows (members_view members.now) patterns.items) }
    ensures refused { IfErr result (Refuses (AreListsOf ArePatternRows) (members_view members.now)) }
{
    let mut patterns = Vec::new(alloc);
    let mut before = 0usize;
    for member in members {
        let found = patterns_in(alloc, &member.1, before)?;
        patterns.extend_from_slice(found.as_slice())?;
        before = before.saturating_add(rows_in(&member.1));
    }
    Ok(patterns)
}

// The ranges of all lists of an object.
fn all_ranges(alloc: Global, members: &[(&str, Value<'_>)]) -> Result<Vec<AsRange>, ListFault>
    ensures found { IfOk result (λ ranges. AreListsOf AreRangeRows (members_view members.now) ranges.items) }
    ensures refused { IfErr result (Refuses (AreListsOf AreRangeRows) (members_view members.now)) }
{
    let mut ranges = Vec::new(alloc);
    let mut before = 0usize;
    for member in members {
        let found = ranges_in(alloc, &member.1, before)?;
        ranges.extend_from_slice(found.as_slice())?;
        before = before.saturating_add(rows_in(&member.1));
    }
    Ok(ranges)
}

// The patterns of a list, which a value must be.
fn patterns_in(alloc: Global, value: &Value<'_>, before: usize) -> Result<Vec<Pattern>, ListFault>
    ensures found { IfOk result (λ patterns. IsListOf ArePatternRows (value_view value.now) patterns.items) }
    ensures refused { IfErr result (Refuses (IsListOf ArePatternRows) (value_view value.now)) }
{
    match value {
        Value::Array(rows) => patterns_of(alloc, rows.as_slice(), before),
        _ => Err(no_list(alloc)),
    }
}

// The ranges of a list, which a value must be.
fn ranges_in(alloc: Global, value: &Value<'_>, before: usize) -> Result<Vec<AsRange>, ListFault>
    ensures found { IfOk result (λ ranges. IsListOf AreRangeRows (value_view value.now) ranges.items) }
    ensures refused { IfErr result (Refuses (IsListOf AreRangeRows) (value_view value.now)) }
{
    match value {
        Value::Array(rows) => ranges_of(alloc, rows.as_slice(), before),
        _ => Err(no_list(alloc)),
    }
}

// How many rows a value has.
fn rows_in(value: &Value<'_>) -> usize {
    match value {
        Value::Array(rows) => rows.len(),
        _ => 0,
    }
}

// The fault of a file in which a value is no list.
fn no_list(alloc: Global) -> ListFault {
    whole(alloc, "a member of the object is not a list")
}

// The fault of a file as a whole, for a reason.
fn whole(alloc: Global, reason: &str) -> ListFault {
    match String::from_str(alloc, reason) {
        Ok(reason) => ListFault::Whole(reason),
        Err(_) => ListFault::Memory,
    }
}

// The value that a text of JSON is.
fn file_of<'a>(
    alloc: Global,
    text: &'a str,
    scratch: &'a mut Scratch,
) -> Result<Value<'a>, ListFault>
    ensures found { IfOk result (λ file. document text.now ≡ Some (value_view file)) }
    ensures none { IfErr result (λ fault. is_of_file fault ≡ true → document text.now ≡ None) }
{
    let mut reader = Reader::new(text, scratch)?;
    match Value::read(alloc, &mut reader, MAX_DEPTH) {
        Ok(file) => match reader.next() {
            None => Ok(file),
            Some(_) => Err(not_json(alloc, text, reader.offset())),
        },
        Err(Error::Invalid) => Err(not_json(alloc, text, reader.offset())),
        Err(_) => Err(ListFault::Memory),
    }
}

// The fault of a text that isn't JSON from a place on.
fn not_json(alloc: Global, text: &str, place: usize) -> ListFault {
    Flaw::of(String::from_str(alloc, "the text is not JSON")).on_line(line_at(
        text.as_bytes(),
        place,
    ))
}

// The VRPs that a text of JSON gives.
pub(crate) fn json_vrps(alloc: Global, text: &str) -> Result<Vec<Vrp>, ListFault>
    ensures found { IfOk result (λ vrps. IsJsonOfVrps text.now vrps.items) }
    ensures refused { IfErr result (Refuses IsJsonOfVrps text.now) }
{
    let mut scratch = Scratch::new(alloc);
    let file = file_of(alloc, text, &mut scratch)?;
    roas_of(alloc, &file)
}

// The VRPs of a file.
fn roas_of(alloc: Global, file: &Value<'_>) -> Result<Vec<Vrp>, ListFault>
    ensures found { IfOk result (λ vrps.
        IsSomeAnd (get (codes "roas") (value_view file.now)) (λ roas. IsListOf AreVrpRows roas vrps.items)) }
    ensures refused { IfErr result (λ fault. is_of_file fault ≡ true → (vrps : List Vrp)
        → ¬ (IsSomeAnd (get (codes "roas") (value_view file.now)) (λ roas. IsListOf AreVrpRows roas vrps))) }
{
    match file.get("roas") {
        Some(roas) => vrps_in(alloc, roas),
        None => Err(whole(alloc, "roas is missing")),
    }
}

// The VRPs of a list, which a value must be.
fn vrps_in(alloc: Global, value: &Value<'_>) -> Result<Vec<Vrp>, ListFault>
    ensures found { IfOk result (λ vrps. IsListOf AreVrpRows (value_view value.now) vrps.items) }
    ensures refused { IfErr result (Refuses (IsListOf AreVrpRows) (value_view value.now)) }
{
    match value {
        Value::Array(rows) => vrps_of(alloc, rows.as_slice()),
        _ => Err(whole(alloc, "roas is not a list")),
    }
}

// The patterns that a text of JSON gives.
pub(crate) fn json_patterns(alloc: Global, text: &str) -> Result<Vec<Pattern>, ListFault>
    ensures found { IfOk result (λ patterns. IsJsonOfPatterns text.now patterns.items) }
    ensures refused { IfErr result (Refuses IsJsonOfPatterns text.now) }
{
    let mut scratch = Scratch::new(alloc);
    match file_of(alloc, text, &mut scratch)? {
        Value::Object(members) => all_patterns(alloc, members.as_slice()),
        _ => Err(whole(alloc, "the JSON is not an object")),
    }
}

// The ranges that a text of JSON gives.
pub(crate) fn json_ranges(alloc: Global, text: &str) -> Result<Vec<AsRange>, ListFault>
    ensures found { IfOk result (λ ranges. IsJsonOfRanges text.now ranges.items) }
    ensures refused { IfErr result (Refuses IsJsonOfRanges text.now) }
{
    let mut scratch = Scratch::new(alloc);
    match file_of(alloc, text, &mut scratch)? {
        Value::Object(members) => all_ranges(alloc, members.as_slice()),
        _ => Err(whole(alloc, "the JSON is not an object")),
    }
}
