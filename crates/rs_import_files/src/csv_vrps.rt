//! VRPs as records of CSV: titles, and then an AS number, a prefix and a maximum length in each record.

ghost use Rattle.std.specs.Prelude.{◌≡◌, ℕ, List, [], ◌∷◌, IfErr, IfOk, MatchOption, None, Some, true, false};
ghost use Rattle.csv.specs.Reading.{strip_bom};
ghost use Rattle.csv.specs.Records.{field_at, fields_of};
ghost use Rattle.rs_import_files.specs.Csv.{AreRecordsOf, AreTitles, AreVrpsBelow, IsCsvOfVrps, IsVrpRecord};
ghost use Rattle.rs_import_files.specs.Csv.{is_counted};
ghost use Rattle.rs_import_files.specs.Faults.{Refuses, is_of_file};
ghost use Rattle.rs_import_files.specs.Rows.{Goes, HasRead, is_utf8_fault};
ghost use Rattle.rs_import_files.specs.Texts.{StandsForNone};

use crate::cuts::has_colon;
use crate::fault::{Flaw, ListFault};
use crate::octets::{not_utf8, record_line};
use crate::reasons::{need_length, need_number, need_prefix, need_vrp};
use csv::{ErrorKind, Position, Reader, ReaderBuilder, StringRecord};
use rs_types::Vrp;
use std::alloc::Global;

// The VRPs that octets of CSV give.
pub(crate) fn csv_vrps(alloc: Global, octets: &[u8]) -> Result<Vec<Vrp>, ListFault>
    ensures found { IfOk result (λ vrps. IsCsvOfVrps (strip_bom octets.now) vrps.items) }
    ensures refused { IfErr result (Refuses IsCsvOfVrps (strip_bom octets.now)) }
{
    let mut reader = reader_of(alloc, octets);
    let mut row = StringRecord::new(alloc);
    vrps_of(alloc, octets, &mut reader, &mut row)
}

// The VRPs of a reader at the front of a file's octets.
fn vrps_of(
    alloc: Global,
    octets: &[u8],
    reader: &mut Reader<&[u8]>,
    row: &mut StringRecord,
) -> Result<Vec<Vrp>, ListFault>
    ensures found { IfOk result (λ vrps. (text : List ℕ) → HasRead text [] reader.old → IsCsvOfVrps text vrps.items) }
    ensures refused { IfErr result (λ fault. (text : List ℕ) → HasRead text [] reader.old
        → Refuses IsCsvOfVrps text fault) }
{
    if !next_row(alloc, octets, reader, row)? {
        return Ok(Vec::new(alloc));
    }
    need_titles(alloc, octets, row)?;
    vrps_below(alloc, octets, reader, row)
}

// The VRPs that are left behind the titles.
fn vrps_below(
    alloc: Global,
    octets: &[u8],
    reader: &mut Reader<&[u8]>,
    row: &mut StringRecord,
) -> Result<Vec<Vrp>, ListFault>
    ensures found { IfOk result (λ vrps. (text : List ℕ) (titles : List (List ℕ))
        → HasRead text (titles ∷ []) reader.old → AreVrpsBelow titles text vrps.items) }
    ensures refused { IfErr result (λ fault. (text : List ℕ) (titles : List (List ℕ))
        → HasRead text (titles ∷ []) reader.old → Refuses (AreVrpsBelow titles) text fault) }
{
    let mut vrps = Vec::new(alloc);
    for _turn in 0..u32::MAX {
        if !next_row(alloc, octets, reader, row)? {
            return Ok(vrps);
        }
        if let Some(vrp) = vrp_on_line(alloc, octets, row)? {
            vrps.push(vrp)?;
        }
    }
    Err(ListFault::TooMany)
}

// The reader of some octets. Records may be of any length.
fn reader_of(alloc: Global, octets: &[u8]) -> Reader<&[u8]>
    ensures { HasRead (strip_bom octets.now) [] result }
{
    ReaderBuilder::new()
        .has_headers(false)
        .flexible(true)
        .from_reader(alloc, octets)
}

// Reads the next row, or answers that there is none left.
fn next_row(
    alloc: Global,
    octets: &[u8],
    reader: &mut Reader<&[u8]>,
    row: &mut StringRecord,
) -> Result<bool, ListFault>
    ensures found { IfOk result (λ found. (text : List ℕ) (records : List (List (List ℕ)))
        → HasRead text records reader.old → Goes text records (fields_of row.new) reader.new found) }
    ensures refused { IfErr result (λ fault. (text : List ℕ) (records : List (List (List ℕ)))
        → HasRead text records reader.old → Refuses AreRecordsOf text fault) }
{
    match reader.read_record(row) {
        Ok(found) => Ok(found),
        Err(error) => Err(not_text(alloc, octets, error.kind())),
    }
}

// The fault of a record that isn't read.
fn not_text(alloc: Global, octets: &[u8], kind: &ErrorKind) -> ListFault
    ensures { is_of_file result ≡ true → is_utf8_fault kind.now ≡ true }
{
    match kind {
        ErrorKind::Utf8 { pos, .. } => not_utf8(alloc, line_of(octets, *pos)),
        _ => ListFault::Memory,
    }
}

// Tests that the first title is ASN.
fn need_titles(alloc: Global, octets: &[u8], row: &StringRecord) -> Result<(), ListFault>
    ensures found { IfOk result (λ _. AreTitles (fields_of row.now)) }
    ensures none { IfErr result (λ _. ¬ (AreTitles (fields_of row.now))) }
{
    match row.get(0) {
        Some("ASN") => Ok(()),
        _ => Err(Flaw::of(String::from_str(alloc, "the first title is not ASN")).on_line(line_of(
            octets,
            row.position(),
        ))),
    }
}

// The VRP of a record, or none if its prefix is of IPv6.
fn vrp_on_line(alloc: Global, octets: &[u8], row: &StringRecord) -> Result<Option<Vrp>, ListFault>
    ensures found { IfOk result (λ found. MatchOption found (is_counted (fields_of row.now) ≡ false)
        (λ vrp. (is_counted (fields_of row.now) ≡ true) × IsVrpRecord (fields_of row.now) vrp)) }
    ensures none { IfErr result
        (λ _. (is_counted (fields_of row.now) ≡ true) × StandsForNone IsVrpRecord (fields_of row.now)) }
{
    match vrp_of(alloc, row) {
        Ok(found) => Ok(found),
        Err(flaw) => Err(flaw.on_line(line_of(octets, row.position()))),
    }
}

// The line of some octets, counted from 1, on which the record of a position begins.
fn line_of(octets: &[u8], position: Option<Position>) -> usize {
    match position {
        Some(position) => record_line(octets, position.byte() as usize),
        None => 1,
    }
}

// The VRP of a record, or none if its prefix is of IPv6.
fn vrp_of(alloc: Global, row: &StringRecord) -> Result<Option<Vrp>, Flaw>
    ensures found { IfOk result (λ found. MatchOption found (is_counted (fields_of row.now) ≡ false)
        (λ vrp. (is_counted (fields_of row.now) ≡ true) × IsVrpRecord (fields_of row.now) vrp)) }
    ensures none { IfErr result
        (λ _. (is_counted (fields_of row.now) ≡ true) × StandsForNone IsVrpRecord (fields_of row.now)) }
{
    let prefix = need_field(alloc, row, 1)?;
    if has_colon(prefix) {
        return Ok(None);
    }
    Ok(Some(ipv4_vrp(alloc, row, prefix)?))
}

// The VRP of a record with a prefix of IPv4.
fn ipv4_vrp(alloc: Global, row: &StringRecord, prefix: &str) -> Result<Vrp, Flaw>
    requires { field_at (fields_of row.now) 1 ≡ Some prefix.now }
    ensures found { IfOk result (IsVrpRecord (fields_of row.now)) }
    ensures none { IfErr result (λ _. StandsForNone IsVrpRecord (fields_of row.now)) }
{
    let number = need_field(alloc, row, 0)?;
    let asn = need_number(alloc, number)?;
    let ipv4 = need_prefix(alloc, prefix)?;
    let maximum = need_field(alloc, row, 2)?;
    let max_len = need_length(alloc, maximum)?;
    need_vrp(alloc, asn, ipv4, max_len)
}

// The field at a place, which must be there.
fn need_field<'a>(alloc: Global, row: &'a StringRecord, place: usize) -> Result<&'a str, Flaw>
    ensures found { IfOk result (λ field. field_at (fields_of row.now) place ≡ Some field.now) }
    ensures none { IfErr result (λ _. field_at (fields_of row.now) place ≡ None) }
{
    match row.get(place) {
        Some(field) => Ok(field),
        None => Err(Flaw::of(String::from_str(alloc, "there are fewer than three fields"))),
    }
}
