//! The VRPs and the lists that the octets of a file say.

ghost use Rattle.std.specs.Prelude.{◌≡◌, ◌-◌, ◌^◌, ◌≤◌, IfErr, IfOk, false, length};
ghost use Rattle.csv.specs.Reading.{strip_bom};
ghost use Rattle.rs_import_files.specs.Csv.{IsCsvOfVrps};
ghost use Rattle.rs_import_files.specs.Faults.{Refuses, is_of_file};
ghost use Rattle.rs_import_files.specs.Files.{IsAsList, IsPrefixList, IsVrpFile, Says};
ghost use Rattle.rs_import_files.specs.JsonRows.{IsJsonOfPatterns, IsJsonOfRanges, IsJsonOfVrps};
ghost use Rattle.rs_import_files.specs.Lines.{IsTextOfPatterns, IsTextOfRanges};

use crate::csv_vrps::csv_vrps;
use crate::fault::ListFault;
use crate::json_lists::{json_patterns, json_ranges, json_vrps};
use crate::lines::{patterns, ranges};
use crate::octets::{is_json, text_of};
use rs_types::{AsRange, Pattern, Vrp};
use std::alloc::Global;

// The most entries that a table has room for.
const MOST_ENTRIES: usize = 4_294_967_295;

/// The VRPs of a VRP file: CSV or JSON, as rpki-client and Routinator write them. VRPs of IPv6 are passed over.
///
/// Fails with `Line`, `Row` or `Whole` if the file is wrong. A file that is right is refused by `Memory`, if memory is
/// refused, and by `TooMany` alone.
pub fn read_vrps(alloc: Global, octets: &[u8]) -> Result<Vec<Vrp>, ListFault>
    ensures said { IfOk result (λ vrps. IsVrpFile octets.now vrps.items) }
    ensures room { IfOk result (λ vrps. length vrps.items ≤ 2 ^ 32 - 1) }
    ensures refused { IfErr result (Refuses IsVrpFile octets.now) }
{
    let text = text_of(alloc, octets)?;
    let vrps = vrps_said(alloc, octets, text)?;
    counted(vrps)
}

// The VRPs that a text says, which some octets are but for a byte order mark.
fn vrps_said(alloc: Global, octets: &[u8], text: &str) -> Result<Vec<Vrp>, ListFault>
    requires { text.now ≡ strip_bom octets.now }
    ensures said { IfOk result (λ vrps. Says IsJsonOfVrps IsCsvOfVrps text.now vrps.items) }
    ensures refused { IfErr result (Refuses (Says IsJsonOfVrps IsCsvOfVrps) text.now) }
{
    if is_json(text) {
        json_vrps(alloc, text)
    } else {
        csv_vrps(alloc, octets)
    }
}

/// The patterns of a list of prefixes: JSON of `bgpq4 -j`, or a text with a pattern in each line. Prefixes of IPv6 are
/// passed over.
///
/// Fails as `read_vrps` does.
pub fn read_prefix_list(alloc: Global, octets: &[u8]) -> Result<Vec<Pattern>, ListFault>
    ensures said { IfOk result (λ patterns. IsPrefixList octets.now patterns.items) }
    ensures room { IfOk result (λ patterns. length patterns.items ≤ 2 ^ 32 - 1) }
    ensures refused { IfErr result (Refuses IsPrefixList octets.now) }
{
    let text = text_of(alloc, octets)?;
    let patterns = patterns_said(alloc, text)?;
    counted(patterns)
}

// The patterns that a text says.
fn patterns_said(alloc: Global, text: &str) -> Result<Vec<Pattern>, ListFault>
    ensures said { IfOk result (λ patterns. Says IsJsonOfPatterns IsTextOfPatterns text.now patterns.items) }
    ensures refused { IfErr result (Refuses (Says IsJsonOfPatterns IsTextOfPatterns) text.now) }
{
    if is_json(text) {
        json_patterns(alloc, text)
    } else {
        patterns(alloc, text)
    }
}

/// The ranges of a list of AS numbers: JSON of `bgpq4 -jt`, or a text with a number or a range in each line.
///
/// Fails as `read_vrps` does.
pub fn read_as_list(alloc: Global, octets: &[u8]) -> Result<Vec<AsRange>, ListFault>
    ensures said { IfOk result (λ ranges. IsAsList octets.now ranges.items) }
    ensures room { IfOk result (λ ranges. length ranges.items ≤ 2 ^ 32 - 1) }
    ensures refused { IfErr result (Refuses IsAsList octets.now) }
{
    let text = text_of(alloc, octets)?;
    let ranges = ranges_said(alloc, text)?;
    counted(ranges)
}

// The ranges that a text says.
fn ranges_said(alloc: Global, text: &str) -> Result<Vec<AsRange>, ListFault>
    ensures said { IfOk result (λ ranges. Says IsJsonOfRanges IsTextOfRanges text.now ranges.items) }
    ensures refused { IfErr result (Refuses (Says IsJsonOfRanges IsTextOfRanges) text.now) }
{
    if is_json(text) {
        json_ranges(alloc, text)
    } else {
        ranges(alloc, text)
    }
}

// Entries, if a table has room for them. No room for more of them is left over.
fn counted<T: Drop>(entries: Vec<T>) -> Result<Vec<T>, ListFault>
    ensures same { IfOk result (λ found. found.items ≡ entries.items) }
    ensures room { IfOk result (λ found. length found.items ≤ 2 ^ 32 - 1) }
    ensures many { IfErr result (λ fault. is_of_file fault ≡ false) }
{
    if entries.as_slice().len() > MOST_ENTRIES {
        return Err(ListFault::TooMany);
    }
    let mut entries = entries;
    entries.shrink_to_fit();
    Ok(entries)
}
