//! Lists as lines of a text: one entry a line, blank lines, and comments that begin with `#`. Patterns of IPv6 are
//! passed over.

ghost use Rattle.std.specs.Prelude.{◌≡◌, Err, IfErr, IfOk, MatchOption, Ok, false, map, true};
ghost use Rattle.std.specs.Str.Lines.{lines};
ghost use Rattle.rs_import_files.specs.declared.fault.Flaw.{Flaw};
ghost use Rattle.rs_import_files.specs.Faults.{Refuses};
ghost use Rattle.rs_import_files.specs.Lines.{AreEntries, IsTextOfPatterns, IsTextOfRanges, is_entry, is_ipv4_entry};
ghost use Rattle.rs_import_files.specs.Lines.{said_by};
ghost use Rattle.rs_import_files.specs.Texts.{IsAsEntry, IsPattern, StandsForNone};

use crate::cuts::is_ipv6;
use crate::fault::{Flaw, ListFault};
use crate::reasons::{need_pattern, need_range};
use rs_types::{AsRange, Pattern};
use std::alloc::{AllocError, Global};

// The patterns that the lines of a text are.
pub(crate) fn patterns(alloc: Global, text: &str) -> Result<Vec<Pattern>, ListFault>
    ensures found { IfOk result (λ patterns. IsTextOfPatterns text.now patterns.items) }
    ensures refused { IfErr result (Refuses IsTextOfPatterns text.now) }
{
    let lines = lines_of(alloc, text)?;
    patterns_of(alloc, lines.as_slice())
}

// The patterns that some lines are.
fn patterns_of(alloc: Global, lines: &[&str]) -> Result<Vec<Pattern>, ListFault>
    ensures found { IfOk result (λ patterns.
        AreEntries is_ipv4_entry IsPattern (map (λ line. line.now) lines.now) patterns.items) }
    ensures refused { IfErr result
        (Refuses (AreEntries is_ipv4_entry IsPattern) (map (λ line. line.now) lines.now)) }
{
    let mut patterns = Vec::new(alloc);
    for (index, line) in lines.iter().enumerate() {
        if let Some(pattern) = on_line(index, pattern_said(alloc, line))? {
            patterns.push(pattern)?;
        }
    }
    Ok(patterns)
}

// The pattern that a line says, or none if it says nothing or a prefix of IPv6.
fn pattern_said(alloc: Global, line: &str) -> Result<Option<Pattern>, Flaw>
    ensures found { IfOk result (λ found. MatchOption found (is_ipv4_entry line.now ≡ false)
        (λ pattern. (is_ipv4_entry line.now ≡ true) × IsPattern (said_by line.now) pattern)) }
    ensures none { IfErr result (λ _. (is_ipv4_entry line.now ≡ true) × StandsForNone IsPattern (said_by line.now)) }
{
    let said = said_by(line);
    if said.is_empty() || is_ipv6(said) {
        return Ok(None);
    }
    Ok(Some(need_pattern(alloc, said)?))
}

// The ranges that the lines of a text are.
pub(crate) fn ranges(alloc: Global, text: &str) -> Result<Vec<AsRange>, ListFault>
    ensures found { IfOk result (λ ranges. IsTextOfRanges text.now ranges.items) }
    ensures refused { IfErr result (Refuses IsTextOfRanges text.now) }
{
    let lines = lines_of(alloc, text)?;
    ranges_of(alloc, lines.as_slice())
}

// The ranges that some lines are.
fn ranges_of(alloc: Global, lines: &[&str]) -> Result<Vec<AsRange>, ListFault>
    ensures found { IfOk result (λ ranges.
        AreEntries is_entry IsAsEntry (map (λ line. line.now) lines.now) ranges.items) }
    ensures refused { IfErr result
        (Refuses (AreEntries is_entry IsAsEntry) (map (λ line. line.now) lines.now)) }
{
    let mut ranges = Vec::new(alloc);
    for (index, line) in lines.iter().enumerate() {
        if let Some(range) = on_line(index, range_said(alloc, line))? {
            ranges.push(range)?;
        }
    }
    Ok(ranges)
}

// The range that a line says, or none if it says nothing.
fn range_said(alloc: Global, line: &str) -> Result<Option<AsRange>, Flaw>
    ensures found { IfOk result (λ found. MatchOption found (is_entry line.now ≡ false)
        (λ range. (is_entry line.now ≡ true) × IsAsEntry (said_by line.now) range)) }
    ensures none { IfErr result (λ _. (is_entry line.now ≡ true) × StandsForNone IsAsEntry (said_by line.now)) }
{
    let said = said_by(line);
    if said.is_empty() {
        return Ok(None);
    }
    Ok(Some(need_range(alloc, said)?))
}

// What was read of the line at an index, or why it is wrong.
fn on_line<T: Drop>(index: usize, read: Result<T, Flaw>) -> Result<T, ListFault>
    ensures found { IfOk result (λ found. read ≡ Ok found) }
    ensures wrong { IfErr result (λ _. (flaw : Flaw) × (read ≡ Err flaw)) }
{
    match read {
        Ok(found) => Ok(found),
        Err(flaw) => Err(flaw.on_line(index.saturating_add(1))),
    }
}

// The lines of a text.
fn lines_of(alloc: Global, text: &str) -> Result<Vec<&str>, AllocError>
    ensures { IfOk result (λ found. map (λ line. line.now) found.items ≡ lines text.now) }
{
    text.lines().collect(alloc)
}

// What a line says: what stands before the first `#`, without the blanks around it.
fn said_by(line: &str) -> &str
    ensures { result.now ≡ said_by line.now }
{
    match line.split_once('#') {
        Some((front, _comment)) => front.trim_ascii(),
        None => line.trim_ascii(),
    }
}
