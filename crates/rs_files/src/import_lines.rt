//! What is said of import policy before a run: how much of it was read.

use crate::found::{Found, add_line};
use rs_choice::Exchange;
use rs_import::{ImportRules, PeerImport};
use rs_notes::BEFORE_IMPORT;
use std::alloc::AllocError;

/// Adds a line for the rules that hold for all peers, and one for each peer with a list or of which nothing is asked. If
/// no import policy is configured, one line says what that means for answers.
pub(crate) fn add_import(text: &mut String, plan: &Exchange) -> Result<(), AllocError> {
    let import = plan.import();
    if !import.is_configured() {
        return writeln!(text, "{BEFORE_IMPORT}");
    }
    add_rules(text, import.rules())?;
    for number in 0..plan.count() {
        if let Some(found) = import.peer(number).and_then(found_of) {
            add_line(text, &plan.peer(number).name, found)?;
        }
    }
    Ok(())
}

// Adds the line of the rules that hold for all peers.
fn add_rules(text: &mut String, rules: &ImportRules) -> Result<(), AllocError> {
    let (patterns, ranges) = (rules.refuse_prefixes.len(), rules.refuse_as.len());
    write!(
        text,
        "import policy: refused patterns {patterns}, refused AS ranges {ranges}"
    )?;
    if let Some(vrps) = &rules.vrps {
        let vrps = vrps.len();
        write!(text, ", VRPs {vrps}")?;
    }
    writeln!(text)
}

// What is found of a peer that has a list, or of which nothing is asked.
fn found_of(lists: &PeerImport) -> Option<Found<'static>> {
    if !lists.is_asked() {
        return Some(Found::Unasked);
    }
    match (lists.prefix_list(), lists.as_list()) {
        (None, None) => None,
        (Some(prefixes), None) => Some(Found::PrefixList(prefixes.len())),
        (None, Some(numbers)) => Some(Found::AsList(numbers.len())),
        (Some(prefixes), Some(numbers)) => Some(Found::Lists(prefixes.len(), numbers.len())),
    }
}
