//! Why a configuration would be refused: the line of a run, and what helps to find the place.

use crate::plan_words::add_plan_fault;
use rs_host::{on_one_line, setup_line};
use rs_setup::SetupFault;
use std::alloc::{AllocError, Global};

/// The line that says why the configuration at a path, which is these octets, would be refused. If it isn't TOML,
/// the line has line and column. If its plan has a fault, the line has the fault in words.
pub(crate) fn refusal_text(
    alloc: Global,
    path: &str,
    octets: &[u8],
    fault: &SetupFault,
) -> Result<String, AllocError> {
    let path = on_one_line(alloc, path)?;
    let mut text = setup_line(alloc, &path, fault)?;
    match fault {
        SetupFault::NotToml => add_place(alloc, &mut text, octets)?,
        SetupFault::Plan(fault) => add_plan_fault(alloc, &mut text, octets, *fault)?,
        _ => {}
    }
    text.push('\n')?;
    Ok(text)
}

// Adds where and why the text of a configuration isn't TOML.
fn add_place(alloc: Global, text: &mut String, octets: &[u8]) -> Result<(), AllocError> {
    let Err(error) = toml::table_from_slice(alloc, octets) else {
        return Ok(());
    };
    let Some(span) = error.span() else {
        return Err(AllocError);
    };
    let (line, column) = place_behind(&octets[..span.start.min(octets.len())]);
    let why = on_one_line(alloc, error.message())?;
    write!(text, ": line {line}, column {column}: {why}")
}

// The line and the column, from 1, of the place behind these octets. A column counts characters of UTF-8.
fn place_behind(octets: &[u8]) -> (usize, usize) {
    let (mut line, mut column) = (1_usize, 1_usize);
    for octet in octets {
        if *octet == b'\n' {
            line = line.saturating_add(1);
            column = 1;
        } else if *octet < 0x80 || *octet >= 0xc0 {
            column = column.saturating_add(1);
        }
    }
    (line, column)
}
