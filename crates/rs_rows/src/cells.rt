//! Lines of columns.

use std::alloc::AllocError;

/// Adds a cell, filled up with spaces to a width; one space at least stands behind it.
pub fn add_cell(line: &mut String, cell: &str, width: usize) -> Result<(), AllocError> {
    line.push_str(cell)?;
    add_spaces(line, cell.len(), width)
}

/// Fills up a cell that begins at this place of a text, in the same way.
pub fn fill_cell(text: &mut String, start: usize, width: usize) -> Result<(), AllocError> {
    let len = text.len().saturating_sub(start);
    add_spaces(text, len, width)
}

// Adds a cell with as many spaces before it as fill it up to a width, and two behind it.
pub(crate) fn add_right(line: &mut String, cell: &str, width: usize) -> Result<(), AllocError> {
    if cell.len() < width {
        add_spaces(line, cell.len(), width)?;
    }
    line.push_str(cell)?;
    line.push_str("  ")
}

// Spaces, as many as fill up most cells.
const SPACES: &str = "                                ";

// Adds the spaces behind a cell that is so long.
fn add_spaces(text: &mut String, len: usize, width: usize) -> Result<(), AllocError> {
    let count = width.saturating_sub(len).max(1);
    if let Some(spaces) = SPACES.get(..count) {
        return text.push_str(spaces);
    }
    for _ in 0..count {
        text.push(' ')?;
    }
    Ok(())
}

// How many columns a line has at most, where it can be broken between words.
const LINE_WIDTH: usize = 80;

// How far the lines behind the first one are indented at most.
const MOST_INDENT: usize = 48;

/// Adds words to the line that begins at this place of a text. If they pass the width of a line, it is broken
/// between two words; what follows is indented to where the words begin.
pub fn add_words(text: &mut String, start: usize, words: &str) -> Result<(), AllocError> {
    let indent = text.len().saturating_sub(start).min(MOST_INDENT);
    add_indented_words(text, start, words, indent)
}

// The same, with what follows the break indented so far.
fn add_indented_words(
    text: &mut String,
    start: usize,
    words: &str,
    indent: usize,
) -> Result<(), AllocError> {
    let mut column = text.len().saturating_sub(start);
    for (place, word) in words.split(' ').enumerate() {
        let behind = column.saturating_add(word.len());
        if place == 0 {
            column = behind;
        } else if behind < LINE_WIDTH {
            text.push(' ')?;
            column = behind.saturating_add(1);
        } else {
            text.push('\n')?;
            add_cell(text, "", indent)?;
            column = indent.saturating_add(word.len());
        }
        text.push_str(word)?;
    }
    Ok(())
}

/// Adds a line of words; if it passes the width of a line, what follows is indented by two columns.
pub fn add_sentence(text: &mut String, words: &str) -> Result<(), AllocError> {
    let start = text.len();
    add_indented_words(text, start, words, 2)?;
    text.push('\n')
}
