//! What the parts of a page have in common.

use crate::shown::Shown;
use rs_glass_shell::{add_shell_word, name_at};
use rs_mrt::Losses;
use rs_picture::{Grouped, add_text};
use rs_update::Errors;
use std::alloc::AllocError;

/// Begins a section under a heading, with a sentence that says what is shown.
pub(crate) fn open_section(text: &mut String, title: &str, about: &str) -> Result<(), AllocError> {
    text.push_str("<section>\n<h2>")?;
    text.push_str(title)?;
    text.push_str("</h2>\n<p>")?;
    text.push_str(about)?;
    text.push_str("</p>\n")
}

/// Ends a section with the command that lists what it shows, as a shell takes it: over the same configuration, time,
/// standard and losses, with these further words.
pub(crate) fn close_section(
    text: &mut String,
    shown: &Shown<'_>,
    command: &str,
    further: &[&str],
) -> Result<(), AllocError> {
    let tables = &shown.query.tables;
    let mut line = format!(in shown.alloc; "looking_glass {command} --config ")?;
    add_shell_word(shown.alloc, &mut line, &tables.config)?;
    if let Some(until) = tables.until {
        write!(line, " --until {until}")?;
    }
    if let Errors::Rfc7606 = tables.errors {
        line.push_str(" --errors rfc7606")?;
    }
    if tables.losses == Losses::Inferred {
        line.push_str(" --losses inferred")?;
    }
    for word in further {
        line.push(' ')?;
        add_shell_word(shown.alloc, &mut line, word)?;
    }
    text.push_str("<p class=\"command\"><code>")?;
    add_text(text, &line)?;
    text.push_str("</code></p>\n</section>\n")
}

/// Begins the table behind a picture, with these titles of its columns.
pub(crate) fn open_table(text: &mut String, titles: &[&str]) -> Result<(), AllocError> {
    text.push_str(
        "<details><summary>As a table</summary>\n<div class=\"wide\"><table>\n<thead><tr>",
    )?;
    for title in titles {
        text.push_str("<th scope=\"col\">")?;
        text.push_str(title)?;
        text.push_str("</th>")?;
    }
    text.push_str("</tr></thead>\n<tbody>\n")
}

/// Ends it.
pub(crate) fn close_table(text: &mut String) -> Result<(), AllocError> {
    text.push_str("</tbody></table></div></details>\n")
}

/// Begins a row under a name.
pub(crate) fn open_row(text: &mut String, name: &str) -> Result<(), AllocError> {
    text.push_str("<tr><th scope=\"row\">")?;
    add_text(text, name)?;
    text.push_str("</th>")
}

/// Adds a cell with a number.
pub(crate) fn add_number(text: &mut String, number: u64) -> Result<(), AllocError> {
    let number = Grouped(number);
    write!(text, "<td>{number}</td>")
}

/// Adds a cell with a text.
pub(crate) fn add_cell(text: &mut String, cell: &str) -> Result<(), AllocError> {
    text.push_str("<td>")?;
    add_text(text, cell)?;
    text.push_str("</td>")
}

/// Ends a row.
pub(crate) fn close_row(text: &mut String) -> Result<(), AllocError> {
    text.push_str("</tr>\n")
}

/// The name of a peer.
pub(crate) fn name_of<'a>(shown: &Shown<'a>, peer: usize) -> &'a str {
    name_at(&shown.setup.plan, peer)
}
