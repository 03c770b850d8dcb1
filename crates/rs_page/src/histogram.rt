//! How many changes came when.

ghost use Rattle.std.specs.Prelude.{◌<◌};

use crate::axis::{PARTS, add_ticks, axis_of};
use crate::changes::{COLUMNS, Changes};
use crate::elements::{add_number, close_section, close_table, open_section, open_table};
use crate::shown::Shown;
use rs_glass_shell::PrefixText;
use rs_host::Utc;
use rs_picture::{Grouped, add_rectangle, bar_length, close_picture, open_picture};
use std::alloc::{AllocError, Global};

const ABOUT: &str =
    "How many prefixes were announced, upwards, and withdrawn, downwards, in each of sixty equal parts of the recordings. Times are in UTC.";

// How high the longest column is, in pixels.
const HEIGHT: u32 = 70;

// How wide each is, in parts of the picture: a sixtieth less a gap.
const WIDTH: u32 = 14;

/// Adds the section.
pub(crate) fn add_histogram(
    text: &mut String,
    alloc: Global,
    shown: &Shown<'_>,
) -> Result<(), AllocError> {
    open_section(text, "When changes came", ABOUT)?;
    if shown.times.any {
        let changes = &shown.times.changes;
        let most = changes.most();
        let shown_most = Grouped(most);
        writeln!(
            text,
            "<p><span class=\"key kb\">&#9650; prefixes announced</span> <span class=\"key kr\">&#9660; prefixes withdrawn</span>: at most {shown_most} in a part</p>"
        )?;
        text.push_str("<div class=\"area\">\n")?;
        add_columns(text, changes, most)?;
        add_ticks(text, alloc, &axis_of(changes.first, changes.last))?;
        text.push_str("</div>\n")?;
        add_table(text, changes)?;
    } else {
        text.push_str("<p>No record of a peer was read again.</p>\n")?;
    }
    match shown.times.changes.example {
        Some(prefix) => {
            let prefix = PrefixText(prefix).to_string(alloc)?;
            close_section(text, shown, "history", &["--prefix", &prefix])
        }
        None => close_section(text, shown, "check", &[]),
    }
}

// Adds the picture.
fn add_columns(text: &mut String, changes: &Changes, most: u64) -> Result<(), AllocError> {
    open_picture(
        text,
        (PARTS, 2 * HEIGHT + 1),
        " preserveAspectRatio=\"none\"",
        "Changes over time",
        "A column for each of sixty parts of the recordings: announcements upwards, withdrawals downwards.",
    )?;
    for column in 0..COLUMNS {
        add_column(text, changes, column, most)?;
    }
    add_rectangle(text, "line", (0, HEIGHT), (PARTS, 1))?;
    text.push('\n')?;
    close_picture(text)
}

// Adds a column, if anything changed in its part.
fn add_column(
    text: &mut String,
    changes: &Changes,
    column: usize,
    most: u64,
) -> Result<(), AllocError>
    requires { column < 60 }
{
    let (announced, withdrawn) = (changes.announced[column], changes.withdrawn[column]);
    if announced == 0 && withdrawn == 0 {
        return Ok(());
    }
    let left = PARTS * column as u32 / COLUMNS as u32;
    let (up, down) = (
        bar_length(announced, most, HEIGHT),
        bar_length(withdrawn, most, HEIGHT),
    );
    let begin = Utc(changes.begin_of(column));
    let (announced, withdrawn) = (Grouped(announced), Grouped(withdrawn));
    write!(
        text,
        "<g><title>from {begin}: announced {announced}, withdrawn {withdrawn}</title>"
    )?;
    add_rectangle(text, "kb", (left, HEIGHT - up), (WIDTH, up))?;
    add_rectangle(text, "kr", (left, HEIGHT + 1), (WIDTH, down))?;
    text.push_str("</g>\n")
}

// Adds the table behind the picture.
fn add_table(text: &mut String, changes: &Changes) -> Result<(), AllocError> {
    open_table(text, &["from (UTC)", "announced", "withdrawn"])?;
    for column in 0..COLUMNS {
        let begin = Utc(changes.begin_of(column));
        write!(text, "<tr><th scope=\"row\">{begin}</th>")?;
        add_number(text, changes.announced[column])?;
        add_number(text, changes.withdrawn[column])?;
        text.push_str("</tr>\n")?;
    }
    close_table(text)
}
