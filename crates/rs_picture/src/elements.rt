//! The parts of a picture, as elements of SVG 1.1.

use crate::markup::add_text;
use crate::time_axis::TimeAxis;
use std::alloc::AllocError;

/// Begins a picture of this size, with what it shows in few words and in a sentence. `attributes` are further ones of
/// its element, each with a space before it.
pub fn open_picture(
    text: &mut String,
    (width, height): (u32, u32),
    attributes: &str,
    title: &str,
    about: &str,
) -> Result<(), AllocError> {
    write!(
        text,
        "<svg xmlns=\"http://www.w3.org/2000/svg\" viewBox=\"0 0 {width} {height}\" width=\"{width}\" height=\"{height}\""
    )?;
    text.push_str(attributes)?;
    text.push_str(" role=\"img\">\n<title>")?;
    add_text(text, title)?;
    text.push_str("</title>\n<desc>")?;
    text.push_str(about)?;
    text.push_str("</desc>\n")
}

/// Ends a picture.
pub fn close_picture(text: &mut String) -> Result<(), AllocError> {
    text.push_str("</svg>\n")
}

/// Adds a rectangle.
pub fn add_rectangle(
    text: &mut String,
    class: &str,
    (x, y): (u32, u32),
    (width, height): (u32, u32),
) -> Result<(), AllocError> {
    text.push_str("<rect class=\"")?;
    text.push_str(class)?;
    write!(
        text,
        "\" x=\"{x}\" y=\"{y}\" width=\"{width}\" height=\"{height}\"/>"
    )
}

/// Adds the bar of the time between two others, from `y` on and so high.
pub fn add_stretch(
    text: &mut String,
    class: &str,
    axis: &TimeAxis,
    (from, to): (u32, u32),
    (y, height): (u32, u32),
) -> Result<(), AllocError> {
    let stretch = axis.stretch(from, to);
    add_rectangle(text, class, (stretch.begin, y), (stretch.length, height))
}

/// Adds a mark at a time, from `y` on and of this size. At the end of the axis it lies before the time.
pub fn add_mark(
    text: &mut String,
    class: &str,
    axis: &TimeAxis,
    time: u32,
    y: u32,
    (width, height): (u32, u32),
) -> Result<(), AllocError> {
    let x = axis.place(time).min(axis.width.saturating_sub(width));
    add_rectangle(text, class, (x, y), (width, height))
}
