//! Texts in markup: what of them a reader could take for markup is written as an entity (XML 1.0, section 2.4), and a
//! character that no markup may have (section 2.2) as U+FFFD.

ghost use Rattle.std.specs.Prelude.{◌≡◌, ◌++◌, OnOk, string_bytes};
ghost use Rattle.rs_picture.specs.Markup.{escaped, is_barred as the_barred, shown};

use std::alloc::AllocError;

/// Adds a text, as it stands in an element or between the quotes of an attribute.
pub fn add_text(markup: &mut String, text: &str) -> Result<(), AllocError>
    ensures { OnOk result (string_bytes markup.new ≡ string_bytes markup.old ++ escaped text.now) }
{
    for character in text.chars() {
        push_shown(markup, character)?;
    }
    Ok(())
}

// Adds one character.
fn push_shown(markup: &mut String, character: char) -> Result<(), AllocError>
    ensures { OnOk result (string_bytes markup.new ≡ string_bytes markup.old ++ shown character) }
{
    match character {
        '<' => markup.push_str("&lt;"),
        '>' => markup.push_str("&gt;"),
        '&' => markup.push_str("&amp;"),
        '"' => markup.push_str("&quot;"),
        '\'' => markup.push_str("&#39;"),
        barred if is_barred(barred) => markup.push('\u{fffd}'),
        other => markup.push(other),
    }
}

// Whether no markup may have a character: a control character, or one of two that are none.
fn is_barred(character: char) -> bool
    ensures { result ≡ the_barred character }
{
    character.is_control() || character == '\u{fffe}' || character == '\u{ffff}'
}
