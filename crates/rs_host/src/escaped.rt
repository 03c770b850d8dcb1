//! Texts whose control characters are escaped, so that each stays on one line and no terminal obeys it. Nothing here is
//! of a standard: all of it is our choice.

ghost use Rattle.std.specs.Prelude.{◌≡◌, ◌++◌, ◌<◌, IfOk, OnOk, map, string_bytes};
ghost use Rattle.rs_host.specs.Line.{escaped, hex_digit, one_line, shown};

use std::alloc::{AllocError, Global};

/// The text with its line breaks shown as `\n` and `\r` and its other control characters as `\u{1b}`, so that it
/// stays on one line.
pub fn on_one_line(alloc: Global, text: &str) -> Result<String, AllocError>
    ensures { IfOk result (λ line. string_bytes line ≡ one_line text.now) }
{
    let mut line = String::new(alloc);
    for character in text.chars() {
        push_shown(&mut line, character)?;
    }
    Ok(line)
}

/// Each of some texts as `on_one_line` shows it, in their order.
pub fn each_on_one_line(alloc: Global, texts: &[String]) -> Result<Vec<String>, AllocError>
    ensures { IfOk result (λ lines.
        map string_bytes lines.items ≡ map (λ text. one_line (string_bytes text)) texts.now) }
{
    let mut lines = Vec::with_capacity(alloc, texts.len())?;
    for text in texts {
        lines.push(on_one_line(alloc, text)?)?;
    }
    Ok(lines)
}

// Appends one character, a line break as two, and another control character by its number.
fn push_shown(line: &mut String, character: char) -> Result<(), AllocError>
    ensures { OnOk result (string_bytes line.new ≡ string_bytes line.old ++ shown character) }
{
    match character {
        '\n' => line.push_str("\\n"),
        '\r' => line.push_str("\\r"),
        control if control.is_control() => push_escaped(line, control),
        character => line.push(character),
    }
}

// Appends a control character by its two hexadecimal digits.
fn push_escaped(line: &mut String, control: char) -> Result<(), AllocError>
    ensures { OnOk result (string_bytes line.new ≡ string_bytes line.old ++ escaped control) }
{
    let number = control as u32;
    let (high, low) = (hex_digit(number / 16 % 16), hex_digit(number % 16));
    write!(line, "\\u{{{high}{low}}}")
}

// The hexadecimal digit of a number.
fn hex_digit(value: u32) -> char
    requires { value < 16 }
    ensures { result ≡ hex_digit value }
{
    if value < 10 {
        (b'0' + value as u8) as char
    } else {
        (b'a' - 10 + value as u8) as char
    }
}
