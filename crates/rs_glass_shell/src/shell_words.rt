//! Words of a shell's command.
//!
//! Our choice: a word of letters, digits and plain marks stands as it is, any other one in single quotes (POSIX.1-2017,
//! Shell Command Language, section 2.2.2).

use rs_host::on_one_line;
use std::alloc::{AllocError, Global};

// The marks that stand in a word of a shell as they are, beside letters and digits.
const PLAIN: &str = "._-/+:,@%";

/// Adds a text to a command as one word, as a shell reads it. Control characters in it are shown as `on_one_line`
/// shows them.
pub fn add_shell_word(alloc: Global, command: &mut String, text: &str) -> Result<(), AllocError> {
    let text = on_one_line(alloc, text)?;
    if is_plain(&text) {
        return command.push_str(&text);
    }
    command.push('\'')?;
    for character in text.chars() {
        match character {
            '\'' => command.push_str("'\\''")?,
            character => command.push(character)?,
        }
    }
    command.push('\'')
}

// Whether a text is a word of a shell as it stands.
fn is_plain(text: &str) -> bool {
    for character in text.chars() {
        if !character.is_ascii_alphanumeric() && !PLAIN.contains(character) {
            return false;
        }
    }
    true
}
