//! The line with which a program ends if it fails, and how that is printed. All of it is our choice.

ghost use Rattle.std.specs.Prelude.{◌≡◌, IfOk, string_bytes};
ghost use Rattle.rs_host.specs.Line.{named, unread_line, unread_text};

use crate::escaped::on_one_line;
use crate::status::{DONE, FAILED, OUT_OF_MEMORY};
use rs_options::WordsFault;
use std::alloc::{AllocError, Global};
use std::process::ExitCode;

/// What a program says if memory was refused.
pub const MEMORY_TEXT: &str = "out of memory";

/// What a program says if standard output can't be written.
pub const OUTPUT_TEXT: &str = "cannot write standard output";

/// A line of a program, without a line break at its end: its name and a text.
pub fn program_line(alloc: Global, program: &str, text: &str) -> Result<String, AllocError>
    ensures { IfOk result (λ line. string_bytes line ≡ named program.now text.now) }
{
    format!(in alloc; "{program}: {text}")
}

/// The line in which a program names a file that it can't read, without a line break at its end. Control characters
/// in the path are escaped, as `on_one_line` shows them.
pub fn unread_line(alloc: Global, program: &str, path: &str) -> Result<String, AllocError>
    ensures { IfOk result (λ line. string_bytes line ≡ unread_line program.now path.now) }
{
    let text = unread_text(alloc, path)?;
    program_line(alloc, program, &text)
}

// What a program says of a file that it can't read.
fn unread_text(alloc: Global, path: &str) -> Result<String, AllocError>
    ensures { IfOk result (λ text. string_bytes text ≡ unread_text path.now) }
{
    let path = on_one_line(alloc, path)?;
    format!(in alloc; "cannot read {path}")
}

/// Ends a program that fails with a status: prints its line, or for what a command line is refused with the whole
/// text. Help goes to standard output, all else to standard error. Where memory for the line was refused, or help can't
/// be printed, the program says that instead, and ends with the status of it.
pub fn end_with<R: Print + Eprint>(
    rt: &R,
    program: &str,
    words: Option<&WordsFault>,
    line: Result<String, AllocError>,
    status: u8,
) -> ExitCode {
    let Ok(text) = line else {
        let _ = eprintln!(rt; "{program}: {MEMORY_TEXT}");
        return ExitCode::from(OUT_OF_MEMORY);
    };
    let printed = match words {
        Some(WordsFault::Help(_)) => print!(rt; "{text}"),
        Some(WordsFault::Refused(_)) => eprint!(rt; "{text}"),
        _ => eprintln!(rt; "{text}"),
    };
    match (status, printed) {
        // What was asked for can't be shown.
        (DONE, Err(_)) => {
            let _ = eprintln!(rt; "{program}: {OUTPUT_TEXT}");
            ExitCode::from(FAILED)
        }
        (status, _) => ExitCode::from(status),
    }
}
