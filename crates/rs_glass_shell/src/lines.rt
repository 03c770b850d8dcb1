//! The line that says why a question isn't answered.

ghost use Rattle.std.specs.Prelude.{◌≡◌, IfOk, string_bytes};
ghost use Rattle.rs_glass_shell.specs.Lines.{line_of};

use crate::unanswered::Unanswered;
use rs_host::{
    MEMORY_TEXT, OUTPUT_TEXT, on_one_line, program_line, setup_line, unread_line, words_text,
};
use std::alloc::{AllocError, Global};

/// The program's name, as its lines begin.
pub const PROGRAM: &str = "looking_glass";

/// The line that says why a question isn't answered, without a line break at its end. For help and a refused command
/// line it is the whole text. If a reader closed its pipe, it is empty. Control characters in a key, a name or a
/// path are escaped, so that the text stays one line.
pub fn line(alloc: Global, unanswered: &Unanswered) -> Result<String, AllocError>
    ensures { IfOk result (λ line. string_bytes line ≡ line_of unanswered.now) }
{
    match unanswered {
        Unanswered::Words(fault) => words_text(alloc, PROGRAM, fault),
        Unanswered::Setup(fault) => setup_line(alloc, PROGRAM, fault),
        Unanswered::NoPeer(name) => {
            let name = on_one_line(alloc, name)?;
            format!(in alloc; "looking_glass: no peer is named {name}")
        }
        Unanswered::SeveralPeers(whose) => {
            let whose = on_one_line(alloc, whose)?;
            format!(in alloc; "looking_glass: AS number {whose}")
        }
        Unanswered::Unread(path) => unread_line(alloc, PROGRAM, path),
        Unanswered::AtFault(what) => {
            let what = on_one_line(alloc, what)?;
            program_line(alloc, PROGRAM, &what)
        }
        Unanswered::Unwritten(path) => {
            let path = on_one_line(alloc, path)?;
            format!(in alloc; "looking_glass: cannot write {path}")
        }
        Unanswered::Unsettled(name) => {
            let name = on_one_line(alloc, name)?;
            format!(in alloc; "looking_glass: peer {name} unsettled")
        }
        Unanswered::Closed => Ok(String::new(alloc)),
        Unanswered::Output => program_line(alloc, PROGRAM, OUTPUT_TEXT),
        Unanswered::Memory => program_line(alloc, PROGRAM, MEMORY_TEXT),
    }
}
