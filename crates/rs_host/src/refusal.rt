//! The lines that say why a command line or a configuration is refused.

ghost use Rattle.std.specs.Prelude.{◌≡◌, IfOk, string_bytes};
ghost use Rattle.rs_host.specs.Refusal.{fault_text, key_text, list_text, plan_text, setup_line, setup_text, words_text};

use crate::escaped::on_one_line;
use crate::line::{MEMORY_TEXT, program_line};
use rs_choice::PlanFault;
use rs_import_files::ListFault;
use rs_options::WordsFault;
use rs_setup::SetupFault;
use std::alloc::{AllocError, Global};

/// What a program prints if its command line asks for nothing that can be done: the whole text of help and of a
/// refusal, and the line, without a line break at its end, of want of memory.
pub fn words_text(alloc: Global, program: &str, fault: &WordsFault) -> Result<String, AllocError>
    ensures { IfOk result (λ text. string_bytes text ≡ words_text program.now fault.now) }
{
    match fault {
        WordsFault::Help(text) => String::from_str(alloc, text),
        WordsFault::Refused(text) => String::from_str(alloc, text),
        WordsFault::Memory => program_line(alloc, program, MEMORY_TEXT),
    }
}

/// The line in which a program says why it refuses a configuration, without a line break at its end. It begins with
/// the program's name; control characters in a key are escaped, as `on_one_line` shows them.
pub fn setup_line(alloc: Global, program: &str, fault: &SetupFault) -> Result<String, AllocError>
    ensures { IfOk result (λ line. string_bytes line ≡ setup_line program.now fault.now) }
{
    let text = setup_text(alloc, fault)?;
    program_line(alloc, program, &text)
}

// Why the configuration is refused.
fn setup_text(alloc: Global, fault: &SetupFault) -> Result<String, AllocError>
    ensures { IfOk result (λ text. string_bytes text ≡ setup_text fault.now) }
{
    match fault {
        SetupFault::NotToml => String::from_str(alloc, "configuration is not TOML"),
        SetupFault::Unknown(key) => key_text(alloc, key, "unknown"),
        SetupFault::Missing(key) => key_text(alloc, key, "missing"),
        SetupFault::NotValid(key) => key_text(alloc, key, "not valid"),
        SetupFault::Plan(fault) => plan_text(alloc, *fault),
        SetupFault::List(path, fault) => list_text(alloc, path, fault),
        SetupFault::Memory => String::from_str(alloc, MEMORY_TEXT),
    }
}

// What is wrong with a key of the configuration.
fn key_text(alloc: Global, key: &str, what: &str) -> Result<String, AllocError>
    ensures { IfOk result (λ text. string_bytes text ≡ key_text key.now what.now) }
{
    let key = on_one_line(alloc, key)?;
    format!(in alloc; "configuration: {key} is {what}")
}

// The fault of a plan.
fn plan_text(alloc: Global, fault: PlanFault) -> Result<String, AllocError>
    ensures { IfOk result (λ text. string_bytes text ≡ plan_text fault) }
{
    if let PlanFault::Memory = fault {
        return String::from_str(alloc, MEMORY_TEXT);
    }
    let number = fault.number();
    match fault.peer() {
        None => format!(in alloc; "plan fault P{number}"),
        Some(peer) => format!(in alloc; "plan fault P{number} at peer {peer}"),
    }
}

// What is wrong with the list at a path.
fn list_text(alloc: Global, path: &str, fault: &ListFault) -> Result<String, AllocError>
    ensures { IfOk result (λ text. string_bytes text ≡ list_text path.now fault.now) }
{
    let fault = fault_text(alloc, fault)?;
    let text = format!(in alloc; "{path}: {fault}")?;
    on_one_line(alloc, &text)
}

// Where a list is wrong, and why.
fn fault_text(alloc: Global, fault: &ListFault) -> Result<String, AllocError>
    ensures { IfOk result (λ text. string_bytes text ≡ fault_text fault.now) }
{
    match fault {
        ListFault::Line(number, reason) => format!(in alloc; "line {number}: {reason}"),
        ListFault::Row(number, reason) => format!(in alloc; "row {number}: {reason}"),
        ListFault::Whole(reason) => String::from_str(alloc, reason),
        ListFault::TooMany => String::from_str(alloc, "there are more than 4294967295 entries"),
        ListFault::Memory => String::from_str(alloc, MEMORY_TEXT),
    }
}
