//! What RFC 7606 does for what it finds in the path attributes of an UPDATE (sections 2, 3 and 7).
//!
//! Our choice: a fault of the Optional or the Transitive bit, of a length or of a value is treated as
//! withdrawal if nothing is announced, too.

ghost use Rattle.std.specs.Prelude.{◌≡◌};
ghost use Rattle.rs_update.specs.Handling.{handling_again, handling_of_fault, handling_of_own, is_kept, stronger};

use rs_types::{AttributeType, Handling, UpdateFault};

/// The stronger of two; of two resets the one that was found first.
pub(crate) fn stronger(one: Handling, later: Handling) -> Handling
    ensures { result ≡ stronger one later }
{
    match one {
        Handling::Keep => later,
        Handling::AttributeDiscard => match later {
            Handling::Keep => one,
            _ => later,
        },
        Handling::TreatAsWithdraw => match later {
            Handling::SessionReset(_) => later,
            _ => one,
        },
        Handling::SessionReset(_) => one,
    }
}

/// Whether nothing is at fault.
pub(crate) fn is_keep(handling: Handling) -> bool
    ensures { result ≡ is_kept handling }
{
    matches!(handling, Handling::Keep)
}

/// How an attribute of this type is handled if the type stood earlier (RFC 7606, section 3, g).
pub(crate) fn handling_again(kind: AttributeType) -> Handling
    ensures { result ≡ handling_again kind }
{
    kind.row().again
}

// How the fault of an attribute of this type is handled (RFC 7606, sections 3 and 7).
fn handling_of_fault(kind: AttributeType, fault: UpdateFault) -> Handling
    ensures { result ≡ handling_of_fault kind fault }
{
    match fault {
        UpdateFault::UnrecognizedWellKnown => Handling::SessionReset(fault),
        UpdateFault::AttributeLength => kind.row().at_length,
        _ => Handling::TreatAsWithdraw,
    }
}

/// How an attribute of this type is handled that has this fault, or none.
pub(crate) fn handling_of(kind: AttributeType, fault: Option<UpdateFault>) -> Handling
    ensures { result ≡ handling_of_own kind fault }
{
    match fault {
        None => Handling::Keep,
        Some(fault) => handling_of_fault(kind, fault),
    }
}
