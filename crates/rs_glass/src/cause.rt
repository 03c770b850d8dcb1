//! Why a change came, if its record says more than the change: how the session was lost, or the fault of an UPDATE
//! that is treated as a withdrawal.

ghost use Rattle.std.specs.Prelude.{◌≡◌, IfOk};
ghost use Rattle.rs_mrt.specs.Record.{record_of};
ghost use Rattle.rs_session.specs.Change.{change_of};
ghost use Rattle.rs_glass.specs.Causes.{cause_by, cause_known};

use crate::loss::{Loss, loss_of};
use crate::treated::{Treated, treated_of};
use rs_mrt::Record;
use rs_session::{Body, Word};
use rs_update::Errors;
use std::alloc::{AllocError, Global};

/// Why a change came, if its record says more than the change.
#[derive(Clone, Copy, Debug, PartialEq, Eq, Drop)]
pub enum Cause {
    /// The session was lost in this way.
    Lost(Loss),
    /// An UPDATE at fault announces the prefix, and is treated as a withdrawal of its routes (RFC 7606, section 2).
    Treated(Treated),
}

// Why a change came, by the record that gave it.
pub(crate) fn cause_of(
    alloc: Global,
    errors: Errors,
    word: &Word,
    recorded: &Record<'_>,
) -> Result<Option<Cause>, AllocError>
    ensures { IfOk result (λ cause. cause ≡ cause_by errors (change_of word.now) (record_of recorded.now)) }
{
    match &word.body {
        Body::Withdraw(prefix) => Ok(treated_of(alloc, errors, *prefix, recorded)?.map(
            |fault| Cause::Treated(fault),
        )),
        Body::Down => Ok(loss_of(recorded).map(|loss| Cause::Lost(loss))),
        _ => Ok(None),
    }
}

// Why a change came, if it is known whether its record was put in: then the loss is inferred.
pub(crate) fn cause_known(put_in: bool, cause: Option<Cause>) -> Option<Cause>
    ensures { result ≡ cause_known put_in cause }
{
    if put_in {
        Some(Cause::Lost(Loss::Inferred))
    } else {
        cause
    }
}
