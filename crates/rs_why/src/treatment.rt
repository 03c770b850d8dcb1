//! A faulty UPDATE that is treated as a withdrawal of its routes (RFC 7606, section 2): its key and its texts.

use rs_glass::Treated;
use rs_glass_shell::close_text;
use rs_session::Reason;
use std::alloc::{AllocError, Global};

// The key of the reason, and of the change.
pub(crate) const TREATED_AS_WITHDRAW: &str = "treated_as_withdraw";

// What happened, with the fault.
pub(crate) fn treated_text(alloc: Global, fault: Treated) -> Result<String, AllocError> {
    let fault = fault_text(alloc, fault)?;
    format!(in alloc; "faulty UPDATE treated as withdrawn: {fault}")
}

// The fault, as that of a close.
pub(crate) fn fault_text(alloc: Global, fault: Treated) -> Result<String, AllocError> {
    let Treated { code, subcode } = fault;
    close_text(alloc, Reason::Bgp { code, subcode })
}
