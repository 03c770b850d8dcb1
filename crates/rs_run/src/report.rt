//! The lines of the report for the sessions of the peers.

ghost use Rattle.std.specs.Prelude.{◌≡◌, ◌++◌, OnOk, length, string_bytes};
ghost use Rattle.rs_run.specs.Report.{peer_line, peer_lines};

use rs_choice::Exchange;
use rs_serve::{PeerEnd, Served};
use rs_session::ReasonText;
use std::alloc::AllocError;

/// Adds a line for each peer, in the order of the plan: how its session ended. If memory is refused, some of the
/// lines may have been added.
pub fn add_peer_lines(
    report: &mut String,
    plan: &Exchange,
    served: &Served,
) -> Result<(), AllocError>
    requires plan { served.now.tables.plan ≡ plan.now }
    requires one_for_each { length served.now.ends ≡ length plan.now.peers }
    ensures { OnOk result (string_bytes report.new
        ≡ string_bytes report.old ++ peer_lines plan.now.peers served.now.ends) }
{
    for number in 0..plan.count() {
        add_peer_line(report, &plan.peer(number).name, served.end(number))?;
    }
    Ok(())
}

// Adds the line of a peer.
fn add_peer_line(report: &mut String, name: &str, end: PeerEnd) -> Result<(), AllocError>
    ensures { OnOk result (string_bytes report.new ≡ string_bytes report.old ++ peer_line name.now end) }
{
    let PeerEnd {
        changes,
        passed,
        reason,
    } = end;
    let reason = ReasonText(reason);
    writeln!(
        report,
        "peer {name} changes {changes} passed {passed} close {reason}"
    )
}
