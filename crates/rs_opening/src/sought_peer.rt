//! Whose losses are looked for in the recorded file of a peer.

ghost use Rattle.std.specs.Prelude.{◌≡◌, ◌<◌, length};
ghost use Rattle.rs_opening.specs.Opening.{sought_of};

use rs_choice::Exchange;
use rs_losses::Sought;

/// The peer of a number, as its losses are looked for: with whether no other peer of the exchange has its AS number.
pub fn sought(plan: &Exchange, number: usize) -> Sought
    requires { number < length plan.now.peers }
    ensures { result ≡ sought_of plan.now number }
{
    Sought {
        peer: plan.peer(number).peer_id(),
        alone: has_asn_alone(plan, number),
    }
}

// Whether no other peer has the AS number of the peer of a number: one peer has it.
fn has_asn_alone(plan: &Exchange, number: usize) -> bool
    requires { number < length plan.now.peers }
    ensures { result ≡ (sought_of plan.now number).alone }
{
    let asn = plan.peer(number).asn;
    let mut count: usize = 0;
    for other in 0..plan.count() {
        if plan.peer(other).asn == asn {
            count += 1;
        }
    }
    count == 1
}
