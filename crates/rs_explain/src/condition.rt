//! The conditions of eligibility, one by one (RFC 4271, section 9.1.2 the first, section 6.3 the others).

ghost use Rattle.std.specs.Prelude.{◌≡◌, ◌<◌, length};
ghost use Rattle.rs_explain.specs.Reasons.{failed_condition, kind_of};

use rs_choice::Exchange;
use rs_update::Attributes;

/// A condition of eligibility that a route fails.
#[derive(Clone, Copy, Debug, PartialEq, Eq)]
pub enum Condition {
    /// The server's AS, which is given, is in its AS_PATH.
    OwnAs(u32),
    /// Its NEXT_HOP, which is given, is the server's address.
    ServerAsNextHop(u32),
    /// Its NEXT_HOP, which is given, is neither the sender's address nor inside the subnet of the exchange.
    NextHopOffExchange(u32),
}

/// Which condition of eligibility a route fails: a `Condition` without its value.
#[derive(Clone, Copy, Debug, PartialEq, Eq)]
pub enum ConditionKind {
    /// The server's AS is in its AS_PATH (RFC 4271, section 9.1.2).
    OwnAs,
    /// Its NEXT_HOP is the server's address (RFC 4271, section 6.3).
    ServerAsNextHop,
    /// Its NEXT_HOP is neither the sender's address nor inside the subnet of the exchange (RFC 4271, section 6.3).
    NextHopOffExchange,
}

impl Condition {
    /// Which condition it is.
    pub fn kind(self) -> ConditionKind
        ensures { result ≡ kind_of self }
    {
        match self {
            Condition::OwnAs(_) => ConditionKind::OwnAs,
            Condition::ServerAsNextHop(_) => ConditionKind::ServerAsNextHop,
            Condition::NextHopOffExchange(_) => ConditionKind::NextHopOffExchange,
        }
    }
}

/// The first condition of eligibility that a route of the peer of number `peer` fails; none of an eligible route. It
/// takes no memory.
pub fn failed_condition(plan: &Exchange, peer: usize, attributes: &Attributes) -> Option<Condition>
    requires { peer < length plan.now.peers }
    ensures { result ≡ failed_condition plan.now peer attributes.now }
{
    let local = plan.local();
    let next_hop = attributes.next_hop();
    // For the prover: the plan has a peer of this number.
    let _sender = plan.peer(peer);
    if attributes.holds_as(local.asn) {
        Some(Condition::OwnAs(local.asn))
    } else if next_hop == local.address {
        Some(Condition::ServerAsNextHop(next_hop))
    } else if !plan.eligible(peer, attributes) {
        Some(Condition::NextHopOffExchange(next_hop))
    } else {
        None
    }
}
