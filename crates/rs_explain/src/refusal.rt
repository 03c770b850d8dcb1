//! The rules of export policy that refuse a route, one by one (RFC 7947, section 2.3; the rules are our choice).

ghost use Rattle.std.specs.Prelude.{◌≡◌, ◌<◌, length};
ghost use Rattle.rs_explain.specs.Reasons.{refusal_of, ruling};

use rs_choice::Exchange;
use rs_update::Attributes;

/// A rule of export policy that refuses a route to a client.
#[derive(Clone, Copy, Debug, PartialEq, Eq)]
pub enum Refusal {
    /// The client refuses all routes of the sender, by its name.
    ByName,
    /// The route has the community (0, AS), AS being the client's, which is given.
    ToClient(u32),
    /// The route has the large community (server's AS, 0, client's AS), both of which are given (RFC 8092).
    LargeToClient {
        /// The server's AS.
        server: u32,
        /// The client's AS.
        client: u32,
    },
    /// The route has the community (0, AS), AS being the server's, which is given. None permits it to the client:
    /// neither (server's AS, client's AS) nor the large community (server's AS, 1, client's AS).
    ToAll(u32),
    /// The route has the large community (AS, 0, 0), AS being the server's, which is given (RFC 8092). As for `ToAll`,
    /// none permits it to the client.
    LargeToAll(u32),
}

// The rule that refuses a route of a peer to another one as its client: the first of the rules that speaks of
// it, if it refuses.
pub(crate) fn refusing_rule(
    plan: &Exchange,
    client: usize,
    peer: usize,
    attributes: &Attributes,
) -> Option<Refusal>
    requires client_known { client < length plan.now.peers }
    requires peer_known { peer < length plan.now.peers }
    ensures { result ≡ refusal_of plan.now client peer attributes.now }
{
    // For the prover: the plan has a peer of this number.
    let _sender = plan.peer(peer);
    let by_name = plan.refuses(client, peer);
    ruling(plan, by_name, plan.peer(client).asn, attributes)
}

// The refusal of a route to a client of this AS number; `by_name` says whether the client refuses all routes of the
// sender.
fn ruling(plan: &Exchange, by_name: bool, client: u32, attributes: &Attributes) -> Option<Refusal>
    ensures { result ≡ ruling plan.now by_name client attributes.now }
{
    let server = plan.local().asn;
    if by_name {
        Some(Refusal::ByName)
    } else if attributes.has_community(0, client) {
        Some(Refusal::ToClient(client))
    } else if plan.has_large_community(attributes, 0, client) {
        Some(Refusal::LargeToClient { server, client })
    } else if attributes.has_community(server, client) {
        None
    } else if plan.has_large_community(attributes, 1, client) {
        None
    } else if attributes.has_community(0, server) {
        Some(Refusal::ToAll(server))
    } else if plan.has_large_community(attributes, 0, 0) {
        Some(Refusal::LargeToAll(server))
    } else {
        None
    }
}
