//! An exchange: a plan without a fault.

ghost use Rattle.std.specs.Prelude.{◌≡◌, ◌<◌, ◌≤◌, IfErr, IfOk, OnOk, None, Some, false, length, map, slice_get};
ghost use Rattle.std.specs.List.{list_any};
ghost use Rattle.rs_import.specs.Import.{no_import};
ghost use Rattle.rs_choice.specs.Plan.{peer_of, plan_fault, Refuses};
ghost use Rattle.rs_choice.specs.Checks.{refuses_spec};
ghost use Rattle.rs_choice.specs.Refusal.{IsRefusal, IsRefusedSender, refusals_of, refused_of};

use crate::checks;
use crate::fault::PlanFault;
use crate::plan::{Local, MAX_PEERS, PeerSpec};
use rs_import::ImportPolicy;
use std::alloc::{AllocError, Global};
use std::marker::Model;

/// A plan without a fault: the server and its peers, with export and import policy.
#[derive(Drop)]
pub struct Exchange {
    local: Local,
    peers: Vec<PeerSpec>,
    // For each client, for each peer: whether the client refuses routes from that peer.
    refusals: Vec<Vec<bool>>,
    // For each peer: whether some client refuses routes from it.
    refused: Vec<bool>,
    // Whether export policy counts large communities.
    large_communities: bool,
    import: ImportPolicy,
}

impl Model for Exchange {
    ghost use Rattle.rs_choice.specs.Plan.{Plan};

    ghost Value = { Plan };

    ghost use Rattle.rs_choice.specs.Exchange.{plan_of, IsFaultless};

    ghost view = { plan_of };

    ghost invariant = { IsFaultless };
}

impl Exchange {
    /// The exchange of a plan. A plan with a fault is refused by its first one; `Memory` is answered only of
    /// a plan without a fault. Refused, the peers are dropped. Large communities don't count, and import policy asks
    /// nothing.
    pub fn new(alloc: Global, local: Local, peers: Vec<PeerSpec>) -> Result<Exchange, PlanFault>
        ensures plan { IfOk result (λ exchange. exchange
            ≡ record { local = local; peers = map peer_of peers.items; large_communities = false; import = no_import }) }
        ensures faultless { OnOk result (plan_fault local (map peer_of peers.items) ≡ None) }
        ensures refused { IfErr result (λ fault. Refuses fault (plan_fault local (map peer_of peers.items))) }
    {
        if let Some(fault) = checks::plan_fault(&local, &peers) {
            return Err(fault);
        }
        let refusals = refusals(alloc, &peers)?;
        let refused = refused(alloc, &peers)?;
        Ok(Exchange {
            local,
            peers,
            refusals,
            refused,
            large_communities: false,
            import: ImportPolicy::none(alloc),
        })
    }

    /// The same exchange, in which export policy counts large communities (RFC 8092) or doesn't.
    pub fn with_large_communities(self, counted: bool) -> Exchange
        ensures { result ≡ record self { large_communities = counted } }
    {
        let mut exchange = self;
        exchange.large_communities = counted;
        exchange
    }

    /// The same exchange with this import policy.
    pub fn with_import(self, import: ImportPolicy) -> Exchange
        ensures { result ≡ record self { import = import } }
    {
        let mut exchange = self;
        exchange.import = import;
        exchange
    }

    /// Import policy: which routes are taken in.
    pub fn import(&self) -> &ImportPolicy
        ensures { result.now ≡ self.now.import }
    {
        &self.import
    }

    /// Whether export policy counts large communities (RFC 8092).
    pub fn counts_large_communities(&self) -> bool
        ensures { result ≡ self.now.large_communities }
    {
        self.large_communities
    }

    /// How many peers there are, 1 to 256.
    pub fn count(&self) -> usize
        ensures value { result ≡ length self.now.peers }
        ensures some { 0 < result }
        ensures bound { result ≤ MAX_PEERS }
        ensures faultless { plan_fault self.now.local self.now.peers ≡ None }
    {
        self.peers.len()
    }

    /// The server.
    pub fn local(&self) -> &Local
        ensures { result.now ≡ self.now.local }
    {
        &self.local
    }

    /// The peer of this number.
    pub fn peer(&self, number: usize) -> &PeerSpec
        requires { number < length self.now.peers }
        ensures { slice_get self.now.peers number ≡ Some (peer_of result.now) }
    {
        &self.peers[number]
    }

    /// Whether the peer of number `client` refuses all routes of the peer of number `peer`, by that peer's name.
    pub fn refuses(&self, client: usize, peer: usize) -> bool
        requires client_known { client < length self.now.peers }
        requires peer_known { peer < length self.now.peers }
        ensures { IsRefusal self.now.peers client peer result }
    {
        self.refusals[client][peer]
    }

    // Whether some client refuses all routes of the peer of number `peer`, by that peer's name. Most peers are refused
    // by none.
    pub(crate) fn is_refused(&self, peer: usize) -> bool
        requires { peer < length self.now.peers }
        ensures { IsRefusedSender self.now.peers peer result }
    {
        self.refused[peer]
    }
}

// For each client, for each peer: whether the client refuses its routes.
fn refusals(alloc: Global, peers: &[PeerSpec]) -> Result<Vec<Vec<bool>>, AllocError>
    ensures { IfOk result (λ rows. map (λ row. row.items) rows.items ≡ refusals_of (map peer_of peers.now)) }
{
    let mut rows = Vec::with_capacity(alloc, peers.len())?;
    for client in peers {
        rows.push(refusal_row(alloc, client, peers)?)?;
    }
    Ok(rows)
}

// For each peer: whether one client refuses its routes.
fn refusal_row(
    alloc: Global,
    client: &PeerSpec,
    peers: &[PeerSpec],
) -> Result<Vec<bool>, AllocError>
    ensures { IfOk result (λ row. row.items ≡ map (refuses_spec client.now) peers.now) }
{
    peers
        .iter()
        .map(|sender| refuses_name(client, sender))
        .collect(alloc)
}

// For each peer: whether some client refuses its routes.
fn refused(alloc: Global, peers: &[PeerSpec]) -> Result<Vec<bool>, AllocError>
    ensures { IfOk result (λ row. row.items ≡ refused_of (map peer_of peers.now)) }
{
    peers
        .iter()
        .map(|sender| some_refuses(peers, sender))
        .collect(alloc)
}

// Whether some client refuses the routes of a sender.
fn some_refuses(peers: &[PeerSpec], sender: &PeerSpec) -> bool
    ensures { result ≡ list_any (λ client. refuses_spec client sender.now) peers.now }
{
    peers.iter().any(|client| refuses_name(client, sender))
}

// Whether a client refuses the routes of a sender, by the sender's name.
fn refuses_name(client: &PeerSpec, sender: &PeerSpec) -> bool
    ensures { result ≡ refuses_spec client.now sender.now }
{
    client.refuse_from.contains(&sender.name)
}
