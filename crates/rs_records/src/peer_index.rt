//! The PEER_INDEX_TABLE record, the first one of a dump (RFC 6396, section 4.3.1).
//!
//! Our choices: the View Name is the client's name, and the Collector BGP ID the server's identifier; all
//! peers are listed, also those that sent no route.

ghost use Rattle.std.specs.Prelude.{◌≡◌, ◌+◌, ◌*◌, ◌<◌, ◌≤◌, length};
ghost use Rattle.std.specs.List.{flat_map};
ghost use Rattle.rs_choice.specs.Plan.{peer_of};
ghost use Rattle.rs_mrt.specs.Record.{record_spelling};
ghost use Rattle.rs_records.specs.Buffer.{HasRoom, Gains};
ghost use Rattle.rs_records.specs.PeerIndex.{index_record, peer_entry, peer_index, view_name};

use crate::buffer::{put, put_header, put_u16, put_u32};
use rs_choice::{Exchange, MAX_PEERS, PeerSpec};
use rs_mrt::HEADER_LEN;

// The Subtype.
const PEER_INDEX_TABLE: u16 = 1;

// The Peer Type of a peer with an IPv4 address and an AS number of four octets.
const IPV4_AS4: u8 = 2;

// How many octets a peer entry has: Peer Type, Peer BGP ID, Peer IP Address, Peer AS.
const PEER_ENTRY_LEN: usize = 13;

// How many octets the body has beside the View Name and the peer entries.
const FIXED_LEN: usize = 8;

/// The most octets that the record can have.
pub const MAX_PEER_INDEX_LEN: usize = 3412;

/// Appends the record of the peers of a client's dump, for which there is room.
pub fn spell_peer_index(buffer: &mut Vec<u8>, plan: &Exchange, client: usize, time: u32)
    requires client_known { client < length plan.now.peers }
    requires room { HasRoom buffer.old MAX_PEER_INDEX_LEN }
    ensures spelled { Gains buffer.old buffer.new (record_spelling (index_record plan.now client time)) }
    ensures few_peers { length plan.now.peers ≤ MAX_PEERS }
{
    put_header(buffer, time, PEER_INDEX_TABLE, body_len(plan, client));
    spell_body(buffer, plan, client);
}

// The View Name: the client's name.
fn client_name(plan: &Exchange, client: usize) -> &[u8]
    requires { client < length plan.now.peers }
    ensures { result.now ≡ view_name plan.now client }
{
    plan.peer(client).name.as_bytes()
}

// How many octets the body has.
#[tactic(auto, using(crate::proofs::PeerLemmas::body_sizes))]
fn body_len(plan: &Exchange, client: usize) -> u32
    requires { client < length plan.now.peers }
    ensures value { result ≡ length (peer_index plan.now client) }
    ensures bound { HEADER_LEN + result ≤ MAX_PEER_INDEX_LEN }
    ensures few_peers { length plan.now.peers ≤ MAX_PEERS }
{
    let count = plan.count();
    (FIXED_LEN + client_name(plan, client).len() + count * PEER_ENTRY_LEN) as u32
}

// Appends the body: the server's identifier, the client's name, and the peers.
#[tactic(auto, using(crate::proofs::PeerLemmas::body_sizes), unfolding(crate::specs::PeerIndex::peer_index))]
fn spell_body(buffer: &mut Vec<u8>, plan: &Exchange, client: usize)
    requires client_known { client < length plan.now.peers }
    requires room { HasRoom buffer.old (length (peer_index plan.now client)) }
    ensures { Gains buffer.old buffer.new (peer_index plan.now client) }
{
    let count = plan.count();
    let name = client_name(plan, client);
    put_u32(buffer, plan.local().id);
    put_u16(buffer, name.len() as u16);
    put(buffer, name);
    put_u16(buffer, count as u16);
    spell_peers(buffer, plan);
}

// Appends an entry for each peer, in order.
fn spell_peers(buffer: &mut Vec<u8>, plan: &Exchange)
    requires { HasRoom buffer.old (PEER_ENTRY_LEN * length plan.now.peers) }
    ensures { Gains buffer.old buffer.new (flat_map peer_entry plan.now.peers) }
{
    for number in 0..plan.count() {
        spell_peer(buffer, plan.peer(number));
    }
}

// Appends a peer entry.
fn spell_peer(buffer: &mut Vec<u8>, peer: &PeerSpec)
    requires { HasRoom buffer.old PEER_ENTRY_LEN }
    ensures { Gains buffer.old buffer.new (peer_entry (peer_of peer.now)) }
{
    put(buffer, &[IPV4_AS4]);
    put_u32(buffer, peer.id);
    put_u32(buffer, peer.address);
    put_u32(buffer, peer.asn);
}
