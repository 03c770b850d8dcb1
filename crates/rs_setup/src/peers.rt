//! The server and the peers of a configuration (our choice: RFC 4271 leaves configuration to the implementation).

ghost use Rattle.std.specs.Prelude.{◌≡◌, IfOk, OnOk, [], codes, map, string_bytes};
ghost use Rattle.rs_choice.specs.Plan.{peer_of};
ghost use Rattle.toml.specs.Data.{table};
ghost use Rattle.toml.specs.View.{items_view, table_view, view};
ghost use Rattle.rs_setup.specs.Import.{AreLists};
ghost use Rattle.rs_setup.specs.Section.{members_in};
ghost use Rattle.rs_setup.specs.Peers.{IsAdded};
ghost use Rattle.rs_setup.specs.Setup.{ArePeers, ArePeersOf, IsBegin, IsPeerOf, IsServer, texts_in};
ghost use Rattle.rs_setup.specs.Values.{AreAll, AreListed, MayHave, Needs};

use crate::import_setup::{PeerLists, read_lists};
use crate::keys::{Place, Section};
use crate::setup::SetupFault;
use rs_choice::{Local, PeerSpec};
use std::alloc::Global;
use toml::{Table, Value};

// The preference of a peer that has none of its own.
const DEFAULT_PREFERENCE: u32 = 100;

// Whether large communities count in export policy if the configuration does not say so.
const DEFAULT_LARGE_COMMUNITIES: bool = false;

/// Reads the server out of the configuration's table, and whether large communities (RFC 8092) count in export
/// policy.
pub fn read_server(alloc: Global, top: &Section) -> Result<(Local, bool), SetupFault>
    ensures { IfOk result (Needs (members_in top.now) (codes "server") IsServer) }
{
    let value = top.needs(alloc, "server")?;
    let table = top.valid(alloc, "server", value.as_table())?;
    let server = Section::new(Place::Server, table);
    server.has_only(
        alloc,
        &["address", "as", "id", "large_communities", "subnet"],
    )?;
    let asn = server.whole_number(alloc, "as")?;
    let address = server.address(alloc, "address")?;
    let id = server.address_or(alloc, "id", address)?;
    let subnet = server.subnet(alloc, "subnet")?;
    let large_communities = server.boolean_or(
        alloc,
        "large_communities",
        DEFAULT_LARGE_COMMUNITIES,
    )?;
    let local = Local {
        asn,
        address,
        id,
        subnet,
    };
    Ok((local, large_communities))
}

/// The peers of a configuration, in its order.
#[derive(Drop)]
pub struct Peers {
    /// The peers as the plan has them.
    pub specs: Vec<PeerSpec>,
    /// The path of each peer's recorded file.
    pub files: Vec<String>,
    /// The paths of the files that are read before it.
    pub begins: Vec<Vec<String>>,
    /// The lists of each peer.
    pub lists: Vec<PeerLists>,
}

/// Reads the peers, with the paths of their files and lists, in order, out of the configuration's table.
pub fn read_peers(alloc: Global, top: &Section) -> Result<Peers, SetupFault>
    ensures peers { IfOk result (λ found. MayHave (members_in top.now) (codes "peer") ArePeersOf ([], [])
        (map peer_of found.specs.items, map string_bytes found.files.items)) }
    ensures begins { IfOk result (λ found. MayHave (members_in top.now) (codes "peer") (AreListed IsBegin) []
        (map texts_in found.begins.items)) }
    ensures lists { IfOk result (λ found. MayHave (members_in top.now) (codes "peer") (AreListed AreLists) []
        found.lists.items) }
{
    match top.get("peer") {
        Some(value) => read_list(alloc, top.valid(alloc, "peer", value.as_array())?),
        None => Ok(no_peers(alloc)),
    }
}

// No peer.
fn no_peers(alloc: Global) -> Peers
    ensures specs { result.specs.items ≡ [] }
    ensures files { result.files.items ≡ [] }
    ensures begins { result.begins.items ≡ [] }
    ensures lists { result.lists.items ≡ [] }
{
    Peers {
        specs: Vec::new(alloc),
        files: Vec::new(alloc),
        begins: Vec::new(alloc),
        lists: Vec::new(alloc),
    }
}

// Reads the peers of a list.
fn read_list(alloc: Global, values: &[Value]) -> Result<Peers, SetupFault>
    ensures peers { IfOk result (λ found. ArePeers (items_view values.now) (map peer_of found.specs.items)
        (map string_bytes found.files.items)) }
    ensures begins { IfOk result (λ found. AreAll IsBegin (items_view values.now) (map texts_in found.begins.items)) }
    ensures lists { IfOk result (λ found. AreAll AreLists (items_view values.now) found.lists.items) }
{
    let mut peers = no_peers(alloc);
    for (number, value) in values.iter().enumerate() {
        add_peer(alloc, &mut peers, number, value)?;
    }
    Ok(peers)
}

// Reads the peer of this number, and adds it to those before it.
fn add_peer(
    alloc: Global,
    peers: &mut Peers,
    number: usize,
    value: &Value,
) -> Result<(), SetupFault>
    ensures { OnOk result (IsAdded peers.old peers.new (view value.now)) }
{
    let peer = Section::new(Place::Peer(number), peer_table(alloc, number, value)?);
    let (spec, file) = read_peer(alloc, &peer)?;
    let begin = peer.texts(alloc, "begin")?;
    let lists = read_lists(alloc, &peer)?;
    peers.specs.push(spec)?;
    peers.files.push(file)?;
    peers.begins.push(begin)?;
    peers.lists.push(lists)?;
    Ok(())
}

// Reads a peer and the path of its file out of its table.
fn read_peer(alloc: Global, peer: &Section) -> Result<(PeerSpec, String), SetupFault>
    ensures { IfOk result (λ (spec, file). IsPeerOf (members_in peer.now) (peer_of spec) (string_bytes file)) }
{
    peer.has_only(
        alloc,
        &[
            "address",
            "as",
            "as_list",
            "begin",
            "file",
            "id",
            "import",
            "name",
            "preference",
            "prefix_list",
            "refuse_from",
        ],
    )?;
    let name = peer.text(alloc, "name")?;
    let asn = peer.whole_number(alloc, "as")?;
    let address = peer.address(alloc, "address")?;
    let id = peer.address_or(alloc, "id", address)?;
    let preference = peer.whole_number_or(alloc, "preference", DEFAULT_PREFERENCE)?;
    let refuse_from = peer.texts(alloc, "refuse_from")?;
    let file = peer.text(alloc, "file")?;
    let spec = PeerSpec {
        name,
        asn,
        address,
        id,
        preference,
        refuse_from,
    };
    Ok((spec, file))
}

// The table of the peer of this number.
fn peer_table(alloc: Global, number: usize, value: &Value) -> Result<&Table, SetupFault>
    ensures { IfOk result (λ found. view value.now ≡ table (table_view found.now)) }
{
    match value.as_table() {
        Some(table) => Ok(table),
        None => Err(SetupFault::NotValid(format!(in alloc; "peer[{number}]")?)),
    }
}
