//! Import policy by a configuration and by the octets of its lists. Each file is read once, even if several peers name
//! it.

ghost use Rattle.std.specs.Prelude.{◌≡◌, ℕ, List, IfOk, IfSome, OnOk, option_map, string_bytes};
ghost use Rattle.std.specs.List.{AllZip};
ghost use Rattle.rs_setup.specs.Known.{AreAllKnown, AreKnown, IsAmong};
ghost use Rattle.rs_setup.specs.Lists.{FileSays, IsPeerImport, IsPolicy, MaySay, SaysNumbers, SaysPatterns, SaysVrps};

use crate::import_setup::{ImportSetup, PeerLists};
use crate::list_files::ListFiles;
use crate::setup::NoSetup;
use rs_import::{AsSet, ImportPolicy, ImportRules, PeerImport, PrefixSet, Vrps};
use rs_import_files::{ListFault, read_as_list, read_prefix_list, read_vrps};
use std::alloc::{AllocError, Global};
use std::sync::Arc;

// What is read from the octets of a file.
trait Listed: Sized {
    // What octets say.
    ghost says: { List ℕ → Self → Type 0 };

    // Reads it.
    fn read(alloc: Global, octets: &[u8]) -> Result<Self, ListFault>
        ensures { IfOk result (says octets.now) };
}

impl Listed for Vrps {
    ghost says = { SaysVrps };

    fn read(alloc: Global, octets: &[u8]) -> Result<Vrps, ListFault> {
        Ok(Vrps::new(read_vrps(alloc, octets)?)?)
    }
}

impl Listed for PrefixSet {
    ghost says = { SaysPatterns };

    fn read(alloc: Global, octets: &[u8]) -> Result<PrefixSet, ListFault> {
        Ok(PrefixSet::new(read_prefix_list(alloc, octets)?)?)
    }
}

impl Listed for AsSet {
    ghost says = { SaysNumbers };

    fn read(alloc: Global, octets: &[u8]) -> Result<AsSet, ListFault> {
        Ok(AsSet::new(read_as_list(alloc, octets)?)?)
    }
}

// A list that was read, and the path of its file.
#[derive(Drop)]
struct Known<S> {
    path: String,
    list: Arc<S>,
}

// The lists of peers that were read.
#[derive(Drop)]
struct KnownLists {
    prefix_lists: Vec<Known<PrefixSet>>,
    as_lists: Vec<Known<AsSet>>,
}

/// Import policy by what a configuration says and by the octets of its lists.
pub fn policy_of<L: ListFiles>(
    alloc: Global,
    files: &L,
    import: ImportSetup,
) -> Result<ImportPolicy, NoSetup>
    ensures { IfOk result (IsPolicy (L.holds files.now) import) }
{
    if !import.is_configured {
        return Ok(ImportPolicy::none(alloc));
    }
    let rules = with_vrps(alloc, files, import.rules, &import.vrps)?;
    let peers = peer_imports(alloc, files, &import.peers)?;
    Ok(ImportPolicy::new(rules, peers))
}

// Rules with the VRPs of a file, if a path is named.
fn with_vrps<L: ListFiles>(
    alloc: Global,
    files: &L,
    rules: ImportRules,
    path: &Option<String>,
) -> Result<ImportRules, NoSetup>
    ensures same { IfOk result (λ made. made ≡ record rules { vrps = made.vrps }) }
    ensures vrps { IfOk result (λ made. MaySay (L.holds files.now) SaysVrps (option_map string_bytes path.now) made.vrps) }
{
    let mut rules = rules;
    rules.vrps = match path {
        Some(path) => Some(read_list(alloc, files, path)?),
        None => None,
    };
    Ok(rules)
}

// What is asked of each peer, by its lists.
fn peer_imports<L: ListFiles>(
    alloc: Global,
    files: &L,
    peers: &[PeerLists],
) -> Result<Vec<PeerImport>, NoSetup>
    ensures { IfOk result (λ imports. AllZip (IsPeerImport (L.holds files.now)) peers.now imports.items) }
{
    let mut known = KnownLists {
        prefix_lists: Vec::new(alloc),
        as_lists: Vec::new(alloc),
    };
    let mut imports = Vec::with_capacity(alloc, peers.len())?;
    for lists in peers {
        imports.push(peer_import(alloc, files, &mut known, lists)?)?;
    }
    Ok(imports)
}

// What is asked of a peer, by its lists.
fn peer_import<L: ListFiles>(
    alloc: Global,
    files: &L,
    known: &mut KnownLists,
    lists: &PeerLists,
) -> Result<PeerImport, NoSetup>
    requires { AreAllKnown (L.holds files.now) known.old }
    ensures import { IfOk result (IsPeerImport (L.holds files.now) lists.now) }
    ensures known { OnOk result (AreAllKnown (L.holds files.now) known.new) }
{
    let prefix_list = list_at(alloc, files, &mut known.prefix_lists, &lists.prefix_list)?;
    let as_list = list_at(alloc, files, &mut known.as_lists, &lists.as_list)?;
    Ok(PeerImport::new(lists.is_asked, prefix_list, as_list))
}

// The list of a file, if a path is named. It is read if it isn't known.
fn list_at<L: ListFiles, S: Listed + Drop>(
    alloc: Global,
    files: &L,
    known: &mut Vec<Known<S>>,
    path: &Option<String>,
) -> Result<Option<Arc<S>>, NoSetup>
    requires { AreKnown (FileSays (L.holds files.now) S.says) known.old.items }
    ensures list { IfOk result (λ list. MaySay (L.holds files.now) S.says (option_map string_bytes path.now)
        (option_map (λ one. one.value) list)) }
    ensures known { OnOk result (AreKnown (FileSays (L.holds files.now) S.says) known.new.items) }
{
    let Some(path) = path else {
        return Ok(None);
    };
    if let Some(list) = known_at(known, path)? {
        return Ok(Some(list));
    }
    let list: Arc<S> = Arc::new(alloc, read_list(alloc, files, path)?)?;
    let shared = list.clone()?;
    known.push(Known {
        path: path.clone()?,
        list: shared,
    })?;
    Ok(Some(list))
}

// The list of a path, if it is known.
fn known_at<S: Drop>(known: &[Known<S>], path: &str) -> Result<Option<Arc<S>>, AllocError>
    ensures { IfOk result (λ found. IfSome found (λ list. IsAmong known.now path.now list.value)) }
{
    for one in known {
        if one.path.as_str() == path {
            return Ok(Some(one.list.clone()?));
        }
    }
    Ok(None)
}

// Reads the list of the file at a path.
fn read_list<L: ListFiles, S: Listed + Drop>(
    alloc: Global,
    files: &L,
    path: &str,
) -> Result<S, NoSetup>
    ensures { IfOk result (FileSays (L.holds files.now) S.says path.now) }
{
    let Some(octets) = files.octets(alloc, path)? else {
        return Err(NoSetup::Unread(String::from_str(alloc, path)?));
    };
    match S::read(alloc, &octets) {
        Ok(list) => Ok(list),
        Err(fault) => Err(NoSetup::of_list(alloc, path, fault)),
    }
}
