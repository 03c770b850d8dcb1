//! What a configuration says of import policy: the rules, and where its lists stand.

ghost use Rattle.std.specs.Prelude.{◌≡◌, ◌≤◌, ◌++◌, IfOk, IfSome, OnOk, [], None, codes, map, option_map, string_bytes};
ghost use Rattle.rs_setup.specs.Import.{AreBounds, AreBoundsOf, AreListsOf, IsAsSet, IsLength, IsPrefixSet, IsRules};
ghost use Rattle.rs_setup.specs.Import.{IsRulesOf, has_list, path_in, paths_of};
ghost use Rattle.rs_setup.specs.Section.{members_in};
ghost use Rattle.rs_setup.specs.Values.{MayHave};
ghost use Rattle.rs_import.specs.Import.{no_rules};
ghost use Rattle.std.specs.List.{list_any};

use crate::entries::entries;
use crate::keys::{Place, Section};
use crate::setup::SetupFault;
use crate::values::length;
use rs_import::{AsSet, ImportRules, PrefixSet};
use std::alloc::{AllocError, Global};

/// What a configuration says of import policy. Its lists are named by their paths.
#[derive(Drop)]
pub struct ImportSetup {
    /// Whether there is import policy: the configuration has its table, or some peer has a list.
    pub is_configured: bool,
    /// What is asked of the routes of all peers, without the VRPs.
    pub rules: ImportRules,
    /// The path of the VRP file.
    pub vrps: Option<String>,
    /// The lists of each peer, in the order of the peers.
    pub peers: Vec<PeerLists>,
}

/// The lists of a peer, by their paths.
#[derive(Drop)]
pub struct PeerLists {
    /// The path of its list of prefixes.
    pub prefix_list: Option<String>,
    /// The path of its list of AS numbers.
    pub as_list: Option<String>,
    /// Whether anything is asked of the peer's routes.
    pub is_asked: bool,
}

/// Whether some peer has a list.
pub fn has_lists(peers: &[PeerLists]) -> bool
    ensures { result ≡ list_any has_list peers.now }
{
    peers.iter().any(|lists| has_list(lists))
}

// Whether a peer has a list.
fn has_list(lists: &PeerLists) -> bool
    ensures { result ≡ has_list lists.now }
{
    lists.prefix_list.is_some() || lists.as_list.is_some()
}

/// Reads the lists of a peer out of its table.
pub fn read_lists(alloc: Global, peer: &Section) -> Result<PeerLists, SetupFault>
    ensures { IfOk result (AreListsOf (members_in peer.now)) }
{
    let prefix_list = peer.some_text(alloc, "prefix_list")?;
    let as_list = peer.some_text(alloc, "as_list")?;
    let is_asked = peer.boolean_or(alloc, "import", true)?;
    Ok(PeerLists {
        prefix_list,
        as_list,
        is_asked,
    })
}

/// Reads the rules of import policy and the path of the VRP file out of the configuration's table.
pub fn read_rules(alloc: Global, top: &Section) -> Result<(ImportRules, Option<String>), SetupFault>
    ensures { IfOk result (λ (rules, path). MayHave (members_in top.now) (codes "import") IsRules (no_rules, None)
        (rules, option_map string_bytes path)) }
{
    match top.get("import") {
        Some(value) => {
            let table = top.valid(alloc, "import", value.as_table())?;
            rules_of(alloc, &Section::new(Place::Import, table))
        }
        None => Ok((ImportRules::none(alloc), None)),
    }
}

// Reads the rules out of the table of import policy.
fn rules_of(alloc: Global, import: &Section) -> Result<(ImportRules, Option<String>), SetupFault>
    ensures { IfOk result (λ (rules, path). IsRulesOf (members_in import.now) rules (option_map string_bytes path)) }
{
    import.has_only(
        alloc,
        &[
            "enforce_first_as",
            "max_as_path",
            "prefix_length",
            "refuse_as",
            "refuse_prefixes",
            "vrps",
        ],
    )?;
    let (least_len, most_len) = read_bounds(alloc, import)?;
    let refuse_prefixes = refused_prefixes(alloc, import)?;
    let max_as_path = import.some_whole_number(alloc, "max_as_path")?;
    let refuse_as = refused_numbers(alloc, import)?;
    let enforce_first_as = import.boolean_or(alloc, "enforce_first_as", false)?;
    let path = import.some_text(alloc, "vrps")?;
    let rules = ImportRules {
        least_len,
        most_len,
        refuse_prefixes,
        max_as_path,
        refuse_as,
        enforce_first_as,
        vrps: None,
    };
    Ok((rules, path))
}

// Reads the bounds of prefix lengths.
fn read_bounds(alloc: Global, import: &Section) -> Result<(u8, u8), SetupFault>
    ensures { IfOk result (MayHave (members_in import.now) (codes "prefix_length") AreBounds (0, 32)) }
{
    match import.get("prefix_length") {
        Some(value) => {
            let table = import.valid(alloc, "prefix_length", value.as_table())?;
            bounds_of(alloc, &Section::new(Place::PrefixLength, table))
        }
        None => Ok((0, 32)),
    }
}

// Reads the bounds out of their table.
fn bounds_of(alloc: Global, bounds: &Section) -> Result<(u8, u8), SetupFault>
    ensures { IfOk result (λ (least, most). AreBoundsOf (members_in bounds.now) least most) }
{
    bounds.has_only(alloc, &["max", "min"])?;
    let least = length_or(alloc, bounds, "min", 0)?;
    let most = length_or(alloc, bounds, "max", 32)?;
    bounds.valid(alloc, "max", ascending(least, most))
}

// Reads a length of at most 32 bits, or else the default.
fn length_or(alloc: Global, bounds: &Section, key: &str, default: u8) -> Result<u8, SetupFault>
    ensures { IfOk result (MayHave (members_in bounds.now) key.now IsLength default) }
{
    match bounds.get(key) {
        Some(value) => bounds.valid(alloc, key, length(value)),
        None => Ok(default),
    }
}

// Two lengths, if the first isn't above the second.
fn ascending(least: u8, most: u8) -> Option<(u8, u8)>
    ensures { IfSome result (λ both. (both ≡ (least, most)) × (least ≤ most)) }
{
    if most < least {
        return None;
    }
    Some((least, most))
}

// Reads the refused prefixes.
fn refused_prefixes(alloc: Global, import: &Section) -> Result<PrefixSet, SetupFault>
    ensures { IfOk result (MayHave (members_in import.now) (codes "refuse_prefixes") IsPrefixSet []) }
{
    match import.get("refuse_prefixes") {
        Some(value) => {
            let patterns = entries(alloc, value)?;
            let patterns = import.valid(alloc, "refuse_prefixes", patterns)?;
            Ok(PrefixSet::new(patterns)?)
        }
        None => Ok(PrefixSet::empty(alloc)),
    }
}

// Reads the refused AS numbers.
fn refused_numbers(alloc: Global, import: &Section) -> Result<AsSet, SetupFault>
    ensures { IfOk result (MayHave (members_in import.now) (codes "refuse_as") IsAsSet []) }
{
    match import.get("refuse_as") {
        Some(value) => {
            let ranges = entries(alloc, value)?;
            let ranges = import.valid(alloc, "refuse_as", ranges)?;
            Ok(AsSet::new(ranges)?)
        }
        None => Ok(AsSet::empty(alloc)),
    }
}

/// The paths of all lists: of the VRP file first, then those of each peer.
pub fn list_paths(alloc: Global, import: &ImportSetup) -> Result<Vec<String>, AllocError>
    ensures { IfOk result (λ paths. map string_bytes paths.items ≡ paths_of import.now) }
{
    let mut paths = Vec::new(alloc);
    add_path(&mut paths, &import.vrps)?;
    for lists in &import.peers {
        add_path(&mut paths, &lists.prefix_list)?;
        add_path(&mut paths, &lists.as_list)?;
    }
    Ok(paths)
}

// Adds a path, if there is one.
fn add_path(paths: &mut Vec<String>, path: &Option<String>) -> Result<(), AllocError>
    ensures { OnOk result (map string_bytes paths.new.items
        ≡ map string_bytes paths.old.items ++ path_in (option_map string_bytes path.now)) }
{
    if let Some(path) = path {
        paths.push(path.clone()?)?;
    }
    Ok(())
}
