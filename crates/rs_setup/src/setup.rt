//! What a configuration sets up: the plan of the exchange and each peer's recorded file.
//!
//! A configuration is a TOML table (our choice: RFC 4271 leaves configuration to the implementation). Tests
//! come in its order: the keys of the whole table; the server; one peer after another; then the plan.

ghost use Rattle.std.specs.Prelude.{◌≡◌, ◌||◌, IfOk, None, Some, codes, map, option_map, string_bytes};
ghost use Rattle.std.specs.List.{list_any};
ghost use Rattle.std.specs.Option.{is_some};
ghost use Rattle.toml.specs.Data.{Members, get_member};
ghost use Rattle.toml.specs.Parse.{parse_document};
ghost use Rattle.toml.specs.View.{table_view};
ghost use Rattle.rs_setup.specs.Fault.{of_plan};
ghost use Rattle.rs_setup.specs.Import.{IsImportSetup, IsRules, has_list};
ghost use Rattle.rs_setup.specs.Section.{members_in};
ghost use Rattle.rs_setup.specs.Setup.{AreBegins, AreListPaths, IsSetup, IsWholeSetup, texts_in};
ghost use Rattle.rs_setup.specs.Values.{MayHave};
ghost use Rattle.rs_import.specs.Import.{no_rules};
ghost use Rattle.rs_setup.specs.declared.setup.SetupFault.TheVariants.{Memory};

use crate::import_setup::{ImportSetup, PeerLists, has_lists, list_paths, read_rules};
use crate::keys::{Place, Section};
use crate::list_files::ListFiles;
use crate::lists::policy_of;
use crate::peers::{read_peers, read_server};
use rs_choice::{Exchange, PlanFault};
use rs_import_files::ListFault;
use std::alloc::{AllocError, AllocFailed, Global};
use std::sync::Arc;
use thiserror::Error;
use toml::Table;

/// What a configuration sets up.
#[derive(Drop)]
pub struct Setup {
    /// The server, its peers and their policies, and whether large communities (RFC 8092) count in export policy.
    pub plan: Arc<Exchange>,
    /// The path of each peer's recorded file, in the order of the peers.
    pub files: Vec<String>,
    /// The paths of the files that are read before it, as one recording with it, in the order of the peers.
    pub begins: Vec<Vec<String>>,
    /// The paths of the VRP file and of the peers' lists, as they are read. One may stand there several times.
    pub lists: Vec<String>,
}

/// Why a configuration is refused. A key is written with the way to it, as `peer[0].as`.
#[derive(Debug, Drop, Error)]
pub enum SetupFault {
    /// The text isn't UTF-8, or isn't TOML.
    #[error("the text is neither UTF-8 nor TOML")]
    NotToml,
    /// A key that no configuration has.
    #[error("no configuration has the key {0}")]
    Unknown(String),
    /// A key that must be there isn't.
    #[error("the configuration lacks the key {0}")]
    Missing(String),
    /// A key's value is of another type, or out of its range.
    #[error("the key {0} has a value of another type or out of its range")]
    NotValid(String),
    /// The plan has a fault.
    #[error(transparent)]
    Plan(PlanFault),
    /// The VRP file or the list at this path is wrong.
    #[error("the list {0} is refused: {1}")]
    List(String, ListFault),
    /// Memory was refused.
    #[error("memory was refused while the configuration was read")]
    Memory,
}

impl From<AllocError> for SetupFault {
    ghost from_gives = { λ _ fault. fault ≡ Memory };

    fn from(_refused: AllocError) -> SetupFault {
        SetupFault::Memory
    }
}

impl<T: Drop> From<AllocFailed<T>> for SetupFault {
    ghost from_gives = { λ _ fault. fault ≡ Memory };

    fn from(_refused: AllocFailed<T>) -> SetupFault {
        SetupFault::Memory
    }
}

impl From<PlanFault> for SetupFault {
    ghost from_gives = { λ fault given. given ≡ of_plan fault };

    fn from(fault: PlanFault) -> SetupFault {
        match fault {
            PlanFault::Memory => SetupFault::Memory,
            fault => SetupFault::Plan(fault),
        }
    }
}

/// Why nothing is set up by a configuration and its lists.
#[derive(Debug, Drop, Error)]
pub enum NoSetup {
    /// The configuration is refused, or one of its lists, or memory was refused.
    #[error(transparent)]
    Refused(SetupFault),
    /// The VRP file or the list at this path can't be read.
    #[error("the list {0} cannot be read")]
    Unread(String),
}

impl NoSetup {
    // That the list at a path is wrong, unless memory was refused.
    pub(crate) fn of_list(alloc: Global, path: &str, fault: ListFault) -> NoSetup {
        match (fault, String::from_str(alloc, path)) {
            (ListFault::Memory, _) => NoSetup::Refused(SetupFault::Memory),
            (_, Err(_)) => NoSetup::Refused(SetupFault::Memory),
            (fault, Ok(path)) => NoSetup::Refused(SetupFault::List(path, fault)),
        }
    }
}

impl From<SetupFault> for NoSetup {
    fn from(fault: SetupFault) -> NoSetup {
        NoSetup::Refused(fault)
    }
}

impl From<AllocError> for NoSetup {
    fn from(_refused: AllocError) -> NoSetup {
        NoSetup::Refused(SetupFault::Memory)
    }
}

impl<T: Drop> From<AllocFailed<T>> for NoSetup {
    fn from(_refused: AllocFailed<T>) -> NoSetup {
        NoSetup::Refused(SetupFault::Memory)
    }
}

// What the text of a configuration sets up.
#[derive(Drop)]
struct Parts {
    exchange: Exchange,
    files: Vec<String>,
    begins: Vec<Vec<String>>,
    import: ImportSetup,
}

/// Reads the text of a configuration alone. Its lists are not read, and import policy asks nothing.
///
/// The first fault refuses it: that of the text, then of the keys and values in the order of the tests, then
/// of the plan. Of several unknown keys in one table the least by its bytes is named. `Memory` says nothing
/// of the text.
pub fn read_setup(alloc: Global, text: &[u8]) -> Result<Setup, SetupFault>
    ensures setup { IfOk result (λ setup. (table : Members) × (parse_document text.now ≡ Some table)
        × IsSetup table setup.plan.value (map string_bytes setup.files.items)) }
    ensures begins { IfOk result (λ setup. (table : Members) × (parse_document text.now ≡ Some table)
        × AreBegins table (map texts_in setup.begins.items)) }
    ensures lists { IfOk result (λ setup. (table : Members) × (parse_document text.now ≡ Some table)
        × AreListPaths table (map string_bytes setup.lists.items)) }
{
    let parts = read_parts(alloc, text)?;
    let lists = list_paths(alloc, &parts.import)?;
    let plan = Arc::new(alloc, parts.exchange)?;
    Ok(Setup {
        plan,
        files: parts.files,
        begins: parts.begins,
        lists,
    })
}

/// Reads a configuration, and then its lists: the VRP file first, then the lists of each peer. So import policy is
/// that of the configuration.
///
/// Fails as `read_setup` does. If it would not, it fails for the first list that can't be read or is wrong.
pub fn read_whole_setup<L: ListFiles>(
    alloc: Global,
    text: &[u8],
    files: &L,
) -> Result<Setup, NoSetup>
    ensures setup { IfOk result (λ setup. (table : Members) × (parse_document text.now ≡ Some table)
        × IsWholeSetup (L.holds files.now) table setup.plan.value (map string_bytes setup.files.items)) }
    ensures begins { IfOk result (λ setup. (table : Members) × (parse_document text.now ≡ Some table)
        × AreBegins table (map texts_in setup.begins.items)) }
    ensures lists { IfOk result (λ setup. (table : Members) × (parse_document text.now ≡ Some table)
        × AreListPaths table (map string_bytes setup.lists.items)) }
{
    let parts = read_parts(alloc, text)?;
    let lists = list_paths(alloc, &parts.import)?;
    let policy = policy_of(alloc, files, parts.import)?;
    let plan = Arc::new(alloc, parts.exchange.with_import(policy))?;
    Ok(Setup {
        plan,
        files: parts.files,
        begins: parts.begins,
        lists,
    })
}

// Reads the text of a configuration.
fn read_parts(alloc: Global, text: &[u8]) -> Result<Parts, SetupFault>
    ensures { IfOk result (λ parts. (table : Members) × (parse_document text.now ≡ Some table)
        × IsSetup table parts.exchange (map string_bytes parts.files.items) × IsImportSetup table parts.import
        × AreBegins table (map texts_in parts.begins.items)) }
{
    let table = read_table(alloc, text)?;
    let top = Section::new(Place::Top, &table);
    top.has_only(alloc, &["import", "peer", "server"])?;
    let (local, large_communities) = read_server(alloc, &top)?;
    let peers = read_peers(alloc, &top)?;
    let import = read_import(alloc, &top, peers.lists)?;
    let exchange = Exchange::new(alloc, local, peers.specs)?.with_large_communities(
        large_communities,
    );
    Ok(Parts {
        exchange,
        files: peers.files,
        begins: peers.begins,
        import,
    })
}

// Reads what a configuration whose peers have these lists says of import policy.
fn read_import(
    alloc: Global,
    top: &Section,
    peers: Vec<PeerLists>,
) -> Result<ImportSetup, SetupFault>
    ensures peers { IfOk result (λ import. import.peers ≡ peers) }
    ensures rules { IfOk result (λ import. MayHave (members_in top.now) (codes "import") IsRules (no_rules, None)
        (import.rules, option_map string_bytes import.vrps)) }
    ensures configured { IfOk result (λ import. import.is_configured
        ≡ (is_some (get_member (codes "import") (members_in top.now)) || list_any has_list peers.items)) }
{
    let (rules, vrps) = read_rules(alloc, top)?;
    let is_configured = top.has("import") || has_lists(&peers);
    Ok(ImportSetup {
        is_configured,
        rules,
        vrps,
        peers,
    })
}

// The table that a text is.
fn read_table(alloc: Global, text: &[u8]) -> Result<Table, SetupFault>
    ensures { IfOk result (λ table. parse_document text.now ≡ Some (table_view table)) }
{
    match toml::table_from_slice(alloc, text) {
        Ok(table) => Ok(table),
        Err(error) if error.is_memory() => Err(SetupFault::Memory),
        Err(_) => Err(SetupFault::NotToml),
    }
}
