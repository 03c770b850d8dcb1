//! What the command line asks.

use crate::reasons::AskedReason;
use rs_mrt::{Bounds, Losses};
use rs_rows::Form;
use rs_update::{Errors, Prefix};

/// A question.
#[derive(Drop)]
pub enum Query {
    /// Why a client has each peer's route on a prefix, or not.
    Why(WhyQuery),
    /// What happened on a prefix, in the order of time.
    History(HistoryQuery),
    /// What recorded files hold.
    Peers(PeersQuery),
    /// What a run over a configuration would meet.
    Check(CheckQuery),
    /// The beginning of each peer's session, of a table.
    Start(StartQuery),
    /// The routes of a client's table.
    Table(TableQuery),
    /// The routes that a client does not get.
    Missing(MissingQuery),
    /// Which routes of clients differ between two tables.
    Diff(DiffQuery),
    /// What becomes of the routes of all peers, in numbers.
    Summary(SummaryQuery),
    /// The exchange, in pictures.
    Page(PageQuery),
}

impl Query {
    /// Whether it is `diff`.
    pub fn is_diff(&self) -> bool {
        matches!(self, Query::Diff(_))
    }
}

/// What is asked about: a prefix, or an address.
#[derive(Clone, Copy, Debug, PartialEq, Eq, Drop)]
pub enum Destination {
    /// Just this prefix.
    Prefix(Prefix),
    /// The longest prefix with a route that covers this address, which is in host order.
    Address(u32),
}

/// Of which recorded sessions it is asked.
#[derive(Clone, Copy, Debug, PartialEq, Eq, Drop)]
pub struct Span {
    /// Up to when records are read, in seconds since 1970: each file ends before the first one that is later. All of
    /// them if it isn't given.
    pub until: Option<u32>,
    /// The standard by which faults in path attributes are handled.
    pub errors: Errors,
    /// Which losses of a session count.
    pub losses: Losses,
}

/// Why a client has each peer's route on a prefix, or not.
#[derive(Drop)]
pub struct WhyQuery {
    /// The path of the configuration.
    pub config: String,
    /// The word that names the client.
    pub client: String,
    /// The prefix, or an address on it.
    pub prefix: Destination,
    /// Of which records, and by which standard.
    pub span: Span,
    /// Whether each peer that never announced the prefix has a line of its own.
    pub all: bool,
    /// Whether all attributes of the routes are shown.
    pub attributes: bool,
    /// Whether the answer is written as JSON.
    pub json: bool,
}

/// What happened on a prefix, in the order of time. Times are in seconds since 1970.
#[derive(Drop)]
pub struct HistoryQuery {
    /// The path of the configuration.
    pub config: String,
    /// The prefix, or an address on it.
    pub prefix: Destination,
    /// The word that names the client whose table is shown beside, if one is given.
    pub client: Option<String>,
    /// From when on changes are shown; all of them if it isn't given.
    pub from: Option<u32>,
    /// Of which records, and by which standard.
    pub span: Span,
    /// Whether the ends of files are shown.
    pub ends: bool,
    /// The path of the file that takes the picture, if one is asked for.
    pub svg: Option<String>,
    /// Whether all attributes of the routes are shown.
    pub attributes: bool,
    /// Whether the answer is written as JSON.
    pub json: bool,
}

/// What recorded files hold.
#[derive(Drop)]
pub struct PeersQuery {
    /// The paths of the files.
    pub files: Vec<String>,
    /// The paths of the files that the configuration reads behind these.
    pub behind: Vec<String>,
    /// Whether the answer is written as JSON.
    pub json: bool,
    /// Whether a configuration to start from is written.
    pub toml: bool,
}

/// What a run over a configuration would meet.
#[derive(Drop)]
pub struct CheckQuery {
    /// The path of the configuration.
    pub config: String,
    /// How much of each file the run reads.
    pub bounds: Bounds,
    /// The standard by which faults in path attributes are handled.
    pub errors: Errors,
    /// Which losses of a session count.
    pub losses: Losses,
}

/// The beginning of each peer's session, of a table.
#[derive(Drop)]
pub struct StartQuery {
    /// The path of the table.
    pub table: String,
    /// The folder that takes the sessions.
    pub out: String,
    /// The addresses of the peers whose sessions are written, in host order. None stands for all peers.
    pub peers: Vec<u32>,
    /// The time, in seconds since 1970, up to which the last table of the file is taken. None stands for the last one.
    pub at: Option<u32>,
    /// Whether a configuration to start from is written.
    pub toml: bool,
    /// The paths of the files that the configuration reads behind the session of each peer.
    pub behind: Vec<String>,
}

/// The routes of a client's table.
#[derive(Drop)]
pub struct TableQuery {
    /// The exchange whose tables are built.
    pub tables: TablesQuery,
    /// The word that names the client.
    pub client: String,
    /// The word that names the sender whose routes are listed; all of them if it isn't given.
    pub from: Option<String>,
    /// The prefix whose row is listed; all of them if it isn't given.
    pub prefix: Option<Prefix>,
    /// Whether the more specific prefixes are listed too.
    pub longer: bool,
    /// Whether the routes are counted, not listed.
    pub count: bool,
    /// How the list is written.
    pub form: Form,
}

/// The routes that a client does not get.
#[derive(Drop)]
pub struct MissingQuery {
    /// The exchange whose tables are built.
    pub tables: TablesQuery,
    /// The word that names the client.
    pub client: String,
    /// The word that names the sender whose routes are listed; all of them if it isn't given.
    pub from: Option<String>,
    /// The answer or the reason for which routes are listed; all of them if it isn't given.
    pub because: Option<AskedReason>,
    /// Whether only routes to prefixes are listed for which the client gets no route at all.
    pub gets_none: bool,
    /// Whether the routes are counted, not listed.
    pub count: bool,
    /// How the list is written.
    pub form: Form,
}

/// What becomes of the routes of all peers, in numbers.
#[derive(Drop)]
pub struct SummaryQuery {
    /// The exchange whose tables are built.
    pub tables: TablesQuery,
    /// How the numbers are written.
    pub form: Form,
}

/// The exchange, in pictures.
#[derive(Drop)]
pub struct PageQuery {
    /// The exchange whose tables are built.
    pub tables: TablesQuery,
    /// The path of the file that is written.
    pub out: String,
}

/// Which routes of clients differ between two tables.
#[derive(Drop)]
pub struct DiffQuery {
    /// The exchange whose tables are the old ones.
    pub old: TablesQuery,
    /// The exchange whose tables are the new ones.
    pub new: TablesQuery,
    /// The word that names the client; all of them if it isn't given.
    pub client: Option<String>,
    /// Whether the differences are counted, not listed.
    pub count: bool,
    /// How the list is written.
    pub form: Form,
}

/// Of which exchange whole tables are built, and how.
#[derive(Drop)]
pub struct TablesQuery {
    /// The path of the configuration.
    pub config: String,
    /// The standard by which faults in path attributes are handled.
    pub errors: Errors,
    /// Up to when records are read, in seconds since 1970: each file ends before the first one that is later. All of
    /// them if it isn't given.
    pub until: Option<u32>,
    /// Which losses of a session count.
    pub losses: Losses,
    /// How many threads keep the tables, 1 to 16.
    pub shards: usize,
}
