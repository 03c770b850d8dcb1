//! What notes are about, and which of them are wanted.

use rs_mrt::Bounds;
use rs_setup::Setup;

/// Where the recorded session of a peer closed.
#[derive(Clone, Copy, Debug, PartialEq, Eq)]
pub enum Close {
    /// At the end of its file, after whole records.
    AtEnd,
    /// Within a record that the end of its file cuts short.
    WithinRecord,
    /// At a fault before the end.
    AtFault,
}

/// How the recorded session of a peer ended, as far as notes need it.
#[derive(Clone, Copy, Debug, PartialEq, Eq)]
pub struct Ending {
    /// How many changes its file gave.
    pub changes: u64,
    /// Where it closed.
    pub close: Close,
}

/// Which notes are wanted.
#[derive(Clone, Copy, Debug, PartialEq, Eq)]
pub enum Telling {
    /// Those on likely mistakes: a file of which nothing was kept, and one that ends within a record.
    Mistakes,
    /// All: those on what is lawful and yet suspicious, too.
    All,
    /// Those of a page, which is for management: all but that on large communities without an effect.
    Page,
}

/// What notes are about.
#[derive(Clone, Copy)]
pub struct Subject<'a> {
    /// The exchange, and the recorded file of each peer.
    pub setup: &'a Setup,
    /// How much of each file was read.
    pub bounds: Bounds,
    /// How the session of each peer ended. A peer without an ending here gets no note. If no endings are given, the
    /// ends of the files decide them.
    pub endings: Option<&'a [Ending]>,
    /// Which notes are wanted.
    pub telling: Telling,
    /// Whether losses are counted that no record names as the peer's. Then no note says that a loss is missing.
    pub inferred: bool,
}
