//! What is found of a peer before a run, a line each.

use rs_host::Utc;
use rs_inventory::PeerRecords;
use std::alloc::AllocError;
use std::fmt;

/// What is found of a peer. A path is that of its file, on one line.
#[derive(Clone, Copy)]
pub(crate) enum Found<'a> {
    /// The file at this path can't be read, for this reason.
    Unreadable(&'a str, &'a str),
    /// The path of a file, if its own path counts from this folder.
    UnreadableFrom(&'a str, &'a str, &'a str),
    /// The file at this path may give its octets only once, so it isn't read here.
    Unread(&'a str),
    /// The file at this path has no record of the peer.
    NoRecord(&'a str),
    /// The file at this path has these records of the peer. So many of its UPDATEs are treated as withdrawn, if the
    /// standard treats any so.
    Records(&'a str, &'a PeerRecords, Option<u64>),
    /// The session closes before the end of its file, for this reason. Before the record that closes it stand so many
    /// octets.
    Closes(&'a str, u64),
    /// The same, in the file at this path, of several ones.
    ClosesIn(&'a str, u64, &'a str),
    /// Import policy asks nothing of the peer's routes.
    Unasked,
    /// The peer has a prefix list with so many entries.
    PrefixList(usize),
    /// It has a list of AS numbers with so many entries.
    AsList(usize),
    /// It has both lists.
    Lists(usize, usize),
}

impl fmt::Display for Found<'_> {
    fn fmt<W: fmt::Write>(&self, f: &mut fmt::Formatter<W>) -> fmt::Result {
        match *self {
            Found::Unreadable(path, why) => write!(f, "cannot read {path}: {why}"),
            Found::UnreadableFrom(path, why, folder) => {
                write!(
                    f,
                    "cannot read {path}: {why}; the path counts from {folder}"
                )
            }
            Found::Unread(path) => write!(f, "{path} is no regular file, and is not read here"),
            Found::NoRecord(path) => write!(f, "{path}: records 0"),
            Found::Records(path, records, treated) => write_records(f, path, records, treated),
            Found::Closes(reason, octet) => {
                write!(
                    f,
                    "the session closes by {reason}, in the record at octet {octet}"
                )
            }
            Found::ClosesIn(reason, octet, path) => {
                write!(
                    f,
                    "the session closes by {reason}, in the record at octet {octet} of {path}"
                )
            }
            Found::Unasked => f.write_str("import policy asks nothing of it"),
            Found::PrefixList(prefixes) => write!(f, "prefix list entries {prefixes}"),
            Found::AsList(numbers) => write!(f, "AS list entries {numbers}"),
            Found::Lists(prefixes, numbers) => {
                write!(
                    f,
                    "prefix list entries {prefixes}, AS list entries {numbers}"
                )
            }
        }
    }
}

// Writes which records of a peer the file at a path has, and how many UPDATEs are treated as withdrawn.
fn write_records<W: fmt::Write>(
    f: &mut fmt::Formatter<W>,
    path: &str,
    records: &PeerRecords,
    treated: Option<u64>,
) -> fmt::Result {
    let count = records.records();
    write!(f, "{path}: records {count}")?;
    let course = records.course();
    if let (Some(first), Some(last)) = (course.first_read, course.last_read) {
        let (first, last) = (Utc(first), Utc(last));
        write!(f, ", {first} to {last} UTC")?;
    }
    let (sessions, faulty) = (sessions_in(records), records.faulty());
    write!(f, ", sessions {sessions}, faulty {faulty}")?;
    if let Some(treated) = treated {
        write!(f, ", treated as withdrawn {treated}")?;
    }
    Ok(())
}

// How many sessions changes of state and losses show; those that UPDATEs alone show don't count.
fn sessions_in(records: &PeerRecords) -> usize {
    let mut count: usize = 0;
    for session in records.sessions() {
        if !session.shown {
            count = count.saturating_add(1);
        }
    }
    count
}

/// Adds the line of what is found of the peer of a name.
pub(crate) fn add_line(text: &mut String, name: &str, found: Found<'_>) -> Result<(), AllocError> {
    writeln!(text, "peer {name}: {found}")
}
