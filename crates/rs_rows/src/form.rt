//! How an answer is printed.

/// How an answer is printed.
#[derive(Clone, Copy, Debug, PartialEq, Eq, Drop)]
pub enum Form {
    /// In aligned columns, for people.
    Text,
    /// As CSV (RFC 4180), with a line of titles.
    Csv,
    /// As JSON (RFC 8259), an object on each line.
    Json,
}
