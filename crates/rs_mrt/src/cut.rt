//! A record that the end of its file cuts short (RFC 6396, section 2).

/// Where the end of a file cuts a record short.
#[derive(Clone, Copy, Debug, PartialEq, Eq, Drop)]
pub struct Cut {
    /// How many octets of the file stand before the record.
    pub octet: u64,
    /// How many octets of the record came, its header included.
    pub len: u64,
    /// The record's Timestamp, in seconds since 1970: given if its four octets came.
    pub time: Option<u32>,
}
