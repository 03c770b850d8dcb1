//! Where the times of records go back, as in a file whose pieces are joined in the wrong order (RFC 6396, section 2).
//!
//! Our choice: a record goes back if it is earlier than the latest one before it by more than a minute.

ghost use Rattle.std.specs.Prelude.{◌≡◌};
ghost use Rattle.rs_inventory.specs.Back.{back_behind, first_back};

// How far a record may be behind the latest one before it, in seconds.
const TOLERATED: u32 = 60;

/// Where the times of records go back.
#[derive(Clone, Copy, Debug, PartialEq, Eq)]
pub struct Back {
    /// By how many seconds.
    pub seconds: u32,
    /// How many records stand before the one that goes back.
    pub records: u64,
    /// How many octets stand before it: none if one of those records is longer than any of a session.
    pub octet: Option<u64>,
}

/// Where times go back the first time, with one record more, of a time. Those before it are so many, with so many octets,
/// of which `last` is the latest time; `before` tells where they go back.
pub(crate) fn back_with(
    before: Option<Back>,
    last: Option<u32>,
    time: u32,
    records: u64,
    octet: Option<u64>,
) -> Option<Back>
    ensures { result ≡ first_back before (back_behind last time records octet) }
{
    match before {
        Some(_) => before,
        None => back_behind(last, time, records, octet),
    }
}

// Where a record of a time goes back, if it does.
fn back_behind(last: Option<u32>, time: u32, records: u64, octet: Option<u64>) -> Option<Back>
    ensures { result ≡ back_behind last time records octet }
{
    let last = last?;
    if last <= time || last - time <= TOLERATED {
        return None;
    }
    Some(Back {
        seconds: last - time,
        records,
        octet,
    })
}
