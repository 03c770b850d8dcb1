//! Times of records (RFC 6396, section 2: seconds since 1970), as they are read from texts.

use jiff::Timestamp;
use jiff::civil::DateTime;
use jiff::tz::Offset;

/// The time that a text is: seconds since 1970, an instant as `2026-11-22T06:36:20Z`, or a time in UTC as it is shown,
/// `2026-11-22 06:36:20`. A date alone is its first second. A time is in whole seconds, of the years that a Timestamp
/// of 32 bits holds. Other texts give none.
pub fn read_time(text: &str) -> Option<u32> {
    if let Ok(seconds) = text.parse::<u32>() {
        return Some(seconds);
    }
    let instant = read_instant(text)?;
    if instant.subsec_nanosecond() != 0 {
        return None;
    }
    u32::try_from(instant.as_second()).ok()
}

// The instant that a text is: of a text that names no offset from UTC, in UTC.
fn read_instant(text: &str) -> Option<Timestamp> {
    if let Ok(instant) = text.parse::<Timestamp>() {
        return Some(instant);
    }
    let shown = text.parse::<DateTime>().ok()?;
    Offset::UTC.to_timestamp(shown).ok()
}
