//! Times of records (RFC 6396, section 2: seconds since 1970), as they are shown in UTC.

ghost use Rattle.std.specs.Prelude.{◌≡◌, ◌*◌, pos};
ghost use Rattle.jiff.specs.Words.{civil_nanos};

use jiff::Timestamp;
use jiff::civil::DateTime;
use jiff::tz::Offset;
use std::fmt;

/// What a clock in UTC shows at a time in seconds since 1970. Its parts, `date` and `time`, are shown as
/// `2026-11-22` and `06:36:20`.
pub fn civil_time(seconds: u32) -> DateTime
    ensures { civil_nanos result ≡ pos (seconds * 1_000_000_000) }
{
    let Ok(instant) = Timestamp::from_second(i64::from(seconds)) else {
        unreachable!()
    };
    Offset::UTC.to_datetime(instant)
}

/// A time in seconds since 1970, shown as `2026-11-22 06:36:20`, in UTC.
#[derive(Clone, Copy, Debug, PartialEq, Eq, Drop)]
pub struct Utc(pub u32);

impl fmt::Display for Utc {
    fn fmt<W: fmt::Write>(&self, f: &mut fmt::Formatter<W>) -> fmt::Result {
        let shown = civil_time(self.0);
        let (date, time) = (shown.date(), shown.time());
        write!(f, "{date} {time}")
    }
}
