//! How many changes came when.

ghost use Rattle.std.specs.Prelude.{◌<◌};

use rs_update::Prefix;

/// How many columns a histogram has.
pub(crate) const COLUMNS: usize = 60;

/// How many prefixes were announced and withdrawn, in parts of the recordings of one length. A count stops at the
/// greatest number of 64 bits.
#[derive(Drop)]
pub(crate) struct Changes {
    /// The time of the first record, in seconds since 1970.
    pub(crate) first: u32,
    /// The time at which the recordings end.
    pub(crate) last: u32,
    /// How many announcements came in each part.
    pub(crate) announced: [u64; COLUMNS],
    /// How many withdrawals.
    pub(crate) withdrawn: [u64; COLUMNS],
    /// The prefix of the change that was counted first.
    pub(crate) example: Option<Prefix>,
}

impl Changes {
    /// None yet, between two times.
    pub(crate) fn none(first: u32, last: u32) -> Changes {
        Changes {
            first,
            last,
            announced: [0; COLUMNS],
            withdrawn: [0; COLUMNS],
            example: None,
        }
    }

    /// Counts an announcement of a prefix.
    pub(crate) fn announce(&mut self, time: u32, prefix: Prefix) {
        self.example = self.example.or(Some(prefix));
        let column = column_of(time, self.first, self.last);
        self.announced[column] = self.announced[column].saturating_add(1);
    }

    /// Counts a withdrawal.
    pub(crate) fn withdraw(&mut self, time: u32, prefix: Prefix) {
        self.example = self.example.or(Some(prefix));
        let column = column_of(time, self.first, self.last);
        self.withdrawn[column] = self.withdrawn[column].saturating_add(1);
    }

    /// When a column begins, in seconds since 1970.
    pub(crate) fn begin_of(&self, column: usize) -> u32 {
        let span = u64::from(self.last.saturating_sub(self.first)) + 1;
        let past = span * (column.min(COLUMNS) as u64) / COLUMNS as u64;
        self.first
            .saturating_add(past.min(u64::from(u32::MAX)) as u32)
    }

    /// The greatest of all counts.
    pub(crate) fn most(&self) -> u64 {
        let mut most = 0;
        for column in 0..COLUMNS {
            most = most.max(self.announced[column]).max(self.withdrawn[column]);
        }
        most
    }
}

// The column of a time between two others.
fn column_of(time: u32, first: u32, last: u32) -> usize
    ensures { result < 60 }
{
    let past = u64::from(time.min(last).saturating_sub(first));
    let span = u64::from(last.saturating_sub(first)) + 1;
    (past * COLUMNS as u64 / span) as usize
}
