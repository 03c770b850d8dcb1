//! A source of records: whatever gives MRT records one after another.

ghost use Rattle.std.specs.Prelude.{◌≡◌, ◌+◌, ◌^◌, ◌<◌, ◌≤◌, ℕ, Bool, List, Option, Result};
ghost use Rattle.std.specs.Option.{option_map};
ghost use Rattle.rs_mrt.specs.declared.fault.SourceFault.{SourceFault};
ghost use Rattle.rs_mrt.specs.Record.{MrtRecord, record_of, octets_of};
ghost use Rattle.rs_mrt.specs.Source.{Advances, CountsFailure, Stays, Stops, SomethingComes};

use crate::fault::SourceFault;
use crate::record::Record;

/// What gives MRT records, one after another.
pub trait Source {
    // The record that is shown: none before the first one, at the end and after a fault.
    ghost shows: { Self → Option MrtRecord };

    // These records may still come, and after them the end, or that fault: one of the octets, or a failed read.
    ghost comes: { Self → List MrtRecord → Option SourceFault → Type 0 };

    // The answer that it repeats from now on, after an end or a fault.
    ghost stopped: { Self → Option (Result Bool SourceFault) };

    // How many reads failed.
    ghost failures: { Self → ℕ };

    // It has taken as many octets as it ever takes.
    ghost full: { Self → Type 0 };

    // At least as many octets as spell the records that it will still show, fewer than 2 to the 64th.
    ghost room: { Self → ℕ };

    /// Goes to the next record and answers whether there is one. After the end it always answers `false`, and after
    /// a fault it always answers that fault. All whole records that came before a failed read are gone to first.
    fn advance(&mut self) -> Result<bool, SourceFault>
        ensures records { Advances comes self.old self.new (shows self.new) result }
        ensures bound { room self.old < 2 ^ 64 }
        ensures room { room self.new + octets_of (shows self.new) ≤ room self.old }
        ensures failures { CountsFailure (failures self.old) (failures self.new) (full self.new)
            (stopped self.old) result }
        ensures stays { Stays (stopped self.old) (failures self.old) (failures self.new) result }
        ensures stops { Stops (stopped self.new) result };

    /// Gives the record to which the last `advance` went.
    fn shown(&self) -> Option<Record<'_>>
        ensures { option_map record_of result ≡ shows self.now };

    // There is always something that may come.
    ghost may_come: { (source : Self) → SomethingComes (comes source) };
}
