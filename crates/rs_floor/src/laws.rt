//! What holds of the definitions that the contracts cite: each law is the contract of a function that does nothing.

ghost use Rattle.rs_floor.specs.Laws.{DrainedDumpsAgree, DrainedDumpsAreOfFiles, DrainedSchedulesAgree};

/// If all that the files say was received, the tables are those of the files alone: so any two such
/// schedules, of whatever capacity, give every client the same table.
pub fn drained_schedules_agree()
    ensures { DrainedSchedulesAgree }
{}

/// If all that the files say was received, the dump of each client is that of the files alone: so any two
/// such schedules, of whatever capacity, give the same octets.
pub fn drained_schedules_dump_alike()
    ensures files { DrainedDumpsAreOfFiles }
    ensures agree { DrainedDumpsAgree }
{
    drained_schedules_agree();
}
