//! What holds of the definitions. Each law is the contract of a function that does nothing.

ghost use Rattle.rs_dump.specs.Laws.{DumpIsItsRecords, PrefixIsSpelled};

/// A prefix stands in a dump as it would in an UPDATE (RFC 6396, section 4.3.2; RFC 4271, section 4.3).
pub fn prefix_in_a_dump_is_spelled()
    ensures { PrefixIsSpelled }
{}

/// As a file of MRT records (RFC 6396, section 2), a dump is just its records, and nothing is left over.
pub fn dump_is_its_records()
    ensures { DumpIsItsRecords }
{}
