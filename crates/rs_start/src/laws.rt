//! What holds of the definitions that the contracts cite: each law is the contract of a function that does nothing.

ghost use Rattle.rs_start.specs.Laws.{OpeningAnnounces};
ghost use Rattle.rs_start.specs.Table.{EntryIsRead};

use rs_update::{by_rfc_4271_a_message_says_what_it_says, without_a_fault_both_standards_agree};

/// What is written of a table reads, as the peer's session, as one announcement for each route, in order. The session
/// goes on with what follows in the file (RFC 6396, section 4.4; RFC 4271, sections 3.1 and 4.3).
pub fn a_session_begins_with_the_routes_of_the_table()
    ensures { OpeningAnnounces }
{
    by_rfc_4271_a_message_says_what_it_says();
    without_a_fault_both_standards_agree();
}

/// An entry of a record of routes is read as it is spelled (RFC 6396, section 4.3.4).
pub fn an_entry_of_a_table_is_read_as_it_is_spelled()
    ensures { EntryIsRead }
{}
