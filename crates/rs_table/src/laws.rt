//! Laws of this crate's definitions. Each function does nothing: its contract is the law.

ghost use Rattle.rs_table.specs.Examples.{LeftExamples, TableExamples};
ghost use Rattle.rs_table.specs.Laws.{LeftAfterOneMore, LeftByLastChanges, LeftByLastEntries, LeftByPart};
ghost use Rattle.rs_table.specs.Laws.{TableIsComputed};

/// A list of changes leaves the routes that were announced last on their prefix and since the session was last lost
/// (RFC 4271, section 9.1). It leaves none if the list closes for another reason than the end of its file.
pub fn left_by_last_changes()
    ensures { LeftByLastChanges }
{}

/// A list with one more change leaves what that change makes of what the list left.
pub fn left_after_one_more()
    ensures { LeftAfterOneMore }
{}

/// Take the part of a list that has every change on a prefix, and every change on no prefix: the losses and closes. On
/// that prefix the part leaves what the whole list leaves. So each of several workers may have the routes of prefixes
/// of its own.
pub fn left_by_part()
    ensures { LeftByPart }
{}

/// A list of gathered changes leaves a peer on a prefix what one of its entries says. That entry is the last one of
/// this peer on this prefix that isn't void.
pub fn left_by_last_entries()
    ensures { LeftByLastEntries }
{}

/// A client has one table: the rows that ascend strictly and say of each prefix what the client gets are
/// those that are computed.
pub fn table_is_computed()
    ensures { TableIsComputed }
{}

/// What the definitions say of lists of changes and of small exchanges, worked out by hand.
pub fn examples_hold()
    ensures left { LeftExamples }
    ensures tables { TableExamples }
{}
