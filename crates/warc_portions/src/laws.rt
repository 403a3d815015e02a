//! Laws over the definitions: each function does nothing, and its contract is the law.
ghost use Rattle.warc_portions.specs.Outputs.{EndsAfterPositions, EndsAfterRecords, PortionsAreAll, SplitBegins};

/// All portions of an output, one after another, are what is left at the first cursor.
pub fn portions_are_all()
    ensures { PortionsAreAll }
{}

/// What is left of split records at the first cursor is all that is written of them.
pub fn split_begins()
    ensures { SplitBegins }
{}

/// After the last record nothing is left.
pub fn ends_after_records()
    ensures { EndsAfterRecords }
{}

/// After the last position nothing is left.
pub fn ends_after_positions()
    ensures { EndsAfterPositions }
{}
