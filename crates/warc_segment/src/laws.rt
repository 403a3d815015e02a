//! Laws over the definitions: functions that do nothing, each with a law as its contract.
ghost use Rattle.warc_segment.specs.Joined.{JoinedHasTotal, PlacesAreOfRecords, PlacesHoldTheBlock};
ghost use Rattle.warc_segment.specs.SeriesLaws.{LeastAbsentIsFirst, InOrderIsEach};

/// The least absent number is the first of 2 to n that no segment has.
pub fn least_absent_is_first()
    ensures { LeastAbsentIsFirst }
{}

/// If no number is absent, the segments in order are those numbered 2 to n, one of each.
pub fn in_order_is_each()
    ensures { InOrderIsEach }
{}

/// What is joined as places are the places of the joined records, or there is the same gap.
pub fn places_are_of_records()
    ensures { PlacesAreOfRecords }
{}

/// The bytes at those places, one after another, are the joined block.
pub fn places_hold_the_block()
    ensures { PlacesHoldTheBlock }
{}

/// A joined block is its record's own, or as long as the total that the last of its segments states.
pub fn joined_has_total()
    ensures { JoinedHasTotal }
{}
