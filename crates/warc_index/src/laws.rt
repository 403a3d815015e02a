//! Laws over the definitions: functions that do nothing, each with a law as its contract.
ghost use Rattle.warc_index.specs.Captures.{ChosenIsLatest, LatestIsLast};
ghost use Rattle.warc_index.specs.Referents.{ChainLoops, OriginsAreRecords};
ghost use Rattle.warc_index.specs.Texts.{KeepsTexts};
ghost use Rattle.warc_index.specs.Walks.{LoopsWhereUnfinished};

/// Among n positions, a walk hasn't ended after n steps exactly if it comes back to one that it has left.
pub fn loops_where_unfinished()
    ensures { LoopsWhereUnfinished }
{}

/// The latest that passes is the one such that none that passes is later; there is none exactly if none passes.
pub fn latest_is_last()
    ensures { LatestIsLast }
{}

/// The chosen capture is the one of the target, by the moment, such that no other is later, by instant and then by
/// position. There is none if no capture has the target, or if some has and none is early enough.
pub fn chosen_is_latest()
    ensures { ChosenIsLatest }
{}

/// The origin of a record is one of the records.
pub fn origins_are_records()
    ensures { OriginsAreRecords }
{}

/// A capture has no origin for a loop exactly if the chain of referents comes back to a record that it has left.
pub fn chain_loops()
    ensures { ChainLoops }
{}

/// An index keeps of each record the key of its id, of a capture its target, of a response or a resource its payload
/// digest, and of a revisit what it names, or its payload digest if it names nothing. Each is kept once. So `kept`
/// of an index is the sum of their lengths.
pub fn kept_texts_are_counted()
    ensures { KeepsTexts }
{}
