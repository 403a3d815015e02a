//! Laws over the definitions: functions that do nothing, each with a law as its contract.
ghost use Rattle.warc_answer.specs.Laws.{AnswersOnce, FailsBeforeAll, LoopsAreAnswered, LoopsAreReplayed};
ghost use Rattle.warc_answer.specs.Laws.{PathsEndInside, PlacesAreAsLong, ReasonsAreAnswers};
ghost use Rattle.warc_answer.specs.Hashed.{EndsAtOnePayload, HasOnePayload, PayloadIsStored};
ghost use Rattle.warc_answer.specs.Stored.{StoredIsAnswered};

use warc_index::laws::{chain_loops, chosen_is_latest, origins_are_records};
use warc_payload::laws::{at_most_one_body, at_most_one_head, no_body_where_coded, one_of_three};

/// For every list of records, URI and moment there is one outcome, a body with what is said of it or a reason, and no
/// other.
pub fn answers_once()
    ensures { AnswersOnce }
{
    at_most_one_body();
    no_body_where_coded();
    one_of_three();
    chosen_is_latest();
    origins_are_records();
}

/// Where no capture or no origin is found, that is the answer; and so is a gap in the segments of the origin.
pub fn reasons_are_answers()
    ensures { ReasonsAreAnswers }
{}

/// The path for a URI as of a moment ends at one of the records, and so does the path from one of them.
pub fn paths_end_inside()
    ensures { PathsEndInside }
{
    chosen_is_latest();
    origins_are_records();
}

/// The places of blocks hold as many bytes as the blocks, one after another.
pub fn places_are_as_long()
    ensures { PlacesAreAsLong }
{}

/// Where a read or an allocation fails before anything is written, that is a replay too, whatever the answer is, on a
/// path that ends at one of the records.
pub fn fails_before_all()
    ensures { FailsBeforeAll }
{
    one_of_three();
}

/// A replay answers what is stored of an origin: the same reason, `Coded` for a coded body, or the body with what is
/// said of it.
pub fn stored_is_answered()
    ensures { StoredIsAnswered }
{}

/// P6 is the answer exactly where the chain of the chosen capture comes back to a record that it has left, whatever its
/// length. A replay that no read, write or request for memory ends gives that reason exactly there.
pub fn loops_are_answered()
    ensures answers { LoopsAreAnswered }
    ensures replays { LoopsAreReplayed }
{
    chosen_is_latest();
    chain_loops();
}

/// Each block has one payload or none, and so has each path that ends at one of the records.
pub fn has_one_payload()
    ensures block { HasOnePayload }
    ensures path { EndsAtOnePayload }
{
    at_most_one_head();
    one_of_three();
}

/// The payload at the end of a path is what replays find stored there.
pub fn payload_is_stored()
    ensures { PayloadIsStored }
{
    at_most_one_head();
}
