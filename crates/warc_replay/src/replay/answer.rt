//! What an archive gives for a URI as of a moment.
ghost use Rattle.std.specs.Prelude.{◌≡◌, List, map, Result};
ghost use Rattle.warc_frame.specs.Record.{Record};
ghost use Rattle.warc_answer.specs.Answers.{path_from, path_of};
ghost use Rattle.warc_lookup.specs.Indexed.{AreOf, indexed_record};
ghost use Rattle.warc_reading.specs.Row.{Placed};
ghost use Rattle.warc_replay.specs.Replaying.{Replays, ReplaysOn};
ghost use Rattle.warc_replay.specs.Status.{LeadsTo};

use crate::replay::origin::origin_at;
use std::alloc::Allocator;
use warc_answer::laws::{
    fails_before_all, paths_end_inside, places_are_as_long, reasons_are_answers,
};
use warc_answer::{Answer, Path, Reason, ReplayFault, replay_joined};
use warc_frame::{Sink, Source};
use warc_index::Unfound;
use warc_lookup::Lookup;
use warc_reading::Rows;
use warc_segment::laws::places_are_of_records;
use warc_value::Moment;

/// From a capture to its origin.
pub fn path_from<A: Allocator + Copy>(lookup: &Lookup<A>, chosen: usize) -> Result<Path, Unfound>
    ensures { (records : List Placed) → AreOf records lookup.now.index lookup.now.parts →
        result ≡ path_from (map indexed_record records) chosen }
{
    match lookup.index.origin(chosen) {
        Ok(given) => Ok(Path { chosen, given }),
        Err(unfound) => Err(unfound),
    }
}

/// From the capture that is chosen for a URI as of a moment to its origin.
pub fn path_in<A: Allocator + Copy>(
    lookup: &Lookup<A>,
    uri: &[u8],
    moment: &Moment,
) -> Result<Path, Unfound>
    ensures { (records : List Placed) → AreOf records lookup.now.index lookup.now.parts →
        result ≡ path_of (map indexed_record records) uri.now moment.now }
{
    match lookup.index.latest(uri, moment) {
        Ok(chosen) => path_from(lookup, chosen),
        Err(unfound) => Err(unfound),
    }
}

/// Writes the payload at the end of a path.
pub(crate) fn replay_on<S: Source, W: Sink, A: Allocator + Copy>(
    source: &mut S,
    rows: &Rows<A>,
    lookup: &Lookup<A>,
    path: Path,
    out: &mut W,
) -> Result<Answer, ReplayFault>
    ensures { (way : List Record → Result Path Unfound) → LeadsTo way path rows.now lookup.now.index lookup.now.parts →
        ReplaysOn rows.now lookup.now.index lookup.now.parts way (S.seen source.old) (S.seen source.new)
        (W.seen out.old) (W.seen out.new) result }
{
    reasons_are_answers();
    fails_before_all();
    places_are_of_records();
    places_are_as_long();
    let origin = origin_at(source, rows, lookup, path.given)?;
    replay_joined(source, path, origin.http, &origin.places, out)
}

/// Writes the payload that the records of a source give for a URI as of a moment.
pub fn replay_rows<S: Source, W: Sink, A: Allocator + Copy>(
    source: &mut S,
    rows: &Rows<A>,
    lookup: &Lookup<A>,
    uri: &[u8],
    moment: &Moment,
    out: &mut W,
) -> Result<Answer, ReplayFault>
    ensures { Replays rows.now lookup.now.index lookup.now.parts uri.now moment.now (S.seen source.old)
        (S.seen source.new) (W.seen out.old) (W.seen out.new) result }
{
    reasons_are_answers();
    paths_end_inside();
    match path_in(lookup, uri, moment) {
        Ok(path) => replay_on(source, rows, lookup, path, out),
        Err(unfound) => Err(ReplayFault::Reason(Reason::NotFound(unfound))),
    }
}
