//! Where a body is in the source, for callers that hold its bytes.
ghost use Rattle.std.specs.Prelude.{List, Result};
ghost use Rattle.warc_frame.specs.Record.{Record};
ghost use Rattle.warc_replay.specs.Locating.{LocatesAt, LocatesFor, LocatesOn};
ghost use Rattle.warc_replay.specs.Status.{LeadsTo};

use crate::fault::BodyFault;
use crate::replay::answer::path_in;
use crate::replay::body::{Found, find};
use crate::replay::origin::origin_at;
use std::alloc::Allocator;
use warc_answer::laws::{
    fails_before_all, paths_end_inside, places_are_as_long, reasons_are_answers,
};
use warc_answer::{Located, Path, Reason, ReplayFault, locate_joined};
use warc_frame::Source;
use warc_index::Unfound;
use warc_lookup::Lookup;
use warc_reading::Rows;
use warc_segment::laws::places_are_of_records;
use warc_value::Moment;

/// Where the payload at the end of a path is.
fn locate_on<S: Source, A: Allocator + Copy>(
    source: &mut S,
    rows: &Rows<A>,
    lookup: &Lookup<A>,
    path: Path,
) -> Result<Located<A>, ReplayFault>
    ensures { (way : List Record → Result Path Unfound) → LeadsTo way path rows.now lookup.now.index lookup.now.parts →
        LocatesOn rows.now lookup.now.index lookup.now.parts way (S.seen source.old) (S.seen source.new) result }
{
    reasons_are_answers();
    fails_before_all();
    places_are_of_records();
    places_are_as_long();
    let origin = origin_at(source, rows, lookup, path.given)?;
    locate_joined(rows.allocator(), source, path, origin.http, &origin.places)
}

/// Where the payload is that the records of a source give for a URI as of a moment.
pub fn locate_for<S: Source, A: Allocator + Copy>(
    source: &mut S,
    rows: &Rows<A>,
    lookup: &Lookup<A>,
    uri: &[u8],
    moment: &Moment,
) -> Result<Located<A>, ReplayFault>
    ensures { LocatesFor rows.now lookup.now.index lookup.now.parts uri.now moment.now (S.seen source.old)
        (S.seen source.new) result }
{
    reasons_are_answers();
    paths_end_inside();
    match path_in(lookup, uri, moment) {
        Ok(path) => locate_on(source, rows, lookup, path),
        Err(unfound) => Err(ReplayFault::Reason(Reason::NotFound(unfound))),
    }
}

/// Where the body is that the capture at a position gives.
pub fn locate_at<S: Source, A: Allocator + Copy>(
    source: &mut S,
    rows: &Rows<A>,
    lookup: &Lookup<A>,
    position: usize,
) -> Result<Located<A>, BodyFault>
    ensures { LocatesAt rows.now lookup.now.index lookup.now.parts position (S.seen source.old) (S.seen source.new)
        result }
{
    reasons_are_answers();
    paths_end_inside();
    let path = match find(rows, lookup, position) {
        Found::NoRecord => return Err(BodyFault::NoRecord),
        Found::NoCapture => return Err(BodyFault::NoCapture),
        Found::Capture(path) => path,
    };
    match path {
        Ok(path) => match locate_on(source, rows, lookup, path) {
            Ok(body) => Ok(body),
            Err(fault) => Err(BodyFault::Replay(fault)),
        },
        Err(unfound) => {
            let reason = Reason::NotFound(unfound);
            Err(BodyFault::Replay(ReplayFault::Reason(reason)))
        }
    }
}
