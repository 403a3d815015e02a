//! What the capture at a position gives.
ghost use Rattle.warc_index.specs.Captures.{is_capture};
ghost use Rattle.warc_replay.specs.Bodies.{GivesBodyAt};
ghost use Rattle.warc_replay.specs.Finding.{IsFoundAt};

use crate::fault::BodyFault;
use crate::replay::answer::{path_from, replay_on};
use std::alloc::Allocator;
use warc_answer::laws::{paths_end_inside, reasons_are_answers};
use warc_answer::{Answer, Path, Reason, ReplayFault};
use warc_frame::{Sink, Source};
use warc_index::Unfound;
use warc_judged::is_capture;
use warc_lookup::Lookup;
use warc_reading::Rows;

/// What is found at a position before the source is read.
#[derive(Clone, Copy, Debug, PartialEq, Eq)]
pub(crate) enum Found {
    NoRecord,
    NoCapture,

    /// A capture, and the path from it to its origin.
    Capture(Result<Path, Unfound>),
}

/// What is found at a position.
pub(crate) fn find<A: Allocator + Copy>(
    rows: &Rows<A>,
    lookup: &Lookup<A>,
    position: usize,
) -> Found
    ensures { IsFoundAt rows.now lookup.now.index lookup.now.parts position result }
{
    let Some(row) = rows.get(position) else {
        return Found::NoRecord;
    };
    if !is_capture(row.kind) {
        return Found::NoCapture;
    }
    Found::Capture(path_from(lookup, position))
}

/// Writes the body that the capture at a position gives.
pub fn give_body<S: Source, W: Sink, A: Allocator + Copy>(
    source: &mut S,
    rows: &Rows<A>,
    lookup: &Lookup<A>,
    position: usize,
    out: &mut W,
) -> Result<Answer, BodyFault>
    ensures { GivesBodyAt rows.now lookup.now.index lookup.now.parts position (S.seen source.old)
        (S.seen source.new) (W.seen out.old) (W.seen out.new) result }
{
    reasons_are_answers();
    paths_end_inside();
    let path = match find(rows, lookup, position) {
        Found::NoRecord => return Err(BodyFault::NoRecord),
        Found::NoCapture => return Err(BodyFault::NoCapture),
        Found::Capture(path) => path,
    };
    match path {
        Ok(path) => match replay_on(source, rows, lookup, path, out) {
            Ok(answer) => Ok(answer),
            Err(fault) => Err(BodyFault::Replay(fault)),
        },
        Err(unfound) => {
            let reason = Reason::NotFound(unfound);
            Err(BodyFault::Replay(ReplayFault::Reason(reason)))
        }
    }
}
