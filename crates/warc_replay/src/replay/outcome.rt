//! What the capture at a position gives: what is said of it, and what is stored of its origin, coded or not.
ghost use Rattle.std.specs.Prelude.{◌≡◌};
ghost use Rattle.warc_replay.specs.Outcomes.{GivesStoredAt, JudgesAt, answer_seen};

use crate::fault::BodyFault;
use crate::replay::body::{Found, find};
use crate::replay::stored::{send_origin, stored_of_origin};
use std::alloc::{Allocator, Global};
use warc_answer::laws::paths_end_inside;
use warc_answer::{Path, Reason, ReplayFault, Stored};
use warc_frame::{Sink, Source};
use warc_lookup::Lookup;
use warc_reading::Rows;

/// What a capture gives, without the body.
#[derive(Debug, Drop)]
pub struct Outcome<A: Allocator = Global> {
    /// Its position, from 0.
    pub chosen: usize,

    /// The position of its origin, where one is found.
    pub given: Option<usize>,

    /// What is stored of the origin, or the reason why nothing is. A coded body (P10) is stored.
    pub stored: Result<Stored<A>, Reason>,
}

/// What was written of a capture: where it comes from, and what is said of it.
#[derive(Debug, Drop)]
pub struct StoredAt<A: Allocator = Global> {
    pub path: Path,
    pub stored: Stored<A>,
}

/// What the capture at a position gives, without the body.
pub fn capture_outcome<S: Source, A: Allocator + Copy>(
    source: &mut S,
    rows: &Rows<A>,
    lookup: &Lookup<A>,
    position: usize,
) -> Result<Outcome<A>, BodyFault>
    ensures { JudgesAt rows.now lookup.now.index lookup.now.parts position (S.seen source.old) (S.seen source.new)
        result }
{
    paths_end_inside();
    let path = match find(rows, lookup, position) {
        Found::NoRecord => return Err(BodyFault::NoRecord),
        Found::NoCapture => return Err(BodyFault::NoCapture),
        Found::Capture(path) => path,
    };
    match path {
        Ok(path) => match stored_of_origin(source, rows, lookup, path.given) {
            Ok(stored) => Ok(Outcome {
                chosen: position,
                given: Some(path.given),
                stored,
            }),
            Err(fault) => Err(BodyFault::Replay(ReplayFault::Out(fault))),
        },
        Err(unfound) => Ok(Outcome {
            chosen: position,
            given: None,
            stored: Err(Reason::NotFound(unfound)),
        }),
    }
}

/// Writes what is stored of the origin of the capture at a position, coded or not.
pub fn send_at<S: Source, W: Sink, A: Allocator + Copy>(
    source: &mut S,
    rows: &Rows<A>,
    lookup: &Lookup<A>,
    position: usize,
    out: &mut W,
) -> Result<StoredAt<A>, BodyFault>
    ensures { GivesStoredAt rows.now lookup.now.index lookup.now.parts position (S.seen source.old)
        (S.seen source.new) (W.seen out.old) (W.seen out.new) (answer_seen result) }
{
    paths_end_inside();
    let path = match find(rows, lookup, position) {
        Found::NoRecord => return Err(BodyFault::NoRecord),
        Found::NoCapture => return Err(BodyFault::NoCapture),
        Found::Capture(path) => path,
    };
    match path {
        Ok(path) => match send_origin(source, rows, lookup, path.given, out) {
            Ok(stored) => Ok(StoredAt { path, stored }),
            Err(fault) => Err(BodyFault::Replay(fault)),
        },
        Err(unfound) => {
            let reason = Reason::NotFound(unfound);
            Err(BodyFault::Replay(ReplayFault::Reason(reason)))
        }
    }
}
