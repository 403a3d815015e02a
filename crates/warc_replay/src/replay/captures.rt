//! The captures of an archive, and their outcomes. Joined blocks are hashed once, however many captures lead to them.
ghost use Rattle.std.specs.Prelude.{◌≡◌, ℕ, ◌++◌, ◌∷◌, List, [], Err, IfOk, OnOk};
ghost use Rattle.warc_frame.specs.Record.{Record};
ghost use Rattle.warc_record.specs.Kinds.{kind_named};
ghost use Rattle.warc_answer.specs.Stored.{IsStoredAt};
ghost use Rattle.warc_replay.specs.Captures.{capture_positions, position_if};
ghost use Rattle.warc_replay.specs.Capturing.{AreUnknown, IsJoinedVerdict, JudgesAll, JudgesEach, JudgesNext, JudgesOne};
ghost use Rattle.warc_replay.specs.KnownGaps.{AreKnownSeries};
ghost use Rattle.warc_replay.specs.Outcomes.{judged_seen};

use crate::replay::answer::path_from;
use crate::replay::known_gaps::KnownGaps;
use crate::replay::lone::judge_once;
use crate::replay::outcome::Outcome;
use std::alloc::{AllocError, Allocator};
use warc_answer::laws::paths_end_inside;
use warc_answer::{Reason, Stored};
use warc_frame::{OutFault, Source};
use warc_judged::{Verdicts, is_capture};
use warc_lookup::Lookup;
use warc_reading::Rows;
use warc_value::Verdict;

/// Adds a position, if the record there is a capture.
fn push_if<A: Allocator>(
    positions: &mut Vec<usize, A>,
    position: usize,
    kind: &[u8],
) -> Result<(), AllocError>
    ensures { OnOk result (positions.new.items ≡ positions.old.items ++ position_if position kind.now) }
{
    if !is_capture(kind) {
        return Ok(());
    }
    positions.push(position)?;
    Ok(())
}

/// The positions of the captures, in their order.
pub fn capture_positions<A: Allocator + Copy>(rows: &Rows<A>) -> Result<Vec<usize, A>, AllocError>
    ensures { IfOk result (λ positions. positions.items ≡ capture_positions rows.now) }
{
    let mut positions = Vec::new(rows.allocator());
    'listing: for position in 0..rows.len() {
        let Some(row) = rows.get(position) else {
            unreachable!()
        };
        push_if(&mut positions, position, row.kind)?;
    }
    Ok(positions)
}

/// What is found of the blocks that are joined to an origin, by the reason why nothing is stored of it.
fn verdict_for(reason: Reason) -> Verdict
    ensures { (records : List Record) (origin : ℕ) → IsStoredAt records origin (Err reason) →
        IsJoinedVerdict records origin result }
{
    match reason {
        Reason::BadHead => Verdict::Good,
        Reason::BadDigest => Verdict::Bad,
        _ => Verdict::Unchecked,
    }
}

/// What is found of the blocks that are joined to an origin, by what is stored of it.
fn verdict_by<A: Allocator>(judged: &Result<Stored<A>, Reason>) -> Verdict
    ensures { (records : List Record) (origin : ℕ) → IsStoredAt records origin (judged_seen judged.now) →
        IsJoinedVerdict records origin result }
{
    match judged {
        Ok(_) => Verdict::Good,
        Err(reason) => verdict_for(*reason),
    }
}

/// What was found of joined blocks: of all that are joined to the record at a position, and of those after a first
/// segment's own in the series of the segment at a position.
#[derive(Drop)]
pub(crate) struct JoinedVerdicts<A: Allocator> {
    whole: Verdicts<A>,
    rest: Verdicts<A>,
}

impl<A: Allocator + Copy> JoinedVerdicts<A> {
    /// For this number of records, of which nothing was found.
    pub(crate) fn unknown(alloc: A, count: usize) -> Result<JoinedVerdicts<A>, AllocError>
        ensures { IfOk result AreUnknown }
    {
        let whole = Verdicts::unknown(alloc, count)?;
        let rest = Verdicts::unknown(alloc, count)?;
        Ok(JoinedVerdicts { whole, rest })
    }
}

/// What was found so far: of joined blocks, and of series.
#[derive(Drop)]
pub(crate) struct Remembered<A: Allocator> {
    pub(crate) found: JoinedVerdicts<A>,
    pub(crate) gaps: KnownGaps<A>,
}

/// What is stored of an origin, by what is known of each record's block, and what was found of the blocks that are
/// joined to it. What is found of these now is remembered.
fn stored_once<S: Source, A: Allocator + Copy>(
    source: &mut S,
    rows: &Rows<A>,
    lookup: &Lookup<A>,
    origin: usize,
    known: &Verdicts<A>,
    remembered: &mut Remembered<A>,
) -> Result<Result<Stored<A>, Reason>, OutFault>
    requires { AreKnownSeries lookup.now.parts remembered.old.gaps }
    ensures judges { JudgesOne rows.now lookup.now.parts origin known.now remembered.old.found
        remembered.new.found (S.seen source.old) (S.seen source.new) result }
    ensures known { AreKnownSeries lookup.now.parts remembered.new.gaps }
{
    let own = known.at(origin);
    let joined = remembered.found.whole.at(origin);
    let judged = judge_once(
        source,
        rows,
        lookup,
        &mut remembered.gaps,
        &mut remembered.found.rest,
        origin,
        own,
        joined,
    )?;
    remembered.found.whole.set(origin, verdict_by(&judged));
    Ok(judged)
}

/// The outcome of the capture at a position, by what is known of each record's block, and what was found of the blocks
/// that are joined to each. What is found now is remembered.
pub(crate) fn outcome_once<S: Source, A: Allocator + Copy>(
    source: &mut S,
    rows: &Rows<A>,
    lookup: &Lookup<A>,
    position: usize,
    known: &Verdicts<A>,
    remembered: &mut Remembered<A>,
) -> Result<Outcome<A>, OutFault>
    requires { AreKnownSeries lookup.now.parts remembered.old.gaps }
    ensures judges { JudgesNext rows.now lookup.now.index lookup.now.parts position known.now
        remembered.old.found remembered.new.found (S.seen source.old) (S.seen source.new) result }
    ensures known { AreKnownSeries lookup.now.parts remembered.new.gaps }
{
    paths_end_inside();
    match path_from(lookup, position) {
        Ok(path) => match stored_once(source, rows, lookup, path.given, known, remembered) {
            Ok(stored) => Ok(Outcome {
                chosen: position,
                given: Some(path.given),
                stored,
            }),
            Err(fault) => Err(fault),
        },
        Err(unfound) => Ok(Outcome {
            chosen: position,
            given: None,
            stored: Err(Reason::NotFound(unfound)),
        }),
    }
}

/// Adds an outcome.
fn push_outcome<A: Allocator>(
    outcomes: &mut Vec<Outcome<A>, A>,
    outcome: Outcome<A>,
) -> Result<(), AllocError>
    ensures { OnOk result (outcomes.new.items ≡ outcomes.old.items ++ outcome ∷ []) }
{
    outcomes.push(outcome)?;
    Ok(())
}

/// The outcomes of the captures at positions, in their order, by what is known of each record's block. Joined blocks
/// are hashed once.
fn judge_each<S: Source, A: Allocator + Copy>(
    source: &mut S,
    rows: &Rows<A>,
    lookup: &Lookup<A>,
    known: &Verdicts<A>,
    positions: &[usize],
) -> Result<Vec<Outcome<A>, A>, OutFault>
    ensures { JudgesEach known.now rows.now lookup.now.index lookup.now.parts positions.now (S.seen source.old)
        (S.seen source.new) result }
{
    let alloc = rows.allocator();
    let Ok(found) = JoinedVerdicts::unknown(alloc, rows.len()) else {
        return Err(OutFault::Memory(0));
    };
    let gaps = KnownGaps::new(alloc);
    let mut remembered = Remembered { found, gaps };
    let mut outcomes = Vec::new(alloc);
    'judging: for position in positions {
        let outcome = outcome_once(source, rows, lookup, *position, known, &mut remembered)?;
        let Ok(()) = push_outcome(&mut outcomes, outcome) else {
            return Err(OutFault::Memory(0));
        };
    }
    Ok(outcomes)
}

/// The outcomes that `judge_each` gives, if nothing is known of any block.
pub fn judge_all<S: Source, A: Allocator + Copy>(
    source: &mut S,
    rows: &Rows<A>,
    lookup: &Lookup<A>,
    positions: &[usize],
) -> Result<Vec<Outcome<A>, A>, OutFault>
    ensures { JudgesAll rows.now lookup.now.index lookup.now.parts positions.now (S.seen source.old)
        (S.seen source.new) result }
{
    let known = Verdicts::new(rows.allocator());
    judge_each(source, rows, lookup, &known, positions)
}
