//! What is stored of an origin, and where: its head is read again, and its segments are joined.
ghost use Rattle.std.specs.Prelude.{◌≡◌, ◌⊎◌, ◌*◌, ℕ, List, drop, length, IfErr, IfOk};
ghost use Rattle.std.specs.List.{list_any};
ghost use Rattle.warc_frame.specs.Effects.{FailsBy, read_result};
ghost use Rattle.warc_frame.specs.Seen.{IfHeld};
ghost use Rattle.warc_answer.specs.Known.{Agrees};
ghost use Rattle.warc_answer.specs.Origins.{AreBlocksIn};
ghost use Rattle.warc_answer.specs.Payloads.{has_bad_block};
ghost use Rattle.warc_answer.specs.Places.{ReadsPlaces, len_of};
ghost use Rattle.warc_answer.specs.Replays.{out_result};
ghost use Rattle.warc_answer.specs.Seen.{IsEarly};
ghost use Rattle.warc_reading.specs.Archive.{contents};
ghost use Rattle.warc_reading.specs.Row.{Placed};
ghost use Rattle.warc_judged.specs.Counting.{verdict_at};
ghost use Rattle.warc_judged.specs.Waiting.{IsSetAt};
ghost use Rattle.warc_replay.specs.Capturing.{AreRests, IsBlockVerdict, IsJoinedVerdict, IsOriginIn, IsStoredFound, JudgesBy, LooksBy};
ghost use Rattle.warc_replay.specs.KnownGaps.{AreKnownSeries};
ghost use Rattle.warc_replay.specs.Looking.{Judges, Looks, SendsStored};

use crate::replay::known_gaps::{KnownGaps, keep_series};
use crate::replay::known_series::Shared;
use crate::replay::origin::{origin_at, origin_once};
use std::alloc::Allocator;
use warc_answer::laws::places_are_as_long;
use warc_answer::{
    KnownBlocks, Reason, ReplayFault, Stored, find_stored, judge_after, judge_known, judge_split,
    send_blocks,
};
use warc_frame::{OutFault, ReadFault, Sink, Source};
use warc_judged::Verdicts;
use warc_lookup::Lookup;
use warc_reading::Rows;
use warc_segment::Place;
use warc_segment::laws::places_are_of_records;
use warc_value::Verdict;

/// What is stored of an origin, and the places of the blocks that are joined.
#[derive(Drop)]
pub(crate) struct Look<A: Allocator> {
    pub(crate) stored: Stored<A>,
    pub(crate) places: Vec<Place, A>,
}

/// What is stored of the origin at a position.
fn look_at<S: Source, A: Allocator + Copy>(
    source: &mut S,
    rows: &Rows<A>,
    lookup: &Lookup<A>,
    position: usize,
) -> Result<Look<A>, ReplayFault>
    ensures { Looks rows.now lookup.now.parts position (S.seen source.old) (S.seen source.new) result }
{
    places_are_of_records();
    places_are_as_long();
    let origin = origin_at(source, rows, lookup, position)?;
    let alloc = rows.allocator();
    match find_stored(
        alloc,
        source,
        origin.http,
        &origin.content_type,
        &origin.places,
    ) {
        Ok(stored) => Ok(Look {
            stored,
            places: origin.places,
        }),
        Err(fault) => Err(fault),
    }
}

/// What is stored of the origin at a position, or the reason why nothing is.
pub(crate) fn stored_of_origin<S: Source, A: Allocator + Copy>(
    source: &mut S,
    rows: &Rows<A>,
    lookup: &Lookup<A>,
    position: usize,
) -> Result<Result<Stored<A>, Reason>, OutFault>
    ensures { Judges rows.now lookup.now.parts position (S.seen source.old) (S.seen source.new) result }
{
    match look_at(source, rows, lookup, position) {
        Ok(look) => Ok(Ok(look.stored)),
        Err(ReplayFault::Reason(reason)) => Ok(Err(reason)),
        Err(ReplayFault::Out(fault)) => Err(fault),
    }
}

/// Writes what is stored of the origin at a position, coded or not.
pub(crate) fn send_origin<S: Source, W: Sink, A: Allocator + Copy>(
    source: &mut S,
    rows: &Rows<A>,
    lookup: &Lookup<A>,
    position: usize,
    out: &mut W,
) -> Result<Stored<A>, ReplayFault>
    ensures { SendsStored rows.now lookup.now.parts position (S.seen source.old) (S.seen source.new)
        (W.seen out.old) (W.seen out.new) result }
{
    let look = look_at(source, rows, lookup, position)?;
    match send_blocks(source, &look.places, look.stored.head_len, out) {
        Ok(()) => Ok(look.stored),
        Err(fault) => Err(ReplayFault::Out(fault)),
    }
}

/// Whether nothing is known by a verdict.
fn is_unchecked(verdict: Verdict) -> bool {
    match verdict {
        Verdict::Unchecked => true,
        _ => false,
    }
}

/// What is known of the blocks that are joined to an origin: what was found of them, or if its own block alone is, what
/// is known of that.
fn verdict_on(own: Verdict, joined: Verdict, places: &[Place]) -> Verdict
    ensures { (result ≡ joined) ⊎ ((result ≡ own) × (length places.now ≡ 1)) }
{
    match joined {
        Verdict::Unchecked if places.len() == 1 => own,
        _ => joined,
    }
}

/// What is found of the blocks after a first segment's own, by what was found of them in the series of a segment. It is
/// remembered.
fn rest_once<S: Source, A: Allocator + Copy>(
    source: &mut S,
    places: &[Place],
    segment: usize,
    rests: &mut Verdicts<A>,
) -> Result<Verdict, ReadFault>
    ensures found { IfHeld (S.seen source.old).holds (λ bytes. (are : AreBlocksIn places.now bytes) →
        IfOk result (λ verdict. (verdict ≡ verdict_at rests.old segment) ⊎
        Agrees verdict (list_any has_bad_block (drop 1 are.joined)))) }
    ensures set { IfOk result (IsSetAt rests.old rests.new segment) }
    ensures unset { IfErr result (λ _. rests.new ≡ rests.old) }
    ensures reads { ReadsPlaces places.now (len_of places.now) (S.seen source.old) (S.seen source.new) }
    ensures fails { FailsBy (AreBlocksIn places.now) (read_result result) (S.seen source.old) (S.seen source.new) }
{
    let known = rests.at(segment);
    if !is_unchecked(known) {
        return Ok(known);
    }
    match judge_after(source, places) {
        Ok(verdict) => {
            rests.set(segment, verdict);
            Ok(verdict)
        }
        Err(fault) => Err(fault),
    }
}

/// What is stored of an origin that begins a series, by what is known of its own block, of all that are joined to it,
/// and of those after its own in its series. What is found of these is remembered.
fn judge_shared<S: Source, A: Allocator + Copy>(
    alloc: A,
    source: &mut S,
    http: bool,
    content_type: &[u8],
    places: &[Place],
    shared: Shared,
    rests: &mut Verdicts<A>,
    own: Verdict,
    whole: Verdict,
) -> Result<Stored<A>, ReplayFault>
    ensures judged { IfHeld (S.seen source.old).holds (λ bytes. (records : List Placed) (position : ℕ) →
        IsOriginIn bytes records position http content_type.now places.now shared →
        IsBlockVerdict (contents records) position own → IsJoinedVerdict (contents records) position whole →
        AreRests rests.old records → IsStoredFound (contents records) position result) }
    ensures remembers { IfHeld (S.seen source.old).holds (λ bytes. (records : List Placed) (position : ℕ) →
        IsOriginIn bytes records position http content_type.now places.now shared →
        AreRests rests.old records → AreRests rests.new records) }
    ensures early { IfErr result IsEarly }
    ensures reads { ReadsPlaces places.now (5 * len_of places.now) (S.seen source.old) (S.seen source.new) }
    ensures fails { FailsBy (AreBlocksIn places.now) (out_result result) (S.seen source.old) (S.seen source.new) }
{
    places_are_of_records();
    let rest = match rest_once(source, places, shared.segment, rests) {
        Ok(rest) => rest,
        Err(_) => return Err(ReplayFault::Out(OutFault::Read(0))),
    };
    let known = KnownBlocks { whole, own, rest };
    judge_split(
        alloc,
        source,
        http,
        content_type,
        places,
        shared.rest,
        known,
    )
}

/// What is stored of the origin at a position, by what is known of its own block, of all that are joined to it, and of
/// those that series share. What is found of these is remembered.
fn look_by<S: Source, A: Allocator + Copy>(
    source: &mut S,
    rows: &Rows<A>,
    lookup: &Lookup<A>,
    gaps: &mut KnownGaps<A>,
    rests: &mut Verdicts<A>,
    position: usize,
    own: Verdict,
    joined: Verdict,
) -> Result<Stored<A>, ReplayFault>
    requires { AreKnownSeries lookup.now.parts gaps.old }
    ensures looks { LooksBy rows.now lookup.now.parts position own joined rests.old rests.new (S.seen source.old)
        (S.seen source.new) result }
    ensures known { AreKnownSeries lookup.now.parts gaps.new }
{
    places_are_of_records();
    let origin = origin_once(source, rows, lookup, gaps, position)?;
    let Some(shared) = origin.shared else {
        return judge_known(
            rows.allocator(),
            source,
            origin.http,
            &origin.content_type,
            &origin.places,
            verdict_on(own, joined, &origin.places),
        );
    };
    let judged = judge_shared(
        rows.allocator(),
        source,
        origin.http,
        &origin.content_type,
        &origin.places,
        shared,
        rests,
        own,
        joined,
    );
    keep_series(&lookup.parts, gaps, shared, origin.places);
    judged
}

/// What `look_by` gives, or the reason why nothing is stored.
pub(crate) fn judge_by<S: Source, A: Allocator + Copy>(
    source: &mut S,
    rows: &Rows<A>,
    lookup: &Lookup<A>,
    gaps: &mut KnownGaps<A>,
    rests: &mut Verdicts<A>,
    position: usize,
    own: Verdict,
    joined: Verdict,
) -> Result<Result<Stored<A>, Reason>, OutFault>
    requires { AreKnownSeries lookup.now.parts gaps.old }
    ensures judges { JudgesBy rows.now lookup.now.parts position own joined rests.old rests.new (S.seen source.old)
        (S.seen source.new) result }
    ensures known { AreKnownSeries lookup.now.parts gaps.new }
{
    match look_by(source, rows, lookup, gaps, rests, position, own, joined) {
        Ok(stored) => Ok(Ok(stored)),
        Err(ReplayFault::Reason(reason)) => Ok(Err(reason)),
        Err(ReplayFault::Out(fault)) => Err(fault),
    }
}
