//! What is stored of an origin, by its own block and by what is known of the blocks after it. These aren't read again,
//! unless the HTTP head doesn't end in its own block.
ghost use Rattle.std.specs.Prelude.{◌≡◌, ◌*◌, ◌++◌, ◌||◌, List, ℕ, Bool, take, drop, IfErr, IfOk, Ok, false, true};
ghost use Rattle.std.specs.List.{list_any};
ghost use Rattle.warc_field.specs.Area.{Pair};
ghost use Rattle.warc_frame.specs.Effects.{FailsBy, read_result};
ghost use Rattle.warc_frame.specs.Record.{Record};
ghost use Rattle.warc_frame.specs.Seen.{IfHeld};
ghost use Rattle.warc_record.specs.Readings.{reading_of};
ghost use Rattle.warc_segment.specs.Joined.{ReadRecord};
ghost use Rattle.warc_segment.specs.declared.place.Place.{Place as Seen};
ghost use Rattle.warc_answer.specs.Giving.{any_bad_at};
ghost use Rattle.warc_answer.specs.Judging.{IsSeenIn};
ghost use Rattle.warc_answer.specs.Known.{Agrees};
ghost use Rattle.warc_answer.specs.Origins.{AreBlocksIn, IsContentOn};
ghost use Rattle.warc_answer.specs.Payloads.{has_bad_block, is_http_response};
ghost use Rattle.warc_answer.specs.Places.{LieIn, ReadsPlaces, len_of};
ghost use Rattle.warc_answer.specs.Replays.{out_result};
ghost use Rattle.warc_answer.specs.Seen.{IsEarly, IsJudged};
ghost use Rattle.warc_answer.specs.Split.{AreRight, IsExtentOf};
ghost use Rattle.warc_answer.specs.Stored.{own_type};

use crate::answer::{Reason, ReplayFault};
use crate::blocks::any_bad;
use crate::known;
use crate::replay::{any_truncated, total};
use crate::stored::{Stored, all_of, find_stored, find_stored_http, find_stored_other};
use std::alloc::Allocator;
use warc_frame::{ReadFault, Source};
use warc_segment::Place;
use warc_segment::laws::joined_has_total;
use warc_value::Verdict;

/// How long blocks are, one after another, and whether a record of them is marked as truncated.
#[derive(Clone, Copy, Debug, PartialEq, Eq)]
pub struct Extent {
    pub len: u64,
    pub truncated: bool,
}

/// What is known of joined blocks: of all of them, of the first, and of those after it.
#[derive(Clone, Copy, Debug, PartialEq, Eq)]
pub struct KnownBlocks {
    pub whole: Verdict,
    pub own: Verdict,
    pub rest: Verdict,
}

/// The place of the first of joined blocks, which is the origin's own.
fn own_place(places: &[Place]) -> &[Place]
    ensures { result.now ≡ take 1 places.now }
{
    &places[..places.len().min(1)]
}

/// The places of the blocks after it.
fn places_after(places: &[Place]) -> &[Place]
    ensures { result.now ≡ drop 1 places.now }
{
    &places[places.len().min(1)..]
}

/// How long the blocks after an origin's own are, and whether one of their records is marked as truncated.
pub fn extent_after(places: &[Place]) -> Extent
    ensures { IsExtentOf (drop 1 places.now) result }
{
    let rest = places_after(places);
    Extent {
        len: total(rest),
        truncated: any_truncated(rest),
    }
}

/// What is found of the blocks after an origin's own: they are bad if one isn't what its digest says. A block is read
/// only if its digest can be checked.
pub fn judge_after<S: Source>(source: &mut S, places: &[Place]) -> Result<Verdict, ReadFault>
    ensures judged { IfHeld (S.seen source.old).holds (λ bytes. (are : AreBlocksIn places.now bytes) →
        IfOk result (λ verdict. Agrees verdict (list_any has_bad_block (drop 1 are.joined)))) }
    ensures reads { ReadsPlaces places.now (len_of places.now) (S.seen source.old) (S.seen source.new) }
    ensures fails { FailsBy (AreBlocksIn places.now) (read_result result) (S.seen source.old) (S.seen source.new) }
{
    match any_bad(source, places_after(places)) {
        Ok(true) => Ok(Verdict::Bad),
        Ok(false) => Ok(Verdict::Good),
        Err(fault) => Err(fault),
    }
}

/// What is stored in the blocks at places, none of which is bad.
fn seen_good<S: Source, A: Allocator + Copy>(
    alloc: A,
    source: &mut S,
    http: bool,
    own: &[u8],
    places: &[Place],
) -> Result<Stored<A>, ReplayFault>
    ensures seen { IfHeld (S.seen source.old).holds (λ bytes. (fields : List Pair) → LieIn places.now bytes →
        own.now ≡ own_type fields → any_bad_at bytes places.now ≡ false →
        IsSeenIn http fields bytes places.now result) }
    ensures early { IfErr result IsEarly }
    ensures reads { ReadsPlaces places.now (2 * len_of places.now) (S.seen source.old) (S.seen source.new) }
    ensures fails { FailsBy (LieIn places.now) (out_result result) (S.seen source.old) (S.seen source.new) }
{
    if http {
        known::find_stored_http(alloc, source, places)
    } else {
        all_of(alloc, own, places)
    }
}

/// What is stored in the blocks at places, of which nothing is known.
fn seen_unknown<S: Source, A: Allocator + Copy>(
    alloc: A,
    source: &mut S,
    http: bool,
    own: &[u8],
    places: &[Place],
) -> Result<Stored<A>, ReplayFault>
    ensures seen { IfHeld (S.seen source.old).holds (λ bytes. (fields : List Pair) → LieIn places.now bytes →
        own.now ≡ own_type fields → IsSeenIn http fields bytes places.now result) }
    ensures early { IfErr result IsEarly }
    ensures reads { ReadsPlaces places.now (len_of places.now) (S.seen source.old) (S.seen source.new) }
    ensures fails { FailsBy (LieIn places.now) (out_result result) (S.seen source.old) (S.seen source.new) }
{
    if http {
        find_stored_http(alloc, source, places)
    } else {
        find_stored_other(alloc, source, own, places)
    }
}

/// What is stored in the blocks at places, by what is known of them.
fn seen_by<S: Source, A: Allocator + Copy>(
    alloc: A,
    source: &mut S,
    http: bool,
    own: &[u8],
    places: &[Place],
    known: Verdict,
) -> Result<Stored<A>, ReplayFault>
    ensures seen { IfHeld (S.seen source.old).holds (λ bytes. (fields : List Pair) → LieIn places.now bytes →
        own.now ≡ own_type fields → Agrees known (any_bad_at bytes places.now) →
        IsSeenIn http fields bytes places.now result) }
    ensures early { IfErr result IsEarly }
    ensures reads { ReadsPlaces places.now (2 * len_of places.now) (S.seen source.old) (S.seen source.new) }
    ensures fails { FailsBy (LieIn places.now) (out_result result) (S.seen source.old) (S.seen source.new) }
{
    match known {
        Verdict::Unchecked => seen_unknown(alloc, source, http, own, places),
        Verdict::Good => seen_good(alloc, source, http, own, places),
        Verdict::Bad => Err(ReplayFault::Reason(Reason::BadDigest)),
    }
}

/// Whether one of two holds.
fn either(one: bool, other: bool) -> bool
    ensures { result ≡ (one || other) }
{
    one || other
}

/// What is stored in blocks, by what is stored in the first of them and by the extent of the others.
fn extended<A: Allocator>(stored: Stored<A>, own: &[Place], rest: Extent) -> Stored<A>
    ensures { (http : Bool) (fields : List Pair) (bytes : List ℕ) (others : List Seen) → IsExtentOf others rest →
        any_bad_at bytes others ≡ false → IsSeenIn http fields bytes own.now (Ok stored) →
        IsSeenIn http fields bytes (own.now ++ others) (Ok result) }
{
    let whole = total(own).saturating_add(rest.len);
    let length = whole.saturating_sub(stored.head_len);
    Stored {
        status: stored.status,
        media_type: stored.media_type,
        codings: stored.codings,
        coded: stored.coded,
        truncated: either(stored.truncated, rest.truncated),
        head_len: stored.head_len,
        length,
    }
}

/// Whether a fault is that an HTTP response has no HTTP head.
fn is_headless(fault: ReplayFault) -> bool
    ensures yes { result ≡ true → fault ≡ ReplayFault.Reason Reason.BadHead }
    ensures no { result ≡ false → fault ≡ ReplayFault.Reason Reason.BadHead → ⊥ }
{
    match fault {
        ReplayFault::Reason(Reason::BadHead) => true,
        _ => false,
    }
}

/// What is stored in blocks, of which those after the first are good and have this extent, by a verdict on the first.
fn seen_split<S: Source, A: Allocator + Copy>(
    alloc: A,
    source: &mut S,
    http: bool,
    own: &[u8],
    places: &[Place],
    rest: Extent,
    known: Verdict,
) -> Result<Stored<A>, ReplayFault>
    ensures seen { IfHeld (S.seen source.old).holds (λ bytes. (fields : List Pair) → LieIn places.now bytes →
        own.now ≡ own_type fields → IsExtentOf (drop 1 places.now) rest →
        any_bad_at bytes (drop 1 places.now) ≡ false → Agrees known (any_bad_at bytes (take 1 places.now)) →
        IsSeenIn http fields bytes places.now result) }
    ensures early { IfErr result IsEarly }
    ensures reads { ReadsPlaces places.now (4 * len_of places.now) (S.seen source.old) (S.seen source.new) }
    ensures fails { FailsBy (LieIn places.now) (out_result result) (S.seen source.old) (S.seen source.new) }
{
    let first = own_place(places);
    match seen_by(alloc, source, http, own, first, known) {
        Ok(stored) => Ok(extended(stored, first, rest)),
        Err(fault) => {
            if is_headless(fault) {
                seen_good(alloc, source, http, own, places)
            } else {
                Err(fault)
            }
        }
    }
}

/// What is stored of an origin, of whose blocks those after its own are good and have this extent, by a verdict on its
/// own.
fn judge_own<S: Source, A: Allocator + Copy>(
    alloc: A,
    source: &mut S,
    http: bool,
    own: &[u8],
    places: &[Place],
    rest: Extent,
    known: Verdict,
) -> Result<Stored<A>, ReplayFault>
    ensures judged { IfHeld (S.seen source.old).holds (λ bytes. (content : Record) (joined : List ReadRecord) →
        IsContentOn bytes content joined places.now → http ≡ is_http_response (reading_of content.fields) →
        own.now ≡ own_type content.fields → IsExtentOf (drop 1 places.now) rest →
        list_any has_bad_block (drop 1 joined) ≡ false → Agrees known (list_any has_bad_block (take 1 joined)) →
        IsJudged content joined result) }
    ensures early { IfErr result IsEarly }
    ensures reads { ReadsPlaces places.now (4 * len_of places.now) (S.seen source.old) (S.seen source.new) }
    ensures fails { FailsBy (AreBlocksIn places.now) (out_result result) (S.seen source.old) (S.seen source.new) }
{
    joined_has_total();
    seen_split(alloc, source, http, own, places, rest, known)
}

/// What is stored of an origin, as `find_stored` judges it, by verdicts on its joined blocks and the extent of those
/// after its own. If these are good, its own block alone is read, unless it is an HTTP response whose head isn't whole
/// there.
pub fn judge_split<S: Source, A: Allocator + Copy>(
    alloc: A,
    source: &mut S,
    http: bool,
    own: &[u8],
    places: &[Place],
    rest: Extent,
    known: KnownBlocks,
) -> Result<Stored<A>, ReplayFault>
    ensures judged { IfHeld (S.seen source.old).holds (λ bytes. (content : Record) (joined : List ReadRecord) →
        IsContentOn bytes content joined places.now → http ≡ is_http_response (reading_of content.fields) →
        own.now ≡ own_type content.fields → IsExtentOf (drop 1 places.now) rest → AreRight known joined →
        IsJudged content joined result) }
    ensures early { IfErr result IsEarly }
    ensures reads { ReadsPlaces places.now (4 * len_of places.now) (S.seen source.old) (S.seen source.new) }
    ensures fails { FailsBy (AreBlocksIn places.now) (out_result result) (S.seen source.old) (S.seen source.new) }
{
    match known.whole {
        Verdict::Bad => return Err(ReplayFault::Reason(Reason::BadDigest)),
        Verdict::Good => {
            return judge_own(alloc, source, http, own, places, rest, Verdict::Good);
        }
        Verdict::Unchecked => {}
    }
    match known.rest {
        Verdict::Bad => Err(ReplayFault::Reason(Reason::BadDigest)),
        Verdict::Good => judge_own(alloc, source, http, own, places, rest, known.own),
        Verdict::Unchecked => find_stored(alloc, source, http, own, places),
    }
}
