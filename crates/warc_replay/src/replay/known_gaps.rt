//! What is known of series: one with a gap, or one that joins, is put in order once, however many records have its id.
ghost use Rattle.std.specs.Prelude.{◌≡◌, List, IfSome, map};
ghost use Rattle.warc_record.specs.Seen.{said};
ghost use Rattle.warc_record.specs.declared.readings.SegmentNumber.TheVariants.{Number};
ghost use Rattle.warc_segment.specs.Joined.{PlacedRecord, joined_places, piece_placed};
ghost use Rattle.warc_segment.specs.Joining.{IsJoin};
ghost use Rattle.warc_segment.specs.Kept.{Kept, kept_in};
ghost use Rattle.warc_segment.specs.Series.{IsMemberAt, series_of};
ghost use Rattle.warc_segment.specs.declared.gap.Gap.TheVariants.{Total};
ghost use Rattle.warc_replay.specs.KnownGaps.{AreKnownSeries, AreKnownGaps, IsRecalled, KeepsGap, known_gap_at};
ghost use Rattle.warc_replay.specs.KnownSeries.{IsJoinedOnce, JoinsLike};

use crate::replay::known_series::{
    Joined, KnownSeries, Shared, join_again, keep_known, take_known,
};
use std::alloc::Allocator;
use std::collections::BTreeMap;
use warc_answer::extent_after;
use warc_record::{SegmentNumber, Typed};
use warc_segment::{Gap, JoinFault, Parts, Place};

/// The gaps of series that don't join, by the position of one segment of each, and the length of a first segment; and
/// the series that join, by that position. Without memory for more of them nothing fails: a series is put in order
/// again.
#[derive(Drop)]
pub(crate) struct KnownGaps<A: Allocator> {
    table: BTreeMap<(usize, u64), Gap, A>,
    series: BTreeMap<usize, KnownSeries<A>, A>,
}

impl<A: Allocator + Copy> KnownGaps<A> {
    /// Nothing is known.
    pub(crate) fn new(alloc: A) -> KnownGaps<A>
        ensures { (parts : Kept) → AreKnownSeries parts result }
    {
        KnownGaps {
            table: BTreeMap::new(alloc),
            series: BTreeMap::new(alloc),
        }
    }
}

/// Keeps a series, from which these places are joined.
pub(crate) fn keep_series<A: Allocator + Copy>(
    parts: &Parts<A>,
    gaps: &mut KnownGaps<A>,
    shared: Shared,
    places: Vec<Place, A>,
)
    requires known { AreKnownSeries parts.now gaps.old }
    requires series { (all : List PlacedRecord) → parts.now ≡ kept_in all →
        JoinsLike all shared.segment shared.size places.items shared.rest }
    ensures { AreKnownSeries parts.now gaps.new }
{
    keep_known(&mut gaps.series, shared, places);
}

/// The length at which a gap is kept that was found after a first segment of this length. Only a wrong total depends on
/// that.
fn len_for(gap: Gap, len: u64) -> u64
    ensures { gap ≡ Total → result ≡ len }
{
    match gap {
        Gap::Total => len,
        _ => 0,
    }
}

/// The gap that is kept of the series of a segment at a length.
fn known_at<A: Allocator>(
    table: &BTreeMap<(usize, u64), Gap, A>,
    segment: usize,
    len: u64,
) -> Option<Gap>
    ensures { result ≡ known_gap_at table.now segment len }
{
    table.get(&(segment, len)).copied()
}

/// The gap of the series of a segment after a first segment of this length, if it is known.
fn recalled<A: Allocator>(
    table: &BTreeMap<(usize, u64), Gap, A>,
    segment: usize,
    len: u64,
) -> Option<Gap>
    ensures { IfSome result (IsRecalled table.now segment len) }
{
    match known_at(table, segment, 0) {
        None | Some(Gap::Total) => known_at(table, segment, len),
        Some(gap) => Some(gap),
    }
}

/// Keeps the gap that was found of the series of a segment after a first segment of this length. If an allocation
/// fails, nothing changes.
fn keep<A: Allocator + Copy>(
    table: &mut BTreeMap<(usize, u64), Gap, A>,
    segment: usize,
    len: u64,
    gap: Gap,
)
    ensures { KeepsGap segment len gap table.old table.new }
{
    match table.insert((segment, len_for(gap, len)), gap) {
        Ok(_) => {}
        Err(_) => {}
    }
}

/// The places of the blocks that are joined to a first segment's own, as `Parts::join` gives them. A gap is kept.
fn join_anew<A: Allocator + Copy>(
    parts: &Parts<A>,
    gaps: &mut KnownGaps<A>,
    typed: &Typed<'_>,
    place: Place,
    segment: usize,
) -> Result<Joined<A>, JoinFault>
    requires known { AreKnownSeries parts.now gaps.old }
    requires first { (said typed.now).segment.number ≡ Number 1 }
    requires member { (all : List PlacedRecord) → parts.now ≡ kept_in all →
        IsMemberAt (series_of (said typed.now).id (map piece_placed all)) segment }
    ensures joined { (all : List PlacedRecord) → parts.now ≡ kept_in all →
        IsJoinedOnce all (record { head = said typed.now; place = place }) result }
    ensures known { AreKnownSeries parts.now gaps.new }
{
    match parts.join(typed, place) {
        Ok(places) => {
            let rest = extent_after(&places);
            let shared = Shared {
                segment,
                size: place.len,
                rest,
            };
            Ok(Joined {
                places,
                shared: Some(shared),
            })
        }
        Err(JoinFault::Memory) => Err(JoinFault::Memory),
        Err(JoinFault::Gap(gap)) => {
            keep(&mut gaps.table, segment, place.len, gap);
            Err(JoinFault::Gap(gap))
        }
    }
}

/// The places that `join_anew` gives, or the gap if it is known.
fn join_first<A: Allocator + Copy>(
    parts: &Parts<A>,
    gaps: &mut KnownGaps<A>,
    typed: &Typed<'_>,
    place: Place,
    segment: usize,
) -> Result<Joined<A>, JoinFault>
    requires known { AreKnownSeries parts.now gaps.old }
    requires first { (said typed.now).segment.number ≡ Number 1 }
    requires member { (all : List PlacedRecord) → parts.now ≡ kept_in all →
        IsMemberAt (series_of (said typed.now).id (map piece_placed all)) segment }
    ensures joined { (all : List PlacedRecord) → parts.now ≡ kept_in all →
        IsJoinedOnce all (record { head = said typed.now; place = place }) result }
    ensures known { AreKnownSeries parts.now gaps.new }
{
    match recalled(&gaps.table, segment, place.len) {
        Some(gap) => Err(JoinFault::Gap(gap)),
        None => join_anew(parts, gaps, typed, place, segment),
    }
}

/// The places that `join_first` gives, unless the series is known. It is taken out then: `keep_series` puts it back.
fn join_known<A: Allocator + Copy>(
    parts: &Parts<A>,
    gaps: &mut KnownGaps<A>,
    typed: &Typed<'_>,
    place: Place,
    segment: usize,
) -> Result<Joined<A>, JoinFault>
    requires known { AreKnownSeries parts.now gaps.old }
    requires first { (said typed.now).segment.number ≡ Number 1 }
    requires member { (all : List PlacedRecord) → parts.now ≡ kept_in all →
        IsMemberAt (series_of (said typed.now).id (map piece_placed all)) segment }
    ensures joined { (all : List PlacedRecord) → parts.now ≡ kept_in all →
        IsJoinedOnce all (record { head = said typed.now; place = place }) result }
    ensures known { AreKnownSeries parts.now gaps.new }
{
    match take_known(&mut gaps.series, segment, place.len) {
        Ok(None) => join_first(parts, gaps, typed, place, segment),
        Ok(Some(known)) => Ok(join_again(known, segment, place)),
        Err(gap) => Err(JoinFault::Gap(gap)),
    }
}

/// The places of the blocks that are joined to the own block of a record that begins no series.
fn join_alone<A: Allocator + Copy>(
    parts: &Parts<A>,
    typed: &Typed<'_>,
    place: Place,
) -> Result<Joined<A>, JoinFault>
    ensures { (all : List PlacedRecord) → parts.now ≡ kept_in all →
        IsJoinedOnce all (record { head = said typed.now; place = place }) result }
{
    match parts.join(typed, place) {
        Ok(places) => Ok(Joined {
            places,
            shared: None,
        }),
        Err(fault) => Err(fault),
    }
}

/// The places of the blocks that are joined to a record's own, as `Parts::join` gives them. A series that is known is
/// not put in order again.
pub(crate) fn join_once<A: Allocator + Copy>(
    parts: &Parts<A>,
    gaps: &mut KnownGaps<A>,
    typed: &Typed<'_>,
    place: Place,
) -> Result<Joined<A>, JoinFault>
    requires known { AreKnownSeries parts.now gaps.old }
    ensures joined { (all : List PlacedRecord) → parts.now ≡ kept_in all →
        IsJoinedOnce all (record { head = said typed.now; place = place }) result }
    ensures known { AreKnownSeries parts.now gaps.new }
{
    match typed.segment.number {
        SegmentNumber::Number(1) => {}
        _ => return join_alone(parts, typed, place),
    }
    let Some(segment) = parts.segment_of(typed) else {
        return join_alone(parts, typed, place);
    };
    join_known(parts, gaps, typed, place, segment)
}
