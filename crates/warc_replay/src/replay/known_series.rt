//! The series that join: each is put in order once, however many first segments share it.
ghost use Rattle.std.specs.Prelude.{◌≡◌, ◌⊎◌, ◌≢◌, ℕ, ◌<◌, ◌∷◌, List, length, drop, IfErr, IfOk, IfSome, Ok, Some};
ghost use Rattle.std.specs.Option.{option_map};
ghost use Rattle.warc_segment.specs.Joined.{PlacedRecord};
ghost use Rattle.warc_segment.specs.declared.gap.Gap.TheVariants.{Total};
ghost use Rattle.warc_replay.specs.KnownSeries.{HasOtherLength, BeginsSeries, IsJoinedOnce, JoinsLike, series_at};

use std::alloc::Allocator;
use std::collections::BTreeMap;
use warc_answer::Extent;
use warc_segment::{Gap, Place};

/// The series that blocks are joined from.
#[derive(Clone, Copy)]
pub(crate) struct Shared {
    /// The position of one of its segments.
    pub(crate) segment: usize,

    /// The length of a first segment after which it joins.
    pub(crate) size: u64,

    /// The extent of the blocks after a first segment's own.
    pub(crate) rest: Extent,
}

/// The places of blocks that are joined, and the series that they are joined from, if there is one.
#[derive(Drop)]
pub(crate) struct Joined<A: Allocator> {
    pub(crate) places: Vec<Place, A>,
    pub(crate) shared: Option<Shared>,
}

/// A series that joins: the length of a first segment after which it does, and the places of such a segment's block and
/// of those after it.
#[derive(Drop)]
pub(crate) struct KnownSeries<A: Allocator> {
    size: u64,
    rest: Extent,
    places: Vec<Place, A>,
}

/// The length of a first segment after which the series of a segment joins, if it is known.
fn size_at<A: Allocator>(series: &BTreeMap<usize, KnownSeries<A>, A>, segment: usize) -> Option<u64>
    ensures { result ≡ option_map (λ known. known.size) (series_at series.now segment) }
{
    match series.get(&segment) {
        Some(known) => Some(known.size),
        None => None,
    }
}

/// Takes the series of a segment out, if it is known. If it doesn't join after a first segment of this length,
/// there is a gap, and nothing changes.
pub(crate) fn take_known<A: Allocator>(
    series: &mut BTreeMap<usize, KnownSeries<A>, A>,
    segment: usize,
    len: u64,
) -> Result<Option<KnownSeries<A>>, Gap>
    ensures known { IfOk result (λ found. IfSome found (λ known.
        (series_at series.old segment ≡ Some known) × (known.size ≡ len))) }
    ensures other { IfErr result (λ gap. (gap ≡ Total) × HasOtherLength series.old segment len) }
    ensures left { (s : ℕ) → IfSome (series_at series.new s) (λ known. series_at series.old s ≡ Some known) }
{
    match size_at(series, segment) {
        None => Ok(None),
        Some(size) => {
            if size != len {
                return Err(Gap::Total);
            }
            Ok(series.remove(&segment))
        }
    }
}

/// Keeps a series that blocks are joined from. If an allocation fails, it is put in order again.
pub(crate) fn keep_known<A: Allocator + Copy>(
    series: &mut BTreeMap<usize, KnownSeries<A>, A>,
    shared: Shared,
    places: Vec<Place, A>,
)
    ensures { (s : ℕ) → IfSome (series_at series.new s) (λ known. (series_at series.old s ≡ Some known) ⊎
        ((s ≡ shared.segment) × (known.size ≡ shared.size) × (known.rest ≡ shared.rest)
        × (known.places.items ≡ places.items))) }
{
    let known = KnownSeries {
        size: shared.size,
        rest: shared.rest,
        places,
    };
    match series.insert(shared.segment, known) {
        Ok(_) => {}
        Err(_) => {}
    }
}

/// Sets the first of places.
fn set_first<A: Allocator>(places: &mut Vec<Place, A>, place: Place)
    ensures { 0 < length places.old.items → places.new.items ≡ place ∷ drop 1 places.old.items }
{
    if !places.is_empty() {
        places[0] = place;
    }
}

/// The places of the blocks that are joined to a first segment's own, by its series.
pub(crate) fn join_again<A: Allocator>(
    known: KnownSeries<A>,
    segment: usize,
    place: Place,
) -> Joined<A>
    ensures { (all : List PlacedRecord) (r : PlacedRecord) → r.place ≡ place → BeginsSeries all segment r.head →
        JoinsLike all segment known.size known.places.items known.rest → known.size ≡ place.len →
        IsJoinedOnce all r (Ok result) }
{
    let rest = known.rest;
    let mut places = known.places;
    set_first(&mut places, place);
    Joined {
        places,
        shared: Some(Shared {
            segment,
            size: place.len,
            rest,
        }),
    }
}
