//! What is kept of continuations, and the places that join to a block.
ghost use Rattle.std.specs.Prelude.{◌≡◌, ◌⊎◌, ◌+◌, ◌≤◌, ◌^◌, ℕ, ◌++◌, [], ◌∷◌, List, length, take, sum_by, map, Option, OnOk, OnErr, IfOk, IsSome, MatchOption, Some, false, true};
ghost use Rattle.warc_record.specs.Seen.{said};
ghost use Rattle.warc_segment.specs.Series.{AreMembersAt, IsMemberAt, series_of};
ghost use Rattle.warc_segment.specs.Joined.{PlacedRecord, joined_places, piece_placed, placed_with};
ghost use Rattle.warc_segment.specs.Kept.{kept_in, kept_of};
ghost use Rattle.warc_segment.specs.Held.{side_by_side, AreHeld, IsSeries};
ghost use Rattle.warc_segment.specs.Joining.{IsJoin};

use crate::fault::JoinFault;
use crate::gap::Gap;
use crate::held::{TotalAndPlace, positions_of, put, series_of};
use crate::place::Place;
use crate::series::{Continuation, find_gap};
use std::alloc::{AllocError, Allocator, Global};
use std::marker::Model;
use warc_order::{Mark, Order};
use warc_record::{SegmentNumber, Typed};

/// What joins the segmented records of an archive. It keeps only the continuations: for each the key of its origin, its
/// number, total and place. Contracts see how many records were added and what is kept of them.
#[derive(Drop)]
pub struct Parts<A: Allocator = Global> {
    count: usize,
    order: Order<A>,
    facts: Vec<TotalAndPlace, A>,
}

impl<A: Allocator> Model for Parts<A> {
    ghost use Rattle.warc_segment.specs.Kept.{Kept};
    ghost use Rattle.warc_segment.specs.Held.{AreHeld, held_in};

    ghost Value = { Kept };

    ghost view = { λ s. held_in s.count s.order s.facts.items };

    ghost invariant = { λ s. AreHeld s.count s.order s.facts.items };
}

/// The series of a record, which has no gap.
fn whole_series<A: Allocator + Copy>(
    alloc: A,
    order: &Order<A>,
    facts: &[TotalAndPlace],
    id: &[u8],
    size: u64,
) -> Result<Vec<Continuation, A>, JoinFault>
    requires { (count : ℕ) × AreHeld count order.now facts.now }
    ensures { IsSeries id.now size (side_by_side order.now facts.now) result }
{
    let series = series_of(alloc, order, facts, id)?;
    match find_gap(size, &series) {
        None => Ok(series),
        Some(gap) => Err(JoinFault::Gap(gap)),
    }
}

/// The places of a record and of the segments after it.
fn places_of<A: Allocator + Copy>(
    alloc: A,
    place: Place,
    series: &[Continuation],
) -> Result<Vec<Place, A>, AllocError>
    ensures { IfOk result (λ places. places.items ≡ place ∷ map (λ c. c.place) series.now) }
{
    let mut places = Vec::new(alloc);
    places.push(place)?;
    for continuation in series {
        places.push(continuation.place)?;
    }
    Ok(places)
}

/// One more than a count, if that is less than 2^64.
fn one_more(count: usize) -> Result<usize, AllocError>
    ensures ok { IfOk result (λ more. more ≡ count + 1) }
    ensures err { OnErr result (2 ^ 64 ≤ count + 1) }
{
    match count.checked_add(1) {
        Some(more) => Ok(more),
        None => Err(AllocError),
    }
}

impl<A: Allocator + Copy> Parts<A> {
    /// No records.
    pub fn new(alloc: A) -> Parts<A>
        ensures { result ≡ kept_in [] }
    {
        Parts {
            count: 0,
            order: Order::new(alloc),
            facts: Vec::new(alloc),
        }
    }

    /// Adds the next record of the archive, of any kind, whose block begins at `start` and has `len` bytes. Only of a
    /// continuation with an origin and a number of at least 2 is the digest decoded, and only that takes memory; if it
    /// is refused, nothing changes. One that comes after 2^32 records is refused too.
    pub fn add(&mut self, typed: &Typed<'_>, start: u64, len: u64) -> Result<(), AllocError>
        ensures ok { (all : List PlacedRecord) → self.old ≡ kept_in all
            → OnOk result (self.new ≡ kept_in (all ++ placed_with (said typed.now) start len ∷ [])) }
        ensures err { OnErr result (self.new ≡ self.old) }

        // A record that is in no series is refused only if 2^64 - 1 records were added before.
        ensures needed { OnErr result (IsSome (kept_of (self.old.count, placed_with (said typed.now) start len))
            ⊎ (2 ^ 64 ≤ self.old.count + 1)) }
    {
        let count = one_more(self.count)?;
        put(
            &mut self.order,
            &mut self.facts,
            self.count,
            typed,
            start,
            len,
        )?;
        self.count = count;
        Ok(())
    }

    /// Keeps the first `count` records. It doesn't allocate.
    pub fn truncate(&mut self, count: usize)
        ensures { (all : List PlacedRecord) → self.old ≡ kept_in all → self.new ≡ kept_in (take count all) }
    {
        if count < self.count {
            self.order.truncate(count);
            let len = self.order.len();
            self.facts.truncate(len);
            self.count = count;
        }
    }

    /// The number of bytes of the keys of the origins that it holds.
    pub fn kept(&self) -> u64
        ensures { result ≡ sum_by (λ m. length m.origin) self.now.members }
    {
        self.order.kept()
    }

    /// The places in the source whose bytes, one after another, are the joined block of a record: its own, and those
    /// of its segments in the order of their numbers. A record without a number has no segments. `Gap`: the segments
    /// don't join, for the first reason that fits. Time and memory grow only with the number of segments.
    pub fn join(&self, typed: &Typed<'_>, place: Place) -> Result<Vec<Place, A>, JoinFault>
        ensures { (all : List PlacedRecord) → self.now ≡ kept_in all
            → IsJoin result (joined_places all (record { head = said typed.now; place = place })) }
    {
        let alloc = *self.facts.allocator();
        match typed.segment.number {
            SegmentNumber::Absent => Ok(places_of(alloc, place, &[])?),
            SegmentNumber::Number(1) => {
                let id = typed.id.bytes();
                let series = whole_series(alloc, &self.order, &self.facts, id, place.len)?;
                Ok(places_of(alloc, place, &series)?)
            }
            _ => Err(JoinFault::Gap(Gap::Number)),
        }
    }

    /// Whether any record is a member of a series. If none is, no record has segments.
    pub fn has_segments(&self) -> bool
        ensures some { (all : List PlacedRecord) → self.now ≡ kept_in all → result ≡ true → (id : List ℕ) × (p : ℕ) ×
            IsMemberAt (series_of (Some id) (map piece_placed all)) p }
        ensures none { (all : List PlacedRecord) → self.now ≡ kept_in all → result ≡ false →
            (id : Option (List ℕ)) → series_of id (map piece_placed all) ≡ [] }
    {
        !self.facts.is_empty()
    }

    /// The position of one member of the series of a head's id, `None` if the series has none. It doesn't allocate.
    pub fn segment_of(&self, typed: &Typed<'_>) -> Option<usize>
        ensures { (all : List PlacedRecord) → self.now ≡ kept_in all → MatchOption result
            (series_of (said typed.now).id (map piece_placed all) ≡ [])
            (IsMemberAt (series_of (said typed.now).id (map piece_placed all))) }
    {
        match self
            .order
            .first_from(typed.id.bytes(), Mark { major: 0, minor: 0 })
        {
            Some(found) => Some(self.order.position(found)),
            None => None,
        }
    }

    /// The positions of all members of the series of a head's id, each once: also of those that don't join, and
    /// whatever number the head has. Time and memory grow only with the number of members.
    pub fn segments_of(&self, typed: &Typed<'_>) -> Result<Vec<usize, A>, AllocError>
        ensures { (all : List PlacedRecord) → self.now ≡ kept_in all → IfOk result (λ positions.
            AreMembersAt (series_of (said typed.now).id (map piece_placed all)) positions.items) }
    {
        let alloc = *self.facts.allocator();
        let series = series_of(alloc, &self.order, &self.facts, typed.id.bytes())?;
        positions_of(alloc, &series)
    }
}
