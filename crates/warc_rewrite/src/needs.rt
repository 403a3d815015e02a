//! Which records are needed by records at positions: a table of marks, by position.
ghost use Rattle.std.specs.Prelude.{◌≡◌, ◌<◌, ◌++◌, ◌∷◌, [], List, ℕ, All, IfOk, OnOk, length, map, replicate, slice_set, true, false, ◌≤◌};
ghost use Rattle.warc_record.specs.Seen.{said};
ghost use Rattle.warc_index.specs.Captures.{Indexed};
ghost use Rattle.warc_index.specs.Orders.{IsIndexOf};
ghost use Rattle.warc_index.specs.Referents.{next_of};
ghost use Rattle.warc_segment.specs.Joined.{PlacedRecord, piece_placed};
ghost use Rattle.warc_segment.specs.Kept.{kept_in};
ghost use Rattle.warc_rewrite.specs.Marks.{AreMarked, AreTaken, AreWhere, HasNoSegment, IsMarked, MarksSegments, TakesSeries, marks_needed, mark_in};
ghost use Rattle.warc_rewrite.specs.declared.needs.Mark.TheVariants.{Free, Segment};

use std::alloc::{AllocError, Allocator};
use warc_index::Index;
use warc_record::{SegmentNumber, Typed};
use warc_segment::Parts;

/// What is known of a position while the needed records are looked for.
#[derive(Clone, Copy, PartialEq, Eq, Debug)]
pub(crate) enum Mark {
    /// Its record isn't known to be needed.
    Free,

    /// Its record is needed.
    Needed,

    /// Its record is a segment, and all segments of its series are needed.
    Segment,
}

/// A table in which all positions are free.
pub(crate) fn free_marks<A: Allocator>(alloc: A, len: usize) -> Result<Vec<Mark, A>, AllocError>
    ensures { IfOk result (λ marks. marks.items ≡ replicate len Free) }
{
    vec![in alloc; Mark::Free; len]
}

/// Whether a position is one of the table's, and free.
pub(crate) fn is_free(marks: &[Mark], position: usize) -> bool
    ensures within { result ≡ true → position < length marks.now }
    ensures free { result ≡ true → mark_in marks.now position ≡ Free }
    ensures marked { result ≡ false → position < length marks.now → IsMarked marks.now position }
{
    match marks.get(position) {
        Some(Mark::Free) => true,
        _ => false,
    }
}

/// Marks a record, and those on the way from referent to referent, as far as one that is marked already.
fn mark_way<A: Allocator + Copy>(index: &Index<A>, marks: &mut [Mark], position: usize)
    ensures same { length marks.new ≡ length marks.old }
    ensures more { (all : List Indexed) (positions : List ℕ) → IsIndexOf all index.now →
        length marks.old ≡ length all → AreMarked (next_of all) positions marks.old → position < length all →
        AreMarked (next_of all) (positions ++ position ∷ []) marks.new }
    ensures plain { HasNoSegment marks.old → HasNoSegment marks.new }
{
    let mut at = position;
    'walking: while is_free(marks, at) {
        marks[at] = Mark::Needed;
        match index.referent(at) {
            Some(next) => at = next,
            None => return,
        }
    }
}

/// Marks the records at positions, and those on the ways from them.
pub(crate) fn mark_ways<A: Allocator + Copy>(
    index: &Index<A>,
    marks: &mut [Mark],
    positions: &[usize],
)
    ensures same { length marks.new ≡ length marks.old }
    ensures marked { (all : List Indexed) → IsIndexOf all index.now → length marks.old ≡ length all →
        AreMarked (next_of all) [] marks.old → All (λ p. p < length all) positions.now →
        AreMarked (next_of all) positions.now marks.new }
    ensures plain { HasNoSegment marks.old → HasNoSegment marks.new }
{
    'marking: for position in positions {
        mark_way(index, marks, *position);
    }
}

/// Marks a position of the table as that of a segment.
fn mark_segment(marks: &mut [Mark], position: usize)
    ensures inside { position < length marks.old → marks.new ≡ slice_set marks.old position Segment }
    ensures past { length marks.old ≤ position → marks.new ≡ marks.old }
{
    if position < marks.len() {
        marks[position] = Mark::Segment;
    }
}

/// Marks positions as those of segments.
fn mark_segments(marks: &mut [Mark], segments: &[usize])
    ensures { MarksSegments segments.now marks.old marks.new }
{
    'marking: for segment in segments {
        mark_segment(marks, *segment);
    }
}

/// Whether a position is marked as that of a segment.
fn is_segment(marks: &[Mark], position: usize) -> bool
    ensures yes { result ≡ true → mark_in marks.now position ≡ Segment }
{
    match marks.get(position) {
        Some(Mark::Segment) => true,
        _ => false,
    }
}

/// Marks the series of a record with this head, if it is the first segment. A series that is marked is passed over.
pub(crate) fn take_series<A: Allocator + Copy>(
    parts: &Parts<A>,
    marks: &mut [Mark],
    typed: &Typed<'_>,
) -> Result<(), AllocError>
    ensures same { length marks.new ≡ length marks.old }
    ensures takes { (all : List PlacedRecord) → parts.now ≡ kept_in all → length marks.old ≡ length all →
        AreTaken (map piece_placed all) marks.old →
        OnOk result (TakesSeries (map piece_placed all) (said typed.now) marks.old marks.new) }
{
    match typed.segment.number {
        SegmentNumber::Number(1) => {}
        _ => return Ok(()),
    }
    let Some(one) = parts.segment_of(typed) else {
        return Ok(());
    };
    if is_segment(marks, one) {
        return Ok(());
    }
    let segments = parts.segments_of(typed)?;
    mark_segments(marks, &segments);
    Ok(())
}

/// The marked positions.
pub(crate) fn marked_positions<A: Allocator>(
    alloc: A,
    marks: &[Mark],
) -> Result<Vec<usize, A>, AllocError>
    ensures { IfOk result (λ positions. AreWhere (λ p. marks_needed (mark_in marks.now p)) (length marks.now)
        positions.items) }
{
    let mut positions = Vec::new(alloc);
    'listing: for position in 0..marks.len() {
        if is_free(marks, position) {
            continue;
        }
        positions.push(position)?;
    }
    Ok(positions)
}
