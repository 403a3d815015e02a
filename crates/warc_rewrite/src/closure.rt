//! A selection with all that its records need, and what is left of an archive without what needs a record.
ghost use Rattle.std.specs.Prelude.{◌≡◌, ◌<◌, length};
ghost use Rattle.warc_rewrite.specs.Closure.{GivesNeeded, GivesOthers};
ghost use Rattle.warc_rewrite.specs.Marks.{SaysAgain, TakesAll, TakesOne};
ghost use Rattle.warc_rewrite.specs.Selecting.{ArePositions};
ghost use Rattle.warc_rewrite.specs.Statuses.{JudgesRecord, JudgesRecords, FindsStatuses};

use crate::needs::{Mark, free_marks, is_free, mark_ways, marked_positions, take_series};
use crate::remainder::{
    Status, is_named, kept_positions, leave_if_named, name_all, open_statuses, settle_all,
};
use std::alloc::Allocator;
use warc_frame::laws::head_of_spelled;
use warc_frame::{EarlyFault, OutFault, Source};
use warc_lookup::Lookup;
use warc_reading::{Rows, buffer_for, reread_good};
use warc_record::GoodHead;
use warc_segment::Parts;

/// The head of the record at a position, which is read again.
fn head_at<S: Source, A: Allocator + Copy>(
    source: &mut S,
    rows: &Rows<A>,
    position: usize,
) -> Result<GoodHead<A>, EarlyFault>
    requires { position < length rows.now }
    ensures { SaysAgain rows.now position (S.seen source.old) (S.seen source.new) result }
{
    head_of_spelled();
    let alloc = rows.allocator();
    let Some(row) = rows.get(position) else {
        unreachable!()
    };
    let mut buf = buffer_for(alloc, &row)?;
    reread_good(alloc, source, &row, &mut buf)
}

/// Marks the segments of the record at a position, if it is the first one.
fn take_segments_of<S: Source, A: Allocator + Copy>(
    source: &mut S,
    rows: &Rows<A>,
    parts: &Parts<A>,
    marks: &mut [Mark],
    position: usize,
) -> Result<(), EarlyFault>
    requires inside { position < length rows.now }
    requires table { length marks.old ≡ length rows.now }
    ensures same { length marks.new ≡ length marks.old }
    ensures takes { TakesOne rows.now parts.now position marks.old marks.new (S.seen source.old)
        (S.seen source.new) result }
{
    let head = head_at(source, rows, position)?;
    take_series(parts, marks, &head.typed())?;
    Ok(())
}

/// Marks the segments of all marked records. The head of each is read again.
fn take_segments<S: Source, A: Allocator + Copy>(
    source: &mut S,
    rows: &Rows<A>,
    parts: &Parts<A>,
    marks: &mut [Mark],
) -> Result<(), EarlyFault>
    requires table { length marks.old ≡ length rows.now }
    ensures same { length marks.new ≡ length marks.old }
    ensures takes { TakesAll rows.now parts.now marks.old marks.new (S.seen source.old) (S.seen source.new) result }
{
    'taking: for position in 0..rows.len() {
        if is_free(marks, position) {
            continue;
        }
        take_segments_of(source, rows, parts, marks, position)?;
    }
    Ok(())
}

/// Marks the segments of all marked records, if there are segments.
fn take_all<S: Source, A: Allocator + Copy>(
    source: &mut S,
    rows: &Rows<A>,
    parts: &Parts<A>,
    marks: &mut [Mark],
) -> Result<(), EarlyFault>
    requires table { length marks.old ≡ length rows.now }
    ensures same { length marks.new ≡ length marks.old }
    ensures takes { TakesAll rows.now parts.now marks.old marks.new (S.seen source.old) (S.seen source.new) result }
{
    if parts.has_segments() {
        take_segments(source, rows, parts, marks)
    } else {
        Ok(())
    }
}

/// The positions of records and of all that they need.
pub fn closed_positions<S: Source, A: Allocator + Copy>(
    source: &mut S,
    rows: &Rows<A>,
    lookup: &Lookup<A>,
    positions: &[usize],
) -> Result<Vec<usize, A>, OutFault>
    requires { ArePositions (length rows.now) positions.now }
    ensures { GivesNeeded rows.now lookup.now.index lookup.now.parts positions.now (S.seen source.old)
        (S.seen source.new) result }
{
    let alloc = rows.allocator();
    let Ok(mut marks) = free_marks(alloc, rows.len()) else {
        return Err(OutFault::Memory(0));
    };
    mark_ways(&lookup.index, &mut marks, positions);
    take_all(source, rows, &lookup.parts, &mut marks)?;
    match marked_positions(alloc, &marks) {
        Ok(closed) => Ok(closed),
        Err(_) => Err(OutFault::Memory(0)),
    }
}

/// Leaves out the record at a position, if it is a first segment and one of its series is named.
fn leave_segments_of<S: Source, A: Allocator + Copy>(
    source: &mut S,
    rows: &Rows<A>,
    parts: &Parts<A>,
    statuses: &mut [Status],
    position: usize,
) -> Result<(), EarlyFault>
    requires inside { position < length rows.now }
    ensures same { length statuses.new ≡ length statuses.old }
    ensures judges { JudgesRecord rows.now parts.now position statuses.old statuses.new (S.seen source.old)
        (S.seen source.new) result }
{
    let head = head_at(source, rows, position)?;
    leave_if_named(parts, statuses, &head.typed(), position)?;
    Ok(())
}

/// Leaves out the records that have a named segment. The head of each that isn't named is read again.
fn leave_segments<S: Source, A: Allocator + Copy>(
    source: &mut S,
    rows: &Rows<A>,
    parts: &Parts<A>,
    statuses: &mut [Status],
) -> Result<(), EarlyFault>
    requires table { length statuses.old ≡ length rows.now }
    ensures same { length statuses.new ≡ length statuses.old }
    ensures judges { JudgesRecords rows.now parts.now statuses.old statuses.new (S.seen source.old)
        (S.seen source.new) result }
{
    'judging: for position in 0..rows.len() {
        if is_named(statuses, position) {
            continue;
        }
        leave_segments_of(source, rows, parts, statuses, position)?;
    }
    Ok(())
}

/// Leaves out the records that have a named segment, if there are segments.
fn judge_all<S: Source, A: Allocator + Copy>(
    source: &mut S,
    rows: &Rows<A>,
    parts: &Parts<A>,
    statuses: &mut [Status],
) -> Result<(), EarlyFault>
    requires table { length statuses.old ≡ length rows.now }
    ensures same { length statuses.new ≡ length statuses.old }
    ensures judges { JudgesRecords rows.now parts.now statuses.old statuses.new (S.seen source.old)
        (S.seen source.new) result }
{
    if parts.has_segments() {
        leave_segments(source, rows, parts, statuses)
    } else {
        Ok(())
    }
}

/// Finds out of each record whether it needs one at these positions.
fn remain<S: Source, A: Allocator + Copy>(
    source: &mut S,
    rows: &Rows<A>,
    lookup: &Lookup<A>,
    statuses: &mut [Status],
    positions: &[usize],
) -> Result<(), EarlyFault>
    requires table { length statuses.old ≡ length rows.now }
    requires positions { ArePositions (length rows.now) positions.now }
    ensures same { length statuses.new ≡ length statuses.old }
    ensures is_present { FindsStatuses rows.now lookup.now.index lookup.now.parts positions.now
        statuses.old statuses.new (S.seen source.old) (S.seen source.new) result }
{
    name_all(statuses, positions);
    judge_all(source, rows, &lookup.parts, statuses)?;
    settle_all(&lookup.index, statuses);
    Ok(())
}

/// The positions of the records that need none of those at these positions.
pub fn remaining_positions<S: Source, A: Allocator + Copy>(
    source: &mut S,
    rows: &Rows<A>,
    lookup: &Lookup<A>,
    positions: &[usize],
) -> Result<Vec<usize, A>, OutFault>
    requires { ArePositions (length rows.now) positions.now }
    ensures { GivesOthers rows.now lookup.now.index lookup.now.parts positions.now (S.seen source.old)
        (S.seen source.new) result }
{
    let alloc = rows.allocator();
    let Ok(mut statuses) = open_statuses(alloc, rows.len()) else {
        return Err(OutFault::Memory(0));
    };
    remain(source, rows, lookup, &mut statuses, positions)?;
    match kept_positions(alloc, &statuses) {
        Ok(kept) => Ok(kept),
        Err(_) => Err(OutFault::Memory(0)),
    }
}
