//! The portions of an output, one after another.
ghost use Rattle.std.specs.Prelude.{◌≡◌, ◌+◌, ◌<◌, ◌≤◌, ◌^◌, ℕ, List, Some, IfOk, slice_get};
ghost use Rattle.warc_frame.specs.Effects.{HasRange};
ghost use Rattle.warc_portions.specs.Outputs.{IsAny, IsFollowed, IsInSplit, IsNextPortion, after_record, left_of, left_selected, left_split};
ghost use Rattle.warc_portions.specs.Portions.{IsRecordPlace};
ghost use Rattle.warc_reading.specs.Archive.{IsArchiveOf, contents};
ghost use Rattle.warc_reading.specs.Row.{Row as Seen};
ghost use Rattle.warc_rewrite.specs.Forms.{text_as};
ghost use Rattle.warc_rewrite.specs.Selecting.{record_bytes};

use crate::place::record_place;
use crate::portion::{Portion, portion_as};
use crate::segments::portion_split;
use std::alloc::Allocator;
use warc_frame::EarlyFault;
use warc_reading::Row;
use warc_rewrite::Form;

/// Where the next portion of an output is.
#[repr(C)]
#[derive(Clone, Copy, Debug, PartialEq, Eq)]
pub struct Cursor {
    /// How many of the records, or of the positions, are written.
    pub place: u64,
    /// How many segments of the next record are written.
    pub segment: u64,
}

/// The cursor after the record at a cursor's place.
fn after_record(cursor: Cursor) -> Cursor
    requires { cursor.place + 1 < 2 ^ 64 }
    ensures { result ≡ after_record cursor }
{
    Cursor {
        place: cursor.place + 1,
        segment: 0,
    }
}

/// The next portion of an archive's records in a form, and the cursor after it. The record at the cursor's place has
/// this row, and these are the archive's bytes. `Read`: they are others.
pub fn next_as<A: Allocator + Copy>(
    alloc: A,
    form: Form,
    row: &Row<'_>,
    bytes: &[u8],
    cursor: Cursor,
) -> Result<(Portion<A>, Cursor), EarlyFault>
    requires { cursor.place + 1 < 2 ^ 64 }
    ensures next { (rows : List Seen) (is : IsArchiveOf bytes.now rows) → slice_get rows cursor.place ≡ Some row.now →
        IsNextPortion (left_of (text_as form) (contents is.are.records)) IsAny cursor bytes.now result }
    ensures range { IfOk result (λ given. HasRange given.0.block_start given.0.block_len bytes.now) }
{
    match portion_as(alloc, form, row, bytes) {
        Ok(portion) => Ok((portion, after_record(cursor))),
        Err(fault) => Err(fault),
    }
}

/// The cursor after a segment of the record at a cursor's place, in whose place this many are written.
fn after_segment(cursor: Cursor, count: u64) -> Cursor
    requires { cursor.place + 1 < 2 ^ 64 }
    ensures more { cursor.segment + 1 < count →
        result ≡ record { place = cursor.place; segment = cursor.segment + 1 } }
    ensures last { count ≤ cursor.segment + 1 → result ≡ after_record cursor }
{
    if count.saturating_sub(cursor.segment) <= 1 {
        return after_record(cursor);
    }
    Cursor {
        place: cursor.place,
        segment: cursor.segment + 1,
    }
}

/// The next portion of an archive's records, each split into segments of `size` bytes, in the same way. The digest of a
/// segment is computed with its portion.
pub fn next_split<A: Allocator + Copy>(
    alloc: A,
    size: u64,
    row: &Row<'_>,
    bytes: &[u8],
    cursor: Cursor,
) -> Result<(Portion<A>, Cursor), EarlyFault>
    requires { cursor.place + 1 < 2 ^ 64 }
    ensures next { (rows : List Seen) (is : IsArchiveOf bytes.now rows) → slice_get rows cursor.place ≡ Some row.now →
        IsInSplit size (contents is.are.records) cursor → IsNextPortion (left_split size (contents is.are.records))
        (IsInSplit size (contents is.are.records)) cursor bytes.now result }
    ensures range { IfOk result (λ given. HasRange given.0.block_start given.0.block_len bytes.now) }
{
    match portion_split(alloc, size, row, cursor.segment, bytes) {
        Ok((portion, count)) => Ok((portion, after_segment(cursor, count))),
        Err(fault) => Err(fault),
    }
}

/// The place of the next of the records at positions of an archive, and the cursor after it: its offset, and its
/// length with the two line ends after its block. The record at the position at the cursor's place has this row.
pub fn next_selected(row: &Row<'_>, cursor: Cursor) -> (u64, u64, Cursor)
    requires { cursor.place + 1 < 2 ^ 64 }
    ensures place { (bytes : List ℕ) (rows : List Seen) (position : ℕ) → IsArchiveOf bytes rows →
        slice_get rows position ≡ Some row.now → IsRecordPlace bytes row.now result.0 result.1 }
    ensures next { (bytes positions : List ℕ) (rows : List Seen) (position : ℕ) →
        slice_get positions cursor.place ≡ Some position → slice_get rows position ≡ Some row.now →
        IsFollowed (left_selected rows positions bytes) IsAny cursor (record_bytes bytes row.now) result.2 }
{
    let (offset, len) = record_place(row);
    (offset, len, after_record(cursor))
}
