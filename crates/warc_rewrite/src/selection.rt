//! Some records of an archive, written byte for byte.
ghost use Rattle.std.specs.Prelude.{◌≡◌, ◌≢◌, ◌+◌, ◌<◌, ◌≤◌, ◌^◌, ℕ, List, All, IfErr, IfOk, Some, length, slice_index, true, false};
ghost use Rattle.warc_frame.specs.Effects.{Emits, IsOfDevice, IsRange, ReadsOnly, Sends};
ghost use Rattle.warc_rewrite.specs.Selected.{AreBytesOf};
ghost use Rattle.warc_reading.specs.Archive.{IsArchiveOf};
ghost use Rattle.warc_rewrite.specs.Selecting.{AreOthers, ArePositions, ReadsRecords, Selects, at_positions, selected_text};
ghost use Rattle.warc_lookup.specs.RecordBytes.{IsInRecord, record_len};

use std::alloc::{AllocError, Allocator};
use warc_frame::{OutBuffer, OutFault, PIECE, Sink, Source, put_range};
use warc_reading::{Row, Rows};

/// How many bytes a row's record has, the two line ends after its block included, if it ends before offset 2^64.
fn whole_len(row: &Row<'_>) -> u64
    ensures most { result ≤ record_len (Some row.now) }
    ensures exact { row.now.block_start + row.now.block_len + 4 < 2 ^ 64 → result ≡ record_len (Some row.now) }
{
    let end = row
        .block_start
        .saturating_add(row.block_len)
        .saturating_add(4);
    end.saturating_sub(row.offset)
}

/// Adds the bytes of a row's record to the output, which are copied through the scratch.
fn put_whole<S: Source, W: Sink>(
    row: &Row<'_>,
    source: &mut S,
    scratch: &mut [u8],
    buffer: &mut OutBuffer,
    out: &mut W,
) -> Result<(), OutFault>
    requires { 0 < length scratch.old }
    ensures emits { Emits (IsRange row.now.offset (record_len (Some row.now))) (S.seen source.old)
        (S.seen source.new) (W.seen out.old) (W.seen out.new) buffer.old buffer.new result }
    ensures device { IfErr result IsOfDevice }
    ensures reads { ReadsOnly (IsInRecord (Some row.now)) (record_len (Some row.now)) (S.seen source.old)
        (S.seen source.new) }
{
    put_range(source, row.offset, whole_len(row), scratch, buffer, out)
}

/// Adds the bytes of the records at positions to the output.
fn put_selected<S: Source, A: Allocator, W: Sink>(
    source: &mut S,
    rows: &Rows<A>,
    positions: &[usize],
    scratch: &mut [u8],
    buffer: &mut OutBuffer,
    out: &mut W,
) -> Result<(), OutFault>
    requires room { 0 < length scratch.old }
    requires below { All (λ p. p < length rows.now) positions.now }
    ensures emits { Emits (AreBytesOf (at_positions rows.now positions.now)) (S.seen source.old)
        (S.seen source.new) (W.seen out.old) (W.seen out.new) buffer.old buffer.new result }
    ensures device { IfErr result IsOfDevice }
    ensures reads { ReadsRecords (at_positions rows.now positions.now) (S.seen source.old) (S.seen source.new) }
{
    'selecting: for position in positions {
        let Some(row) = rows.get(*position) else {
            unreachable!()
        };
        put_whole(&row, source, scratch, buffer, out)?;
    }
    Ok(())
}

/// Writes the bytes of the records at positions.
fn send_selected<S: Source, A: Allocator, W: Sink>(
    source: &mut S,
    rows: &Rows<A>,
    positions: &[usize],
    out: &mut W,
) -> Result<(), OutFault>
    requires { All (λ p. p < length rows.now) positions.now }
    ensures sends { Sends (AreBytesOf (at_positions rows.now positions.now)) (S.seen source.old)
        (S.seen source.new) (W.seen out.old) (W.seen out.new) result }
    ensures device { IfErr result IsOfDevice }
    ensures reads { ReadsRecords (at_positions rows.now positions.now) (S.seen source.old) (S.seen source.new) }
{
    let mut scratch = [0; PIECE];
    let mut buffer = OutBuffer::new();
    put_selected(source, rows, positions, &mut scratch, &mut buffer, out)?;
    buffer.flush(out)?;
    Ok(())
}

/// Writes the records at positions, byte for byte.
pub fn select_rows<S: Source, A: Allocator, W: Sink>(
    source: &mut S,
    rows: &Rows<A>,
    positions: &[usize],
    out: &mut W,
) -> Result<(), OutFault>
    requires { ArePositions (length rows.now) positions.now }
    ensures { Selects rows.now positions.now (S.seen source.old) (S.seen source.new) (W.seen out.old)
        (W.seen out.new) result }
{
    send_selected(source, rows, positions, out)
}

/// How many bytes the records at positions have.
pub fn selected_len<A: Allocator>(rows: &Rows<A>, positions: &[usize]) -> u64
    requires { ArePositions (length rows.now) positions.now }
    ensures { (bytes : List ℕ) → IsArchiveOf bytes rows.now →
        result ≡ length (selected_text rows.now positions.now bytes) }
{
    let mut total = 0u64;
    'counting: for chosen in positions {
        let Some(row) = rows.get(*chosen) else {
            unreachable!()
        };
        total = total.saturating_add(whole_len(&row));
    }
    total
}

/// Whether a position is the one at a place among positions.
fn is_at(positions: &[usize], place: usize, position: usize) -> bool
    ensures is { result ≡ true → (place < length positions.now) × (slice_index positions.now place ≡ position) }
    ensures not { result ≡ false → place < length positions.now → slice_index positions.now place ≢ position }
{
    if place >= positions.len() {
        return false;
    }
    positions[place] == position
}

/// The positions below a count that aren't among these, in ascending order.
pub fn other_positions<A: Allocator>(
    alloc: A,
    count: usize,
    positions: &[usize],
) -> Result<Vec<usize, A>, AllocError>
    requires { ArePositions count positions.now }
    ensures { IfOk result (λ others. AreOthers count positions.now others.items) }
{
    let mut others = Vec::new(alloc);
    let mut place = 0;
    'listing: for position in 0..count {
        if is_at(positions, place, position) {
            place += 1;
            continue;
        }
        others.push(position)?;
    }
    Ok(others)
}
