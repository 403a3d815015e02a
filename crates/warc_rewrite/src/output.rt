//! The records of an archive written anew, one after another.
ghost use Rattle.std.specs.Prelude.{◌≡◌, ◌<◌, ◌≤◌, length, take, true};
ghost use Rattle.std.specs.List.{sum_by};
ghost use Rattle.warc_frame.specs.Effects.{Emits, ReadsOnly, Sends};
ghost use Rattle.warc_frame.specs.Record.{Record, max_head};
ghost use Rattle.warc_frame.specs.Seen.{IsInRange};
ghost use Rattle.warc_frame.specs.Spelling.{canonical};
ghost use Rattle.warc_rewrite.specs.Forms.{WritesEach};
ghost use Rattle.warc_rewrite.specs.Copied.{AreTextsOf, IsTextAfter, IsTextOf, block_by, len_by, text_by};
ghost use Rattle.warc_reading.specs.Placing.{IsInAnyRow, IsInRow};

use crate::forms::{Form, put_as, put_same};
use crate::segments::put_split;
use std::alloc::Allocator;
use warc_frame::laws::head_of_spelled;
use warc_frame::{OutBuffer, OutFault, Sink, Source};
use warc_quick::is_canonical_head;
use warc_reading::{Row, Rows, head_buffer, head_in, reread_text};

/// What is written in the place of each record.
#[derive(Clone, Copy)]
pub enum Replacement {
    /// The record in a form.
    As(Form),

    /// Its segments of this number of bytes, or the record where it is short or isn't split.
    Split(u64),
}

impl Replacement {
    /// Whether a record whose block has this length is written canonically. `false` says nothing.
    fn keeps(self, block_len: u64) -> bool
        ensures { result ≡ true → (r : Record) → length r.block ≡ block_len → text_by self r ≡ canonical r }
    {
        match self {
            Replacement::As(form) => form == Form::Canonical,
            Replacement::Split(size) => block_len <= size,
        }
    }
}

/// Adds what replaces a row's record to the output, by its head, whose text is at the front of the scratch.
fn put_by_head<S: Source, A: Allocator + Copy, W: Sink>(
    alloc: A,
    source: &mut S,
    replacement: Replacement,
    row: &Row<'_>,
    len: usize,
    scratch: &mut [u8],
    buffer: &mut OutBuffer,
    out: &mut W,
) -> Result<(), OutFault>
    requires { (0 < length scratch.old) × (len ≤ length scratch.old) }
    ensures emits { Emits (IsTextAfter (text_by replacement) row.now (take len scratch.old)) (S.seen source.old)
        (S.seen source.new) (W.seen out.old) (W.seen out.new) buffer.old buffer.new result }
    ensures reads { ReadsOnly (IsInRange row.now.block_start row.now.block_len) (block_by replacement row.now)
        (S.seen source.old) (S.seen source.new) }
{
    let head = match head_in(alloc, &scratch[..len], row.block_len) {
        Ok(head) => head,
        Err(fault) => return Err(fault.after(buffer.sent())),
    };
    match replacement {
        Replacement::As(form) => put_as(alloc, form, row, head, source, scratch, buffer, out),
        Replacement::Split(size) => put_split(alloc, size, row, head, source, scratch, buffer, out),
    }
}

/// Adds what replaces a row's record to the output: the text of its head is read again, and its block copied, through a
/// buffer that any head fits. A record that is written canonically, and has a canonical head, is copied as it is.
fn put_record<S: Source, A: Allocator + Copy, W: Sink>(
    alloc: A,
    source: &mut S,
    replacement: Replacement,
    row: &Row<'_>,
    scratch: &mut [u8],
    buffer: &mut OutBuffer,
    out: &mut W,
) -> Result<(), OutFault>
    requires { max_head ≤ length scratch.old }
    ensures emits { Emits (IsTextOf (text_by replacement) row.now) (S.seen source.old) (S.seen source.new)
        (W.seen out.old) (W.seen out.new) buffer.old buffer.new result }
    ensures reads { ReadsOnly (IsInRow row.now) (len_by replacement row.now) (S.seen source.old) (S.seen source.new) }
{
    let len = match reread_text(source, row, scratch) {
        Ok(len) => len,
        Err(fault) => return Err(fault.after(buffer.sent())),
    };
    if replacement.keeps(row.block_len) && is_canonical_head(&scratch[..len], row.block_len) {
        return put_same(len, row, source, scratch, buffer, out);
    }
    put_by_head(alloc, source, replacement, row, len, scratch, buffer, out)
}

/// Adds what replaces the records of all rows to the output.
fn put_records<S: Source, A: Allocator + Copy, W: Sink>(
    alloc: A,
    source: &mut S,
    replacement: Replacement,
    rows: &Rows<A>,
    scratch: &mut [u8],
    buffer: &mut OutBuffer,
    out: &mut W,
) -> Result<(), OutFault>
    requires { max_head ≤ length scratch.old }
    ensures emits { Emits (AreTextsOf (text_by replacement) rows.now) (S.seen source.old) (S.seen source.new)
        (W.seen out.old) (W.seen out.new) buffer.old buffer.new result }
    ensures reads { ReadsOnly (IsInAnyRow rows.now) (sum_by (len_by replacement) rows.now) (S.seen source.old)
        (S.seen source.new) }
{
    'writing: for position in 0..rows.len() {
        let Some(row) = rows.get(position) else {
            unreachable!()
        };
        put_record(alloc, source, replacement, &row, scratch, buffer, out)?;
    }
    Ok(())
}

/// Writes what replaces the records of all rows, in their order. Each head is read again, and each block is copied from
/// the source.
fn write_rows<S: Source, A: Allocator + Copy, W: Sink>(
    alloc: A,
    source: &mut S,
    replacement: Replacement,
    rows: &Rows<A>,
    out: &mut W,
) -> Result<(), OutFault>
    ensures sends { Sends (AreTextsOf (text_by replacement) rows.now) (S.seen source.old) (S.seen source.new)
        (W.seen out.old) (W.seen out.new) result }
    ensures reads { ReadsOnly (IsInAnyRow rows.now) (sum_by (len_by replacement) rows.now) (S.seen source.old)
        (S.seen source.new) }
{
    let Ok(mut scratch) = head_buffer(alloc) else {
        return Err(OutFault::Memory(0));
    };
    let mut buffer = OutBuffer::new();
    put_records(
        alloc,
        source,
        replacement,
        rows,
        &mut scratch,
        &mut buffer,
        out,
    )?;
    buffer.flush(out)?;
    Ok(())
}

/// Writes what replaces each record.
pub fn write_each<S: Source, A: Allocator + Copy, W: Sink>(
    source: &mut S,
    rows: &Rows<A>,
    replacement: Replacement,
    out: &mut W,
) -> Result<(), OutFault>
    ensures { WritesEach (text_by replacement) (len_by replacement) rows.now (S.seen source.old) (S.seen source.new)
        (W.seen out.old) (W.seen out.new) result }
{
    head_of_spelled();
    write_rows(rows.allocator(), source, replacement, rows, out)
}
