//! Records of an archive written in a form: each head from its fields, each block copied from the source.
ghost use Rattle.std.specs.Prelude.{◌≡◌, ◌<◌, ◌≤◌, IfOk, length, take};
ghost use Rattle.warc_rewrite.specs.Copied.{IsClosedBlock, IsCopiedOf, IsCopy, IsSameText, IsTextWith};
ghost use Rattle.warc_frame.specs.Effects.{Emits, ReadsRange, ReadsOnly};
ghost use Rattle.warc_reading.specs.Rereading.{IsHeadReadOf};
ghost use Rattle.warc_frame.specs.Seen.{IsInRange};
ghost use Rattle.warc_rewrite.specs.Forms.{text_as};
ghost use Rattle.warc_reading.specs.Row.{Placed, row_of};

use std::alloc::{AllocError, Allocator};
use warc_field::Fields;
use warc_frame::{Head, OutBuffer, OutFault, Sink, Source, Version, put_range};
use warc_reading::Row;
use warc_write::{convert_fields, put_head};

/// How the records of an archive are written anew.
#[derive(Clone, Copy, PartialEq, Eq, Debug)]
pub enum Form {
    /// Each record in canonical form.
    Canonical,

    /// Each record in canonical form as one of WARC 1.1: its targets are without brackets.
    Converted,
}

/// A record to be written, whose block is in the source.
#[derive(Drop)]
pub(crate) struct Copied<A: Allocator> {
    pub(crate) version: Version,
    pub(crate) fields: Fields<A>,
    pub(crate) block_start: u64,
    pub(crate) block_len: u64,
}

/// Adds a block to the output, which is copied through the scratch, and what closes its record.
fn put_block<S: Source, W: Sink>(
    start: u64,
    len: u64,
    source: &mut S,
    scratch: &mut [u8],
    buffer: &mut OutBuffer,
    out: &mut W,
) -> Result<(), OutFault>
    requires { 0 < length scratch.old }
    ensures emits { Emits (IsClosedBlock start len) (S.seen source.old) (S.seen source.new) (W.seen out.old)
        (W.seen out.new) buffer.old buffer.new result }
    ensures reads { ReadsRange start len (S.seen source.old) (S.seen source.new) }
{
    put_range(source, start, len, scratch, buffer, out)?;
    buffer.put(out, b"\r\n\r\n")?;
    Ok(())
}

/// Adds a row's record to the output as it is: its head, whose text is at the front of the scratch, its block, and what
/// closes it.
pub(crate) fn put_same<S: Source, W: Sink>(
    len: usize,
    row: &Row<'_>,
    source: &mut S,
    scratch: &mut [u8],
    buffer: &mut OutBuffer,
    out: &mut W,
) -> Result<(), OutFault>
    requires { (0 < length scratch.old) × (len ≤ length scratch.old) }
    ensures emits { Emits (IsSameText (take len scratch.old) row.now) (S.seen source.old) (S.seen source.new)
        (W.seen out.old) (W.seen out.new) buffer.old buffer.new result }
    ensures reads { ReadsRange row.now.block_start row.now.block_len (S.seen source.old) (S.seen source.new) }
{
    buffer.put(out, &scratch[..len])?;
    put_block(row.block_start, row.block_len, source, scratch, buffer, out)
}

/// Adds a record to the output: its canonical head, its block, which is copied through the scratch, and what closes it.
pub(crate) fn put_copied<S: Source, A: Allocator, W: Sink>(
    copy: &Copied<A>,
    source: &mut S,
    scratch: &mut [u8],
    buffer: &mut OutBuffer,
    out: &mut W,
) -> Result<(), OutFault>
    requires { 0 < length scratch.old }
    ensures emits { Emits (IsCopy copy.now) (S.seen source.old) (S.seen source.new) (W.seen out.old)
        (W.seen out.new) buffer.old buffer.new result }
    ensures reads { ReadsOnly (IsInRange copy.now.block_start copy.now.block_len) copy.now.block_len
        (S.seen source.old) (S.seen source.new) }
{
    put_head(copy.version, &copy.fields, buffer, out)?;
    let (start, len) = (copy.block_start, copy.block_len);
    put_block(start, len, source, scratch, buffer, out)
}

/// What is written of a row's record, by its head.
fn copy_as<A: Allocator + Copy>(
    alloc: A,
    form: Form,
    row: &Row<'_>,
    head: Head<A>,
) -> Result<Copied<A>, AllocError>
    ensures copied { (p : Placed) → IsHeadReadOf p.content head → row.now ≡ row_of p →
        IfOk result (IsCopiedOf (text_as form) p) }
    ensures place { IfOk result (λ c. (c.block_start ≡ row.now.block_start) × (c.block_len ≡ row.now.block_len)) }
{
    let (block_start, block_len) = (row.block_start, row.block_len);
    match form {
        Form::Canonical => Ok(Copied {
            version: head.version,
            fields: head.fields,
            block_start,
            block_len,
        }),
        Form::Converted => Ok(Copied {
            version: Version::V1_1,
            fields: convert_fields(alloc, &head.fields)?,
            block_start,
            block_len,
        }),
    }
}

/// Adds a row's record to the output in a form, by its head.
pub(crate) fn put_as<S: Source, A: Allocator + Copy, W: Sink>(
    alloc: A,
    form: Form,
    row: &Row<'_>,
    head: Head<A>,
    source: &mut S,
    scratch: &mut [u8],
    buffer: &mut OutBuffer,
    out: &mut W,
) -> Result<(), OutFault>
    requires { 0 < length scratch.old }
    ensures emits { Emits (IsTextWith (text_as form) row.now head) (S.seen source.old) (S.seen source.new)
        (W.seen out.old) (W.seen out.new) buffer.old buffer.new result }
    ensures reads { ReadsOnly (IsInRange row.now.block_start row.now.block_len) row.now.block_len (S.seen source.old)
        (S.seen source.new) }
{
    let Ok(copy) = copy_as(alloc, form, row, head) else {
        return Err(OutFault::Memory(buffer.sent()));
    };
    put_copied(&copy, source, scratch, buffer, out)
}
