//! Records of an archive that are split into segments, whose blocks are copied from the source.
ghost use Rattle.std.specs.Prelude.{◌≡◌, ◌+◌, ◌-◌, ◌*◌, ◌^◌, ◌<◌, length, take, drop, min, IfOk, IfSome};
ghost use Rattle.warc_frame.specs.Effects.{Emits, FailsBy, HasRange, ReadsOnly, ReadsRange, read_result};
ghost use Rattle.warc_frame.specs.Record.{Record};
ghost use Rattle.warc_value.specs.Digests.{is_bad, verdict_of};
ghost use Rattle.warc_record.specs.Readings.{digest_wanted};
ghost use Rattle.warc_write.specs.Cutting.{records_by, split_or_whole};
ghost use Rattle.warc_write.specs.Splitting.{segment_count};
ghost use Rattle.warc_rewrite.specs.Copied.{IsTextWith};
ghost use Rattle.warc_frame.specs.Seen.{IfHeld, IsInRange};
ghost use Rattle.warc_rewrite.specs.Forms.{split_text};
ghost use Rattle.warc_rewrite.specs.Segments.{AreSegmentTexts, IsCuttable, IsSegmentText};

use crate::forms::{Copied, put_copied};
use std::alloc::{AllocError, Allocator};
use warc_digest::{digest_range, judge_range};
use warc_field::Fields;
use warc_frame::{Head, OutBuffer, OutFault, ReadFault, Sink, Source, Version};
use warc_reading::Row;
use warc_record::wanted;
use warc_write::{SplitFault, cut, part_at, segment_count, segment_head};

/// A record that is cut into segments, whose block is in the source.
#[derive(Drop)]
struct Cut<A: Allocator> {
    version: Version,
    fields: Fields<A>,

    /// The sixteen bytes of the UUID of its id.
    uuid: [u8; 16],

    /// How many bytes of the block a segment has, but for the last one.
    size: u64,
    block_start: u64,
    block_len: u64,
}

/// Adds the segment at a place, counted from 0, to the output. Its piece of the block is read twice: for its digest,
/// and to be copied.
fn put_segment<S: Source, A: Allocator + Copy, W: Sink>(
    alloc: A,
    cut: &Cut<A>,
    at: u64,
    source: &mut S,
    scratch: &mut [u8],
    buffer: &mut OutBuffer,
    out: &mut W,
) -> Result<(), OutFault>
    requires room { 0 < length scratch.old }
    requires some { 0 < cut.now.size }
    requires inside { at * cut.now.size < cut.now.block_len }
    requires end { cut.now.block_start + cut.now.block_len < 2 ^ 64 }
    ensures emits { Emits (IsSegmentText cut.now at) (S.seen source.old) (S.seen source.new) (W.seen out.old)
        (W.seen out.new) buffer.old buffer.new result }
    ensures reads { ReadsOnly (IsInRange cut.now.block_start cut.now.block_len) (2 * min cut.now.size
        (cut.now.block_len - at * cut.now.size)) (S.seen source.old) (S.seen source.new) }
{
    let gone = at * cut.size;
    let start = cut.block_start + gone;
    let len = cut.size.min(cut.block_len - gone);
    let Ok(digest) = digest_range(source, start, len, scratch) else {
        return Err(OutFault::Read(buffer.sent()));
    };
    let part = part_at(cut.size, cut.block_len, at, digest);
    let Ok(fields) = segment_head(alloc, &cut.fields, &cut.uuid, &part) else {
        return Err(OutFault::Memory(buffer.sent()));
    };
    let segment = Copied {
        version: cut.version,
        fields,
        block_start: start,
        block_len: len,
    };
    put_copied(&segment, source, scratch, buffer, out)
}

/// Adds all segments to the output, in their order.
fn put_segments<S: Source, A: Allocator + Copy, W: Sink>(
    alloc: A,
    cut: &Cut<A>,
    source: &mut S,
    scratch: &mut [u8],
    buffer: &mut OutBuffer,
    out: &mut W,
) -> Result<(), OutFault>
    requires room { 0 < length scratch.old }
    requires some { 0 < cut.now.size }
    requires more { 0 < cut.now.block_len }
    ensures emits { Emits (AreSegmentTexts cut.now (segment_count cut.now.size cut.now.block_len)) (S.seen source.old)
        (S.seen source.new) (W.seen out.old) (W.seen out.new) buffer.old buffer.new result }
    ensures reads { ReadsOnly (IsInRange cut.now.block_start cut.now.block_len) (2 * cut.now.block_len)
        (S.seen source.old) (S.seen source.new) }
{
    if cut.block_len > u64::MAX - cut.block_start {
        return Err(OutFault::Read(buffer.sent()));
    }
    'splitting: for at in 0..segment_count(cut.size, cut.block_len) {
        put_segment(alloc, cut, at, source, scratch, buffer, out)?;
    }
    Ok(())
}

/// Whether the block of a row's record isn't what its digest says. A block that has no more bytes than a segment isn't
/// read: its record stays whole in any case.
fn has_bad_digest<S: Source, A: Allocator>(
    size: u64,
    row: &Row<'_>,
    head: &Head<A>,
    source: &mut S,
    scratch: &mut [u8],
) -> Result<bool, ReadFault>
    requires { 0 < length scratch.old }
    ensures bad { IfHeld (S.seen source.old).holds (λ bytes. IfOk result (λ bad. size < row.now.block_len →
        bad ≡ is_bad (verdict_of (digest_wanted head.now.fields) (take row.now.block_len
        (drop row.now.block_start bytes))))) }
    ensures reads { ReadsRange row.now.block_start row.now.block_len (S.seen source.old) (S.seen source.new) }
    ensures fails { FailsBy (HasRange row.now.block_start row.now.block_len) (read_result result) (S.seen source.old)
        (S.seen source.new) }
{
    if row.block_len <= size {
        return Ok(false);
    }
    let wanted = wanted(&head.fields);
    match judge_range(source, row.block_start, row.block_len, &wanted, scratch) {
        Ok(verdict) => Ok(verdict.is_bad()),
        Err(fault) => Err(fault),
    }
}

/// How a row's record is cut, by its head and by whether its digest is bad: the bytes of its UUID, or `None` where it
/// stays whole, since it is short or isn't split. Of a short record neither the head nor the digest matters.
fn cut_or_whole<A: Allocator + Copy>(
    alloc: A,
    size: u64,
    row: &Row<'_>,
    head: &Head<A>,
    bad: bool,
) -> Result<Option<[u8; 16]>, AllocError>
    ensures cut { (r : Record) → IsCuttable head.now.version head.now.fields row.now.block_len size bad r →
        IfOk result (λ uuid. split_or_whole size r ≡ records_by r size uuid) }
    ensures long { IfOk result (λ uuid. IfSome uuid (λ _. (0 < size) × (size < row.now.block_len))) }
{
    if row.block_len <= size {
        return Ok(None);
    }
    match cut(alloc, head.version, &head.fields, size, row.block_len, bad) {
        Ok(uuid) => Ok(uuid),
        Err(SplitFault::Memory) => Err(AllocError),
        Err(_) => Ok(None),
    }
}

/// Adds a row's record to the output, by its head, split into segments of `size` bytes, or whole where it is short or
/// isn't split. The block of one that may be split is read three times: to judge its digest, for the digests of the
/// segments, and to be copied.
pub(crate) fn put_split<S: Source, A: Allocator + Copy, W: Sink>(
    alloc: A,
    size: u64,
    row: &Row<'_>,
    head: Head<A>,
    source: &mut S,
    scratch: &mut [u8],
    buffer: &mut OutBuffer,
    out: &mut W,
) -> Result<(), OutFault>
    requires { 0 < length scratch.old }
    ensures emits { Emits (IsTextWith (split_text size) row.now head) (S.seen source.old) (S.seen source.new)
        (W.seen out.old) (W.seen out.new) buffer.old buffer.new result }
    ensures reads { ReadsOnly (IsInRange row.now.block_start row.now.block_len) (3 * row.now.block_len)
        (S.seen source.old) (S.seen source.new) }
{
    let Ok(bad) = has_bad_digest(size, row, &head, source, scratch) else {
        return Err(OutFault::Read(buffer.sent()));
    };
    let Ok(uuid) = cut_or_whole(alloc, size, row, &head, bad) else {
        return Err(OutFault::Memory(buffer.sent()));
    };
    let (version, fields) = (head.version, head.fields);
    let (block_start, block_len) = (row.block_start, row.block_len);
    match uuid {
        Some(uuid) => {
            let cut = Cut {
                version,
                fields,
                uuid,
                size,
                block_start,
                block_len,
            };
            put_segments(alloc, &cut, source, scratch, buffer, out)
        }
        None => {
            let copy = Copied {
                version,
                fields,
                block_start,
                block_len,
            };
            put_copied(&copy, source, scratch, buffer, out)
        }
    }
}
