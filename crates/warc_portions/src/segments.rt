//! Records that are split into segments: the head of each segment made, its piece of the block where it is.
ghost use Rattle.std.specs.Prelude.{◌≡◌, ℕ, ◌*◌, ◌<◌, length, IfErr, IfOk, IfSome, MatchResult, Some, slice_get};
ghost use Rattle.warc_frame.specs.Effects.{HasRange};
ghost use Rattle.warc_frame.specs.Record.{Record};
ghost use Rattle.warc_frame.specs.Spelling.{canonical};
ghost use Rattle.warc_portions.specs.Portions.{IsInPlace, IsPortionOf};
ghost use Rattle.warc_reading.specs.Rereading.{IsHeadReadOf};
ghost use Rattle.warc_reading.specs.Row.{Placed};
ghost use Rattle.warc_record.specs.Readings.{digest_wanted};
ghost use Rattle.warc_value.specs.Digests.{is_bad, verdict_of};
ghost use Rattle.warc_write.specs.Cutting.{records_by, split_or_whole};
ghost use Rattle.warc_write.specs.Splitting.{segment_of};

use crate::portion::{Portion, head_at, portion_of};
use std::alloc::Allocator;
use warc_frame::{EarlyFault, Head};
use warc_reading::Row;
use warc_record::wanted;
use warc_value::digest;
use warc_write::{SplitFault, cut, part_at, segment_count, segment_head, splittable};

/// Whether a block isn't what the digest of its head says.
fn is_bad<A: Allocator>(head: &Head<A>, block: &[u8]) -> bool
    ensures { result ≡ is_bad (verdict_of (digest_wanted head.now.fields) block.now) }
{
    wanted(&head.fields).verdict(block).is_bad()
}

/// How a row's record is cut: the bytes of its UUID, or `None` where it stays whole, since it is short or isn't split.
/// The block of a record that is longer than a segment is hashed.
fn cut_first<A: Allocator + Copy>(
    alloc: A,
    size: u64,
    row: &Row<'_>,
    head: &Head<A>,
    bytes: &[u8],
) -> Result<Option<[u8; 16]>, EarlyFault>
    requires { HasRange row.now.block_start row.now.block_len bytes.now }
    ensures cut { (p : Placed) → IsInPlace bytes.now row.now p → IsHeadReadOf p.content head.now →
        IfOk result (λ uuid. split_or_whole size p.content ≡ records_by p.content size uuid) }
    ensures long { IfOk result (λ uuid. IfSome uuid (λ _. (0 < size) × (size < row.now.block_len))) }
    ensures memory { IfErr result (λ fault. fault ≡ EarlyFault.Memory) }
{
    if row.block_len <= size {
        return Ok(None);
    }
    let block = &bytes[row.block_start as usize..(row.block_start + row.block_len) as usize];
    let bad = is_bad(head, block);
    match cut(alloc, head.version, &head.fields, size, row.block_len, bad) {
        Ok(uuid) => Ok(uuid),
        Err(SplitFault::Memory) => Err(EarlyFault::Memory),
        Err(_) => Ok(None),
    }
}

/// The bytes of the UUID of a record that is cut, by its head. Its block isn't read. `Read`: it isn't cut.
fn cut_further<A: Allocator>(
    size: u64,
    row: &Row<'_>,
    head: &Head<A>,
) -> Result<Option<[u8; 16]>, EarlyFault>
    ensures cut { (r s : Record) (at : ℕ) → IsHeadReadOf r head.now → length r.block ≡ row.now.block_len → 0 < at →
        slice_get (split_or_whole size r) at ≡ Some s →
        MatchResult result (λ uuid. split_or_whole size r ≡ records_by r size uuid) (λ fault. ⊥) }
    ensures long { IfOk result (λ uuid. IfSome uuid (λ _. (0 < size) × (size < row.now.block_len))) }
{
    if size == 0 {
        return Err(EarlyFault::Read);
    }
    if row.block_len <= size {
        return Err(EarlyFault::Read);
    }
    match splittable(&head.fields, size) {
        Ok(uuid) => Ok(Some(uuid)),
        Err(_) => Err(EarlyFault::Read),
    }
}

/// How a row's record is cut, of which the segments before `at` are written.
fn cut_at<A: Allocator + Copy>(
    alloc: A,
    size: u64,
    row: &Row<'_>,
    head: &Head<A>,
    at: u64,
    bytes: &[u8],
) -> Result<Option<[u8; 16]>, EarlyFault>
    requires { HasRange row.now.block_start row.now.block_len bytes.now }
    ensures cut { (p : Placed) (s : Record) → IsInPlace bytes.now row.now p → IsHeadReadOf p.content head.now →
        slice_get (split_or_whole size p.content) at ≡ Some s → MatchResult result
        (λ uuid. split_or_whole size p.content ≡ records_by p.content size uuid)
        (λ fault. fault ≡ EarlyFault.Memory) }
    ensures long { IfOk result (λ uuid. IfSome uuid (λ _. (0 < size) × (size < row.now.block_len))) }
{
    if at == 0 {
        cut_first(alloc, size, row, head, bytes)
    } else {
        cut_further(size, row, head)
    }
}

/// The segment at a place, counted from 0, of a row's record. Its piece of the block is hashed.
fn segment_at<A: Allocator + Copy>(
    alloc: A,
    size: u64,
    row: &Row<'_>,
    head: &Head<A>,
    uuid: &[u8; 16],
    at: u64,
    bytes: &[u8],
) -> Result<Portion<A>, EarlyFault>
    requires range { HasRange row.now.block_start row.now.block_len bytes.now }
    requires some { 0 < size }
    requires inside { at * size < row.now.block_len }
    ensures segment { (p : Placed) → IsInPlace bytes.now row.now p → IsHeadReadOf p.content head.now → IfOk result
        (λ portion. IsPortionOf portion bytes.now (canonical (segment_of p.content uuid.now size at))) }
    ensures within { IfOk result (λ portion. HasRange portion.block_start portion.block_len bytes.now) }
    ensures memory { IfErr result (λ fault. fault ≡ EarlyFault.Memory) }
{
    let gone = at * size;
    let start = row.block_start + gone;
    let len = size.min(row.block_len - gone);
    let digest = digest(&bytes[start as usize..(start + len) as usize]);
    let part = part_at(size, row.block_len, at, digest);
    match segment_head(alloc, &head.fields, uuid, &part) {
        Ok(fields) => portion_of(alloc, head.version, &fields, start, len),
        Err(_) => Err(EarlyFault::Memory),
    }
}

/// What is written at a place, counted from 0, of what replaces a row's record: its segments of `size` bytes, or the
/// record where it is short or isn't split. Also how many these are. `Read`: the bytes aren't what they were, or there
/// aren't as many.
pub(crate) fn portion_split<A: Allocator + Copy>(
    alloc: A,
    size: u64,
    row: &Row<'_>,
    at: u64,
    bytes: &[u8],
) -> Result<(Portion<A>, u64), EarlyFault>
    ensures written { (p : Placed) (s : Record) → IsInPlace bytes.now row.now p →
        slice_get (split_or_whole size p.content) at ≡ Some s → MatchResult result
        (λ given. IsPortionOf given.0 bytes.now (canonical s) × (given.1 ≡ length (split_or_whole size p.content)))
        (λ fault. fault ≡ EarlyFault.Memory) }
    ensures range { IfOk result (λ given. HasRange given.0.block_start given.0.block_len bytes.now) }
{
    let head = match head_at(alloc, row, bytes) {
        Ok(head) => head,
        Err(fault) => return Err(fault),
    };
    match cut_at(alloc, size, row, &head, at, bytes) {
        Ok(Some(uuid)) => {
            let count = segment_count(size, row.block_len);
            if at >= count {
                return Err(EarlyFault::Read);
            }
            match segment_at(alloc, size, row, &head, &uuid, at, bytes) {
                Ok(portion) => Ok((portion, count)),
                Err(fault) => Err(fault),
            }
        }
        Ok(None) => match portion_of(
            alloc,
            head.version,
            &head.fields,
            row.block_start,
            row.block_len,
        ) {
            Ok(portion) => Ok((portion, 1)),
            Err(fault) => Err(fault),
        },
        Err(fault) => Err(fault),
    }
}
