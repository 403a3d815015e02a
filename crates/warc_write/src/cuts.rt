//! How records are split by their heads, without a block in memory.
ghost use Rattle.std.specs.Prelude.{◌≡◌, ◌<◌, Bool, nat_le, IfOk, IfSome, MatchResult, Ok, Err};
ghost use Rattle.std.specs.List.{list_all};
ghost use Rattle.warc_frame.specs.Record.{Record, canonical_len, max_head};
ghost use Rattle.warc_write.specs.Cutting.{HasParts, records_by};
ghost use Rattle.warc_write.specs.Splitting.{UnlessMemory, has_room, segment_fields, segments_of, split_of};

use crate::segments::{SegmentPart, SplitFault, part_at, segment_count, segment_head, splittable};
use std::alloc::{AllocError, Allocator};
use warc_field::{Fields, canonical_len};
use warc_frame::{MAX_HEAD, Version};

/// Whether a head of these fields is short enough.
fn has_room<A: Allocator>(version: Version, fields: &Fields<A>) -> bool
    ensures { result ≡ nat_le (canonical_len version fields.now) max_head }
{
    match canonical_len(fields) {
        Some(lines) => lines <= MAX_HEAD - version.line().len() - 2,
        None => false,
    }
}

/// Whether a segment's head is short enough, with any digest: a digest's text has 37 bytes.
fn has_short_head<A: Allocator + Copy>(
    alloc: A,
    version: Version,
    fields: &Fields<A>,
    uuid: &[u8; 16],
    part: &SegmentPart,
) -> Result<bool, AllocError>
    ensures { IfOk result (λ fit.
        fit ≡ nat_le (canonical_len version (segment_fields fields.now uuid.now part.now)) max_head) }
{
    Ok(has_room(version, &segment_head(alloc, fields, uuid, part)?))
}

/// Whether the heads of all segments are short enough.
fn all_fit<A: Allocator + Copy>(
    alloc: A,
    version: Version,
    fields: &Fields<A>,
    uuid: &[u8; 16],
    size: u64,
    len: u64,
) -> Result<bool, AllocError>
    requires some { 0 < size }
    requires more { 0 < len }
    ensures { (r : Record) (is_bad : Bool) → HasParts version fields.now len is_bad r →
        IfOk result (λ fit. fit ≡ list_all has_room (segments_of r uuid.now size)) }
{
    for at in 0..segment_count(size, len) {
        let part = part_at(size, len, at, [0; 20]);
        if !has_short_head(alloc, version, fields, uuid, &part)? {
            return Ok(false);
        }
    }
    Ok(true)
}

/// How a record is split into segments of `size` bytes: the sixteen bytes of its UUID, from which the segments' ids are
/// made, or `None` if its block has no more bytes than a segment. It depends on the record's version and fields, on how
/// many bytes its block has, and on whether the digest of its block is checked and differs. The refusals are those of
/// `split`, in the same order.
pub fn cut<A: Allocator + Copy>(
    alloc: A,
    version: Version,
    fields: &Fields<A>,
    size: u64,
    len: u64,
    is_bad: bool,
) -> Result<Option<[u8; 16]>, SplitFault>
    ensures cut { (r : Record) → HasParts version fields.now len is_bad r → MatchResult result
        (λ uuid. split_of r size ≡ Ok (records_by r size uuid))
        (λ fault. UnlessMemory fault (split_of r size ≡ Err fault)) }

    // Only a block of more bytes than a segment is cut.
    ensures long { IfOk result (λ uuid. IfSome uuid (λ _. (0 < size) × (size < len))) }
{
    let uuid = match splittable(fields, size) {
        Ok(uuid) => uuid,
        Err(fault) => return Err(fault),
    };
    if is_bad {
        return Err(SplitFault::BadDigest);
    }
    if len <= size {
        return Ok(None);
    }
    if !all_fit(alloc, version, fields, &uuid, size, len)? {
        return Err(SplitFault::TooLong);
    }
    Ok(Some(uuid))
}
