//! Records that are split.

use crate::framed::written::{record, say_rendered};
use std::alloc::{AllocError, Allocator, Global};
use suites_script::Case;
use suites_texts_parsed::{Attempt, say_fields, say_line, say_parts, say_refusals};
use warc_field::Fields;
use warc_frame::Framed;
use warc_vectors::RefusingAllocator;
use warc_write::{SegmentPart, SplitFault, segment_head, split, splittable};

/// The value of a field; `-` where there is none.
fn value_in<'a>(fields: &'a Fields, name: &[u8]) -> &'a [u8] {
    match fields.first(name) {
        Some(value) => value.bytes(),
        None => b"-",
    }
}

/// Adds each segment's version, id, total and block, in a line.
fn say_segments(alloc: Global, answer: &mut Vec<u8>, parts: &[Framed]) -> Result<(), AllocError> {
    for part in parts {
        let version = format!(in alloc; "{} ", part.version())?;
        let id = value_in(part.fields(), b"WARC-Record-ID");
        let total = value_in(part.fields(), b"WARC-Segment-Total-Length");
        let words = [
            version.as_bytes(),
            id,
            b" ",
            total,
            b" ",
            part.block(),
            b"\n",
        ];
        say_parts(answer, &words)?;
    }
    Ok(())
}

/// Adds what is written of the segments of a record, or a line of each, or why it isn't split.
fn say_split(
    alloc: Global,
    case: &Case<'_>,
    answer: &mut Vec<u8>,
    whole: &Framed,
    text: &[u8],
) -> Result<(), AllocError> {
    match split(alloc, whole, case.number(1)) {
        Ok(parts) if case.text(0) == "split" => say_rendered(alloc, answer, &parts, text),
        Ok(parts) => say_segments(alloc, answer, &parts),
        Err(fault) => say_line(alloc, answer, &fault),
    }
}

/// Adds what `say_split` adds, for the record that a text begins with, or why there is none.
pub(crate) fn say_split_of(
    alloc: Global,
    case: &Case<'_>,
    answer: &mut Vec<u8>,
    text: &[u8],
) -> Result<(), AllocError> {
    match record(alloc, text) {
        Ok(whole) => say_split(alloc, case, answer, &whole, text),
        Err(fault) => say_line(alloc, answer, &fault),
    }
}

/// A record that is split at a size.
#[derive(Clone, Copy)]
struct Splitting<'a>(&'a [u8], u64);

/// How `split` refuses a record, at a size.
fn split_fault<A: Allocator + Copy>(alloc: A, whole: &Framed<A>, size: u64) -> Option<SplitFault> {
    split(alloc, whole, size).err()
}

/// Whether the split of the record that a text begins with, which is read with ample memory, is refused for want of it.
fn is_refused<A: Allocator + Copy>(ample: A, heap: A, text: &[u8], size: u64) -> bool {
    match record(ample, text) {
        Ok(whole) => split_fault(heap, &whole, size) == Some(SplitFault::Memory),
        Err(_) => false,
    }
}

impl Attempt for Splitting<'_> {
    fn refused_at(&self, alloc: Global, number: u64) -> Option<bool> {
        let ample = RefusingAllocator::new(alloc, 0);
        let heap = RefusingAllocator::new(alloc, number);
        let is_refused = is_refused(&ample, &heap, self.0, self.1);
        (is_refused == heap.has_refused()).then_some(is_refused)
    }
}

/// Adds whether each refused request of a split is reported. There are as many as the third word says, or more.
pub(crate) fn say_split_without_memory(
    alloc: Global,
    case: &Case<'_>,
    answer: &mut Vec<u8>,
    text: &[u8],
) -> Result<(), AllocError> {
    let attempt = Splitting(text, case.number(1));
    say_refusals(alloc, answer, &attempt, case.number(2))
}

/// The segment that the words of a case from the second on say: its number, the total, and the length of its block,
/// whose digest is all zeros.
fn part_of(case: &Case<'_>) -> SegmentPart {
    SegmentPart {
        number: case.number(2),
        total: Some(case.number(3)),
        len: case.number(4),
        digest: [0; 20],
    }
}

/// Adds the fields of a segment of a record.
fn say_segment_head(
    alloc: Global,
    answer: &mut Vec<u8>,
    whole: &Fields,
    uuid: &[u8; 16],
    part: &SegmentPart,
) -> Result<(), AllocError> {
    match segment_head(alloc, whole, uuid, part) {
        Ok(fields) => say_fields(answer, &fields),
        Err(fault) => say_line(alloc, answer, &fault),
    }
}

/// Adds why fields may not be split at the size that the second word says, or the head of a segment.
fn say_splittable(
    alloc: Global,
    case: &Case<'_>,
    answer: &mut Vec<u8>,
    whole: &Fields,
) -> Result<(), AllocError> {
    let part = part_of(case);
    match splittable(whole, case.number(1)) {
        Ok(uuid) => say_segment_head(alloc, answer, whole, &uuid, &part),
        Err(fault) => say_line(alloc, answer, &fault),
    }
}

/// Adds what `say_splittable` adds, for the fields of the record that a text begins with, or why there is none.
pub(crate) fn say_splittable_of(
    alloc: Global,
    case: &Case<'_>,
    answer: &mut Vec<u8>,
    text: &[u8],
) -> Result<(), AllocError> {
    match record(alloc, text) {
        Ok(whole) => say_splittable(alloc, case, answer, whole.fields()),
        Err(fault) => say_line(alloc, answer, &fault),
    }
}
