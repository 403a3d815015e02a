//! Records in whole texts: what is read, written and made.

use std::alloc::{AllocError, Allocator, Global};
use suites_script::Case;
use suites_texts_parsed::{
    Attempt, say_line, say_outcome, say_refusals, say_written, say_written_twice, text_of,
};
use warc_field::{Fields, read_area};
use warc_frame::{Fault, FaultKind, Framed, Version, read_one};
use warc_vectors::RefusingAllocator;

/// A record's version, the number of its fields, the length of its block and its own.
type Shape = (Version, usize, usize, usize);

/// The text changed by the words at a place and after it; where there are none, it is as it was.
pub(crate) fn changed(
    alloc: Global,
    case: &Case<'_>,
    place: usize,
    text: &[u8],
) -> Result<Vec<u8>, AllocError> {
    if case.word(place).is_empty() {
        return text.to_vec(alloc);
    }
    match case.changed(alloc, place, text)? {
        Some(text) => Ok(text),
        None => text.to_vec(alloc),
    }
}

/// The shape of the record that a text begins with.
fn shape<A: Allocator + Copy>(alloc: A, text: &[u8]) -> Result<Shape, Fault> {
    match read_one(alloc, text) {
        Ok((framed, len)) => Ok((
            framed.version(),
            framed.fields().len(),
            framed.block().len(),
            len,
        )),
        Err(fault) => Err(fault),
    }
}

/// Adds the shape of the record that a text begins with, or its fault.
fn say_shape(alloc: Global, answer: &mut Vec<u8>, text: &[u8]) -> Result<(), AllocError> {
    match shape(alloc, text) {
        Ok((version, fields, block, len)) => {
            let reported = format!(in alloc;
                "{version}, {fields} fields, block {block}, record {len}"
            )?;
            say_line(alloc, answer, &reported)
        }
        Err(fault) => say_line(alloc, answer, &fault),
    }
}

/// The length of the record that a text begins with.
fn length(alloc: Global, text: &[u8]) -> Result<usize, Fault> {
    match shape(alloc, text) {
        Ok((_, _, _, len)) => Ok(len),
        Err(fault) => Err(fault),
    }
}

/// How many records a text is, or where it is none, counted from its front.
fn count_of(alloc: Global, text: &[u8]) -> Result<usize, Fault> {
    let mut rest = text;
    for count in 0..text.len() {
        if rest.is_empty() {
            return Ok(count);
        }
        let at = text.len().saturating_sub(rest.len()) as u64;
        match length(alloc, rest) {
            Ok(len) => rest = rest.get(len..).unwrap_or(b""),
            Err(Fault { kind, offset }) => return Err(kind.at(at.saturating_add(offset))),
        }
    }
    Ok(text.len())
}

/// The length of the first text that another begins with and that isn't reported as cut off there.
fn first_not_cut(alloc: Global, text: &[u8]) -> Option<usize> {
    for len in 0..text.len() {
        if length(alloc, &text[..len]) != Err(FaultKind::Truncated.at(len as u64)) {
            return Some(len);
        }
    }
    None
}

/// Adds whether each front of a text is reported as cut off at its end.
pub(crate) fn say_cut(
    alloc: Global,
    answer: &mut Vec<u8>,
    other: Option<usize>,
    count: usize,
) -> Result<(), AllocError> {
    let reported = match other {
        None => format!(in alloc; "F11 Truncated at the end of each of {count}")?,
        Some(len) => format!(in alloc; "not of that of {len}")?,
    };
    say_line(alloc, answer, &reported)
}

/// Adds what is written of the record that a text begins with, with memory or without.
fn say_rewritten(
    alloc: Global,
    answer: &mut Vec<u8>,
    text: &[u8],
    is_refused: bool,
) -> Result<(), AllocError> {
    match read_one(alloc, text) {
        Ok((framed, _)) if is_refused => say_written_twice(alloc, answer, &framed),
        Ok((framed, _)) => say_written(alloc, answer, &framed),
        Err(fault) => say_line(alloc, answer, &fault),
    }
}

/// Adds the length of the block of the record that fields and a block make, or why they make none.
fn say_made(
    alloc: Global,
    answer: &mut Vec<u8>,
    fields: Fields,
    block: &[u8],
) -> Result<(), AllocError> {
    match Framed::new(Version::V1_0, fields, block.to_vec(alloc)?) {
        Ok(framed) => say_line(alloc, answer, &framed.block().len()),
        Err(fault) => say_line(alloc, answer, &fault),
    }
}

/// Adds what `say_made` adds, for the fields of an area, or why it can't be read.
fn say_made_of(
    alloc: Global,
    answer: &mut Vec<u8>,
    area: &[u8],
    block: &[u8],
) -> Result<(), AllocError> {
    match read_area(alloc, area) {
        Ok(fields) => say_made(alloc, answer, fields, block),
        Err(fault) => say_line(alloc, answer, &fault),
    }
}

/// A text whose first record is read.
#[derive(Clone, Copy)]
struct Reading<'a>(&'a [u8]);

impl Attempt for Reading<'_> {
    fn refused_at(&self, alloc: Global, number: u64) -> Option<bool> {
        let whole = shape(alloc, self.0);
        let heap = RefusingAllocator::new(alloc, number);
        let first = shape(&heap, self.0);
        if !heap.has_refused() {
            return (first == whole).then_some(false);
        }
        let is_so = first == Err(FaultKind::Memory.at(0)) && shape(&heap, self.0) == whole;
        is_so.then_some(true)
    }
}

/// Answers a case of records in whole texts.
pub(crate) fn answer(
    alloc: Global,
    case: &Case<'_>,
    kept: &[u8],
    answer: &mut Vec<u8>,
) -> Result<bool, AllocError> {
    let reported = match case.text(0) {
        "shape" => say_shape(alloc, answer, text_of(case, kept)),
        "length" => say_outcome(
            alloc,
            answer,
            length(alloc, &changed(alloc, case, 1, text_of(case, kept))?),
        ),
        "records" => say_outcome(alloc, answer, count_of(alloc, text_of(case, kept))),
        "fronts" => say_cut(
            alloc,
            answer,
            first_not_cut(alloc, text_of(case, kept)),
            text_of(case, kept).len(),
        ),
        "rewrite" => say_rewritten(alloc, answer, text_of(case, kept), false),
        "rewrite-without-memory" => say_rewritten(alloc, answer, text_of(case, kept), true),
        "frame" => say_made_of(alloc, answer, text_of(case, kept), case.word(1)),
        "read-without-memory" => say_refusals(
            alloc,
            answer,
            &Reading(text_of(case, kept)),
            case.number(1),
        ),
        _ => return Ok(false),
    };
    reported?;
    Ok(true)
}
