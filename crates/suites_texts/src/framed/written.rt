//! Records that are made, split, converted and rendered.

use crate::framed::made::{say_made, say_made_without_memory};
use crate::framed::split::{say_split_of, say_split_without_memory, say_splittable_of};
use std::alloc::{AllocError, Allocator, Global};
use std::slice::from_ref;
use suites_script::Case;
use suites_texts_parsed::{Attempt, say_line, say_refusals, say_text, text_of};
use warc_frame::{Fault, Framed, MemSink, OutFault, decode, read_one};
use warc_vectors::RefusingAllocator;
use warc_write::{convert, render};

/// The record that a text begins with.
pub(crate) fn record<A: Allocator + Copy>(alloc: A, text: &[u8]) -> Result<Framed<A>, Fault> {
    match read_one(alloc, text) {
        Ok((framed, _)) => Ok(framed),
        Err(fault) => Err(fault),
    }
}

/// Adds what is written of records.
pub(crate) fn say_rendered(
    alloc: Global,
    answer: &mut Vec<u8>,
    records: &[Framed],
    kept: &[u8],
) -> Result<(), AllocError> {
    let mut sink = MemSink::new(Vec::new(alloc));
    match render(records, &mut sink) {
        Ok(()) => say_text(alloc, answer, sink.bytes(), kept),
        Err(fault) => say_line(alloc, answer, &fault),
    }
}

/// How the writing of records is refused where the first request of memory is.
fn render_fault(alloc: Global, records: &[Framed]) -> Option<OutFault> {
    let heap = RefusingAllocator::new(alloc, 1);
    let mut sink = MemSink::new(Vec::new(&heap));
    render(records, &mut sink).err()
}

/// Adds how the writing of records is refused without memory.
fn say_unrendered(
    alloc: Global,
    answer: &mut Vec<u8>,
    records: &[Framed],
) -> Result<(), AllocError> {
    match render_fault(alloc, records) {
        Some(fault) => say_line(alloc, answer, &fault),
        None => say_line(alloc, answer, &"written"),
    }
}

/// Adds what is written of the records that a text is, with memory or without.
fn say_rendered_of(
    alloc: Global,
    answer: &mut Vec<u8>,
    text: &[u8],
    is_refused: bool,
) -> Result<(), AllocError> {
    match decode(alloc, 0, &[text]) {
        Ok(records) if is_refused => say_unrendered(alloc, answer, &records),
        Ok(records) => say_rendered(alloc, answer, &records, text),
        Err(fault) => say_line(alloc, answer, &fault),
    }
}

/// Adds what is written of a record that is converted.
fn say_converted(
    alloc: Global,
    answer: &mut Vec<u8>,
    framed: &Framed,
    text: &[u8],
) -> Result<(), AllocError> {
    let converted = convert(alloc, framed)?;
    say_rendered(alloc, answer, from_ref(&converted), text)
}

/// Adds what `say_converted` adds, for the record that a text begins with, or why there is none.
fn say_converted_of(alloc: Global, answer: &mut Vec<u8>, text: &[u8]) -> Result<(), AllocError> {
    match record(alloc, text) {
        Ok(framed) => say_converted(alloc, answer, &framed, text),
        Err(fault) => say_line(alloc, answer, &fault),
    }
}

/// A text whose first record is converted.
#[derive(Clone, Copy)]
struct Converting<'a>(&'a [u8]);

/// Whether the conversion of a text's first record, which is read with ample memory, is refused.
fn is_refused<A: Allocator + Copy>(ample: A, heap: A, text: &[u8]) -> bool {
    match record(ample, text) {
        Ok(whole) => convert(heap, &whole).is_err(),
        Err(_) => false,
    }
}

impl Attempt for Converting<'_> {
    fn refused_at(&self, alloc: Global, number: u64) -> Option<bool> {
        let ample = RefusingAllocator::new(alloc, 0);
        let heap = RefusingAllocator::new(alloc, number);
        let is_refused = is_refused(&ample, &heap, self.0);
        (is_refused == heap.has_refused()).then_some(is_refused)
    }
}

/// Answers a case of records that are written.
pub(crate) fn answer(
    alloc: Global,
    case: &Case<'_>,
    kept: &[u8],
    answer: &mut Vec<u8>,
) -> Result<bool, AllocError> {
    let reported = match case.text(0) {
        "make" => say_made(alloc, case, answer, kept),
        "make-without-memory" => say_made_without_memory(alloc, case, answer),
        "split" | "segments" => say_split_of(alloc, case, answer, text_of(case, kept)),
        "split-without-memory" => say_split_without_memory(
            alloc,
            case,
            answer,
            text_of(case, kept),
        ),
        "segment-head" => say_splittable_of(alloc, case, answer, text_of(case, kept)),
        "convert" => say_converted_of(alloc, answer, text_of(case, kept)),
        "convert-without-memory" => {
            say_refusals(
                alloc,
                answer,
                &Converting(text_of(case, kept)),
                case.number(1),
            )
        }
        "render" => say_rendered_of(alloc, answer, text_of(case, kept), false),
        "render-without-memory" => say_rendered_of(alloc, answer, text_of(case, kept), true),
        _ => return Ok(false),
    };
    reported?;
    Ok(true)
}
