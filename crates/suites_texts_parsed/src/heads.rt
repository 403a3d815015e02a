//! Types, ids, heads, and the findings of records.

use crate::refusals::{Attempt, say_refusals};
use crate::said::{say_optional, say_reference, say_segment, say_typed};
use crate::text::{say_line, say_parts, say_sameness, text_of};
use std::alloc::{AllocError, Allocator, Global};
use std::cmp::Ordering;
use suites_script::Case;
use warc_field::{Fields, read_area};
use warc_record::{
    ArchiveFacts, Finding, Kind, Typed, all_findings, bare, findings, id_key, type_head,
};
use warc_vectors::RefusingAllocator;

/// Adds the type that a text is.
fn say_kind(alloc: Global, answer: &mut Vec<u8>, text: &[u8]) -> Result<(), AllocError> {
    let kind = format!(in alloc; "{:?}", Kind::named(text))?;
    say_line(alloc, answer, &kind)
}

/// Adds a text without the brackets around it, in a line.
fn say_bare(answer: &mut Vec<u8>, text: &[u8]) -> Result<(), AllocError> {
    say_parts(answer, &[bare(text), b"\n"])
}

/// Adds how many bytes the key of the id in a text keeps, if the text holds one.
fn say_kept(alloc: Global, answer: &mut Vec<u8>, text: &[u8]) -> Result<(), AllocError> {
    match id_key(text) {
        Some(key) => say_line(alloc, answer, &key.kept()),
        None => say_line(alloc, answer, &"none"),
    }
}

/// Whether the keys of the ids in two texts are equal, if both hold one and the order agrees.
fn have_equal_keys(one: &[u8], other: &[u8]) -> Option<bool> {
    let (one, other) = (id_key(one)?, id_key(other)?);
    let are_equal = one == other;
    let are_level = one.cmp(&other) == Ordering::Equal;
    (are_equal == are_level).then_some(are_equal)
}

/// Adds whether two ids are the same.
fn say_same(alloc: Global, case: &Case<'_>, answer: &mut Vec<u8>) -> Result<(), AllocError> {
    let is_same = have_equal_keys(case.word(1), case.word(2));
    say_sameness(alloc, answer, is_same)
}

/// Adds what a word asks of a head.
fn say_said(
    alloc: Global,
    answer: &mut Vec<u8>,
    word: &str,
    typed: &Typed<'_>,
) -> Result<(), AllocError> {
    match word {
        "typed" => say_typed(alloc, answer, typed),
        "target" => say_optional(answer, "target: ", typed.target()),
        "segment" => say_segment(alloc, answer, &typed.segment),
        "reference" => say_reference(alloc, answer, &typed.reference),
        _ => say_line(alloc, answer, &"good"),
    }
}

/// Adds what a word asks of the head that fields are, or its fault.
fn say_head(
    alloc: Global,
    answer: &mut Vec<u8>,
    word: &str,
    fields: &Fields,
) -> Result<(), AllocError> {
    match type_head(fields) {
        Ok(typed) => say_said(alloc, answer, word, &typed),
        Err(fault) => say_line(alloc, answer, &fault),
    }
}

/// Adds findings as lines.
fn say_findings(alloc: Global, answer: &mut Vec<u8>, found: &[Finding]) -> Result<(), AllocError> {
    if found.is_empty() {
        return say_line(alloc, answer, &"none");
    }
    for finding in found {
        let number = format!(in alloc; "N{} ", finding.number())?;
        let field = finding.field().unwrap_or(b"-");
        say_parts(answer, &[number.as_bytes(), field, b"\n"])?;
    }
    Ok(())
}

/// Adds what is found in fields, over a block of as many bytes as the second word says. The words after it say what is
/// known of the record.
fn say_found(
    alloc: Global,
    case: &Case<'_>,
    answer: &mut Vec<u8>,
    fields: &Fields,
) -> Result<(), AllocError> {
    let facts = ArchiveFacts {
        bad_digest: case.text(2) == "bad-digest",
        used_id: case.text(2) == "used-id" || case.text(3) == "used-id",
    };
    let found = all_findings(alloc, fields, case.number(1), facts)?;
    say_findings(alloc, answer, &found)
}

/// Adds what a case asks of the fields of an area.
fn say_of_area(
    alloc: Global,
    case: &Case<'_>,
    answer: &mut Vec<u8>,
    area: &[u8],
) -> Result<(), AllocError> {
    match read_area(alloc, area) {
        Ok(fields) if case.text(0) == "findings" => say_found(alloc, case, answer, &fields),
        Ok(fields) => say_head(alloc, answer, case.text(0), &fields),
        Err(fault) => say_line(alloc, answer, &fault),
    }
}

/// Whether making findings of fields is refused memory, and goes well when it is tried again.
fn is_refused<A: Allocator + Copy>(alloc: A, fields: &Fields<A>) -> Option<bool> {
    if findings(alloc, fields, 3).is_ok() {
        return Some(false);
    }
    findings(alloc, fields, 3).is_ok().then_some(true)
}

/// What `is_refused` gives for the fields of an area, which are read with ample memory; `None` if they can't be read.
fn is_refused_of_area<A: Allocator + Copy>(ample: A, heap: A, area: &[u8]) -> Option<bool> {
    match read_area(ample, area) {
        Ok(fields) => is_refused(heap, &fields),
        Err(_) => None,
    }
}

/// The findings of a record whose head has this area.
#[derive(Clone, Copy)]
struct MakingFindings<'a>(&'a [u8]);

impl Attempt for MakingFindings<'_> {
    fn refused_at(&self, alloc: Global, number: u64) -> Option<bool> {
        let ample = RefusingAllocator::new(alloc, 0);
        let heap = RefusingAllocator::new(alloc, number);
        let is_refused = is_refused_of_area(&ample, &heap, self.0)?;
        (is_refused == heap.has_refused()).then_some(is_refused)
    }
}

/// Adds whether each refused request is reported as findings are made.
fn say_refused(
    alloc: Global,
    case: &Case<'_>,
    answer: &mut Vec<u8>,
    area: &[u8],
) -> Result<(), AllocError> {
    say_refusals(alloc, answer, &MakingFindings(area), case.number(1))
}

/// Answers a case of heads.
pub(crate) fn answer(
    alloc: Global,
    case: &Case<'_>,
    kept: &[u8],
    answer: &mut Vec<u8>,
) -> Result<bool, AllocError> {
    let reported = match case.text(0) {
        "kind" => say_kind(alloc, answer, case.word(1)),
        "bare" => say_bare(answer, &case.bytes(alloc, 1)?),
        "id" => say_kept(alloc, answer, &case.bytes(alloc, 1)?),
        "same-id" => say_same(alloc, case, answer),
        "findings-without-memory" => say_refused(alloc, case, answer, text_of(case, kept)),
        "head" | "typed" | "target" | "segment" | "reference" | "findings" => {
            say_of_area(alloc, case, answer, text_of(case, kept))
        }
        _ => return Ok(false),
    };
    reported?;
    Ok(true)
}
