//! Names, values, numbers and areas.

use crate::bytes::{Reading, keeps_name, keeps_value, say_bytes};
use crate::refusals::{Attempt, say_refusals};
use crate::text::{say_fields, say_line, say_parts, say_sameness, text_of};
use crate::written::{say_written, say_written_twice};
use std::alloc::{AllocError, Allocator, Global};
use suites_script::Case;
use warc_field::{
    AreaFault, Fields, Name, TextFault, Value, canonical_len, decimal, read_area, trim,
};
use warc_vectors::RefusingAllocator;

/// Adds whether a text is a name or a value.
fn say_kept(
    alloc: Global,
    answer: &mut Vec<u8>,
    reading: Reading,
    text: &[u8],
) -> Result<(), AllocError> {
    let reported = match reading.is_of(alloc, text) {
        Some(true) => "kept",
        Some(false) => "bad text",
        None => "told in two ways",
    };
    say_line(alloc, answer, &reported)
}

/// Adds the answer if a text is to be kept.
fn say_once(
    alloc: Global,
    answer: &mut Vec<u8>,
    kept: Result<bool, TextFault>,
) -> Result<(), AllocError> {
    match kept {
        Ok(true) => say_line(alloc, answer, &"kept"),
        Ok(false) => say_line(alloc, answer, &"kept otherwise"),
        Err(fault) => say_line(alloc, answer, &fault),
    }
}

/// Adds the answer for a name if the first request for memory is refused, and for the same name after that.
fn say_name_twice(alloc: Global, answer: &mut Vec<u8>, text: &[u8]) -> Result<(), AllocError> {
    let heap = RefusingAllocator::new(alloc, 1);
    let first = keeps_name(&heap, text);
    let second = keeps_name(&heap, text);
    say_once(alloc, answer, first)?;
    say_once(alloc, answer, second)
}

/// Adds the answer for a value if the first request for memory is refused, and for the same value after that.
fn say_value_twice(alloc: Global, answer: &mut Vec<u8>, text: &[u8]) -> Result<(), AllocError> {
    let heap = RefusingAllocator::new(alloc, 1);
    let first = keeps_value(&heap, text);
    let second = keeps_value(&heap, text);
    say_once(alloc, answer, first)?;
    say_once(alloc, answer, second)
}

/// Whether two names are the same, reported in both ways; `None` where one is no name, or the two ways differ.
fn are_same(alloc: Global, one: &[u8], other: &[u8]) -> Option<bool> {
    match (Name::new(alloc, one), Name::new(alloc, other)) {
        (Ok(name), Ok(second)) => {
            let is_same = name.same(&second);
            (name.is(other) == is_same).then_some(is_same)
        }
        _ => None,
    }
}

/// Adds whether two names are the same.
fn say_same(alloc: Global, case: &Case<'_>, answer: &mut Vec<u8>) -> Result<(), AllocError> {
    let is_same = are_same(alloc, case.word(1), case.word(2));
    say_sameness(alloc, answer, is_same)
}

/// Adds a text without the blanks around it, in a line.
fn say_trimmed(answer: &mut Vec<u8>, text: &[u8]) -> Result<(), AllocError> {
    say_parts(answer, &[trim(text), b"\n"])
}

/// Adds the number that a text is.
fn say_number(alloc: Global, answer: &mut Vec<u8>, text: &[u8]) -> Result<(), AllocError> {
    match decimal(text) {
        Some(number) => say_line(alloc, answer, &number),
        None => say_line(alloc, answer, &"none"),
    }
}

/// Adds the bytes with which the text of the third word is what the second says, or is not.
fn say_bytes_of(
    alloc: Global,
    case: &Case<'_>,
    answer: &mut Vec<u8>,
    is_one: bool,
) -> Result<(), AllocError> {
    let pattern = case.bytes(alloc, 2)?;
    say_bytes(
        alloc,
        answer,
        Reading::named(case.text(1)),
        &pattern,
        is_one,
    )
}

/// Answers a case of names, values and numbers.
pub(crate) fn answer(
    alloc: Global,
    case: &Case<'_>,
    kept: &[u8],
    answer: &mut Vec<u8>,
) -> Result<bool, AllocError> {
    let reported = match case.text(0) {
        "name" => say_kept(alloc, answer, Reading::Name, text_of(case, kept)),
        "value" => say_kept(alloc, answer, Reading::Value, text_of(case, kept)),
        "name-without-memory" => say_name_twice(alloc, answer, text_of(case, kept)),
        "value-without-memory" => say_value_twice(alloc, answer, text_of(case, kept)),
        "kept-bytes" => say_bytes_of(alloc, case, answer, true),
        "refused-bytes" => say_bytes_of(alloc, case, answer, false),
        "same-name" => say_same(alloc, case, answer),
        "trim" => say_trimmed(answer, text_of(case, kept)),
        "decimal" => say_number(alloc, answer, &case.bytes(alloc, 1)?),
        _ => return Ok(false),
    };
    reported?;
    Ok(true)
}

/// Adds the fields of an area, or its fault.
fn say_area<A: Allocator>(
    alloc: Global,
    answer: &mut Vec<u8>,
    area: Result<Fields<A>, AreaFault>,
) -> Result<(), AllocError> {
    match area {
        Ok(fields) if fields.is_empty() => say_line(alloc, answer, &"no fields"),
        Ok(fields) => {
            let reported = format!(in alloc; "fields: {}", fields.len())?;
            say_line(alloc, answer, &reported)?;
            say_fields(answer, &fields)
        }
        Err(fault) => say_line(alloc, answer, &fault),
    }
}

/// Adds a field as a line.
fn say_field(answer: &mut Vec<u8>, field: Option<(&Name, &Value)>) -> Result<(), AllocError> {
    match field {
        Some((name, value)) => say_parts(answer, &[name.bytes(), b": ", value.bytes(), b"\n"]),
        None => answer.extend_from_slice(b"none\n"),
    }
}

/// Adds a value as a line.
fn say_value(answer: &mut Vec<u8>, value: Option<&Value>) -> Result<(), AllocError> {
    match value {
        Some(value) => say_parts(answer, &[value.bytes(), b"\n"]),
        None => answer.extend_from_slice(b"none\n"),
    }
}

/// Adds what a look-up among fields finds.
fn say_found(
    alloc: Global,
    case: &Case<'_>,
    answer: &mut Vec<u8>,
    fields: &Fields,
) -> Result<(), AllocError> {
    let name = case.word(1);
    match case.text(0) {
        "field" => say_field(answer, fields.get(case.number(1) as usize)),
        "first" => say_value(answer, fields.first(name)),
        _ => say_line(alloc, answer, &fields.count(name)),
    }
}

/// Adds what a look-up among the fields of an area finds.
fn say_found_in(
    alloc: Global,
    case: &Case<'_>,
    answer: &mut Vec<u8>,
    area: &[u8],
) -> Result<(), AllocError> {
    match read_area(alloc, area) {
        Ok(fields) => say_found(alloc, case, answer, &fields),
        Err(fault) => say_line(alloc, answer, &fault),
    }
}

/// Adds the length of fields as they are written, and their text after what is there.
fn say_canonical(alloc: Global, answer: &mut Vec<u8>, fields: &Fields) -> Result<(), AllocError> {
    let len = canonical_len(fields).unwrap_or(0);
    say_line(alloc, answer, &len)?;
    say_written(alloc, answer, fields)
}

/// Adds what is written of the fields of an area, with memory or without.
fn say_written_of(
    alloc: Global,
    answer: &mut Vec<u8>,
    area: &[u8],
    is_refused: bool,
) -> Result<(), AllocError> {
    match read_area(alloc, area) {
        Ok(fields) if is_refused => say_written_twice(alloc, answer, &fields),
        Ok(fields) => say_canonical(alloc, answer, &fields),
        Err(fault) => say_line(alloc, answer, &fault),
    }
}

/// Whether the fields are as many as these, and the same.
fn are<A: Allocator>(fields: &Fields<A>, wanted: &[(Name, Value)]) -> bool {
    if fields.len() != wanted.len() {
        return false;
    }
    for ((name, value), (wanted_name, wanted_value)) in fields.as_slice().iter().zip(wanted) {
        if name.bytes() != wanted_name.bytes() || value.bytes() != wanted_value.bytes() {
            return false;
        }
    }
    true
}

/// Whether the field is pushed.
fn is_pushed<A: Allocator + Copy>(
    alloc: A,
    fields: &mut Fields<A>,
    name: &[u8],
    value: &[u8],
) -> bool {
    match (Name::new(alloc, name), Value::new(alloc, value)) {
        (Ok(name), Ok(value)) => fields.push(name, value).is_ok(),
        _ => false,
    }
}

/// Pushes the fields, and again each that was refused. Says whether one was, and `None` where it changed what was
/// pushed or was refused again.
fn push_all<A: Allocator + Copy>(
    alloc: A,
    fields: &mut Fields<A>,
    wanted: &[(Name, Value)],
) -> Option<bool> {
    let mut is_refused = false;
    for (count, (name, value)) in wanted.iter().enumerate() {
        if !is_pushed(alloc, fields, name.bytes(), value.bytes()) {
            is_refused = true;
            if !are(fields, &wanted[..count])
                || !is_pushed(alloc, fields, name.bytes(), value.bytes())
            {
                return None;
            }
        }
    }
    are(fields, wanted).then_some(is_refused)
}

/// Fields that are pushed one by one.
#[derive(Clone, Copy)]
struct Pushing<'a>(&'a [(Name, Value)]);

impl Attempt for Pushing<'_> {
    fn refused_at(&self, alloc: Global, number: u64) -> Option<bool> {
        let heap = RefusingAllocator::new(alloc, number);
        let mut fields = Fields::new(&heap);
        let is_refused = push_all(&heap, &mut fields, self.0)?;
        (is_refused == heap.has_refused()).then_some(is_refused)
    }
}

/// An area that is read, and its fields.
#[derive(Clone, Copy)]
struct ReadingArea<'a>(&'a [u8], &'a [(Name, Value)]);

/// Whether an area is read as these fields.
fn is_read<A: Allocator + Copy>(alloc: A, area: &[u8], wanted: &[(Name, Value)]) -> bool {
    match read_area(alloc, area) {
        Ok(fields) => are(&fields, wanted),
        Err(_) => false,
    }
}

/// The fault of an area, if any.
fn area_fault<A: Allocator + Copy>(alloc: A, area: &[u8]) -> Option<AreaFault> {
    read_area(alloc, area).err()
}

impl Attempt for ReadingArea<'_> {
    fn refused_at(&self, alloc: Global, number: u64) -> Option<bool> {
        let heap = RefusingAllocator::new(alloc, number);
        let fault = area_fault(&heap, self.0);
        if !heap.has_refused() {
            return fault.is_none().then_some(false);
        }
        let is_so = fault == Some(AreaFault::Memory) && is_read(&heap, self.0, self.1);
        is_so.then_some(true)
    }
}

/// Adds whether each refused request is reported as the fields of an area are read, or pushed.
fn say_refused(
    alloc: Global,
    case: &Case<'_>,
    answer: &mut Vec<u8>,
    area: &[u8],
    is_pushed: bool,
) -> Result<(), AllocError> {
    match read_area(alloc, area) {
        Ok(fields) if is_pushed => {
            say_refusals(alloc, answer, &Pushing(fields.as_slice()), case.number(1))
        }
        Ok(fields) => {
            let attempt = ReadingArea(area, fields.as_slice());
            say_refusals(alloc, answer, &attempt, case.number(1))
        }
        Err(fault) => say_line(alloc, answer, &fault),
    }
}

/// Answers a case of areas.
pub(crate) fn answer_of_area(
    alloc: Global,
    case: &Case<'_>,
    kept: &[u8],
    answer: &mut Vec<u8>,
) -> Result<bool, AllocError> {
    let reported = match case.text(0) {
        "area" => say_area(alloc, answer, read_area(alloc, text_of(case, kept))),
        "field" | "first" | "count" => say_found_in(alloc, case, answer, text_of(case, kept)),
        "canonical" => say_written_of(alloc, answer, text_of(case, kept), false),
        "canonical-without-memory" => say_written_of(alloc, answer, text_of(case, kept), true),
        "push-without-memory" => say_refused(alloc, case, answer, text_of(case, kept), true),
        "area-without-memory" => say_refused(alloc, case, answer, text_of(case, kept), false),
        _ => return Ok(false),
    };
    reported?;
    Ok(true)
}
