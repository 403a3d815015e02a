//! What heads say, as numbers and texts: the fields of a record's head, and those of an HTTP response's.
ghost use Rattle.std.specs.Prelude.{◌≡◌, ◌++◌, ◌≤◌, ℕ, List, length, map, set};
ghost use Rattle.std.specs.List.{flat_map};
ghost use Rattle.warc_frame.specs.Count.{capped};
ghost use Rattle.warc_payload.specs.Head.{front_of};
ghost use Rattle.warc_lent.specs.Buffers.{HoldsFront, KeepsAfter};
ghost use Rattle.warc_lent.specs.Heads.{PutsFields, PutsHttp, field_buffers, field_numbers, http_buffers, pair_text, http_field_numbers, http_numbers, problem_of_head};

use crate::buffers::put_text_at;
use crate::problem::Problem;
use crate::rows::short_length;
use httparse::Status;
use httparse::spans::{EMPTY_HEADER_SPAN, HeaderSpan, ResponseSpans, parse_response};
use std::alloc::Allocator;
use warc_answer::Reason;
use warc_field::{Fields, Name, Value};
use warc_frame::{Fault, FaultKind, read_head};
use warc_payload::{MOST_FIELD_LINES, front};

/// How long the name and the value of a field are.
#[repr(C)]
#[derive(Clone, Copy, Debug, PartialEq, Eq)]
pub struct FieldNumbers {
    /// How many bytes its name has.
    pub name_length: u32,
    /// How many bytes its value has.
    pub value_length: u32,
}

/// What the head of an HTTP response says. Offsets count from the block's first byte.
#[repr(C)]
#[derive(Clone, Copy, Debug, PartialEq, Eq)]
pub struct HttpNumbers {
    /// The offset of the body, which is the length of the head with its empty line.
    pub body_offset: u64,
    /// The offset of the reason phrase.
    pub reason_offset: u64,
    /// How many bytes the reason phrase has.
    pub reason_length: u64,
    /// The number that the three digits of the status code give.
    pub status: u32,
    /// The minor version: 1 for HTTP/1.1.
    pub minor: u32,
}

/// Where the name and the value of a field of an HTTP head are, by offsets from the block's first byte.
#[repr(C)]
#[derive(Clone, Copy, Debug, PartialEq, Eq)]
pub struct HttpFieldNumbers {
    /// The offset of its name.
    pub name_offset: u64,
    /// How many bytes its name has.
    pub name_length: u64,
    /// The offset of its value.
    pub value_offset: u64,
    /// How many bytes its value has, without the white space around it.
    pub value_length: u64,
}

/// How long a field's name and value are.
fn field_numbers<A: Allocator>(name: &Name<A>, value: &Value<A>) -> FieldNumbers
    ensures { result ≡ field_numbers (name.now, value.now) }
{
    FieldNumbers {
        name_length: short_length(name.bytes()),
        value_length: short_length(value.bytes()),
    }
}

/// Puts the lengths of a field at an index, if there is room for them.
fn put_field(field: FieldNumbers, index: usize, out: &mut [FieldNumbers])
    ensures { out.new ≡ set out.old index field }
{
    if index < out.len() {
        out[index] = field;
    }
}

/// Puts how long the names and values of all fields are, as many as there is room for. What follows in the buffer
/// stays.
fn put_lengths<A: Allocator>(fields: &Fields<A>, out: &mut [FieldNumbers])
    ensures front { HoldsFront (map field_numbers fields.now) out.new }
    ensures rest { KeepsAfter (length fields.now) out.old out.new }
    ensures room { length out.new ≡ length out.old }
{
    'putting: for index in 0..fields.len() {
        let Some(field) = fields.get(index) else {
            unreachable!()
        };
        put_field(field_numbers(field.0, field.1), index, out);
    }
}

/// Puts the name and the value of a field into a buffer from an index on, and answers the index after them.
fn put_pair<A: Allocator>(name: &Name<A>, value: &Value<A>, at: usize, out: &mut [u8]) -> usize
    ensures end { (before : List ℕ) → at ≡ capped (length before) →
        result ≡ capped (length (before ++ pair_text (name.now, value.now))) }
    ensures front { (before : List ℕ) → at ≡ capped (length before) → HoldsFront before out.old →
        HoldsFront (before ++ pair_text (name.now, value.now)) out.new }
    ensures rest { (before : List ℕ) → at ≡ capped (length before) →
        KeepsAfter (length (before ++ pair_text (name.now, value.now))) out.old out.new }
    ensures room { length out.new ≡ length out.old }
{
    let after = put_text_at(name.bytes(), at, out);
    put_text_at(value.bytes(), after, out)
}

/// Puts the names and values of all fields one after another, as far as there is room. What follows in the buffer
/// stays.
fn put_texts<A: Allocator>(fields: &Fields<A>, out: &mut [u8])
    ensures front { HoldsFront (flat_map pair_text fields.now) out.new }
    ensures rest { KeepsAfter (length (flat_map pair_text fields.now)) out.old out.new }
    ensures room { length out.new ≡ length out.old }
{
    let mut at = 0;
    'putting: for index in 0..fields.len() {
        let Some(field) = fields.get(index) else {
            unreachable!()
        };
        at = put_pair(field.0, field.1, at, out);
    }
}

/// Why no fields are put.
fn problem_of_head(fault: Fault) -> Problem
    ensures { result ≡ problem_of_head fault.kind }
{
    match fault.kind {
        FaultKind::Memory => Problem::Memory,
        _ => Problem::Changed,
    }
}

/// Puts the fields of a record's head, in their order: how long the name and the value of each are, as many as there is
/// room for, and the names and values one after another, as far as there is room. What follows in the buffers stays. A
/// folded value is one line, as the library reads it. The answer is the number of fields. `Changed`: the bytes begin
/// with no head of a record.
pub fn put_fields<A: Allocator + Copy>(
    alloc: A,
    head: &[u8],
    lengths: &mut [FieldNumbers],
    texts: &mut [u8],
) -> Result<usize, Problem>
    ensures puts { PutsFields head.now result (field_buffers lengths.old texts.old)
        (field_buffers lengths.new texts.new) }
    ensures room { (length lengths.new ≡ length lengths.old) × (length texts.new ≡ length texts.old) }
{
    match read_head(alloc, head) {
        Ok(head) => {
            put_lengths(&head.fields, lengths);
            put_texts(&head.fields, texts);
            Ok(head.fields.len())
        }
        Err(fault) => Err(problem_of_head(fault)),
    }
}

/// What an HTTP head says, as numbers.
fn http_numbers(head: ResponseSpans) -> HttpNumbers
    requires { head.reason.start ≤ head.reason.end }
    ensures { result ≡ http_numbers head }
{
    HttpNumbers {
        body_offset: head.len as u64,
        reason_offset: head.reason.start as u64,
        reason_length: (head.reason.end - head.reason.start) as u64,
        status: head.code as u32,
        minor: head.version as u32,
    }
}

/// Where a field is, as numbers.
fn http_field_numbers(field: HeaderSpan) -> HttpFieldNumbers
    ensures { result ≡ http_field_numbers field }
{
    HttpFieldNumbers {
        name_offset: field.name.start as u64,
        name_length: field.name.end.saturating_sub(field.name.start) as u64,
        value_offset: field.value.start as u64,
        value_length: field.value.end.saturating_sub(field.value.start) as u64,
    }
}

/// Puts where a field is at an index, if there is room for it.
fn put_http_field(field: HeaderSpan, index: usize, out: &mut [HttpFieldNumbers])
    ensures { out.new ≡ set out.old index (http_field_numbers field) }
{
    if index < out.len() {
        out[index] = http_field_numbers(field);
    }
}

/// Puts where fields are, as many as there is room for. What follows in the buffer stays.
fn put_http_fields(fields: &[HeaderSpan], out: &mut [HttpFieldNumbers])
    ensures front { HoldsFront (map http_field_numbers fields.now) out.new }
    ensures rest { KeepsAfter (length fields.now) out.old out.new }
    ensures room { length out.new ≡ length out.old }
{
    'putting: for index in 0..fields.len() {
        put_http_field(fields[index], index, out);
    }
}

/// Puts what the HTTP head at the front of a block says: its status, where its reason phrase is and where the body
/// begins, and where the names and values of its fields are, as many as there is room for. What follows in the buffer
/// stays. The answer is the number of fields. It is P9 where a replay would say P9: the block begins with no whole head
/// of a response.
pub fn put_http(
    block: &[u8],
    http: &mut HttpNumbers,
    fields: &mut [HttpFieldNumbers],
) -> Result<usize, Problem>
    ensures puts { PutsHttp (front_of block.now) result (http_buffers http.old fields.old)
        (http_buffers http.new fields.new) }
    ensures room { length fields.new ≡ length fields.old }
{
    let text = front(block);
    let mut spans = [EMPTY_HEADER_SPAN; MOST_FIELD_LINES];
    match parse_response(text, &mut spans) {
        Ok(Status::Complete(head)) => {
            *http = http_numbers(head);
            put_http_fields(&spans[..head.headers], fields);
            Ok(head.headers)
        }
        _ => Err(Problem::Reason(Reason::BadHead)),
    }
}
