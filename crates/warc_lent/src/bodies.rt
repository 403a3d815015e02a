//! Bodies: what is said of them, and where they lie.
ghost use Rattle.std.specs.Prelude.{◌≡◌, length, map, set, unwrap_or, IfErr, IfOk, OnErr, Err, None};
ghost use Rattle.warc_value.specs.Dates.{instant_of};
ghost use Rattle.warc_frame.specs.Effects.{FailsBy, Preserves};
ghost use Rattle.warc_frame.specs.Seen.{IfHeld};
ghost use Rattle.warc_reading.specs.Archive.{contents};
ghost use Rattle.warc_lookup.specs.Indexed.{IsIndexed, IsUnchanged, IsIndexedBy};
ghost use Rattle.warc_lent.specs.Buffers.{HoldsFront, KeepsAfter};
ghost use Rattle.warc_lent.specs.Problems.{problem_result};
ghost use Rattle.warc_lent.specs.Bodies.{IsBodyPut, IsNoBody, IsNoReplay, PutsAt, PutsReplay, answer_numbers, path_numbers, path_numbers_at, span_numbers};

use crate::problem::Problem;
use crate::rows::flag_of;
use std::alloc::Allocator;
use warc::{Archive, BodyFault};
use warc_answer::{Answer, Located, Path, Span};
use warc_frame::Source;
use warc_index::Unfound;
use warc_value::read_date;

/// Bytes of those that the archive was opened over.
#[repr(C)]
#[derive(Clone, Copy, Debug, PartialEq, Eq)]
pub struct SpanNumbers {
    /// The offset of the first one.
    pub offset: u64,
    /// How many they are.
    pub length: u64,
}

/// What is said of a body, with 0 for no status, and 1 if a record that is joined is marked as truncated.
#[repr(C)]
#[derive(Clone, Copy, Debug, PartialEq, Eq)]
pub struct AnswerNumbers {
    /// The position of the chosen capture.
    pub chosen: u64,
    /// The position of its origin, whose payload the body is.
    pub given: u64,
    /// How many bytes the body has.
    pub length: u64,
    /// The status of the HTTP response.
    pub status: u32,
    /// Whether a record that is joined is marked as truncated.
    pub is_truncated: u32,
}

/// The status of a response, 0 where there is none.
pub fn status_number(status: Option<u16>) -> u32
    ensures { result ≡ unwrap_or status 0 }
{
    match status {
        Some(status) => status as u32,
        None => 0,
    }
}

/// What is said of a body, as numbers.
fn answer_numbers(answer: Answer) -> AnswerNumbers
    ensures { result ≡ answer_numbers answer }
{
    AnswerNumbers {
        chosen: answer.chosen as u64,
        given: answer.given as u64,
        length: answer.length,
        status: status_number(answer.status),
        is_truncated: flag_of(answer.truncated),
    }
}

/// A span as numbers.
fn span_numbers(span: Span) -> SpanNumbers
    ensures { result ≡ span_numbers span }
{
    SpanNumbers {
        offset: span.start,
        length: span.len,
    }
}

/// Puts a span at an index, if there is room for it.
fn put_span(span: Span, index: usize, out: &mut [SpanNumbers])
    ensures { out.new ≡ set out.old index (span_numbers span) }
{
    if index < out.len() {
        out[index] = span_numbers(span);
    }
}

/// Puts the spans of a body, as many as there is room for. What follows in the buffer stays.
fn put_spans<A: Allocator>(located: &Located<A>, out: &mut [SpanNumbers])
    ensures front { HoldsFront (map span_numbers located.now.spans) out.new }
    ensures rest { KeepsAfter (length located.now.spans) out.old out.new }
    ensures room { length out.new ≡ length out.old }
{
    'putting: for index in 0..located.count() {
        let Some(span) = located.span(index) else {
            unreachable!()
        };
        put_span(span, index, out);
    }
}

/// Puts a body: what is said of it, and its spans, as many as there is room for. What follows in the buffer stays. The
/// answer is the number of spans.
fn put_located<A: Allocator>(
    located: &Located<A>,
    answer: &mut AnswerNumbers,
    spans: &mut [SpanNumbers],
) -> usize
    ensures put { IsBodyPut located.now result answer.new spans.new }
    ensures rest { KeepsAfter result spans.old spans.new }
    ensures room { length spans.new ≡ length spans.old }
{
    *answer = answer_numbers(located.answer());
    put_spans(located, spans);
    located.count()
}

/// Puts the positions of a path, if there is one.
fn put_path(path: Result<Path, Unfound>, answer: &mut AnswerNumbers)
    ensures { answer.new ≡ path_numbers path answer.old }
{
    if let Ok(path) = path {
        answer.chosen = path.chosen as u64;
        answer.given = path.given as u64;
    }
}

/// Puts the positions of the path from a capture, unless there is no capture.
fn put_path_at(fault: BodyFault, path: Result<Path, Unfound>, answer: &mut AnswerNumbers)
    ensures { answer.new ≡ path_numbers_at fault path answer.old }
{
    match fault {
        BodyFault::NoRecord => {}
        BodyFault::NoCapture => {}
        BodyFault::Replay(_) => put_path(path, answer),
    }
}

/// Puts the body that was captured of a URI as of a date: what is said of it, and the spans of the source whose bytes,
/// one after another, it is, as many as there is room for. What follows in the buffer stays. The answer is the number
/// of spans. Where there is no body, the positions of the path to it are put, if there is a path. If the source holds
/// the archive's bytes, it is `Changed` exactly where a read of them fails.
pub fn put_replay<S: Source, A: Allocator + Copy>(
    archive: &mut Archive<S, A>,
    uri: &[u8],
    date: &[u8],
    answer: &mut AnswerNumbers,
    spans: &mut [SpanNumbers],
) -> Result<usize, Problem>
    ensures puts { IfHeld (S.seen archive.old.listing.source).holds (λ bytes. (is : IsIndexed bytes archive.old) →
        PutsReplay bytes (contents is.listed.are.records) uri.now (instant_of date.now) result answer.old answer.new
        spans.new) }
    ensures refused { IfErr result (IsNoReplay (instant_of date.now)) }
    ensures dated { instant_of date.now ≡ None → result ≡ Err Problem.BadDate }
    ensures rest { IfOk result (λ number. KeepsAfter number spans.old spans.new) }
    ensures same { OnErr result (spans.new ≡ spans.old) }
    ensures room { length spans.new ≡ length spans.old }
    ensures unchanged { IsUnchanged archive.old archive.new }
    ensures keeps { Preserves (S.seen archive.old.listing.source) (S.seen archive.new.listing.source) }
    ensures fails { FailsBy (IsIndexedBy archive.old.listing.rows archive.old.index archive.old.parts)
        (problem_result result) (S.seen archive.old.listing.source) (S.seen archive.new.listing.source) }
{
    let Some(moment) = read_date(date) else {
        return Err(Problem::BadDate);
    };
    match archive.locate(uri, &moment) {
        Ok(located) => Ok(put_located(&located, answer, spans)),
        Err(fault) => {
            put_path(archive.path_for(uri, &moment), answer);
            Err(Problem::from(fault))
        }
    }
}

/// Puts the body that the capture at a position gives, in the same way.
pub fn put_body<S: Source, A: Allocator + Copy>(
    archive: &mut Archive<S, A>,
    position: usize,
    answer: &mut AnswerNumbers,
    spans: &mut [SpanNumbers],
) -> Result<usize, Problem>
    ensures puts { IfHeld (S.seen archive.old.listing.source).holds (λ bytes. (is : IsIndexed bytes archive.old) →
        PutsAt bytes (contents is.listed.are.records) position result answer.old answer.new spans.new) }
    ensures refused { IfErr result IsNoBody }
    ensures rest { IfOk result (λ number. KeepsAfter number spans.old spans.new) }
    ensures same { OnErr result (spans.new ≡ spans.old) }
    ensures room { length spans.new ≡ length spans.old }
    ensures unchanged { IsUnchanged archive.old archive.new }
    ensures keeps { Preserves (S.seen archive.old.listing.source) (S.seen archive.new.listing.source) }
    ensures fails { FailsBy (IsIndexedBy archive.old.listing.rows archive.old.index archive.old.parts)
        (problem_result result) (S.seen archive.old.listing.source) (S.seen archive.new.listing.source) }
{
    match archive.locate_at(position) {
        Ok(located) => Ok(put_located(&located, answer, spans)),
        Err(fault) => {
            put_path_at(fault, archive.path_at(position), answer);
            Err(Problem::from(fault))
        }
    }
}
