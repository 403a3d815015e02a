//! What an open archive gives for the page's questions: where a body is, or why there is none.
ghost use Rattle.std.specs.Prelude.{◌≡◌, List, None, true, map};
ghost use Rattle.warc_value.specs.Dates.{instant_of};
ghost use Rattle.warc_frame.specs.Seen.{IfHeld};
ghost use Rattle.warc_reading.specs.Archive.{contents};
ghost use Rattle.warc_lookup.specs.Indexed.{AreOf, IsIndexed, indexed_record};
ghost use Rattle.warc_reading.specs.Row.{Placed};
ghost use Rattle.warc_lent.specs.Bodies.{IsNoBody, IsNoReplay, PutsAt, PutsReplay};
ghost use Rattle.warc_page.specs.Shown.{EndsBy, IsReply, PutsChosen, Replies};

use crate::archive::PageArchive;
use crate::ends::{end_by, end_with};
use crate::shapes::PageOutcome;
use std::alloc::Allocator;
use warc::Archive;
use warc_frame::Source;
use warc_heap::{Heap, Memory};
use warc_lent::{AnswerNumbers, Problem, SpanNumbers, put_body, put_replay};
use warc_value::read_date;

/// Puts the body that the capture at a position gives: what is said of it, and its spans.
#[tactic(auto, using(crate::proofs::ReplyLemmas::reply))]
fn body_at<S: Source, A: Allocator + Copy, B: Allocator>(
    alloc: B,
    archive: &mut Archive<S, A>,
    position: usize,
    answer: &mut AnswerNumbers,
    spans: &mut [SpanNumbers],
    text: &mut [u8],
) -> PageOutcome
    ensures replies { IfHeld (S.seen archive.old.listing.source).holds (λ bytes. (is : IsIndexed bytes archive.old) →
        Replies (λ answered. PutsAt bytes (contents is.listed.are.records) position answered answer.old answer.new
        spans.new) result text.new) }
    ensures ends { IsReply IsNoBody true result text.new }
{
    let count = put_body(archive, position, answer, spans);
    end_with(alloc, count, text)
}

/// Puts the body for a URI as of a date, in the same way.
#[tactic(auto, using(crate::proofs::ReplyLemmas::reply, crate::proofs::ReplyLemmas::dated))]
fn body_for<S: Source, A: Allocator + Copy, B: Allocator>(
    alloc: B,
    archive: &mut Archive<S, A>,
    uri: &[u8],
    date: &[u8],
    answer: &mut AnswerNumbers,
    spans: &mut [SpanNumbers],
    text: &mut [u8],
) -> PageOutcome
    ensures replies { IfHeld (S.seen archive.old.listing.source).holds (λ bytes. (is : IsIndexed bytes archive.old) →
        Replies (λ answered. PutsReplay bytes (contents is.listed.are.records) uri.now (instant_of date.now) answered
        answer.old answer.new spans.new) result text.new) }
    ensures ends { IsReply (IsNoReplay (instant_of date.now)) true result text.new }
    ensures dated { instant_of date.now ≡ None → EndsBy Problem.BadDate result.state result.length text.new }
{
    let count = put_replay(archive, uri, date, answer, spans);
    end_with(alloc, count, text)
}

/// Puts the position of the capture that is chosen for a URI as of a date, if one is.
fn put_chosen<S: Source, A: Allocator + Copy>(
    archive: &Archive<S, A>,
    uri: &[u8],
    date: &[u8],
    answer: &mut AnswerNumbers,
)
    ensures { (records : List Placed) → AreOf records archive.now.index archive.now.parts →
        PutsChosen (map indexed_record records) uri.now (instant_of date.now) answer.old answer.new }
{
    let Some(moment) = read_date(date) else {
        return;
    };
    if let Ok(chosen) = archive.chosen(uri, &moment) {
        answer.chosen = chosen as u64;
    }
}

/// Asks an open archive for the body that the capture at a position gives, as `warc body` does. Puts what is said of
/// the body, and the spans of the archive's bytes that it is, one after another, as many as there is room for. The
/// outcome's length is their number. If there is no body, puts the text of the reason, and the positions of the path,
/// if there is one.
#[tactic(auto, using(crate::proofs::ReplyLemmas::no_reply, crate::proofs::ReplyLemmas::reply_if_open))]
#[unsafe(no_mangle)]
pub extern "C" fn page_body(
    memory: Memory,
    units: usize,
    handle: &mut PageArchive,
    position: usize,
    answer: &mut AnswerNumbers,
    spans: &mut [SpanNumbers],
    text: &mut [u8],
    outcome: &mut PageOutcome,
)
    requires { memory.units ≡ units }
    ensures ends { IsReply IsNoBody handle.old.is_open outcome.new text.new }
    ensures stays { handle.new.is_open ≡ handle.old.is_open }
{
    let heap = Heap::new(memory, units);
    let Some(archive) = handle.take() else {
        *outcome = end_by(&heap, Problem::NotOpen, text);
        return;
    };
    *outcome = body_at(&heap, archive, position, answer, spans, text);
    handle.put(archive);
}

/// Asks an open archive for the body for a URI as of a date, as `warc replay` does. Puts the same as `page_body`, and
/// also the position of the chosen capture if it gives no body.
#[tactic(auto, using(crate::proofs::ReplyLemmas::no_reply, crate::proofs::ReplyLemmas::reply_if_open))]
#[unsafe(no_mangle)]
pub extern "C" fn page_replay(
    memory: Memory,
    units: usize,
    handle: &mut PageArchive,
    uri: &[u8],
    date: &[u8],
    answer: &mut AnswerNumbers,
    spans: &mut [SpanNumbers],
    text: &mut [u8],
    outcome: &mut PageOutcome,
)
    requires { memory.units ≡ units }
    ensures ends { IsReply (IsNoReplay (instant_of date.now)) handle.old.is_open outcome.new text.new }
    ensures dated { handle.old.is_open ≡ true → instant_of date.now ≡ None →
        EndsBy Problem.BadDate outcome.new.state outcome.new.length text.new }
    ensures stays { handle.new.is_open ≡ handle.old.is_open }
{
    let heap = Heap::new(memory, units);
    let Some(archive) = handle.take() else {
        *outcome = end_by(&heap, Problem::NotOpen, text);
        return;
    };
    put_chosen(archive, uri, date, answer);
    *outcome = body_for(&heap, archive, uri, date, answer, spans, text);
    handle.put(archive);
}
