//! Records that are written while each write, or each request for memory of the sink, fails in turn; and written again.

use std::alloc::{AllocError, Allocator, Global};
use suites_script::Case;
use suites_texts_parsed::{say_line, text_of};
use warc_frame::{Framed, MemSink, OutFault, Sink, decode};
use warc_vectors::{Break, BrokenWriter, RefusingAllocator};
use warc_write::{render, render_one};

/// More failures than any case has.
const MOST: u64 = 5000;

/// How many bytes a write takes at most where writes break.
const PIECE: usize = 7;

/// Which call writes the records.
#[derive(Clone, Copy)]
enum Call {
    All,

    /// The first one alone.
    One,
}

/// What a call answers that writes records.
fn written<W: Sink>(call: Call, records: &[Framed], out: &mut W) -> Result<(), OutFault> {
    match (call, records) {
        (Call::One, [first, ..]) => render_one(first, out),
        _ => render(records, out),
    }
}

/// What a call writes that goes well; nothing where it fails.
fn whole_of(alloc: Global, call: Call, records: &[Framed]) -> Vec<u8> {
    let mut sink = MemSink::new(Vec::new(alloc));
    match written(call, records, &mut sink) {
        Ok(()) => sink.into_inner(),
        Err(_) => Vec::new(alloc),
    }
}

/// What comes of a call of which a write fails.
#[derive(Clone, Copy)]
enum Turn {
    /// What went out is the front of the whole, and its length is reported.
    Cut,

    /// All went out.
    Done,
    Otherwise,
}

/// What comes of a call that answers so, and what went out.
fn turn_of(reported: Result<(), OutFault>, sent: &[u8], whole: &[u8]) -> Turn {
    match reported {
        Ok(()) if sent == whole => Turn::Done,
        Err(OutFault::Write(count)) if count == sent.len() as u64 && whole.starts_with(sent) => {
            Turn::Cut
        }
        _ => Turn::Otherwise,
    }
}

/// What comes of a call where the write of a number breaks, counted from 0, and how many bytes went out.
fn turn_cut(
    alloc: Global,
    call: Call,
    records: &[Framed],
    whole: &[u8],
    (number, how): (u64, Break),
) -> (Turn, usize) {
    let mut out = BrokenWriter::new(alloc, number.saturating_add(1), how).taking(PIECE);
    let reported = written(call, records, &mut out);
    let turn = turn_of(reported, out.bytes(), whole);
    (turn, out.bytes().len())
}

/// Whether the first write that fails is at the beginning, and each other one at most a piece after the one before it.
fn is_next(number: u64, last: usize, sent: usize) -> bool {
    if number == 0 {
        sent == 0
    } else {
        last < sent && sent <= last.saturating_add(PIECE)
    }
}

/// How many writes break in turn and cut the call, each one write later than the one before, and each before the call
/// goes well again. Nothing where something else comes of one, or more are to come.
fn count_cut(
    alloc: Global,
    call: Call,
    records: &[Framed],
    whole: &[u8],
    how: Break,
) -> Option<u64> {
    let mut last = 0;
    for number in 0..MOST {
        let (turn, sent) = turn_cut(alloc, call, records, whole, (number, how));
        let is_again = whole_of(alloc, call, records).as_slice() == whole;
        match turn {
            Turn::Cut if is_again && is_next(number, last, sent) => last = sent,
            Turn::Done => return Some(number),
            _ => return None,
        }
    }
    None
}

/// How many writes up to a number take one byte in turn, as do those after each, where all goes out.
fn count_short(alloc: Global, call: Call, records: &[Framed], whole: &[u8], writes: u64) -> u64 {
    let mut count = 0u64;
    for number in 0..writes {
        let (turn, _) = turn_cut(alloc, call, records, whole, (number, Break::Takes(1)));
        count = count.saturating_add(u64::from(matches!(turn, Turn::Done)));
    }
    count
}

/// What comes of a call where the request for memory of a number is refused to the sink. The same sink takes all then.
fn turn_refused(alloc: Global, call: Call, records: &[Framed], whole: &[u8], number: u64) -> Turn {
    let heap = RefusingAllocator::new(alloc, number);
    let mut sink = MemSink::new(Vec::new(&heap));
    let reported = written(call, records, &mut sink);
    let has_refused = heap.has_refused();
    let turn = turn_of(reported, sink.bytes(), whole);
    let sent = sink.bytes().len();
    let again = written(call, records, &mut sink);
    match (turn, has_refused) {
        (Turn::Cut, true) if again.is_ok() && sink.bytes().get(sent..) == Some(whole) => Turn::Cut,
        (Turn::Done, false) => Turn::Done,
        _ => Turn::Otherwise,
    }
}

/// How many requests for memory are refused to the sink in turn, until none is. Nothing where something else comes of
/// one, or more are to come.
fn count_refused(alloc: Global, call: Call, records: &[Framed], whole: &[u8]) -> Option<u64> {
    for number in 1..MOST {
        match turn_refused(alloc, call, records, whole, number) {
            Turn::Cut => {}
            Turn::Done => return Some(number - 1),
            Turn::Otherwise => return None,
        }
    }
    None
}

/// Adds how many bytes a call writes, how many writes fail in turn, take nothing and take one byte, and whether any
/// request of the sink is refused.
fn say_turns(
    alloc: Global,
    call: Call,
    records: &[Framed],
    answer: &mut Vec<u8>,
) -> Result<(), AllocError> {
    let whole = whole_of(alloc, call, records);
    let failing = count_cut(alloc, call, records, &whole, Break::Fails);
    let empty = count_cut(alloc, call, records, &whole, Break::Takes(0));
    let refused = count_refused(alloc, call, records, &whole);
    let (Some(failing), Some(empty), Some(refused)) = (failing, empty, refused) else {
        return say_line(alloc, answer, &"another outcome");
    };
    let short = count_short(alloc, call, records, &whole, failing);
    let len = whole.len();
    let line = format!(in alloc;
        "{len} bytes: {failing} writes fail, {empty} take nothing, {short} take one byte"
    )?;
    say_line(alloc, answer, &line)?;
    let growths = if refused > 0 {
        "each growth of the sink is told of"
    } else {
        "it never grows"
    };
    say_line(alloc, answer, &growths)
}

/// Adds the same of the records that a text is.
fn say_turns_of(
    alloc: Global,
    call: Call,
    text: &[u8],
    answer: &mut Vec<u8>,
) -> Result<(), AllocError> {
    match decode(alloc, 0, &[text]) {
        Ok(records) => say_turns(alloc, call, &records, answer),
        Err(fault) => say_line(alloc, answer, &fault),
    }
}

/// Answers a case of records that are written while something fails.
pub(crate) fn answer(
    alloc: Global,
    case: &Case<'_>,
    kept: &[u8],
    answer: &mut Vec<u8>,
) -> Result<bool, AllocError> {
    match case.text(0) {
        "render-in-turn" => say_turns_of(alloc, Call::All, text_of(case, kept), answer)?,
        "render-one-in-turn" => say_turns_of(alloc, Call::One, text_of(case, kept), answer)?,
        _ => return Ok(false),
    }
    Ok(true)
}
