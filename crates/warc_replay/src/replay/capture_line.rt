//! The line that `captures` writes for a capture.
ghost use Rattle.std.specs.Prelude.{◌≡◌, ◌≤◌, ◌++◌, ◌==◌, [], length, drop, not, codes, map, None, Some, Ok};
ghost use Rattle.std.specs.List.{prefix_len};
ghost use Rattle.warc_answer.specs.Seen.{stored_seen};
ghost use Rattle.warc_frame.specs.Effects.{Puts, SendsText};
ghost use Rattle.warc_segment.specs.GapText.{digits_of};
ghost use Rattle.warc_replay.specs.CaptureColumns.{end_columns, front_columns, middle_columns};
ghost use Rattle.warc_replay.specs.Captures.{capture_line, captures_text, columns_line, columns_of, date_front, line_by, number_shown, reason_shown};
ghost use Rattle.warc_replay.specs.Outcomes.{judged_seen, outcome_seen};

use crate::replay::outcome::Outcome;
use itoa::Buffer;
use std::alloc::Allocator;
use warc_answer::{Reason, Stored};
use warc_frame::{OutBuffer, OutFault, SendFault, Sink, put_all, put_columns};
use warc_judged::shown_as;
use warc_reading::{Row, Rows};

/// The first instant of the year 0, whose end completes a shorter date.
const FIRST_INSTANT: &[u8] = b"0000-01-01T00:00:00.000000000Z";

/// How many bytes come before the first `Z` of a date.
fn front_len(date: &[u8]) -> usize
    ensures count { result ≡ prefix_len (λ b. not (b == 90)) date.now }
    ensures within { result ≤ length date.now }
{
    let mut count = 0;
    while count < date.len() && date[count] != b'Z' {
        count += 1;
    }
    count
}

/// A date without the `Z` at its end.
pub fn date_front(date: &[u8]) -> &[u8]
    ensures { result.now ≡ date_front date.now }
{
    &date[..front_len(date)]
}

/// What completes a date of which this many bytes are written, as its first instant to the nanosecond.
pub fn date_rest(written: usize) -> &'static [u8]
    ensures { result.now ≡ drop written (codes "0000-01-01T00:00:00.000000000Z") }
{
    &FIRST_INSTANT[written.min(FIRST_INSTANT.len())..]
}

/// A number in decimal digits, or a dash for none.
fn number_shown(number: Option<u64>, digits: &mut Buffer) -> &[u8]
    ensures { result.now ≡ number_shown number }
{
    match number {
        Some(number) => digits.format(number).as_bytes(),
        None => b"-",
    }
}

/// A number in decimal digits, or nothing.
fn digits_shown(number: Option<u64>, digits: &mut Buffer) -> &[u8]
    ensures { result.now ≡ digits_of number }
{
    match number {
        Some(number) => digits.format(number).as_bytes(),
        None => b"",
    }
}

/// A reason in the parts of its text, or a dash for none.
fn reason_parts(reason: Option<Reason>) -> (&'static str, &'static str, Option<u64>)
    ensures { result.0.now ++ result.1.now ++ digits_of result.2 ≡ reason_shown reason }
{
    match reason {
        Some(reason) => reason.parts(),
        None => ("-", "", None),
    }
}

/// The texts of a line of ten columns: the instant is in two parts, and the reason in three.
#[derive(Clone, Copy)]
struct LineTexts<'a> {
    chosen: &'a [u8],
    date: &'a [u8],
    front: &'a [u8],
    rest: &'a [u8],
    kind: &'a [u8],
    given: &'a [u8],
    status: &'a [u8],
    media_type: &'a [u8],
    size: &'a [u8],
    name: &'a [u8],
    gap: &'a [u8],
    number: &'a [u8],
    target: &'a [u8],
}

/// Adds the first two columns and the front of the third to the output.
fn put_front<W: Sink>(
    texts: &LineTexts<'_>,
    buffer: &mut OutBuffer,
    out: &mut W,
) -> Result<(), SendFault>
    ensures { Puts (W.seen out.old) (W.seen out.new) buffer.old buffer.new result
        (front_columns texts.now.chosen.now texts.now.date.now texts.now.front.now) }
{
    put_columns(&[(texts.chosen, b'\t'), (texts.date, b'\t')], buffer, out)?;
    buffer.put(out, texts.front)
}

/// Adds the rest of the third column and those up to the reason to the output.
fn put_middle<W: Sink>(
    texts: &LineTexts<'_>,
    buffer: &mut OutBuffer,
    out: &mut W,
) -> Result<(), SendFault>
    ensures { Puts (W.seen out.old) (W.seen out.new) buffer.old buffer.new result
        (middle_columns texts.now.rest.now texts.now.kind.now texts.now.given.now texts.now.status.now
        texts.now.media_type.now texts.now.size.now) }
{
    let columns = [
        (texts.rest, b'\t'),
        (texts.kind, b'\t'),
        (texts.given, b'\t'),
        (texts.status, b'\t'),
        (texts.media_type, b'\t'),
        (texts.size, b'\t'),
    ];
    put_columns(&columns, buffer, out)
}

/// Adds the last two columns to the output, of which the first is in three parts.
fn put_end<W: Sink>(
    texts: &LineTexts<'_>,
    buffer: &mut OutBuffer,
    out: &mut W,
) -> Result<(), SendFault>
    ensures { Puts (W.seen out.old) (W.seen out.new) buffer.old buffer.new result
        (end_columns texts.now.name.now texts.now.gap.now texts.now.number.now texts.now.target.now) }
{
    put_all(&[texts.name, texts.gap], buffer, out)?;
    put_columns(&[(texts.number, b'\t'), (texts.target, b'\n')], buffer, out)
}

/// Adds the line of these texts to the output.
fn put_texts<W: Sink>(
    texts: &LineTexts<'_>,
    buffer: &mut OutBuffer,
    out: &mut W,
) -> Result<(), SendFault>
    ensures { Puts (W.seen out.old) (W.seen out.new) buffer.old buffer.new result (columns_of texts.now.chosen.now
        texts.now.date.now (texts.now.front.now ++ texts.now.rest.now) texts.now.kind.now texts.now.given.now
        texts.now.status.now texts.now.media_type.now texts.now.size.now
        (texts.now.name.now ++ texts.now.gap.now ++ texts.now.number.now) texts.now.target.now) }
{
    put_front(texts, buffer, out)?;
    put_middle(texts, buffer, out)?;
    put_end(texts, buffer, out)
}

/// What is said of a capture beside its row: its position, that of its origin, what is stored there, and the reason
/// why it gives no body.
#[derive(Clone, Copy)]
struct Shown<'a> {
    chosen: u64,
    given: Option<u64>,
    status: Option<u64>,
    media_type: &'a [u8],
    size: Option<u64>,
    reason: Option<Reason>,
}

/// Adds the line of a capture to the output.
fn put_shown<W: Sink>(
    row: &Row<'_>,
    shown: &Shown<'_>,
    buffer: &mut OutBuffer,
    out: &mut W,
) -> Result<(), SendFault>
    ensures { Puts (W.seen out.old) (W.seen out.new) buffer.old buffer.new result
        (columns_line row.now shown.now.chosen shown.now.given shown.now.status shown.now.media_type.now
        shown.now.size shown.now.reason) }
{
    let (mut first, mut second) = (Buffer::new(), Buffer::new());
    let (mut third, mut fourth, mut fifth) = (Buffer::new(), Buffer::new(), Buffer::new());
    let front = date_front(row.date);
    let (name, gap, number) = reason_parts(shown.reason);
    let texts = LineTexts {
        chosen: first.format(shown.chosen).as_bytes(),
        date: row.date,
        front,
        rest: date_rest(front.len()),
        kind: row.kind,
        given: number_shown(shown.given, &mut second),
        status: number_shown(shown.status, &mut third),
        media_type: shown_as(shown.media_type),
        size: number_shown(shown.size, &mut fourth),
        name: name.as_bytes(),
        gap: gap.as_bytes(),
        number: digits_shown(number, &mut fifth),
        target: shown_as(row.target),
    };
    put_texts(&texts, buffer, out)
}

/// A position as a number of a line.
fn position_number(position: Option<usize>) -> Option<u64>
    ensures { result ≡ position }
{
    match position {
        Some(position) => Some(position as u64),
        None => None,
    }
}

/// A status as a number of a line.
fn status_number(status: Option<u16>) -> Option<u64>
    ensures { result ≡ status }
{
    match status {
        Some(status) => Some(u64::from(status)),
        None => None,
    }
}

/// Adds the line of a capture whose origin has something stored.
fn put_stored<W: Sink, A: Allocator>(
    row: &Row<'_>,
    chosen: u64,
    given: Option<u64>,
    stored: &Stored<A>,
    buffer: &mut OutBuffer,
    out: &mut W,
) -> Result<(), SendFault>
    ensures { Puts (W.seen out.old) (W.seen out.new) buffer.old buffer.new result
        (line_by row.now chosen given (Ok (stored_seen stored.now))) }
{
    let (size, reason) = if stored.coded {
        (None, Some(Reason::Coded))
    } else {
        (Some(stored.length), None)
    };
    let shown = Shown {
        chosen,
        given,
        status: status_number(stored.status),
        media_type: &stored.media_type,
        size,
        reason,
    };
    put_shown(row, &shown, buffer, out)
}

/// Adds the line of a capture of which nothing is stored.
fn put_reason<W: Sink>(
    row: &Row<'_>,
    chosen: u64,
    given: Option<u64>,
    reason: Reason,
    buffer: &mut OutBuffer,
    out: &mut W,
) -> Result<(), SendFault>
    ensures { Puts (W.seen out.old) (W.seen out.new) buffer.old buffer.new result
        (columns_line row.now chosen given None [] None (Some reason)) }
{
    let shown = Shown {
        chosen,
        given,
        status: None,
        media_type: b"",
        size: None,
        reason: Some(reason),
    };
    put_shown(row, &shown, buffer, out)
}

/// Adds the line of a capture to the output, by its row.
fn put_capture<W: Sink, A: Allocator>(
    row: &Row<'_>,
    outcome: &Outcome<A>,
    buffer: &mut OutBuffer,
    out: &mut W,
) -> Result<(), SendFault>
    ensures { Puts (W.seen out.old) (W.seen out.new) buffer.old buffer.new result
        (line_by row.now outcome.now.chosen outcome.now.given (judged_seen outcome.now.stored)) }
{
    let chosen = outcome.chosen as u64;
    let given = position_number(outcome.given);
    match &outcome.stored {
        Ok(stored) => put_stored(row, chosen, given, stored, buffer, out),
        Err(reason) => put_reason(row, chosen, given, *reason, buffer, out),
    }
}

/// Adds the line of a capture to the output, if its record is there.
pub(crate) fn put_line<W: Sink, A: Allocator>(
    rows: &Rows<A>,
    outcome: &Outcome<A>,
    buffer: &mut OutBuffer,
    out: &mut W,
) -> Result<(), SendFault>
    ensures { Puts (W.seen out.old) (W.seen out.new) buffer.old buffer.new result
        (capture_line rows.now (outcome_seen outcome.now)) }
{
    match rows.get(outcome.chosen) {
        Some(row) => put_capture(&row, outcome, buffer, out),
        None => put_all(&[], buffer, out),
    }
}

/// Writes a line for each outcome.
pub fn list_outcomes<W: Sink, A: Allocator>(
    rows: &Rows<A>,
    outcomes: &[Outcome<A>],
    out: &mut W,
) -> Result<(), OutFault>
    ensures { SendsText (W.seen out.old) (W.seen out.new) result
        (captures_text rows.now (map outcome_seen outcomes.now)) }
{
    let mut buffer = OutBuffer::new();
    'listing: for outcome in outcomes {
        put_line(rows, outcome, &mut buffer, out)?;
    }
    buffer.flush(out)?;
    Ok(())
}
