//! Archives in pieces: every cutting gives the same.

use crate::framed::devices::number_or_all;
use crate::framed::records::{changed, say_cut};
use crate::framed::steps::{Stepping, say_letters, say_steps};
use std::alloc::{AllocError, Global};
use suites_script::Case;
use suites_texts_parsed::{say_line, say_refusals, say_text, text_of};
use warc_frame::{FaultKind, Framed, MAX_ARCHIVE, decode, write_one};

/// The canonical texts of records, one after the other.
fn texts_of(alloc: Global, records: &[Framed]) -> Result<Vec<u8>, AllocError> {
    let mut texts = Vec::new(alloc);
    for record in records {
        write_one(record, &mut texts)?;
    }
    Ok(texts)
}

/// What the pieces of a stream give whose first byte is at an offset: their records' canonical texts, or the fault.
fn given_by(alloc: Global, at: u64, pieces: &[&[u8]]) -> Result<Vec<u8>, AllocError> {
    match decode(alloc, at.min(MAX_ARCHIVE), pieces) {
        Ok(records) => texts_of(alloc, &records),
        Err(fault) => {
            let reported = format!(in alloc; "{fault}\n")?;
            Ok(reported.into_bytes())
        }
    }
}

/// The first of the last places of a text at which it can be cut so that the two pieces give something else.
fn first_other_place(
    alloc: Global,
    at: u64,
    text: &[u8],
    first: usize,
    wanted: &[u8],
) -> Result<Option<usize>, AllocError> {
    for place in first..=text.len() {
        let (front, back) = text.split_at(place);
        if given_by(alloc, at, &[front, back])?.as_slice() != wanted {
            return Ok(Some(place));
        }
    }
    Ok(None)
}

/// What pieces of `size` bytes give.
fn given_in_many(alloc: Global, at: u64, text: &[u8], size: usize) -> Result<Vec<u8>, AllocError> {
    let mut pieces = Vec::new(alloc);
    for piece in text.chunks(size.max(1)) {
        pieces.push(piece)?;
    }
    given_by(alloc, at, &pieces)
}

/// Whether pieces of one byte and of two give the same.
fn is_given_in_many(
    alloc: Global,
    at: u64,
    text: &[u8],
    wanted: &[u8],
) -> Result<bool, AllocError> {
    let ones = given_in_many(alloc, at, text, 1)?;
    let twos = given_in_many(alloc, at, text, 2)?;
    Ok(ones.as_slice() == wanted && twos.as_slice() == wanted)
}

/// Adds what a text gives cut at each of its last places, into single bytes, and into twos.
fn say_cuttings(
    alloc: Global,
    answer: &mut Vec<u8>,
    at: u64,
    text: &[u8],
    last: usize,
) -> Result<(), AllocError> {
    let first = text.len().saturating_sub(last);
    let wanted = given_by(alloc, at, &[text])?;
    if let Some(place) = first_other_place(alloc, at, text, first, &wanted)? {
        let reported = format!(in alloc; "something else cut at {place}")?;
        return say_line(alloc, answer, &reported);
    }
    if !is_given_in_many(alloc, at, text, &wanted)? {
        return say_line(
            alloc,
            answer,
            &"something else in pieces of one byte or two",
        );
    }
    say_text(alloc, answer, &wanted, text)
}

/// Adds what `say_cuttings` adds, for a case whose words say where the first byte is, how many places there are, and
/// what is replaced.
fn say_cuttings_of(
    alloc: Global,
    case: &Case<'_>,
    answer: &mut Vec<u8>,
    text: &[u8],
) -> Result<(), AllocError> {
    let text = changed(alloc, case, 3, text)?;
    let last = number_or_all(case, 2);
    say_cuttings(alloc, answer, case.number(1), &text, last)
}

/// Adds what the pieces of a text give that have as many bytes as the words say.
fn say_pieces(
    alloc: Global,
    case: &Case<'_>,
    answer: &mut Vec<u8>,
    text: &[u8],
) -> Result<(), AllocError> {
    let mut pieces = Vec::new(alloc);
    let mut rest = text;
    for word in 1..20usize {
        if !case.word(word).is_empty() {
            let (piece, following) = rest.split_at(rest.len().min(case.number(word) as usize));
            pieces.push(piece)?;
            rest = following;
        }
    }
    let given = given_by(alloc, 0, &pieces)?;
    say_text(alloc, answer, &given, text)
}

/// Whether a text gives that it is cut off at its end, whole and in two pieces.
fn is_reported_as_cut(alloc: Global, text: &[u8]) -> bool {
    let (front, back) = text.split_at(text.len() / 2);
    let expected = Some(FaultKind::Truncated.at(text.len() as u64));
    decode(alloc, 0, &[text]).err() == expected
        && decode(alloc, 0, &[front, back]).err() == expected
}

/// The length of the first text that another begins with and that isn't reported as cut off there.
fn first_not_cut(alloc: Global, text: &[u8]) -> Option<usize> {
    for len in 1..text.len() {
        if !is_reported_as_cut(alloc, &text[..len]) {
            return Some(len);
        }
    }
    None
}

/// Answers a case of archives in pieces.
pub(crate) fn answer(
    alloc: Global,
    case: &Case<'_>,
    kept: &[u8],
    answer: &mut Vec<u8>,
) -> Result<bool, AllocError> {
    let reported = match case.text(0) {
        "cut" => say_cuttings_of(alloc, case, answer, text_of(case, kept)),
        "pieces" => say_pieces(alloc, case, answer, text_of(case, kept)),
        "fronts-in-pieces" => {
            let count = text_of(case, kept).len().saturating_sub(1);
            say_cut(
                alloc,
                answer,
                first_not_cut(alloc, text_of(case, kept)),
                count,
            )
        }
        "steps" => say_steps(alloc, case, answer, text_of(case, kept)),
        "letters" => say_letters(alloc, case, answer, text_of(case, kept)),
        "steps-without-memory" => {
            say_refusals(
                alloc,
                answer,
                &Stepping(text_of(case, kept)),
                case.number(1),
            )
        }
        _ => return Ok(false),
    };
    reported?;
    Ok(true)
}
