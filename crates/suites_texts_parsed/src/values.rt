//! Dates and digests.

use crate::text::{say_hex, say_line, say_parts, text_of};
use std::alloc::{AllocError, Global};
use std::cmp::Ordering;
use suites_script::Case;
use warc_field::Value;
use warc_fixity::Judge;
use warc_value::{Moment, Verdict, Wanted, base32, digest, read_date, unbase32};

/// Adds the day and the nanosecond of a moment, in a line.
pub(crate) fn say_moment(
    alloc: Global,
    answer: &mut Vec<u8>,
    moment: Option<Moment>,
) -> Result<(), AllocError> {
    match moment {
        Some(moment) => {
            let reported = format!(in alloc; "{} {}", moment.day(), moment.nanosecond())?;
            say_line(alloc, answer, &reported)
        }
        None => say_line(alloc, answer, &"none"),
    }
}

/// How one date compares with another, where all comparisons agree.
fn order_of(one: &[u8], other: &[u8]) -> Option<Ordering> {
    let one = read_date(one)?;
    let other = read_date(other)?;
    let order = one.cmp(&other);
    let agree = (one == other) == (order == Ordering::Equal)
        && (one < other) == (order == Ordering::Less)
        && one.is_before(&other) == (order == Ordering::Less);
    agree.then_some(order)
}

/// Adds how one date compares with another.
fn say_order(alloc: Global, case: &Case<'_>, answer: &mut Vec<u8>) -> Result<(), AllocError> {
    let reported = match order_of(case.word(1), case.word(2)) {
        Some(Ordering::Less) => "earlier",
        Some(Ordering::Equal) => "equal",
        Some(Ordering::Greater) => "later",
        None => "told in two ways",
    };
    say_line(alloc, answer, &reported)
}

/// Adds twenty bytes in base32.
fn say_base32(alloc: Global, answer: &mut Vec<u8>, bytes: &[u8]) -> Result<(), AllocError> {
    let mut digest = [0; 20];
    if bytes.len() != digest.len() {
        return say_line(alloc, answer, &"not twenty bytes");
    }
    digest.copy_from_slice(bytes);
    say_parts(answer, &[&base32(&digest), b"\n"])
}

/// Adds the twenty bytes that a text is in base32.
fn say_unbase32(alloc: Global, answer: &mut Vec<u8>, text: &[u8]) -> Result<(), AllocError> {
    match unbase32(text) {
        Some(bytes) => say_hex(alloc, answer, &bytes),
        None => say_line(alloc, answer, &"none"),
    }
}

/// Adds the digest that is wanted, in hexadecimal digits.
pub(crate) fn say_wanted(
    alloc: Global,
    answer: &mut Vec<u8>,
    wanted: Wanted,
) -> Result<(), AllocError> {
    match wanted {
        Wanted::Sha1(bytes) => say_hex(alloc, answer, &bytes),
        Wanted::Unchecked => say_line(alloc, answer, &"unchecked"),
    }
}

/// What a text asks for, where it is a value.
fn wanted_of(alloc: Global, text: &[u8]) -> Option<Wanted> {
    match Value::new(alloc, text) {
        Ok(value) => Some(Wanted::of(value.bytes())),
        Err(_) => None,
    }
}

/// Adds the digest that a value asks for.
fn say_wanted_of(alloc: Global, answer: &mut Vec<u8>, text: &[u8]) -> Result<(), AllocError> {
    match wanted_of(alloc, text) {
        Some(wanted) => say_wanted(alloc, answer, wanted),
        None => say_line(alloc, answer, &"no value"),
    }
}

/// Adds the digest of a block in base32.
fn say_digest(answer: &mut Vec<u8>, block: &[u8]) -> Result<(), AllocError> {
    say_parts(answer, &[&base32(&digest(block)), b"\n"])
}

/// The verdict on a block that comes in pieces of `piece` bytes.
fn verdict_in_pieces(block: &[u8], piece: usize, wanted: &Wanted) -> Verdict {
    let mut judge = Judge::wanting(wanted);
    for part in block.chunks(piece.max(1)) {
        judge.update(part);
    }
    judge.verdict()
}

/// Adds the verdict on a block, in pieces of as many bytes as each word from the third on says.
fn say_verdicts(
    alloc: Global,
    case: &Case<'_>,
    answer: &mut Vec<u8>,
    block: &[u8],
) -> Result<(), AllocError> {
    let Some(wanted) = wanted_of(alloc, case.word(1)) else {
        return say_line(alloc, answer, &"no value");
    };
    for word in 2..20usize {
        if !case.word(word).is_empty() {
            let reported = match verdict_in_pieces(block, case.number(word) as usize, &wanted) {
                Verdict::Good => "good",
                Verdict::Bad => "bad",
                Verdict::Unchecked => "unchecked",
            };
            say_line(alloc, answer, &reported)?;
        }
    }
    Ok(())
}

/// Answers a case of dates and digests.
pub(crate) fn answer(
    alloc: Global,
    case: &Case<'_>,
    kept: &[u8],
    answer: &mut Vec<u8>,
) -> Result<bool, AllocError> {
    let reported = match case.text(0) {
        "date" => say_moment(alloc, answer, read_date(&case.bytes(alloc, 1)?)),
        "order" => say_order(alloc, case, answer),
        "base32" => say_base32(alloc, answer, text_of(case, kept)),
        "unbase32" => say_unbase32(alloc, answer, case.word(1)),
        "wanted" => say_wanted_of(alloc, answer, text_of(case, kept)),
        "digest" => say_digest(answer, text_of(case, kept)),
        "judge" => say_verdicts(alloc, case, answer, text_of(case, kept)),
        _ => return Ok(false),
    };
    reported?;
    Ok(true)
}
