//! How a replay is reported.

use crate::stored::{Block, begin_with};
use std::alloc::{AllocError, Global};
use warc_answer::{Answer, Reason, ReplayFault};
use warc_frame::OutFault;
use warc_index::Unfound;
use warc_segment::Gap;

/// Reports what is answered of a body that was given.
fn say_answer(alloc: Global, answer: Answer, reported: &mut Vec<u8>) -> Result<(), AllocError> {
    let (chosen, given, length) = (answer.chosen, answer.given, answer.length);
    let status = match answer.status {
        Some(status) => format!(in alloc; "status {status}")?,
        None => format!(in alloc; "no status")?,
    };
    let mark = if answer.truncated { ", truncated" } else { "" };
    let text = format!(in alloc;
        "chosen {chosen}, given {given}, {status}, {length} bytes{mark}\n"
    )?;
    reported.extend_from_slice(text.as_bytes())
}

/// Reports the bytes that went out. Of many, whether the blocks begin so.
fn say_body(
    alloc: Global,
    blocks: &[Block],
    body: &[u8],
    reported: &mut Vec<u8>,
) -> Result<(), AllocError> {
    if body.len() <= 64 {
        return reported.extend_from_slice(body);
    }
    let how = if begin_with(blocks, body) {
        "the blocks begin so"
    } else {
        "the blocks don't begin so"
    };
    let text = format!(in alloc; "{} bytes went out, and {how}\n", body.len())?;
    reported.extend_from_slice(text.as_bytes())
}

/// Reports what a replay answers, and what went out.
pub(crate) fn say(
    alloc: Global,
    blocks: &[Block],
    answer: Result<Answer, ReplayFault>,
    body: &[u8],
) -> Result<Vec<u8>, AllocError> {
    let mut reported = Vec::new(alloc);
    match answer {
        Ok(answer) => say_answer(alloc, answer, &mut reported)?,
        Err(fault) => reported.extend_from_slice(format!(in alloc; "{fault}\n")?.as_bytes())?,
    }
    say_body(alloc, blocks, body, &mut reported)?;
    Ok(reported)
}

/// The fault of a name, which is about a number.
pub(crate) fn fault_of(name: &str, number: u64) -> Option<ReplayFault> {
    let reason = match name {
        "not-yet" => Reason::NotFound(Unfound::NotYet),
        "absent-segment" => Reason::Segments(Gap::Absent(number)),
        "bad-digest" => Reason::BadDigest,
        "bad-head" => Reason::BadHead,
        "coded" => Reason::Coded,
        "read" => return Some(ReplayFault::Out(OutFault::Read(number))),
        _ => return None,
    };
    Some(ReplayFault::Reason(reason))
}
