//! What calls answer, as text.

use std::alloc::{AllocError, Global};
use std::fmt::Display;
use warc::ExtractFault;
use warc_answer::Answer;
use warc_frame::OutFault;

/// Adds a text, and the end of a line.
pub(crate) fn add_line(answer: &mut Vec<u8>, text: &[u8]) -> Result<(), AllocError> {
    answer.extend_from_slice(text)?;
    answer.extend_from_slice(b"\n")
}

/// Adds the text of a fault or a version, and the end of a line.
pub(crate) fn add_text<T: Display>(
    alloc: Global,
    answer: &mut Vec<u8>,
    reported: &T,
) -> Result<(), AllocError> {
    let text = reported.to_string(alloc)?;
    add_line(answer, text.as_bytes())
}

/// Adds a line of what is counted and its number.
pub(crate) fn add_number(
    alloc: Global,
    answer: &mut Vec<u8>,
    name: &str,
    number: u64,
) -> Result<(), AllocError> {
    answer.extend_from_slice(name.as_bytes())?;
    answer.extend_from_slice(b" ")?;
    add_text(alloc, answer, &number)
}

/// Adds the status of an HTTP response, or `-`.
fn add_status(alloc: Global, answer: &mut Vec<u8>, status: Option<u16>) -> Result<(), AllocError> {
    match status {
        Some(status) => answer.extend_from_slice(status.to_string(alloc)?.as_bytes()),
        None => answer.extend_from_slice(b"-"),
    }
}

/// Adds a line of what is said of a body that a replay gave.
fn add_facts(alloc: Global, answer: &mut Vec<u8>, facts: Answer) -> Result<(), AllocError> {
    let (chosen, given) = (facts.chosen, facts.given);
    let truncated = if facts.truncated { "yes" } else { "no" };
    let origin = format!(in alloc; "chosen {chosen} given {given} status ")?;
    answer.extend_from_slice(origin.as_bytes())?;
    add_status(alloc, answer, facts.status)?;
    let body = format!(in alloc; " truncated {truncated} length {}\n", facts.length)?;
    answer.extend_from_slice(body.as_bytes())
}

/// Adds what is said of a body, or why there is none.
pub(crate) fn add_replay<E: Display + Copy>(
    alloc: Global,
    answer: &mut Vec<u8>,
    reported: Result<Answer, E>,
) -> Result<(), AllocError> {
    match reported {
        Ok(facts) => add_facts(alloc, answer, facts),
        Err(fault) => add_text(alloc, answer, &fault),
    }
}

/// Adds what an extraction answers.
pub(crate) fn add_extract(
    alloc: Global,
    answer: &mut Vec<u8>,
    reported: Result<u64, ExtractFault>,
) -> Result<(), AllocError> {
    match reported {
        Ok(length) => add_number(alloc, answer, "length", length),
        Err(fault) => add_text(alloc, answer, &fault),
    }
}

/// Adds what a check answers.
pub(crate) fn add_check(
    alloc: Global,
    answer: &mut Vec<u8>,
    reported: Result<usize, OutFault>,
) -> Result<(), AllocError> {
    match reported {
        Ok(count) => add_number(alloc, answer, "findings", count as u64),
        Err(fault) => add_text(alloc, answer, &fault),
    }
}

/// Adds that all went out, or why it didn't.
pub(crate) fn add_done(
    alloc: Global,
    answer: &mut Vec<u8>,
    done: Result<(), OutFault>,
) -> Result<(), AllocError> {
    match done {
        Ok(()) => add_line(answer, b"done"),
        Err(fault) => add_text(alloc, answer, &fault),
    }
}
