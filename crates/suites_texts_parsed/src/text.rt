//! How answers are written.

use std::alloc::{AllocError, Allocator, Global};
use std::fmt::Display;
use suites_script::Case;
use warc_field::Fields;

/// Of a longer text its length is written.
const LONG: usize = 4096;

/// The text that a case gives, or the one that was kept where it gives none.
pub fn text_of<'a>(case: &'a Case<'_>, kept: &'a [u8]) -> &'a [u8] {
    if case.given().is_empty() {
        kept
    } else {
        case.given()
    }
}

/// Adds texts, one after the other.
pub fn say_parts(answer: &mut Vec<u8>, parts: &[&[u8]]) -> Result<(), AllocError> {
    for part in parts {
        answer.extend_from_slice(part)?;
    }
    Ok(())
}

/// Adds how a value shows itself.
pub fn say<T: Display>(alloc: Global, answer: &mut Vec<u8>, value: &T) -> Result<(), AllocError> {
    let shown = value.to_string(alloc)?;
    answer.extend_from_slice(shown.as_bytes())
}

/// Adds how a value shows itself, on a line of its own.
pub fn say_line<T: Display>(
    alloc: Global,
    answer: &mut Vec<u8>,
    value: &T,
) -> Result<(), AllocError> {
    let shown = value.to_string(alloc)?;
    say_parts(answer, &[shown.as_bytes(), b"\n"])
}

/// Adds whether two things are the same, or that two ways of comparing them differ.
pub(crate) fn say_sameness(
    alloc: Global,
    answer: &mut Vec<u8>,
    is_same: Option<bool>,
) -> Result<(), AllocError> {
    let reported = match is_same {
        Some(true) => "same",
        Some(false) => "other",
        None => "told in two ways",
    };
    say_line(alloc, answer, &reported)
}

/// Adds what a call answers, or its fault, in a line.
pub fn say_outcome<T: Display + Drop, E: Display + Drop>(
    alloc: Global,
    answer: &mut Vec<u8>,
    outcome: Result<T, E>,
) -> Result<(), AllocError> {
    match outcome {
        Ok(value) => say_line(alloc, answer, &value),
        Err(fault) => say_line(alloc, answer, &fault),
    }
}

/// Adds a word where a call is done, or its fault, in a line.
pub fn say_done<E: Display + Drop>(
    alloc: Global,
    answer: &mut Vec<u8>,
    word: &str,
    outcome: Result<(), E>,
) -> Result<(), AllocError> {
    match outcome {
        Ok(()) => say_line(alloc, answer, &word),
        Err(fault) => say_line(alloc, answer, &fault),
    }
}

/// Adds a text: in a line, where it is the one that was kept or is long, what it is.
pub fn say_text(
    alloc: Global,
    answer: &mut Vec<u8>,
    text: &[u8],
    kept: &[u8],
) -> Result<(), AllocError> {
    if text == kept {
        answer.extend_from_slice(b"the text\n")
    } else if text.len() > LONG {
        let reported = format!(in alloc; "{} bytes\n", text.len())?;
        answer.extend_from_slice(reported.as_bytes())
    } else {
        answer.extend_from_slice(text)
    }
}

/// Adds bytes as hexadecimal digits, on a line.
pub(crate) fn say_hex(alloc: Global, answer: &mut Vec<u8>, bytes: &[u8]) -> Result<(), AllocError> {
    for byte in bytes {
        say(alloc, answer, &format!(in alloc; "{byte:02x}")?)?;
    }
    answer.extend_from_slice(b"\n")
}

/// Adds each field as a line.
pub fn say_fields<A: Allocator>(
    answer: &mut Vec<u8>,
    fields: &Fields<A>,
) -> Result<(), AllocError> {
    for (name, value) in fields.as_slice() {
        say_parts(answer, &[name.bytes(), b": ", value.bytes(), b"\n"])?;
    }
    Ok(())
}
