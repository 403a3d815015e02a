//! What calls that write nothing answer, as text: heads, outcomes, and where bodies lie.

use crate::calls::located;
use crate::replays::Asked;
use crate::text::{add_line, add_replay, add_text};
use std::alloc::{AllocError, Allocator, Global};
use std::fmt::Display;
use suites_script::Case;
use warc::{Archive, BodyFault, Located, Outcome, Reason, Span, Stored, TakeFault};
use warc_frame::{Head, Source};

/// Adds a line of text.
fn add(text: &mut Vec<u8>, line: &str) -> Result<(), AllocError> {
    add_line(text, line.as_bytes())
}

/// Adds the place of each span of a body.
fn add_spans<A: Allocator>(
    alloc: Global,
    text: &mut Vec<u8>,
    located: &Located<A>,
) -> Result<(), AllocError> {
    for index in 0..located.count() {
        if let Some(Span { start, len }) = located.span(index) {
            add(text, &format!(in alloc; "{len} bytes at {start}")?)?;
        }
    }
    Ok(())
}

/// Adds what is said of a body and where it is, or why there is none.
pub(crate) fn add_located<E: Display + Copy, A: Allocator>(
    alloc: Global,
    text: &mut Vec<u8>,
    reported: Result<Located<A>, E>,
) -> Result<(), AllocError> {
    match reported {
        Ok(located) => {
            add_replay(alloc, text, Ok::<_, E>(located.answer()))?;
            add_spans(alloc, text, &located)
        }
        Err(fault) => add_text(alloc, text, &fault),
    }
}

/// Adds what `add_located` adds, for the target and the date that the words of a case from the fourth on name.
pub(crate) fn add_located_for<S: Source, A: Allocator + Copy>(
    alloc: Global,
    archive: &mut Archive<S, A>,
    case: &Case<'_>,
    text: &mut Vec<u8>,
) -> Result<(), AllocError> {
    match Asked::of(alloc, case, 3)? {
        Some(asked) => {
            let reported = located(archive, &asked.uri, &asked.moment);
            add_located(alloc, text, reported)
        }
        None => add_line(text, b"bad date"),
    }
}

/// Adds how many bytes are stored of a capture, or why none are.
fn add_stored<A: Allocator>(
    alloc: Global,
    text: &mut Vec<u8>,
    chosen: usize,
    stored: Result<Stored<A>, Reason>,
) -> Result<(), AllocError> {
    match stored {
        Ok(stored) => {
            let length = stored.length;
            add(text, &format!(in alloc; "chosen {chosen} length {length}")?)
        }
        Err(reason) => add_text(alloc, text, &reason),
    }
}

/// Adds what a capture gives.
pub(crate) fn add_outcome<A: Allocator>(
    alloc: Global,
    text: &mut Vec<u8>,
    reported: Result<Outcome<A>, BodyFault>,
) -> Result<(), AllocError> {
    match reported {
        Ok(outcome) => add_stored(alloc, text, outcome.chosen, outcome.stored),
        Err(fault) => add_text(alloc, text, &fault),
    }
}

/// Adds what a head that is read again says.
pub(crate) fn add_head<A: Allocator>(
    alloc: Global,
    text: &mut Vec<u8>,
    reported: Result<Head<A>, TakeFault>,
) -> Result<(), AllocError> {
    match reported {
        Ok(head) => {
            let (fields, len, block) = (head.fields.len(), head.len, head.block_len);
            let line = format!(in alloc;
                "{} {fields} fields, {len} bytes, and {block} after it",
                head.version
            )?;
            add(text, &line)
        }
        Err(fault) => add_text(alloc, text, &fault),
    }
}
