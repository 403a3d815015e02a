//! What a head that reads says.

use crate::text::{say, say_line, say_parts};
use crate::values::{say_moment, say_wanted};
use std::alloc::{AllocError, Global};
use warc_record::{IdKey, NamedPair, Reference, Segment, SegmentNumber, Typed};

/// Adds a line that begins so, with this text.
fn say_bytes(answer: &mut Vec<u8>, begin: &str, text: &[u8]) -> Result<(), AllocError> {
    say_parts(answer, &[begin.as_bytes(), text, b"\n"])
}

/// Adds a line that begins with `begin`, with a text, or `none` if there is no text.
pub(crate) fn say_optional(
    answer: &mut Vec<u8>,
    begin: &str,
    text: Option<&[u8]>,
) -> Result<(), AllocError> {
    say_bytes(answer, begin, text.unwrap_or(b"none"))
}

/// Adds a line that begins with `begin`, with the bytes of a key, or `none` if there is no key.
fn say_key(answer: &mut Vec<u8>, begin: &str, key: Option<&IdKey<'_>>) -> Result<(), AllocError> {
    match key {
        Some(key) => say_bytes(answer, begin, key.bytes()),
        None => say_bytes(answer, begin, b"none"),
    }
}

/// Adds the type, the texts and the digests of a head.
pub(crate) fn say_typed(
    alloc: Global,
    answer: &mut Vec<u8>,
    typed: &Typed<'_>,
) -> Result<(), AllocError> {
    let kind = format!(in alloc; "{:?}", typed.kind)?;
    say_bytes(answer, "kind: ", kind.as_bytes())?;
    say_bytes(answer, "type: ", typed.texts.kind)?;
    say_bytes(answer, "id: ", typed.texts.id)?;
    say_key(answer, "key: ", Some(&typed.id))?;
    say_bytes(answer, "date: ", typed.texts.date)?;
    say(alloc, answer, &"moment: ")?;
    say_moment(alloc, answer, Some(typed.moment))?;
    say_optional(answer, "target: ", typed.target())?;
    say(alloc, answer, &"block digest: ")?;
    say_wanted(alloc, answer, typed.wanted())?;
    say_optional(answer, "payload digest: ", typed.payload_digest())?;
    say(alloc, answer, &"truncated: ")?;
    say_line(alloc, answer, &typed.texts.is_truncated)
}

/// Adds the segment that a head says it is.
pub(crate) fn say_segment(
    alloc: Global,
    answer: &mut Vec<u8>,
    segment: &Segment<'_>,
) -> Result<(), AllocError> {
    let number = match segment.number {
        SegmentNumber::Absent => format!(in alloc; "number: absent")?,
        SegmentNumber::Number(number) => format!(in alloc; "number: {number}")?,
        SegmentNumber::Bad => format!(in alloc; "number: bad")?,
    };
    say_line(alloc, answer, &number)?;
    say_key(answer, "origin: ", segment.origin.as_ref())?;
    match segment.total {
        Some(total) => say_line(alloc, answer, &format!(in alloc; "total: {total}")?),
        None => say_line(alloc, answer, &"total: none"),
    }
}

/// Adds the target and the moment that a revisit names.
fn say_pair(
    alloc: Global,
    answer: &mut Vec<u8>,
    pair: Option<&NamedPair<'_>>,
) -> Result<(), AllocError> {
    match pair {
        Some(pair) => {
            say_bytes(answer, "named target: ", pair.target)?;
            say(alloc, answer, &"named moment: ")?;
            say_moment(alloc, answer, Some(pair.moment))
        }
        None => say_line(alloc, answer, &"named pair: none"),
    }
}

/// Adds what a head refers to.
pub(crate) fn say_reference(
    alloc: Global,
    answer: &mut Vec<u8>,
    reference: &Reference<'_>,
) -> Result<(), AllocError> {
    say_key(answer, "named id: ", reference.named_id.as_ref())?;
    say_pair(alloc, answer, reference.named_pair.as_ref())?;
    let profile = if reference.known_profile {
        "profile: known"
    } else {
        "profile: unknown"
    };
    say_line(alloc, answer, &profile)
}
