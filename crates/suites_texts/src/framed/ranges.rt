//! Ranges of a source.

use crate::framed::devices::{number_or_all, say_taken};
use std::alloc::{AllocError, Global};
use suites_script::Case;
use suites_texts_parsed::{say_done, say_line};
use warc_frame::{MemSink, MemSource, OutBuffer, put_range, read_range};

/// The text as a source that gives at most as many bytes at once as the second word says.
fn source_of(alloc: Global, case: &Case<'_>, text: &[u8]) -> Result<MemSource, AllocError> {
    let most = number_or_all(case, 1).max(1);
    Ok(MemSource::new(text.to_vec(alloc)?, most))
}

/// Adds the ten bytes of the text at the offset that the third word says, or the fault.
pub(crate) fn say_range(
    alloc: Global,
    case: &Case<'_>,
    answer: &mut Vec<u8>,
    text: &[u8],
) -> Result<(), AllocError> {
    let mut source = source_of(alloc, case, text)?;
    let mut bytes = [0; 10];
    let at = u32::try_from(case.number(2)).unwrap_or(u32::MAX);
    match read_range(&mut source, at as u64, &mut bytes) {
        Ok(()) => say_taken(answer, &bytes),
        Err(fault) => say_line(alloc, answer, &fault),
    }
}

/// Puts each range of a text whose offset and length the words from the third on say, and adds the answers. Returns
/// whether all were put.
fn put_ranges(
    alloc: Global,
    case: &Case<'_>,
    answer: &mut Vec<u8>,
    source: &mut MemSource,
    buffer: &mut OutBuffer,
    sink: &mut MemSink,
) -> Result<bool, AllocError> {
    let mut are_put = true;
    for pair in 1..5usize {
        if !case.word(2 * pair).is_empty() {
            let (at, len) = (case.number(2 * pair), case.number(2 * pair + 1));
            let put = put_range(source, at, len, &mut [0; 4], buffer, sink);
            are_put = are_put && put.is_ok();
            say_done(alloc, answer, "put", put)?;
        }
    }
    Ok(are_put)
}

/// Adds the answers if ranges are put through a buffer, four bytes at a time, and what is sent if all are put.
pub(crate) fn say_put_ranges(
    alloc: Global,
    case: &Case<'_>,
    answer: &mut Vec<u8>,
    text: &[u8],
) -> Result<(), AllocError> {
    let mut source = source_of(alloc, case, text)?;
    let (mut buffer, mut sink) = (OutBuffer::new(), MemSink::new(Vec::new(alloc)));
    if put_ranges(alloc, case, answer, &mut source, &mut buffer, &mut sink)? {
        say_done(alloc, answer, "sent", buffer.flush(&mut sink))?;
        say_taken(answer, sink.bytes())?;
    }
    Ok(())
}
