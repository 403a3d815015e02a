//! Cases that replay while the source or the output fails.

use crate::calls::{close, listed, opened, replayed};
use crate::sources::changing;
use crate::text::{add_line, add_replay, add_text};
use std::alloc::{AllocError, Global};
use suites_script::Case;
use warc::Archive;
use warc_frame::{MemSink, MemSource, Sink, Source};
use warc_value::{Moment, read_date};
use warc_vectors::{Break, BrokenWriter};

/// What is in an output before a replay writes to it.
const BEFORE: &[u8] = b"before ";

/// A target and a moment.
#[derive(Drop)]
pub(crate) struct Asked {
    pub(crate) uri: Vec<u8>,
    pub(crate) moment: Moment,
}

impl Asked {
    /// Those that the words from this one on name; nothing where the date isn't one.
    pub(crate) fn of(
        alloc: Global,
        case: &Case<'_>,
        index: usize,
    ) -> Result<Option<Asked>, AllocError> {
        let uri = case.bytes(alloc, index)?;
        match read_date(case.word(index.saturating_add(1))) {
            Some(moment) => Ok(Some(Asked { uri, moment })),
            None => Ok(None),
        }
    }
}

/// Adds what an archive answers to a replay.
fn add_asked<S: Source, W: Sink>(
    alloc: Global,
    archive: &mut Archive<S>,
    asked: &Asked,
    out: &mut W,
    answer: &mut Vec<u8>,
) -> Result<(), AllocError> {
    let reported = replayed(archive, &asked.uri, &asked.moment, out);
    add_replay(alloc, answer, reported)
}

/// Adds what `add_asked` adds, and a line that says whether the archive lists the same before and after it.
fn add_between<S: Source, W: Sink>(
    alloc: Global,
    archive: &mut Archive<S>,
    asked: &Asked,
    out: &mut W,
    answer: &mut Vec<u8>,
) -> Result<(), AllocError> {
    let before = listed(alloc, archive)?;
    add_asked(alloc, archive, asked, out, answer)?;
    let following = listed(alloc, archive)?;
    if before.as_slice() == following.as_slice() {
        add_line(answer, b"lists the same")
    } else {
        add_line(answer, b"lists something else")
    }
}

/// Adds what `add_between` adds, for an archive that is opened of a source.
fn add_opened<S: Source + Drop, W: Sink>(
    alloc: Global,
    source: S,
    asked: &Asked,
    out: &mut W,
    answer: &mut Vec<u8>,
) -> Result<(), AllocError> {
    match opened(alloc, source) {
        Ok(mut archive) => {
            let reported = add_between(alloc, &mut archive, asked, out, answer);
            close(archive);
            reported
        }
        Err(fault) => add_text(alloc, answer, &fault),
    }
}

/// Adds what a replay answers, and what is written after a text.
fn add_after_text<S: Source + Drop>(
    alloc: Global,
    source: S,
    asked: &Asked,
    answer: &mut Vec<u8>,
) -> Result<(), AllocError> {
    let mut out = MemSink::new(BEFORE.to_vec(alloc)?);
    add_opened(alloc, source, asked, &mut out, answer)?;
    answer.extend_from_slice(out.bytes())
}

/// Adds what a replay answers to a sink of one byte a write, of which the write of a number fails, and what is written.
fn add_unwritten(
    alloc: Global,
    source: MemSource,
    asked: &Asked,
    number: u64,
    answer: &mut Vec<u8>,
) -> Result<(), AllocError> {
    let mut out = BrokenWriter::new(alloc, number, Break::Fails).taking(1);
    add_opened(alloc, source, asked, &mut out, answer)?;
    answer.extend_from_slice(out.bytes())
}

/// Adds what the replay of a case answers where the source gives no byte once the archive is open.
pub(crate) fn add_unread(
    alloc: Global,
    case: &Case<'_>,
    archive: &[u8],
    answer: &mut Vec<u8>,
) -> Result<(), AllocError> {
    match Asked::of(alloc, case, 1)? {
        Some(asked) => add_after_text(
            alloc,
            changing(alloc, archive, Vec::new(alloc))?,
            &asked,
            answer,
        ),
        None => add_line(answer, b"bad date"),
    }
}

/// Adds what the replay of a case answers where a write fails.
pub(crate) fn add_unwritten_case(
    alloc: Global,
    case: &Case<'_>,
    source: MemSource,
    answer: &mut Vec<u8>,
) -> Result<(), AllocError> {
    match Asked::of(alloc, case, 1)? {
        Some(asked) => add_unwritten(alloc, source, &asked, case.number(3), answer),
        None => add_line(answer, b"bad date"),
    }
}
