//! Cases that check.

use crate::calls::{checked, close, opened};
use crate::sources::{broken, changing};
use crate::text::{add_check, add_line, add_number, add_text};
use std::alloc::{AllocError, Global};
use suites_script::Case;
use warc::Archive;
use warc_frame::{MemSink, Source};

/// Adds what a check of an archive answers, and what it writes.
fn add_checked<S: Source>(
    alloc: Global,
    archive: &mut Archive<S>,
    answer: &mut Vec<u8>,
) -> Result<(), AllocError> {
    let mut out = MemSink::new(Vec::new(alloc));
    let reported = checked(archive, &mut out);
    add_check(alloc, answer, reported)?;
    answer.extend_from_slice(out.bytes())
}

/// Adds what `add_checked` adds, for an archive that is opened of a source.
pub(crate) fn add_check_of<S: Source + Drop>(
    alloc: Global,
    source: S,
    answer: &mut Vec<u8>,
) -> Result<(), AllocError> {
    match opened(alloc, source) {
        Ok(mut archive) => {
            let reported = add_checked(alloc, &mut archive, answer);
            close(archive);
            reported
        }
        Err(fault) => add_text(alloc, answer, &fault),
    }
}

/// Adds what three checks of an archive answer, and how many records it has then.
fn add_thrice<S: Source>(
    alloc: Global,
    archive: &mut Archive<S>,
    answer: &mut Vec<u8>,
) -> Result<(), AllocError> {
    for _ in 0..3 {
        add_checked(alloc, archive, answer)?;
    }
    add_number(alloc, answer, "records", archive.count() as u64)
}

/// Adds what `add_thrice` adds, for an archive of which the read of a number fails.
pub(crate) fn add_check_thrice(
    alloc: Global,
    archive: &[u8],
    number: u64,
    answer: &mut Vec<u8>,
) -> Result<(), AllocError> {
    match opened(alloc, broken(alloc, archive, usize::MAX, number)?) {
        Ok(mut archive) => {
            let reported = add_thrice(alloc, &mut archive, answer);
            close(archive);
            reported
        }
        Err(fault) => add_text(alloc, answer, &fault),
    }
}

/// Adds what a check answers where the source gives no byte once the archive is open.
pub(crate) fn add_check_unread(
    alloc: Global,
    archive: &[u8],
    answer: &mut Vec<u8>,
) -> Result<(), AllocError> {
    add_check_of(alloc, changing(alloc, archive, Vec::new(alloc))?, answer)
}

/// Adds what a check answers where the source gives a changed archive once it is open.
pub(crate) fn add_check_changed(
    alloc: Global,
    case: &Case<'_>,
    archive: &[u8],
    answer: &mut Vec<u8>,
) -> Result<(), AllocError> {
    match case.changed(alloc, 1, archive)? {
        Some(after) => add_check_of(alloc, changing(alloc, archive, after)?, answer),
        None => add_line(answer, b"no such text"),
    }
}
