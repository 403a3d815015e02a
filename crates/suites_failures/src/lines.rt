//! How a run is reported.

use crate::runs::Ended;
use std::alloc::{AllocError, Global};

/// Adds a number and a text after it, as a line.
pub(crate) fn say_count(
    alloc: Global,
    count: u64,
    of: &str,
    answer: &mut Vec<u8>,
) -> Result<(), AllocError> {
    let line = format!(in alloc; "{count} {of}\n")?;
    answer.extend_from_slice(line.as_bytes())
}

/// Adds what a run wrote, or that it wrote its archive unchanged.
fn say_output(out: &[u8], archive: &[u8], answer: &mut Vec<u8>) -> Result<(), AllocError> {
    if !out.is_empty() && out == archive {
        answer.extend_from_slice(b"as it stands\n")
    } else {
        answer.extend_from_slice(out)
    }
}

/// Adds the line that a run reported after `! `, and its status after `= `.
pub(crate) fn say_end(
    alloc: Global,
    ended: &Ended,
    answer: &mut Vec<u8>,
) -> Result<(), AllocError> {
    if !ended.err.is_empty() {
        answer.extend_from_slice(b"! ")?;
        answer.extend_from_slice(&ended.err)?;
    }
    let status = format!(in alloc; "= {}\n", ended.status.code())?;
    answer.extend_from_slice(status.as_bytes())
}

/// Adds what a run over an archive wrote, the line that it reported, and its status.
pub(crate) fn say(
    alloc: Global,
    ended: &Ended,
    archive: &[u8],
    answer: &mut Vec<u8>,
) -> Result<(), AllocError> {
    say_output(&ended.out, archive, answer)?;
    say_end(alloc, ended, answer)
}
