//! Cases that calls of the library answer. Where the verb doesn't say how reads fail, each is answered by reads of one
//! byte, of seven bytes and of all, which have to answer the same.

use crate::verbs::{answer_by, answer_once};
use std::alloc::{AllocError, Global};
use suites_script::Case;

/// Adds what is answered if a read gives `most` bytes at most, unless it is the same.
fn add_other(
    alloc: Global,
    case: &Case<'_>,
    archive: &[u8],
    most: usize,
    answer: &mut Vec<u8>,
) -> Result<(), AllocError> {
    let mut other = Vec::new(alloc);
    answer_by(alloc, case, archive, most, &mut other)?;
    if other.as_slice() != answer.as_slice() {
        let line = format!(in alloc; "\nby reads of {most} bytes:\n")?;
        answer.extend_from_slice(line.as_bytes())?;
        answer.extend_from_slice(&other)?;
    }
    Ok(())
}

/// Adds what calls answer over the archive of these bytes, and says whether the verb of the case is one of theirs.
pub fn answer(
    alloc: Global,
    case: &Case<'_>,
    archive: &[u8],
    answer: &mut Vec<u8>,
) -> Result<bool, AllocError> {
    let mut first = Vec::new(alloc);
    if !answer_by(alloc, case, archive, usize::MAX, &mut first)? {
        return answer_once(alloc, case, archive, answer);
    }
    add_other(alloc, case, archive, 1, &mut first)?;
    add_other(alloc, case, archive, 7, &mut first)?;
    answer.extend_from_slice(&first)?;
    Ok(true)
}
