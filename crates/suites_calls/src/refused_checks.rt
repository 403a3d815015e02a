//! Archives that are opened to be checked while requests for memory are refused.

use crate::text::add_line;
use std::alloc::{AllocError, Global};
use suites_script::Case;
use warc::Checked;
use warc_frame::{Fault, MemSource};
use warc_vectors::RefusingAllocator;

/// More requests than any archive of a case makes.
const MOST: u64 = 1000;

/// Why an archive isn't opened and judged where the request for memory of a number is refused, if it isn't.
fn refused_without(alloc: Global, bytes: &[u8], number: u64) -> Result<Option<Fault>, AllocError> {
    let heap = RefusingAllocator::new(alloc, number);
    let source = MemSource::new(bytes.to_vec(alloc)?, usize::MAX);
    Ok(judged(&heap, source))
}

/// Why an archive isn't opened and judged with this memory, if it isn't.
fn judged(heap: &RefusingAllocator<Global>, source: MemSource) -> Option<Fault> {
    match Checked::open(heap, source) {
        Ok(checked) => {
            checked.into_source();
            None
        }
        Err((fault, _source)) => Some(fault),
    }
}

/// How often memory is asked for until an archive is open and judged; nothing where that isn't met.
fn requests(alloc: Global, bytes: &[u8]) -> Result<Option<u64>, AllocError> {
    for number in 1..MOST {
        if refused_without(alloc, bytes, number)?.is_none() {
            return Ok(Some(number - 1));
        }
    }
    Ok(None)
}

/// Adds a refusal, and whether it comes once the first bytes alone have the memory that they ask for.
fn add_refusal(
    alloc: Global,
    fault: Fault,
    is_following: bool,
    front: usize,
    answer: &mut Vec<u8>,
) -> Result<(), AllocError> {
    let following = if is_following {
        format!(in alloc; ", after the requests of the first {front} bytes alone")?
    } else {
        String::new(alloc)
    };
    let line = format!(in alloc; "{fault}{following}\n")?;
    answer.extend_from_slice(line.as_bytes())
}

/// Adds the refusals, each request for memory being refused in turn until none is: one line for those that are alike.
pub(crate) fn add_refusals(
    alloc: Global,
    case: &Case<'_>,
    archive: &[u8],
    answer: &mut Vec<u8>,
) -> Result<(), AllocError> {
    let front = usize::try_from(case.number(1)).unwrap_or(usize::MAX);
    let first = requests(alloc, archive.get(..front).unwrap_or(archive))?;
    let mut last = None;
    for number in 1..MOST {
        let refused = refused_without(alloc, archive, number)?;
        match refused {
            Some(fault) if last != refused => {
                add_refusal(alloc, fault, first == Some(number - 1), front, answer)?;
            }
            Some(_) => {}
            None => return add_line(answer, b"opened"),
        }
        last = refused;
    }
    add_line(answer, b"there are more requests")
}
