//! What a check writes before a read fails.

use crate::calls::{checked, close, opened};
use crate::sources::broken;
use std::alloc::{AllocError, Global};
use suites_script::Case;
use warc_frame::{MemSink, OutFault};

/// More words than a case has.
const MOST_WORDS: usize = 1000;

/// What a check of an archive answers where the read of a number fails; nothing where it doesn't open.
fn check_broken(
    alloc: Global,
    bytes: &[u8],
    number: u64,
    out: &mut MemSink,
) -> Result<Option<Result<usize, OutFault>>, AllocError> {
    match opened(alloc, broken(alloc, bytes, usize::MAX, number)?) {
        Ok(mut archive) => {
            let reported = checked(&mut archive, out);
            close(archive);
            Ok(Some(reported))
        }
        Err(_) => Ok(None),
    }
}

/// How many bytes a check writes before the read with this number fails. `None` unless they are the first of the whole
/// output and the fault has their number.
fn front_before(
    alloc: Global,
    bytes: &[u8],
    whole: &[u8],
    number: u64,
) -> Result<Option<usize>, AllocError> {
    let mut out = MemSink::new(Vec::new(alloc));
    let reported = check_broken(alloc, bytes, number, &mut out)?;
    let sent = out.bytes().len();
    let is_front = whole.starts_with(out.bytes());
    if is_front && reported == Some(Err(OutFault::Read(sent as u64))) {
        Ok(Some(sent))
    } else {
        Ok(None)
    }
}

/// How many fronts there are so far, and the length of the longest one.
#[derive(Clone, Copy)]
struct Fronts {
    count: u64,
    longest: usize,
}

/// The fronts of this whole before a read of these bytes fails, of those reads whose numbers are the words of a case
/// from the third one on.
fn fronts_of(
    alloc: Global,
    case: &Case<'_>,
    bytes: &[u8],
    whole: &[u8],
) -> Result<Fronts, AllocError> {
    let mut fronts = Fronts {
        count: 0,
        longest: 0,
    };
    for index in 2..MOST_WORDS {
        if case.word(index).is_empty() {
            break;
        }
        if let Some(sent) = front_before(alloc, bytes, whole, case.number(index))? {
            fronts.count = fronts.count.saturating_add(1);
            fronts.longest = fronts.longest.max(sent);
        }
    }
    Ok(fronts)
}

/// These bytes, repeated `count` times.
fn repeated(alloc: Global, bytes: &[u8], count: u64) -> Result<Vec<u8>, AllocError> {
    let mut text = Vec::new(alloc);
    for _ in 0..count {
        text.extend_from_slice(bytes)?;
    }
    Ok(text)
}

/// Adds them, of an archive that is there as often as the second word of a case says.
pub(crate) fn add_fronts(
    alloc: Global,
    case: &Case<'_>,
    archive: &[u8],
    answer: &mut Vec<u8>,
) -> Result<(), AllocError> {
    let bytes = repeated(alloc, archive, case.number(1))?;
    let mut whole = MemSink::new(Vec::new(alloc));
    check_broken(alloc, &bytes, 0, &mut whole)?;
    let Fronts { count, longest } = fronts_of(alloc, case, &bytes, whole.bytes())?;
    let size = if longest > 0 { "some bytes" } else { "no byte" };
    let line = format!(in alloc; "fronts {count}, the longest of {size}\n")?;
    answer.extend_from_slice(line.as_bytes())
}
