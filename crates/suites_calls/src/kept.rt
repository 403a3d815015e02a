//! How many bytes of texts archives keep.

use crate::calls::{close, opened};
use crate::sources::source_of;
use crate::text::{add_number, add_text};
use std::alloc::{AllocError, Global};
use suites_script::Case;
use warc_frame::{Fault, MemSource};

/// How many bytes of texts the archive of a source keeps, or why it doesn't open.
fn kept_of(alloc: Global, source: MemSource) -> Result<u64, Fault> {
    match opened(alloc, source) {
        Ok(archive) => {
            let kept = archive.kept();
            close(archive);
            Ok(kept)
        }
        Err(fault) => Err(fault),
    }
}

/// Adds whether an archive keeps at least as many bytes of texts as the second word of a case says, and at most as many
/// as the third.
pub(crate) fn add_kept(
    alloc: Global,
    case: &Case<'_>,
    archive: &[u8],
    answer: &mut Vec<u8>,
) -> Result<(), AllocError> {
    let (least, most) = (case.number(1), case.number(2));
    match kept_of(alloc, source_of(alloc, archive, usize::MAX)?) {
        Ok(kept) if least <= kept && kept <= most => {
            let line = format!(in alloc; "kept from {least} to {most} bytes\n")?;
            answer.extend_from_slice(line.as_bytes())
        }
        Ok(kept) => add_number(alloc, answer, "kept", kept),
        Err(fault) => add_text(alloc, answer, &fault),
    }
}

/// Adds whether an archive keeps as many bytes of texts as the archive that a case gives.
pub(crate) fn add_kept_same(
    alloc: Global,
    case: &Case<'_>,
    archive: &[u8],
    answer: &mut Vec<u8>,
) -> Result<(), AllocError> {
    let one = kept_of(alloc, source_of(alloc, archive, usize::MAX)?);
    let other = kept_of(alloc, source_of(alloc, case.given(), usize::MAX)?);
    let same = one.is_ok() && one == other;
    let line = if same {
        "keeps as much\n"
    } else {
        "keeps another amount\n"
    };
    answer.extend_from_slice(line.as_bytes())
}
