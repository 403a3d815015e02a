//! What a run that salvages an archive wrote and reports.

use crate::plain::{good_len, read_plainly};
use crate::runs::Ended;
use std::alloc::{AllocError, Global};
use warc_commands::Status;

/// Whether a run reports this fault, and wrote these records, which are good, and no more.
pub(crate) fn is_salvaged(
    alloc: Global,
    ended: &Ended,
    fault: &str,
    records: &[u8],
) -> Result<bool, AllocError> {
    let (count, len) = (read_plainly(alloc, records).unwrap_or(0), records.len());
    let line = format!(in alloc; "warc: {fault}\nwarc: salvaged {count} records, {len} bytes\n")?;
    Ok(ended.is(records, line.as_bytes(), Status::Failed))
}

/// The good records that the first bytes of an archive begin with.
pub(crate) fn good_in(alloc: Global, archive: &[u8], len: usize) -> &[u8] {
    let front = archive.get(..len).unwrap_or(archive);
    front.get(..good_len(alloc, front)).unwrap_or(b"")
}
