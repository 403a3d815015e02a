//! Sources of archives in memory.

use std::alloc::{AllocError, Global};
use warc_frame::MemSource;
use warc_vectors::{BrokenSource, ChangingSource};

/// A source of these bytes, of which a read gives `most` at most.
pub(crate) fn source_of(alloc: Global, bytes: &[u8], most: usize) -> Result<MemSource, AllocError> {
    Ok(MemSource::new(bytes.to_vec(alloc)?, most.max(1)))
}

/// A source of these bytes, of which a read gives `most` at most, and the read of a number fails; at 0 none does.
pub(crate) fn broken(
    alloc: Global,
    bytes: &[u8],
    most: usize,
    number: u64,
) -> Result<BrokenSource, AllocError> {
    Ok(BrokenSource::new(bytes.to_vec(alloc)?, most.max(1), number))
}

/// A source that gives other bytes once an archive of it was opened: one read is for its bytes, one for their end.
pub(crate) fn changing(
    alloc: Global,
    before: &[u8],
    after: Vec<u8>,
) -> Result<ChangingSource, AllocError> {
    Ok(ChangingSource::new(before.to_vec(alloc)?, after, 3))
}

/// These bytes and others after them.
pub(crate) fn joined(alloc: Global, front: &[u8], back: &[u8]) -> Result<Vec<u8>, AllocError> {
    let mut bytes = front.to_vec(alloc)?;
    bytes.extend_from_slice(back)?;
    Ok(bytes)
}

/// A source of these bytes and of others after them.
pub(crate) fn longer(
    alloc: Global,
    front: &[u8],
    back: &[u8],
    most: usize,
) -> Result<MemSource, AllocError> {
    Ok(MemSource::new(joined(alloc, front, back)?, most.max(1)))
}
