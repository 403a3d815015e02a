//! An archive that a service keeps open, and that grows.

use std::alloc::Global;
use warc::{Archive, Fault, MemSink, MemSource};

/// The length of the block with an id in an archive, if there is one.
fn length(alloc: Global, archive: &mut Archive<MemSource>, id: &[u8]) -> Option<u64> {
    archive.extract(id, &mut MemSink::new(Vec::new(alloc))).ok()
}

/// Grows an archive to these bytes, or leaves it as it was.
fn grow_to(archive: &mut Archive<MemSource>, bytes: Vec<u8>) -> Result<(), Fault> {
    match archive.grow(MemSource::new(bytes, usize::MAX)) {
        Ok(()) => Ok(()),
        Err((fault, _source)) => Err(fault),
    }
}

/// The lengths of the block with an id in an archive, before it grows and after.
fn lengths(
    alloc: Global,
    archive: &mut Archive<MemSource>,
    new: Vec<u8>,
    id: &[u8],
) -> Result<(Option<u64>, Option<u64>), Fault> {
    let before = length(alloc, archive, id);
    grow_to(archive, new)?;
    Ok((before, length(alloc, archive, id)))
}

/// Calls `lengths` on an archive of these bytes.
pub fn lengths_of(
    alloc: Global,
    old: Vec<u8>,
    new: Vec<u8>,
    id: &[u8],
) -> Result<(Option<u64>, Option<u64>), Fault> {
    let mut archive = match Archive::open(alloc, MemSource::new(old, usize::MAX)) {
        Ok(archive) => archive,
        Err((fault, _source)) => return Err(fault),
    };
    let found = lengths(alloc, &mut archive, new, id);
    archive.into_source();
    found
}
