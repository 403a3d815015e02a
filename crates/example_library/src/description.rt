//! An archive in memory, described.

use anyhow::Result;
use std::alloc::Global;
use warc::{Archive, MemSink, MemSource};

/// What `warc list` and `warc check` write of an archive.
fn texts_of(alloc: Global, archive: &mut Archive<MemSource>) -> Result<(Vec<u8>, Vec<u8>)> {
    let mut lines = MemSink::new(Vec::new(alloc));
    archive.list(&mut lines)?;
    let mut findings = MemSink::new(Vec::new(alloc));
    archive.check(&mut findings)?;
    Ok((lines.into_inner(), findings.into_inner()))
}

/// How many records an archive has, and what `warc list` and `warc check` write of it.
pub fn describe(alloc: Global, bytes: Vec<u8>) -> Result<(usize, Vec<u8>, Vec<u8>)> {
    let mut archive = match Archive::open(alloc, MemSource::new(bytes, usize::MAX)) {
        Ok(archive) => archive,
        Err((fault, _source)) => return Err(fault.into()),
    };
    let count = archive.count();
    let texts = texts_of(alloc, &mut archive);
    archive.into_source();
    let (lines, findings) = texts?;
    Ok((count, lines, findings))
}
