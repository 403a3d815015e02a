//! The plain reading of an archive: all its bytes at hand, one record after another.

use std::alloc::Global;
use warc_frame::{Fault, read_head, read_one};
use warc_record::type_head;

/// The length of the good record that a text begins with. Its head is judged before its block.
fn read_good(alloc: Global, text: &[u8]) -> Result<usize, Fault> {
    let head = read_head(alloc, text)?;
    if let Err(kind) = type_head(&head.fields) {
        return Err(Fault { kind, offset: 0 });
    }
    let (_, len) = read_one(alloc, text)?;
    Ok(len)
}

/// How many good records the bytes spell, or their first fault.
pub(crate) fn read_plainly(alloc: Global, bytes: &[u8]) -> Result<usize, Fault> {
    let mut rest = bytes;
    for count in 0..bytes.len() {
        if rest.is_empty() {
            return Ok(count);
        }
        let at = bytes.len().saturating_sub(rest.len()) as u64;
        match read_good(alloc, rest) {
            Ok(len) => rest = rest.get(len..).unwrap_or(b""),
            Err(Fault { kind, offset }) => return Err(Fault {
                kind,
                offset: at.saturating_add(offset),
            }),
        }
    }
    Ok(bytes.len())
}

/// How many bytes the good records have that the bytes begin with.
pub(crate) fn good_len(alloc: Global, bytes: &[u8]) -> usize {
    let mut rest = bytes;
    for _ in 0..bytes.len() {
        match read_good(alloc, rest) {
            Ok(len) => rest = rest.get(len..).unwrap_or(b""),
            Err(_) => break,
        }
    }
    bytes.len().saturating_sub(rest.len())
}
