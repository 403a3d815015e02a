//! Origins, and the blocks that are joined to them.

use std::alloc::{AllocError, Global};
use warc_segment::Place;
use warc_value::Wanted;

/// A record's text by a name.
#[derive(Drop)]
pub(crate) struct Named {
    pub(crate) name: Vec<u8>,
    pub(crate) text: Vec<u8>,
}

/// A block, and what its record's head says of it.
#[derive(Drop)]
pub(crate) struct Block {
    pub(crate) bytes: Vec<u8>,
    pub(crate) wanted: Wanted,
    pub(crate) truncated: bool,
}

/// Bytes that hold the blocks, the last one first, with other bytes between them; and the places of the blocks.
pub(crate) fn stored(alloc: Global, blocks: &[Block]) -> Result<(Vec<u8>, Vec<Place>), AllocError> {
    let mut bytes = Vec::new(alloc);
    let mut places = Vec::new(alloc);
    for block in blocks.iter().rev() {
        bytes.extend_from_slice(b"HTTP/1.1 500 No\r\n\r\n")?;
        places.push(Place {
            start: bytes.len() as u64,
            len: block.bytes.len() as u64,
            wanted: block.wanted,
            truncated: block.truncated,
        })?;
        bytes.extend_from_slice(&block.bytes)?;
    }
    places.reverse();
    Ok((bytes, places))
}

/// Whether blocks, one after another, begin with some bytes.
pub(crate) fn begin_with(blocks: &[Block], bytes: &[u8]) -> bool {
    let mut rest = bytes;
    for block in blocks {
        let count = rest.len().min(block.bytes.len());
        let (front, following) = rest.split_at(count);
        if block.bytes.get(..count) != Some(front) {
            return false;
        }
        rest = following;
    }
    rest.is_empty()
}
