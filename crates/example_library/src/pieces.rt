//! Bytes that come in pieces.

use std::alloc::Global;
use warc::{Decoder, Event, Fault};

/// Adds to the count the bytes of blocks that a piece of an archive holds.
fn count_in_piece(decoder: &mut Decoder, piece: &[u8], count: &mut u64) -> Result<(), Fault> {
    let mut rest = piece;
    while !rest.is_empty() {
        let (took, event) = decoder.step(rest)?;
        if let Event::Part(from, to) = event {
            *count = count.saturating_add((to - from) as u64);
        }
        rest = &rest[took..];
    }
    Ok(())
}

/// How many bytes the blocks of an archive have, which comes in pieces. No block is kept.
pub fn block_bytes(alloc: Global, pieces: &[&[u8]]) -> Result<u64, Fault> {
    let mut decoder = Decoder::new(alloc, 0);
    let mut count = 0;
    for piece in pieces {
        count_in_piece(&mut decoder, piece, &mut count)?;
    }
    decoder.finish()?;
    Ok(count)
}
