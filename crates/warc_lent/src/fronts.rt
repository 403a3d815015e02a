//! How far bytes can be read that are refused.
ghost use Rattle.std.specs.Prelude.{◌≡◌};
ghost use Rattle.warc_lent.specs.Fronts.{IsGoodFront, rows_end};

use std::alloc::Allocator;
use warc::{Listing, open_front};
use warc_frame::{Fault, SliceSource, Source};

/// Where the last of the good records ends, after its block and CRLF CRLF; 0 where there is none.
fn end_of<S: Source, A: Allocator>(listing: &Listing<S, A>) -> u64
    ensures { result ≡ rows_end listing.now.rows }
{
    let count = listing.count();
    if count == 0 {
        return 0;
    }
    match listing.row(count - 1) {
        Some(row) => row
            .block_start
            .saturating_add(row.block_len)
            .saturating_add(4),
        None => 0,
    }
}

/// How many bytes the good records have that these bytes begin with, and the fault after them, if there is one.
pub fn good_front<A: Allocator + Copy>(alloc: A, bytes: &[u8]) -> (u64, Option<Fault>)
    ensures { IsGoodFront bytes.now result.0 result.1 }
{
    let (listing, fault) = open_front(alloc, SliceSource::new(bytes));
    (end_of(&listing), fault)
}
