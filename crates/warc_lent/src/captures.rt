//! The captures of a URI, as positions.
ghost use Rattle.std.specs.Prelude.{◌≡◌, ℕ, List, length, map, IfErr, IfOk, OnErr};
ghost use Rattle.warc_lookup.specs.Indexed.{IsIndexed, indexed_record};
ghost use Rattle.warc_lent.specs.Buffers.{KeepsAfter};
ghost use Rattle.warc_lent.specs.Captures.{AreCapturesPut};
ghost use Rattle.warc_lent.specs.Problems.{IsMemory};

use crate::buffers::put_positions;
use crate::problem::Problem;
use std::alloc::Allocator;
use warc::Archive;
use warc_frame::Source;

/// Puts the positions of the captures of a URI, by instant and then by position, as many as there is room for.
/// What follows in the buffer stays. The answer is how many there are.
pub fn put_captures<S: Source, A: Allocator + Copy>(
    archive: &Archive<S, A>,
    uri: &[u8],
    out: &mut [usize],
) -> Result<usize, Problem>
    ensures captures { (bytes : List ℕ) → (is : IsIndexed bytes archive.now) →
        IfOk result (λ number. AreCapturesPut (map indexed_record is.listed.are.records) uri.now number out.new) }
    ensures rest { IfOk result (λ number. KeepsAfter number out.old out.new) }
    ensures memory { IfErr result IsMemory }
    ensures same { OnErr result (out.new ≡ out.old) }
    ensures room { length out.new ≡ length out.old }
{
    match archive.captures_of(uri) {
        Ok(positions) => Ok(put_positions(positions.as_slice(), out)),
        Err(_) => Err(Problem::Memory),
    }
}
