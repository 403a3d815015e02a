//! The pieces of an archive, and the words of their faults.
ghost use Rattle.std.specs.Prelude.{◌≡◌};
ghost use Rattle.warc_lent.specs.Texts.{IsProblemPut};
ghost use Rattle.warc_page.specs.Shown.{Replies, ShowsPieces};

use crate::ends::end_with;
use crate::shapes::PageOutcome;
use warc_heap::{Heap, Memory};
use warc_lent::{Numbers, PieceNumbers, put_pieces, put_problem};

/// Puts the pieces of these bytes into the page's buffer, as many of the first ones as there is room for. The outcome's
/// length is how many there are. If memory doesn't suffice, or the bytes go on at offset 2^48, the pieces before that
/// are put.
#[unsafe(no_mangle)]
pub extern "C" fn page_pieces(
    memory: Memory,
    units: usize,
    bytes: &[u8],
    pieces: &mut [PieceNumbers],
    text: &mut [u8],
    outcome: &mut PageOutcome,
)
    requires { memory.units ≡ units }
    ensures { Replies (λ answered. ShowsPieces bytes.now answered pieces.old pieces.new) outcome.new text.new }
{
    let heap = Heap::new(memory, units);
    let answer = match put_pieces(&heap, bytes, pieces) {
        (count, None) => Ok(count),
        (_, Some(problem)) => Err(problem),
    };
    *outcome = end_with(&heap, answer, text);
}

/// Puts the text of a problem, such as the fault of a damage, as far as there is room, and returns its length; 0 if no
/// problem has these numbers, or memory doesn't suffice.
#[unsafe(no_mangle)]
pub extern "C" fn page_problem(
    memory: Memory,
    units: usize,
    problem: &Numbers,
    text: &mut [u8],
) -> u64
    requires { memory.units ≡ units }
    ensures { IsProblemPut problem.now result text.old text.new }
{
    let heap = Heap::new(memory, units);
    put_problem(&heap, *problem, text) as u64
}
