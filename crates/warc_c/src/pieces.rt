//! The pieces of bytes that C lends.
ghost use Rattle.warc_c.specs.Answered.{AnswersPieces};

use crate::problems::report_stop;
use std::alloc::Global;
use warc_lent::{Numbers, PieceNumbers, put_pieces};

/// The pieces of these bytes, as many of the first ones as there is room for. The answer is how many there are, where a
/// problem is reported before it.
#[unsafe(no_mangle)]
pub extern "C" fn warc_rt_pieces(
    alloc: Global,
    bytes: &[u8],
    pieces: &mut [PieceNumbers],
    problem: &mut Numbers,
) -> usize
    ensures { AnswersPieces bytes.now result pieces.old pieces.new problem.old problem.new }
{
    let (count, stop) = put_pieces(alloc, bytes, pieces);
    report_stop(stop, problem);
    count
}
