//! The pieces of lent bytes, as numbers.
ghost use Rattle.std.specs.Prelude.{◌≡◌, None, length, set};
ghost use Rattle.warc_lent.specs.Pieces.{IsWalkPut, PutsPieceNumbers, piece_numbers};

use crate::problem::{Numbers, Problem};
use std::alloc::Allocator;
use warc_frame::{Fault, SliceSource, Source};
use warc_pieces::{Piece, Pieces};

/// A piece of an archive's bytes: a run of good records, or damage.
#[repr(C)]
#[derive(Clone, Copy, Debug, PartialEq, Eq)]
pub struct PieceNumbers {
    /// The offset of its first byte.
    pub offset: u64,
    /// How many bytes it has.
    pub length: u64,
    /// How many records it has, 0 if it is damage.
    pub count: u64,
    /// Why no good record begins with its first byte, if it is damage; else all zeros.
    pub fault: Numbers,
}

/// The numbers of no problem.
fn no_problem() -> Numbers
    ensures { result ≡ record { code = 0; detail = 0; number = 0 } }
{
    Numbers {
        code: 0,
        detail: 0,
        number: 0,
    }
}

/// A piece as numbers.
fn piece_numbers(piece: Piece) -> PieceNumbers
    ensures { result ≡ piece_numbers piece }
{
    match piece {
        Piece::Records { offset, len, count } => PieceNumbers {
            offset,
            length: len,
            count,
            fault: no_problem(),
        },
        Piece::Damage { offset, len, fault } => PieceNumbers {
            offset,
            length: len,
            count: 0,
            fault: Problem::Fault(fault).numbers(),
        },
    }
}

/// Puts a piece at an index, if there is room for it.
fn put_piece(piece: Piece, index: usize, out: &mut [PieceNumbers])
    ensures { out.new ≡ set out.old index (piece_numbers piece) }
{
    if index < out.len() {
        out[index] = piece_numbers(piece);
    }
}

/// Puts the pieces that a reader gives, as many as there is room for. Returns how many it gives, and the fault at which
/// it stops, if it does.
fn put_walk<S: Source, A: Allocator + Copy>(
    reader: &mut Pieces<S, A>,
    out: &mut [PieceNumbers],
) -> (usize, Option<Fault>)
    requires { (reader.old.at ≡ 0) × (reader.old.failure ≡ None) }
    ensures put { IsWalkPut (S.seen reader.old.source) (S.seen reader.new.source) result.0 result.1 out.old out.new }
    ensures room { length out.new ≡ length out.old }
{
    let mut count = 0;
    'putting: loop {
        let piece = match reader.next() {
            Ok(Some(piece)) => piece,
            Ok(None) => return (count, None),
            Err(fault) => return (count, Some(fault)),
        };
        put_piece(piece, count, out);
        count += 1;
    }
}

/// Puts the pieces of these bytes, as many of the first ones as there is room for. Returns how many there are. What
/// follows them in the buffer stays. Bytes that go on at offset 2^48 are F12 TooLong, and memory that runs out is F14
/// Memory: then that is returned too, and the pieces are those before it.
pub fn put_pieces<A: Allocator + Copy>(
    alloc: A,
    bytes: &[u8],
    out: &mut [PieceNumbers],
) -> (usize, Option<Problem>)
    ensures puts { PutsPieceNumbers bytes.now result.0 result.1 out.old out.new }
    ensures room { length out.new ≡ length out.old }
{
    let mut reader = match Pieces::new(alloc, SliceSource::new(bytes)) {
        Ok(reader) => reader,
        Err((fault, _source)) => return (0, Some(Problem::Fault(fault))),
    };
    let (count, stop) = put_walk(&mut reader, out);
    match stop {
        None => (count, None),
        Some(fault) => (count, Some(Problem::Fault(fault))),
    }
}
