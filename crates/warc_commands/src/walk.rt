//! A walk over the pieces of a source, which counts what is good.
ghost use Rattle.std.specs.Prelude.{◌≡◌, List, [], ◌∷◌, ◌++◌, false};
ghost use Rattle.warc_frame.specs.Seen.{SeenSource};
ghost use Rattle.warc_pieces.specs.declared.piece.Piece.{Piece as Given};
ghost use Rattle.warc_commands.specs.Walking.{HasRoomToCount, HasWalked, IsTallyOf, Walks};

use std::alloc::Allocator;
use warc_frame::{Fault, Source};
use warc_pieces::{Piece, Pieces};

/// How many records and bytes the runs have, and whether there is damage.
#[derive(Clone, Copy)]
pub(crate) struct Tally {
    pub(crate) records: u64,
    pub(crate) bytes: u64,
    pub(crate) is_damaged: bool,
}

impl Tally {
    /// Of no pieces.
    pub(crate) fn new() -> Tally
        ensures { result ≡ record { records = 0; bytes = 0; is_damaged = false } }
    {
        Tally {
            records: 0,
            bytes: 0,
            is_damaged: false,
        }
    }

    /// Counts one more piece.
    fn add(&mut self, piece: Piece)
        requires { HasRoomToCount self.old piece }
        ensures { (pieces : List Given) → IsTallyOf self.old pieces → IsTallyOf self.new (pieces ++ piece ∷ []) }
    {
        match piece {
            Piece::Records {
                offset: _,
                len,
                count,
            } => {
                self.records += count;
                self.bytes += len;
            }
            Piece::Damage { .. } => self.is_damaged = true,
        }
    }
}

/// What was found of a source: what its pieces sum to, and what stopped reading, if anything did.
#[derive(Clone, Copy)]
pub(crate) struct Found {
    pub(crate) tally: Tally,
    pub(crate) stop: Option<Fault>,
}

/// What a step of a walk finds: one more piece; or the end, or what stops reading.
#[derive(Clone, Copy)]
pub(crate) enum Step {
    More(Piece),
    End(Option<Fault>),
}

/// A step of a walk. The piece is counted.
pub(crate) fn next_step<S: Source, A: Allocator + Copy>(
    pieces: &mut Pieces<S, A>,
    tally: &mut Tally,
) -> Step
    requires { (begun : SeenSource) × (given : List Given) × HasWalked begun (S.seen pieces.old.source) pieces.old.at
        pieces.old.failure tally.old given }
    ensures { (begun : SeenSource) (given : List Given) → HasWalked begun (S.seen pieces.old.source) pieces.old.at
        pieces.old.failure tally.old given → Walks begun (S.seen pieces.new.source) pieces.old.at pieces.new.at
        pieces.new.failure tally.new given result }
{
    match pieces.next() {
        Ok(Some(piece)) => {
            tally.add(piece);
            Step::More(piece)
        }
        Ok(None) => Step::End(None),
        Err(fault) => Step::End(Some(fault)),
    }
}
