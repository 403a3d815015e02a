//! What takes bytes piece by piece to hash them, as one trait.
ghost use Rattle.std.specs.Prelude.{ℕ, ◌++◌, List, Option};
ghost use Rattle.warc_fixity.specs.declared.names.Algorithm.{Algorithm};
ghost use Rattle.warc_fixity.specs.Judged.{HasherHasTaken, JudgeHasTaken};
ghost use Rattle.warc_lanes.specs.Digests.{DigestHasTaken};

use warc_fixity::{Hasher, Judge};
use warc_lanes::OneDigest;

/// What takes bytes piece by piece, to hash them.
pub trait TakePieces {
    /// What it was begun for: an algorithm, a digest that is stated or none, or nothing.
    ghost Begun: { Type 0 };

    /// It was begun for this, and has taken these bytes.
    ghost has_taken: { Self → Begun → List ℕ → Type 0 };

    /// Takes the next piece, of any length.
    fn take_piece(&mut self, piece: &[u8])
        ensures { (of : Begun) (taken : List ℕ) → has_taken self.old of taken
            → has_taken self.new of (taken ++ piece.now) };
}

impl TakePieces for OneDigest {
    ghost Begun = { Unit {0} };

    ghost has_taken = { λ hash _ taken. DigestHasTaken hash taken };

    fn take_piece(&mut self, piece: &[u8]) {
        self.update(piece);
    }
}

impl TakePieces for Hasher {
    ghost Begun = { Algorithm };

    ghost has_taken = { HasherHasTaken };

    fn take_piece(&mut self, piece: &[u8]) {
        self.update(piece);
    }
}

impl TakePieces for Judge {
    ghost Begun = { Option (Algorithm × List ℕ) };

    ghost has_taken = { JudgeHasTaken };

    fn take_piece(&mut self, piece: &[u8]) {
        self.update(piece);
    }
}
