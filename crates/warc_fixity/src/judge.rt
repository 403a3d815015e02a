//! Blocks that are hashed as they come, and compared with the digests that heads state.
ghost use Rattle.std.specs.Prelude.{◌≡◌, ℕ, List, [], ◌++◌, Some, is_some, if◌then◌else◌};
ghost use Rattle.warc_value.specs.declared.hash.Verdict.TheVariants.{Good, Bad};
ghost use Rattle.warc_fixity.specs.Decoded.{stated_digest};
ghost use Rattle.warc_fixity.specs.Judged.{digest_seen, stated_verdict, verdict_if_stated};

use crate::hasher::{Digest, Hasher};
use warc_value::{Verdict, Wanted};

/// The verdict of a comparison.
fn verdict_if(equal: bool) -> Verdict
    ensures { result ≡ (if equal then Good else Bad) }
{
    if equal { Verdict::Good } else { Verdict::Bad }
}

impl Digest {
    /// The verdict on a block by this digest.
    pub fn verdict_on(&self, block: &[u8]) -> Verdict
        ensures { result ≡ verdict_if_stated (Some (digest_seen self.now)) block.now }
    {
        let mut hasher = Hasher::new(self.algorithm());
        hasher.update(block);
        verdict_if(self.is_same(&hasher.finish()))
    }
}

/// One block that is hashed as its pieces come, for a digest that is stated of it.
#[derive(Drop)]
pub struct Judge {
    // The hash of the bytes taken so far, and the digest that is stated of all.
    checking: Option<(Hasher, Digest)>,
}

impl Judge {
    ghost use Rattle.std.specs.Prelude.{Option, option_map};
    ghost use Rattle.warc_fixity.specs.declared.names.Algorithm.{Algorithm};
    ghost use Rattle.warc_fixity.specs.Judged.{JudgeHasTaken, wanted_stated};

    /// Nothing is taken yet. `None`: no digest is stated.
    fn new(digest: Option<Digest>) -> Judge
        ensures { JudgeHasTaken result (option_map digest_seen digest) [] }
    {
        match digest {
            Some(digest) => Judge {
                checking: Some((Hasher::new(digest.algorithm()), digest)),
            },
            None => Judge { checking: None },
        }
    }

    /// For the digest that a value states. Nothing is taken yet.
    pub fn stated(value: &[u8]) -> Judge
        ensures { JudgeHasTaken result (stated_digest value.now) [] }
    {
        Judge::new(Digest::stated(value))
    }

    /// For the digest that is wanted of a block. Nothing is taken yet.
    pub fn wanting(wanted: &Wanted) -> Judge
        ensures { JudgeHasTaken result (wanted_stated wanted.now) [] }
    {
        match wanted {
            Wanted::Sha1(digest) => Judge::new(Some(Digest::Sha1(*digest))),
            Wanted::Unchecked => Judge::new(None),
        }
    }

    /// Takes the next piece of the block, of any length. If no digest is stated, it does nothing.
    pub fn update(&mut self, piece: &[u8])
        ensures { (stated : Option (Algorithm × List ℕ)) (bytes : List ℕ) → JudgeHasTaken self.old stated bytes →
            JudgeHasTaken self.new stated (bytes ++ piece.now) }
    {
        if let Some((hasher, _)) = &mut self.checking {
            hasher.update(piece);
        }
    }

    /// Whether a digest is stated. If none is, no byte of the block need be read.
    pub fn is_checked(&self) -> bool
        ensures { (stated : Option (Algorithm × List ℕ)) (bytes : List ℕ) → JudgeHasTaken self.now stated bytes →
            result ≡ is_some stated }
    {
        self.checking.is_some()
    }

    /// The verdict on the block that the pieces joined are.
    pub fn verdict(self) -> Verdict
        ensures { (stated : Option (Algorithm × List ℕ)) (bytes : List ℕ) → JudgeHasTaken self stated bytes →
            result ≡ verdict_if_stated stated bytes }
    {
        let Judge { checking } = self;
        match checking {
            Some((hasher, digest)) => verdict_if(digest.is_same(&hasher.finish())),
            None => Verdict::Unchecked,
        }
    }
}

/// The verdict on a block by the digest that a value states.
pub fn stated_verdict(value: &[u8], block: &[u8]) -> Verdict
    ensures { result ≡ stated_verdict value.now block.now }
{
    match Digest::stated(value) {
        Some(digest) => digest.verdict_on(block),
        None => Verdict::Unchecked,
    }
}
