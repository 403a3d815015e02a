//! The SHA-1 of a block, and the verdict on it.
ghost use Rattle.std.specs.Prelude.{◌≡◌};
ghost use Rattle.sha1.specs.Sha1.{sha1};
ghost use Rattle.warc_value.specs.Digests.{is_bad, wanted_digest, verdict_of};

use crate::symbols::unbase32;
use warc_lanes::OneDigest;

/// The digest that a record's block should have.
#[derive(Clone, Copy, PartialEq, Eq, Debug)]
pub enum Wanted {
    /// The twenty bytes of its SHA-1.
    Sha1([u8; 20]),
    /// No digest that can be checked.
    Unchecked,
}

/// How a block's digest compares with the one that is wanted.
#[derive(Clone, Copy, PartialEq, Eq, Debug)]
pub enum Verdict {
    /// The digests are equal.
    Good,
    /// They differ.
    Bad,
    /// No digest was wanted.
    Unchecked,
}

impl Verdict {
    /// Whether the digest was checked and differs.
    pub fn is_bad(self) -> bool
        ensures { result ≡ is_bad self }
    {
        match self {
            Verdict::Bad => true,
            Verdict::Good | Verdict::Unchecked => false,
        }
    }
}

impl Wanted {
    /// The digest that a value of `WARC-Block-Digest` asks for: SHA-1 in base32, `sha1:` and 32 characters, all in any
    /// case. Any other value asks for none (ISO 28500:2017, 5.8 leaves the algorithm and the encoding open).
    pub fn of(value: &[u8]) -> Wanted
        ensures { result ≡ wanted_digest value.now }
    {
        if value.len() < 5 || !value[..5].eq_ignore_ascii_case(b"sha1:") {
            return Wanted::Unchecked;
        }
        match unbase32(&value[5..]) {
            Some(digest) => Wanted::Sha1(digest),
            None => Wanted::Unchecked,
        }
    }

    /// How a block compares with it.
    pub fn verdict(&self, block: &[u8]) -> Verdict
        ensures { result ≡ verdict_of self.now block.now }
    {
        match self {
            Wanted::Sha1(wanted) => {
                if digest(block) == *wanted {
                    Verdict::Good
                } else {
                    Verdict::Bad
                }
            }
            Wanted::Unchecked => Verdict::Unchecked,
        }
    }
}

/// The SHA-1 of a whole block (FIPS 180-4).
pub fn digest(block: &[u8]) -> [u8; 20]
    ensures { result ≡ sha1 block.now }
{
    let mut state = OneDigest::new();
    state.update(block);
    state.finish()
}
