//! Digests that values state, and the digests of bytes that come in pieces, in every algorithm.
ghost use Rattle.std.specs.Prelude.{◌≡◌, ◌≢◌, ℕ, false, List, [], ◌++◌, option_map};
ghost use Rattle.std.specs.Str.{bytes_eq};
ghost use Rattle.warc_fixity.specs.declared.names.Algorithm.{Algorithm};
ghost use Rattle.warc_fixity.specs.Stated.{block_hash};
ghost use Rattle.warc_fixity.specs.Decoded.{stated_by, stated_digest};
ghost use Rattle.warc_fixity.specs.Judged.{digest_seen};

use crate::encoded::read_digest;
use crate::names::Algorithm;
use md5::{Digest as Md5Digest, Md5};
use memchr::memchr;
use sha2::{Digest as Sha2Digest, Sha256, Sha384, Sha512};
use warc_lanes::OneDigest;
use warc_value::Wanted;

/// A digest.
#[derive(Clone, Copy, PartialEq, Eq, Debug)]
pub enum Digest {
    Md5([u8; 16]),
    Sha1([u8; 20]),
    Sha256([u8; 32]),
    Sha384([u8; 48]),
    Sha512([u8; 64]),
}

/// The digest that a name and a text state, if the name means an algorithm and the text writes a digest of it.
fn digest_by(name: &[u8], text: &[u8]) -> Option<Digest>
    ensures { option_map digest_seen result ≡ stated_by name.now text.now }
{
    Some(match Algorithm::of(name)? {
        Algorithm::Md5 => Digest::Md5(read_digest(text)?),
        Algorithm::Sha1 => Digest::Sha1(read_digest(text)?),
        Algorithm::Sha256 => Digest::Sha256(read_digest(text)?),
        Algorithm::Sha384 => Digest::Sha384(read_digest(text)?),
        Algorithm::Sha512 => Digest::Sha512(read_digest(text)?),
    })
}

impl Digest {
    /// The digest that a value states, as `WARC-Block-Digest` and `WARC-Payload-Digest` have them.
    pub fn stated(value: &[u8]) -> Option<Digest>
        ensures { option_map digest_seen result ≡ stated_digest value.now }
    {
        // What most crawlers state has a decoder of its own, which is faster.
        if let Wanted::Sha1(digest) = Wanted::of(value) {
            return Some(Digest::Sha1(digest));
        }
        match memchr(b':', value) {
            Some(colon) => digest_by(&value[..colon], &value[colon + 1..]),
            None => None,
        }
    }

    /// Its algorithm.
    pub fn algorithm(&self) -> Algorithm
        ensures { result ≡ (digest_seen self.now).0 }
    {
        match self {
            Digest::Md5(_) => Algorithm::Md5,
            Digest::Sha1(_) => Algorithm::Sha1,
            Digest::Sha256(_) => Algorithm::Sha256,
            Digest::Sha384(_) => Algorithm::Sha384,
            Digest::Sha512(_) => Algorithm::Sha512,
        }
    }

    /// Whether its algorithm and its bytes are those of another digest.
    pub fn is_same(&self, other: &Digest) -> bool
        ensures bytes { (digest_seen self.now).0 ≡ (digest_seen other.now).0 →
            result ≡ bytes_eq (digest_seen self.now).1 (digest_seen other.now).1 }
        ensures algorithm { (digest_seen self.now).0 ≢ (digest_seen other.now).0 → result ≡ false }
    {
        self == other
    }
}

/// The hash of the bytes taken so far.
#[derive(Drop)]
enum Hashing {
    Md5(Md5),
    Sha1(OneDigest),
    Sha256(Sha256),
    Sha384(Sha384),
    Sha512(Sha512),
}

/// The digest of bytes that come in pieces.
#[derive(Drop)]
pub struct Hasher {
    hashing: Hashing,
}

impl Hasher {
    ghost use Rattle.warc_fixity.specs.Judged.{HasherHasTaken};

    /// Nothing is taken yet.
    pub fn new(algorithm: Algorithm) -> Hasher
        ensures { HasherHasTaken result algorithm [] }
    {
        Hasher {
            hashing: match algorithm {
                Algorithm::Md5 => Hashing::Md5(Md5::new()),
                Algorithm::Sha1 => Hashing::Sha1(OneDigest::new()),
                Algorithm::Sha256 => Hashing::Sha256(Sha256::new()),
                Algorithm::Sha384 => Hashing::Sha384(Sha384::new()),
                Algorithm::Sha512 => Hashing::Sha512(Sha512::new()),
            },
        }
    }

    /// Takes the next piece, of any length.
    pub fn update(&mut self, piece: &[u8])
        ensures { (algorithm : Algorithm) (bytes : List ℕ) → HasherHasTaken self.old algorithm bytes →
            HasherHasTaken self.new algorithm (bytes ++ piece.now) }
    {
        match &mut self.hashing {
            Hashing::Md5(hasher) => hasher.update(piece),
            Hashing::Sha1(hasher) => hasher.update(piece),
            Hashing::Sha256(hasher) => hasher.update(piece),
            Hashing::Sha384(hasher) => hasher.update(piece),
            Hashing::Sha512(hasher) => hasher.update(piece),
        }
    }

    /// The digest of the pieces joined.
    pub fn finish(self) -> Digest
        ensures { (algorithm : Algorithm) (bytes : List ℕ) → HasherHasTaken self algorithm bytes →
            digest_seen result ≡ (algorithm, block_hash algorithm bytes) }
    {
        let Hasher { hashing } = self;
        match hashing {
            Hashing::Md5(hasher) => Digest::Md5(hasher.finalize()),
            Hashing::Sha1(hasher) => Digest::Sha1(hasher.finish()),
            Hashing::Sha256(hasher) => Digest::Sha256(hasher.finalize()),
            Hashing::Sha384(hasher) => Digest::Sha384(hasher.finalize()),
            Hashing::Sha512(hasher) => Digest::Sha512(hasher.finalize()),
        }
    }
}
