//! Laws of dates and digests: each function does nothing, and its contract is the law.
ghost use Rattle.std.specs.Prelude.{◌≡◌, ℕ, ◌<◌, true, List, Some, IsSome, ◌++◌, length, map, codes, All};
ghost use Rattle.std.specs.Char.{to_ascii_uppercase};
ghost use Rattle.warc_value.specs.declared.hash.Wanted.TheVariants.{Sha1};
ghost use Rattle.warc_value.specs.Digests.{wanted_digest};
ghost use Rattle.warc_value.specs.Base32.{base32_of, unbase32_of};
ghost use Rattle.warc_value.specs.Dates.{instant_of};
ghost use Rattle.warc_field.specs.Text.{is_value};

/// `unbase32` undoes `base32`.
#[tactic(auto, using(crate::proofs::LawLemmas::base32_is_undone))]
pub fn base32_is_undone()
    ensures { (bytes : List ℕ) → length bytes ≡ 20 → All (λ b. b < 256) bytes
        → unbase32_of (base32_of bytes) ≡ Some bytes }
{}

/// `base32` gives back what `unbase32` read, in capitals.
#[tactic(auto, using(crate::proofs::LawLemmas::unbase32_is_undone))]
pub fn unbase32_is_undone()
    ensures { (text bytes : List ℕ) → unbase32_of text ≡ Some bytes → base32_of bytes ≡ map to_ascii_uppercase text }
{}

/// `sha1:` and the base32 text of a digest ask for that digest.
#[tactic(auto, using(crate::proofs::LawLemmas::written_digest_is_wanted))]
pub fn written_digest_is_wanted()
    ensures { (digest : List ℕ) → length digest ≡ 20 → All (λ b. b < 256) digest
        → wanted_digest (codes "sha1:" ++ base32_of digest) ≡ Sha1 digest }
{}

/// That text is a value.
pub fn written_digest_is_value()
    ensures { (digest : List ℕ) → length digest ≡ 20 → All (λ b. b < 256) digest →
        is_value (codes "sha1:" ++ base32_of digest) ≡ true }
{}

/// A date is a value.
pub fn date_is_value()
    ensures { (text : List ℕ) → IsSome (instant_of text) → is_value text ≡ true }
{}
