//! Laws of stated digests: each function does nothing, and its contract is the law.
ghost use Rattle.std.specs.Prelude.{◌≡◌, ◌≢◌, ◌↔◌, ℕ, List, Some};
ghost use Rattle.warc_value.specs.declared.hash.Verdict.TheVariants.{Unchecked};
ghost use Rattle.warc_value.specs.declared.hash.Wanted.{Wanted};
ghost use Rattle.warc_value.specs.Digests.{wanted_digest, verdict_of};
ghost use Rattle.warc_fixity.specs.declared.names.Algorithm.{Algorithm};
ghost use Rattle.warc_fixity.specs.Stated.{States};
ghost use Rattle.warc_fixity.specs.Decoded.{stated_digest};
ghost use Rattle.warc_fixity.specs.Judged.{stated_verdict, verdict_if_stated, wanted_stated};

/// `stated_digest` gives the one digest that a value states.
pub fn stated_digest_is_stated()
    ensures { (value digest : List ℕ) (algorithm : Algorithm) →
        (stated_digest value ≡ Some (algorithm, digest)) ↔ States value algorithm digest }
{}

/// A verdict by the digest that `Wanted::of` reads is the verdict by the digest that is stated, unless it is unchecked.
pub fn wanted_verdict_is_kept()
    ensures { (value block : List ℕ) → verdict_of (wanted_digest value) block ≢ Unchecked →
        verdict_of (wanted_digest value) block ≡ stated_verdict value block }
{}

/// The verdict by the digest that is wanted of a block is the one by that digest where a value states it.
pub fn wanted_is_judged()
    ensures { (wanted : Wanted) (block : List ℕ) →
        verdict_if_stated (wanted_stated wanted) block ≡ verdict_of wanted block }
{}
