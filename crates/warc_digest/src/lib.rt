//! Digests of parts of a source, which are read in pieces, so that no block is kept.
#![tactic(auto)]

ghost use Rattle.std.specs.Prelude.{◌≡◌, ℕ, ◌<◌, ◌++◌, List, length, take, drop, IfOk, OnOk};
ghost use Rattle.sha1.specs.Sha1.{sha1};
ghost use Rattle.warc_value.specs.Digests.{verdict_of};
ghost use Rattle.warc_frame.specs.Effects.{FailsBy, HasRange, ReadsRange, read_result};
ghost use Rattle.warc_frame.specs.Seen.{IfHeld};
ghost use Rattle.warc_fixity.specs.Judged.{stated_verdict};
ghost use Rattle.warc_digest.specs.Judging.{judged_len};

mod pieces;

pub use pieces::TakePieces;
use warc_fixity::Judge;
use warc_fixity::laws::wanted_is_judged;
use warc_frame::{ReadFault, Source, read_range};
use warc_lanes::OneDigest;
use warc_value::{Verdict, Wanted};

/// Gives `len` bytes at an offset of the source to what hashes them. They are read in pieces as long as `scratch` at
/// most. It fails if a read does, if the source ends too early, and if the range doesn't end before offset 2^64.
pub fn take_range<S: Source, T: TakePieces>(
    source: &mut S,
    at: u64,
    len: u64,
    scratch: &mut [u8],
    hashing: &mut T,
) -> Result<(), ReadFault>
    requires { 0 < length scratch.old }
    ensures taken { IfHeld (S.seen source.old).holds (λ bytes. (of : T.Begun) (taken : List ℕ) →
        T.has_taken hashing.old of taken →
        OnOk result (T.has_taken hashing.new of (taken ++ take len (drop at bytes)))) }
    ensures reads { ReadsRange at len (S.seen source.old) (S.seen source.new) }
    ensures fails { FailsBy (HasRange at len) (read_result result) (S.seen source.old) (S.seen source.new) }
{
    if len > u64::MAX - at {
        return Err(ReadFault);
    }
    let mut done = 0u64;
    'digesting: while done < len {
        let want = (len - done).min(scratch.len() as u64) as usize;
        let piece = &mut scratch[..want];
        read_range(source, at + done, piece)?;
        hashing.take_piece(piece);
        done += want as u64;
    }
    Ok(())
}

/// The SHA-1 (FIPS 180-4) of `len` bytes at an offset of the source. It fails as `take_range` does.
pub fn digest_range<S: Source>(
    source: &mut S,
    at: u64,
    len: u64,
    scratch: &mut [u8],
) -> Result<[u8; 20], ReadFault>
    requires { 0 < length scratch.old }
    ensures digest { IfHeld (S.seen source.old).holds (λ bytes.
        IfOk result (λ digest. digest ≡ sha1 (take len (drop at bytes)))) }
    ensures reads { ReadsRange at len (S.seen source.old) (S.seen source.new) }
    ensures fails { FailsBy (HasRange at len) (read_result result) (S.seen source.old) (S.seen source.new) }
{
    let mut hash = OneDigest::new();
    take_range(source, at, len, scratch, &mut hash)?;
    Ok(hash.finish())
}

/// How `len` bytes at an offset of the source compare with the digest that is wanted of them. If none is wanted,
/// nothing is read. It fails as `take_range` does.
pub fn judge_range<S: Source>(
    source: &mut S,
    at: u64,
    len: u64,
    wanted: &Wanted,
    scratch: &mut [u8],
) -> Result<Verdict, ReadFault>
    requires { 0 < length scratch.old }
    ensures verdict { IfHeld (S.seen source.old).holds (λ bytes.
        IfOk result (λ verdict. verdict ≡ verdict_of wanted.now (take len (drop at bytes)))) }
    ensures reads { ReadsRange at (judged_len wanted.now len) (S.seen source.old) (S.seen source.new) }
    ensures fails { FailsBy (HasRange at len) (read_result result) (S.seen source.old) (S.seen source.new) }
{
    if let Wanted::Unchecked = wanted {
        return Ok(Verdict::Unchecked);
    }
    wanted_is_judged();
    let mut judge = Judge::wanting(wanted);
    take_range(source, at, len, scratch, &mut judge)?;
    Ok(judge.verdict())
}

/// How `len` bytes at an offset of the source compare with the digest that a value states. If it states none, nothing
/// is read. It fails as `take_range` does.
pub fn stated_range<S: Source>(
    source: &mut S,
    at: u64,
    len: u64,
    value: &[u8],
    scratch: &mut [u8],
) -> Result<Verdict, ReadFault>
    requires { 0 < length scratch.old }
    ensures verdict { IfHeld (S.seen source.old).holds (λ bytes.
        IfOk result (λ verdict. verdict ≡ stated_verdict value.now (take len (drop at bytes)))) }
    ensures reads { ReadsRange at len (S.seen source.old) (S.seen source.new) }
    ensures fails { FailsBy (HasRange at len) (read_result result) (S.seen source.old) (S.seen source.new) }
{
    let mut judge = Judge::stated(value);
    if !judge.is_checked() {
        return Ok(Verdict::Unchecked);
    }
    take_range(source, at, len, scratch, &mut judge)?;
    Ok(judge.verdict())
}
