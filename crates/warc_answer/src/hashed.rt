//! The digest of a payload, read from the places of joined blocks in a source.
ghost use Rattle.std.specs.Prelude.{◌≡◌, ℕ, ◌+◌, ◌++◌, ◌<◌, List, length, take, drop, Option, IfOk, OnOk, true, false};
ghost use Rattle.warc_fixity.specs.declared.names.Algorithm.{Algorithm};
ghost use Rattle.warc_fixity.specs.Judged.{HasherHasTaken, digest_seen};
ghost use Rattle.warc_fixity.specs.Stated.{block_hash};
ghost use Rattle.warc_frame.specs.Effects.{FailsBy, HasRange, ReadsOnly, read_result};
ghost use Rattle.warc_frame.specs.Record.{Record};
ghost use Rattle.warc_frame.specs.Seen.{IfHeld, IsInRange};
ghost use Rattle.warc_record.specs.Readings.{reading_of};
ghost use Rattle.warc_record.specs.Seen.{said};
ghost use Rattle.warc_segment.specs.Joined.{ReadRecord};
ghost use Rattle.warc_answer.specs.Giving.{HasRoom, any_bad_at};
ghost use Rattle.warc_answer.specs.Hashed.{HasPayload, IsDigestBy, IsDigestIn, IsDigestOf, StoredPayload};
ghost use Rattle.warc_answer.specs.Origins.{AreBlocksIn, IsContentOn};
ghost use Rattle.warc_answer.specs.Payloads.{is_http_response};
ghost use Rattle.warc_answer.specs.Places.{LieIn, ReadsPlaces, len_of, text_at};

use crate::blocks::{SHORT, any_bad, judge_blocks};
use crate::body::is_http_response;
use crate::replay::total;
use warc_digest::take_range;
use warc_fixity::{Algorithm, Digest, Hasher};
use warc_frame::{PIECE, ReadFault, Source};
use warc_payload::laws::{front_has_head, front_has_no_head};
use warc_payload::{MOST_HEAD_BYTES, body_start};
use warc_record::Typed;
use warc_segment::Place;
use warc_value::Wanted;

/// The digest of a payload as it is stored.
#[derive(Clone, Copy, Debug, PartialEq, Eq)]
pub struct PayloadDigest {
    /// The digest.
    pub digest: Digest,

    /// Whether a field of the HTTP head says that a transfer coding was applied.
    pub coded: bool,
}

/// Adds the joined blocks to what is hashed, without their first `skip` bytes, through `scratch`.
fn hash_blocks<S: Source>(
    source: &mut S,
    places: &[Place],
    skip: u64,
    scratch: &mut [u8],
    hasher: &mut Hasher,
) -> Result<(), ReadFault>
    requires { 0 < length scratch.old }
    ensures taken { IfHeld (S.seen source.old).holds (λ bytes. LieIn places.now bytes → (algorithm : Algorithm)
        (taken : List ℕ) → HasherHasTaken hasher.old algorithm taken →
        OnOk result (HasherHasTaken hasher.new algorithm (taken ++ drop skip (text_at places.now bytes)))) }
    ensures reads { ReadsPlaces places.now (len_of places.now) (S.seen source.old) (S.seen source.new) }
    ensures fails { FailsBy (LieIn places.now) (read_result result) (S.seen source.old) (S.seen source.new) }
{
    let mut left = skip;
    'adding: for place in places {
        let gone = left.min(place.len);
        let at = place.start.saturating_add(gone);
        take_range(source, at, place.len - gone, scratch, hasher)?;
        left -= gone;
    }
    Ok(())
}

/// The digest of some bytes and of the joined blocks after them, without their first `skip` bytes.
fn digest_after<S: Source>(
    source: &mut S,
    begun: &[u8],
    places: &[Place],
    skip: u64,
    scratch: &mut [u8],
    algorithm: Algorithm,
) -> Result<Digest, ReadFault>
    requires { 0 < length scratch.old }
    ensures digest { IfHeld (S.seen source.old).holds (λ bytes. LieIn places.now bytes → IfOk result (λ digest.
        digest_seen digest ≡
        (algorithm, block_hash algorithm (begun.now ++ drop skip (text_at places.now bytes))))) }
    ensures reads { ReadsPlaces places.now (len_of places.now) (S.seen source.old) (S.seen source.new) }
    ensures fails { FailsBy (LieIn places.now) (read_result result) (S.seen source.old) (S.seen source.new) }
{
    let mut hasher = Hasher::new(algorithm);
    hasher.update(begun);
    hash_blocks(source, places, skip, scratch, &mut hasher)?;
    Ok(hasher.finish())
}

/// The digest that `digest_after` gives, through a buffer of its own, which is short if the joined blocks are.
fn digest_from<S: Source>(
    source: &mut S,
    begun: &[u8],
    places: &[Place],
    skip: u64,
    algorithm: Algorithm,
) -> Result<Digest, ReadFault>
    ensures digest { IfHeld (S.seen source.old).holds (λ bytes. LieIn places.now bytes → IfOk result (λ digest.
        digest_seen digest ≡
        (algorithm, block_hash algorithm (begun.now ++ drop skip (text_at places.now bytes))))) }
    ensures reads { ReadsPlaces places.now (len_of places.now) (S.seen source.old) (S.seen source.new) }
    ensures fails { FailsBy (LieIn places.now) (read_result result) (S.seen source.old) (S.seen source.new) }
{
    if total(places) <= SHORT as u64 {
        let mut scratch = [0; SHORT];
        return digest_after(source, begun, places, skip, &mut scratch, algorithm);
    }
    let mut scratch = [0; PIECE];
    digest_after(source, begun, places, skip, &mut scratch, algorithm)
}

/// The digest of what follows the HTTP head in joined blocks, or none. Their front is read through the buffer.
fn digest_through<S: Source>(
    source: &mut S,
    places: &[Place],
    front: &mut [u8],
    algorithm: Algorithm,
) -> Result<Option<PayloadDigest>, ReadFault>
    requires { HasRoom (length front.old) places.now }
    ensures digest { IfHeld (S.seen source.old).holds (λ bytes. LieIn places.now bytes → IfOk result
        (IsDigestIn (any_bad_at bytes places.now) true algorithm (text_at places.now bytes))) }
    ensures reads { ReadsPlaces places.now (len_of places.now + len_of places.now) (S.seen source.old)
        (S.seen source.new) }
    ensures fails { FailsBy (LieIn places.now) (read_result result) (S.seen source.old) (S.seen source.new) }
{
    front_has_head();
    front_has_no_head();
    let Some(n) = judge_blocks(source, places, front)? else {
        return Ok(None);
    };
    let info = match body_start(&front[..n]) {
        Ok(info) => info,
        Err(_) => return Ok(None),
    };
    let digest = digest_from(
        source,
        &front[info.head_len..n],
        places,
        n as u64,
        algorithm,
    )?;
    Ok(Some(PayloadDigest {
        digest,
        coded: info.transfer_coded,
    }))
}

/// The digest that `digest_through` gives, through a buffer of its own that has room for any HTTP head.
fn digest_after_long_head<S: Source>(
    source: &mut S,
    places: &[Place],
    algorithm: Algorithm,
) -> Result<Option<PayloadDigest>, ReadFault>
    ensures digest { IfHeld (S.seen source.old).holds (λ bytes. LieIn places.now bytes → IfOk result
        (IsDigestIn (any_bad_at bytes places.now) true algorithm (text_at places.now bytes))) }
    ensures reads { ReadsPlaces places.now (len_of places.now + len_of places.now) (S.seen source.old)
        (S.seen source.new) }
    ensures fails { FailsBy (LieIn places.now) (read_result result) (S.seen source.old) (S.seen source.new) }
{
    let mut front = [0; MOST_HEAD_BYTES];
    digest_through(source, places, &mut front, algorithm)
}

/// The digest that `digest_through` gives, through a short buffer if the joined blocks are short.
fn digest_after_head<S: Source>(
    source: &mut S,
    places: &[Place],
    algorithm: Algorithm,
) -> Result<Option<PayloadDigest>, ReadFault>
    ensures digest { IfHeld (S.seen source.old).holds (λ bytes. LieIn places.now bytes → IfOk result
        (IsDigestIn (any_bad_at bytes places.now) true algorithm (text_at places.now bytes))) }
    ensures reads { ReadsPlaces places.now (len_of places.now + len_of places.now) (S.seen source.old)
        (S.seen source.new) }
    ensures fails { FailsBy (LieIn places.now) (read_result result) (S.seen source.old) (S.seen source.new) }
{
    if total(places) > PIECE as u64 {
        return digest_after_long_head(source, places, algorithm);
    }
    let mut front = [0; PIECE];
    digest_through(source, places, &mut front, algorithm)
}

/// The digest of all joined blocks, or none if one of them is bad.
fn digest_whole<S: Source>(
    source: &mut S,
    places: &[Place],
    algorithm: Algorithm,
) -> Result<Option<PayloadDigest>, ReadFault>
    ensures digest { IfHeld (S.seen source.old).holds (λ bytes. LieIn places.now bytes → IfOk result
        (IsDigestIn (any_bad_at bytes places.now) false algorithm (text_at places.now bytes))) }
    ensures reads { ReadsPlaces places.now (len_of places.now + len_of places.now) (S.seen source.old)
        (S.seen source.new) }
    ensures fails { FailsBy (LieIn places.now) (read_result result) (S.seen source.old) (S.seen source.new) }
{
    if any_bad(source, places)? {
        return Ok(None);
    }
    let digest = digest_from(source, b"", places, 0, algorithm)?;
    Ok(Some(PayloadDigest {
        digest,
        coded: false,
    }))
}

/// The digest of the payload in joined blocks, as it is stored: of an HTTP response the bytes after its head, else all.
/// None if a block isn't what its digest says, or if an HTTP response has no HTTP head. Each byte of the joined blocks
/// is read at most twice, and none is kept.
fn digest_payload<S: Source>(
    source: &mut S,
    http: bool,
    places: &[Place],
    algorithm: Algorithm,
) -> Result<Option<PayloadDigest>, ReadFault>
    ensures digest { IfHeld (S.seen source.old).holds (λ bytes. LieIn places.now bytes → IfOk result
        (IsDigestIn (any_bad_at bytes places.now) http algorithm (text_at places.now bytes))) }
    ensures reads { ReadsPlaces places.now (len_of places.now + len_of places.now) (S.seen source.old)
        (S.seen source.new) }
    ensures fails { FailsBy (LieIn places.now) (read_result result) (S.seen source.old) (S.seen source.new) }
{
    if http {
        digest_after_head(source, places, algorithm)
    } else {
        digest_whole(source, places, algorithm)
    }
}

/// The digest of the payload of an origin as it is stored: of an HTTP response the bytes after its head, else all. None
/// if a joined block isn't what its digest says, or if an HTTP response has no HTTP head. `places` are the places of
/// the joined blocks, as `Parts::join` gives them; `http` says whether the origin is an HTTP response. Each byte of the
/// joined blocks is read at most twice, and none is kept.
pub fn digest_joined<S: Source>(
    source: &mut S,
    http: bool,
    places: &[Place],
    algorithm: Algorithm,
) -> Result<Option<PayloadDigest>, ReadFault>
    ensures digest { IfHeld (S.seen source.old).holds (λ bytes. (content : Record) (joined : List ReadRecord) →
        IsContentOn bytes content joined places.now → http ≡ is_http_response (reading_of content.fields) →
        IfOk result (IsDigestBy content joined algorithm)) }
    ensures reads { ReadsPlaces places.now (len_of places.now + len_of places.now) (S.seen source.old)
        (S.seen source.new) }
    ensures fails { FailsBy (AreBlocksIn places.now) (read_result result) (S.seen source.old) (S.seen source.new) }
{
    digest_payload(source, http, places, algorithm)
}

/// The digest of the payload in the block of a record alone, which is `len` bytes at an offset. None if the record is
/// an HTTP response without an HTTP head. The block's own digest isn't judged.
pub fn digest_own<S: Source>(
    source: &mut S,
    head: &Typed<'_>,
    start: u64,
    len: u64,
    algorithm: Algorithm,
) -> Result<Option<PayloadDigest>, ReadFault>
    ensures digest { IfHeld (S.seen source.old).holds (λ bytes. HasRange start len bytes → IfOk result (λ digest.
        (payload : Option StoredPayload) ×
        HasPayload (is_http_response (said head.now)) (take len (drop start bytes)) payload ×
        IsDigestOf algorithm payload digest)) }
    ensures reads { ReadsOnly (IsInRange start len) (len + len) (S.seen source.old) (S.seen source.new) }
    ensures fails { FailsBy (HasRange start len) (read_result result) (S.seen source.old) (S.seen source.new) }
{
    let place = Place {
        start,
        len,
        wanted: Wanted::Unchecked,
        truncated: false,
    };
    digest_payload(source, is_http_response(head), &[place], algorithm)
}
