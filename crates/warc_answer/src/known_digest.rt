//! The digest of the payload of an origin whose payload was hashed before: its blocks alone are judged, unless their
//! verdict is known too.
ghost use Rattle.std.specs.Prelude.{◌≡◌, ◌≤◌, ℕ, List, length, take, IfOk, IfSome, false, true};
ghost use Rattle.std.specs.List.{list_any};
ghost use Rattle.warc_fixity.specs.Judged.{digest_seen};
ghost use Rattle.warc_frame.specs.Effects.{FailsBy, read_result};
ghost use Rattle.warc_frame.specs.Record.{Record};
ghost use Rattle.warc_frame.specs.Seen.{IfHeld};
ghost use Rattle.warc_record.specs.Readings.{reading_of};
ghost use Rattle.warc_segment.specs.Joined.{ReadRecord};
ghost use Rattle.warc_answer.specs.Giving.{HasRoom, IsFront, any_bad_at};
ghost use Rattle.warc_answer.specs.Hashed.{IsDigestBy, IsDigestIn};
ghost use Rattle.warc_answer.specs.Known.{Agrees, IsDigestOfAny};
ghost use Rattle.warc_answer.specs.Origins.{AreBlocksIn, IsContentOn};
ghost use Rattle.warc_answer.specs.Payloads.{has_bad_block, is_http_response, whole_block};
ghost use Rattle.warc_answer.specs.Places.{LieIn, ReadsPlaces, len_of, text_at};

use crate::blocks::{any_bad, judge_blocks, read_front};
use crate::hashed::PayloadDigest;
use crate::replay::total;
use warc_fixity::Digest;
use warc_frame::{PIECE, ReadFault, Source};
use warc_payload::laws::{front_has_head, front_has_no_head};
use warc_payload::{MOST_HEAD_BYTES, body_start};
use warc_segment::Place;
use warc_value::Verdict;

/// Whether some joined block isn't what its digest says, by what is known of them.
fn any_bad_by<S: Source>(
    source: &mut S,
    places: &[Place],
    known: Verdict,
) -> Result<bool, ReadFault>
    ensures judged { IfHeld (S.seen source.old).holds (λ bytes. LieIn places.now bytes →
        Agrees known (any_bad_at bytes places.now) → IfOk result (λ bad. bad ≡ any_bad_at bytes places.now)) }
    ensures reads { ReadsPlaces places.now (len_of places.now) (S.seen source.old) (S.seen source.new) }
    ensures fails { FailsBy (LieIn places.now) (read_result result) (S.seen source.old) (S.seen source.new) }
{
    match known {
        Verdict::Good => Ok(false),
        Verdict::Bad => Ok(true),
        Verdict::Unchecked => any_bad(source, places),
    }
}

/// Fills the buffer with the front of the joined blocks, as far as either goes, and returns how far; or that a block
/// isn't what its digest says. The blocks are judged, unless their verdict is known.
fn front_by<S: Source>(
    source: &mut S,
    places: &[Place],
    front: &mut [u8],
    known: Verdict,
) -> Result<Option<usize>, ReadFault>
    ensures within { IfOk result (λ filled. IfSome filled (λ n. n ≤ length front.new)) }
    ensures judged { IfHeld (S.seen source.old).holds (λ bytes. LieIn places.now bytes →
        Agrees known (any_bad_at bytes places.now) → IfOk result
        (IsFront (any_bad_at bytes places.now) (take (length front.old) (text_at places.now bytes)) front.new)) }
    ensures reads { ReadsPlaces places.now (len_of places.now) (S.seen source.old) (S.seen source.new) }
    ensures fails { FailsBy (LieIn places.now) (read_result result) (S.seen source.old) (S.seen source.new) }
{
    match known {
        Verdict::Unchecked => judge_blocks(source, places, front),
        Verdict::Bad => Ok(None),
        Verdict::Good => match read_front(source, places, front) {
            Ok(n) => Ok(Some(n)),
            Err(fault) => Err(fault),
        },
    }
}

/// The digest of what follows the HTTP head in joined blocks, or none. Their front is read through the buffer.
fn known_through<S: Source>(
    source: &mut S,
    places: &[Place],
    front: &mut [u8],
    digest: Digest,
    known: Verdict,
) -> Result<Option<PayloadDigest>, ReadFault>
    requires { HasRoom (length front.old) places.now }
    ensures digest { IfHeld (S.seen source.old).holds (λ bytes. LieIn places.now bytes →
        Agrees known (any_bad_at bytes places.now) → IsDigestOfAny true (text_at places.now bytes) digest → IfOk result
        (IsDigestIn (any_bad_at bytes places.now) true (digest_seen digest).0 (text_at places.now bytes))) }
    ensures reads { ReadsPlaces places.now (len_of places.now) (S.seen source.old) (S.seen source.new) }
    ensures fails { FailsBy (LieIn places.now) (read_result result) (S.seen source.old) (S.seen source.new) }
{
    front_has_head();
    front_has_no_head();
    let Some(n) = front_by(source, places, front, known)? else {
        return Ok(None);
    };
    match body_start(&front[..n]) {
        Ok(info) => Ok(Some(PayloadDigest {
            digest,
            coded: info.transfer_coded,
        })),
        Err(_) => Ok(None),
    }
}

/// The digest that `known_through` gives, through a buffer of its own that has room for any HTTP head.
fn known_after_long_head<S: Source>(
    source: &mut S,
    places: &[Place],
    digest: Digest,
    known: Verdict,
) -> Result<Option<PayloadDigest>, ReadFault>
    ensures digest { IfHeld (S.seen source.old).holds (λ bytes. LieIn places.now bytes →
        Agrees known (any_bad_at bytes places.now) → IsDigestOfAny true (text_at places.now bytes) digest → IfOk result
        (IsDigestIn (any_bad_at bytes places.now) true (digest_seen digest).0 (text_at places.now bytes))) }
    ensures reads { ReadsPlaces places.now (len_of places.now) (S.seen source.old) (S.seen source.new) }
    ensures fails { FailsBy (LieIn places.now) (read_result result) (S.seen source.old) (S.seen source.new) }
{
    let mut front = [0; MOST_HEAD_BYTES];
    known_through(source, places, &mut front, digest, known)
}

/// The digest that `known_through` gives, through a short buffer if the joined blocks are short.
fn known_after_head<S: Source>(
    source: &mut S,
    places: &[Place],
    digest: Digest,
    known: Verdict,
) -> Result<Option<PayloadDigest>, ReadFault>
    ensures digest { IfHeld (S.seen source.old).holds (λ bytes. LieIn places.now bytes →
        Agrees known (any_bad_at bytes places.now) → IsDigestOfAny true (text_at places.now bytes) digest → IfOk result
        (IsDigestIn (any_bad_at bytes places.now) true (digest_seen digest).0 (text_at places.now bytes))) }
    ensures reads { ReadsPlaces places.now (len_of places.now) (S.seen source.old) (S.seen source.new) }
    ensures fails { FailsBy (LieIn places.now) (read_result result) (S.seen source.old) (S.seen source.new) }
{
    if total(places) > PIECE as u64 {
        return known_after_long_head(source, places, digest, known);
    }
    let mut front = [0; PIECE];
    known_through(source, places, &mut front, digest, known)
}

/// The digest of all joined blocks, or none if one of them is bad.
fn known_whole<S: Source>(
    source: &mut S,
    places: &[Place],
    digest: Digest,
    known: Verdict,
) -> Result<Option<PayloadDigest>, ReadFault>
    ensures digest { IfHeld (S.seen source.old).holds (λ bytes. LieIn places.now bytes →
        Agrees known (any_bad_at bytes places.now) → IsDigestOfAny false (text_at places.now bytes) digest → IfOk result
        (IsDigestIn (any_bad_at bytes places.now) false (digest_seen digest).0 (text_at places.now bytes))) }
    ensures reads { ReadsPlaces places.now (len_of places.now) (S.seen source.old) (S.seen source.new) }
    ensures fails { FailsBy (LieIn places.now) (read_result result) (S.seen source.old) (S.seen source.new) }
{
    if any_bad_by(source, places, known)? {
        return Ok(None);
    }
    Ok(Some(PayloadDigest {
        digest,
        coded: false,
    }))
}

/// The digest of the payload in joined blocks, if they have one: of an HTTP response of the bytes after its head, else
/// of all.
fn known_payload<S: Source>(
    source: &mut S,
    http: bool,
    places: &[Place],
    digest: Digest,
    known: Verdict,
) -> Result<Option<PayloadDigest>, ReadFault>
    ensures digest { IfHeld (S.seen source.old).holds (λ bytes. LieIn places.now bytes →
        Agrees known (any_bad_at bytes places.now) → IsDigestOfAny http (text_at places.now bytes) digest → IfOk result
        (IsDigestIn (any_bad_at bytes places.now) http (digest_seen digest).0 (text_at places.now bytes))) }
    ensures reads { ReadsPlaces places.now (len_of places.now) (S.seen source.old) (S.seen source.new) }
    ensures fails { FailsBy (LieIn places.now) (read_result result) (S.seen source.old) (S.seen source.new) }
{
    if http {
        known_after_head(source, places, digest, known)
    } else {
        known_whole(source, places, digest, known)
    }
}

/// The digest of the payload of an origin, as `digest_joined` gives it, where it is known: `digest` is that of the
/// payload in the joined blocks, if they have one. `known` is what is known of these blocks. If they are good, the
/// front of an HTTP response alone is read, to find its head; if they are bad, nothing is read. If nothing is known,
/// they are judged. Each byte of them is read at most once.
pub fn digest_known<S: Source>(
    source: &mut S,
    http: bool,
    places: &[Place],
    digest: Digest,
    known: Verdict,
) -> Result<Option<PayloadDigest>, ReadFault>
    ensures digest { IfHeld (S.seen source.old).holds (λ bytes. (content : Record) (joined : List ReadRecord) →
        IsContentOn bytes content joined places.now → http ≡ is_http_response (reading_of content.fields) →
        Agrees known (list_any has_bad_block joined) → IsDigestOfAny http (whole_block joined) digest →
        IfOk result (IsDigestBy content joined (digest_seen digest).0)) }
    ensures reads { ReadsPlaces places.now (len_of places.now) (S.seen source.old) (S.seen source.new) }
    ensures fails { FailsBy (AreBlocksIn places.now) (read_result result) (S.seen source.old) (S.seen source.new) }
{
    known_payload(source, http, places, digest, known)
}
