//! The verdict on a payload, by its digest and the one that its record's head states.
ghost use Rattle.std.specs.Prelude.{◌≡◌, ◌≢◌, true, false, [], Option, Some, None, IfSome};
ghost use Rattle.warc_fixity.specs.Decoded.{stated_digest};
ghost use Rattle.warc_fixity.specs.Judged.{digest_seen};
ghost use Rattle.warc_answer.specs.Hashed.{IsDigestOf, StoredPayload};
ghost use Rattle.warc_replay.specs.PayloadStates.{algorithm_by, algorithm_for, holds_own};
ghost use Rattle.warc_replay.specs.PayloadText.{plain_verdict, reason_of, unjudged_text};
ghost use Rattle.warc_replay.specs.PayloadVerdicts.{by_stated, compared, payload_value, payload_verdict, revisit_verdict};

use std::alloc::Allocator;
use std::fmt;
use warc_answer::PayloadDigest;
use warc_field::Fields;
use warc_fixity::{Algorithm, Digest};
use warc_frame::names;
use warc_judged::has_segment_number;
use warc_record::Kind;
use warc_value::Verdict;

/// Why a payload isn't judged: the first reason that applies.
#[derive(Clone, Copy, PartialEq, Eq, Debug)]
pub enum Unjudged {
    /// The record is a revisit whose replay gives no body.
    Revisit,

    /// The record is a request.
    Request,

    /// The record holds a part of a block.
    Segment,

    /// The value states no digest that is computed.
    Algorithm,

    /// The block of an HTTP response has no HTTP head.
    Head,

    /// The digest differs, and a transfer coding was applied: which form was digested isn't known.
    Coded,
}

impl fmt::Display for Unjudged {
    ghost output = { λ why. Some (unjudged_text why) };

    fn fmt<W: fmt::Write>(&self, f: &mut fmt::Formatter<W>) -> fmt::Result {
        match self {
            Unjudged::Revisit => write!(f, "revisit"),
            Unjudged::Request => write!(f, "request"),
            Unjudged::Segment => write!(f, "segment"),
            Unjudged::Algorithm => write!(f, "algorithm"),
            Unjudged::Head => write!(f, "head"),
            Unjudged::Coded => write!(f, "coded"),
        }
    }
}

/// How a payload compares with the digest that its record's head states.
#[derive(Clone, Copy, PartialEq, Eq, Debug)]
pub enum PayloadVerdict {
    Good,
    Bad,
    Unchecked(Unjudged),
}

/// What a reason is called.
fn unjudged_text(why: Unjudged) -> &'static [u8]
    ensures { result.now ≡ unjudged_text why }
{
    match why {
        Unjudged::Revisit => b"revisit",
        Unjudged::Request => b"request",
        Unjudged::Segment => b"segment",
        Unjudged::Algorithm => b"algorithm",
        Unjudged::Head => b"head",
        Unjudged::Coded => b"coded",
    }
}

/// The reason of a verdict, or a dash for none.
pub fn reason_of(verdict: PayloadVerdict) -> &'static [u8]
    ensures { result.now ≡ reason_of verdict }
{
    match verdict {
        PayloadVerdict::Good | PayloadVerdict::Bad => b"-",
        PayloadVerdict::Unchecked(why) => unjudged_text(why),
    }
}

/// A verdict without its reason.
pub fn plain_verdict(verdict: PayloadVerdict) -> Verdict
    ensures { result ≡ plain_verdict verdict }
{
    match verdict {
        PayloadVerdict::Good => Verdict::Good,
        PayloadVerdict::Bad => Verdict::Bad,
        PayloadVerdict::Unchecked(_) => Verdict::Unchecked,
    }
}

/// The value that states the digest of a payload, empty if no field does.
pub fn payload_value<A: Allocator>(fields: &Fields<A>) -> &[u8]
    ensures { result.now ≡ payload_value fields.now }
{
    fields.value_of(names::WARC_PAYLOAD_DIGEST.as_bytes())
}

/// Whether a head states the digest of its payload: the value isn't empty.
pub(crate) fn states_payload<A: Allocator>(fields: &Fields<A>) -> bool
    ensures some { result ≡ true → payload_value fields.now ≢ [] }
    ensures none { result ≡ false → payload_value fields.now ≡ [] }
{
    !payload_value(fields).is_empty()
}

/// Whether a record of this kind is judged by the payload in its own block.
pub fn holds_own(kind: Kind) -> bool
    ensures { result ≡ holds_own kind }
{
    match kind {
        Kind::Revisit | Kind::Request => false,
        _ => true,
    }
}

/// The algorithm by which a payload is digested.
pub(crate) fn algorithm_for<A: Allocator>(fields: &Fields<A>) -> Algorithm
    ensures { result ≡ algorithm_for fields.now }
{
    match Digest::stated(payload_value(fields)) {
        Some(stated) => stated.algorithm(),
        None => Algorithm::Sha1,
    }
}

/// How a payload compares with a digest that is stated.
fn compared(stated: &Digest, payload: &PayloadDigest) -> PayloadVerdict
    ensures { (p : StoredPayload) → IsDigestOf (digest_seen stated.now).0 (Some p) (Some payload.now) →
        result ≡ compared (digest_seen stated.now) p }
{
    if stated.is_same(&payload.digest) {
        return PayloadVerdict::Good;
    }
    if payload.coded {
        PayloadVerdict::Unchecked(Unjudged::Coded)
    } else {
        PayloadVerdict::Bad
    }
}

/// How a payload compares with the digest that a value states, by its own digest; none where there is no payload.
fn by_stated(value: &[u8], digest: Option<PayloadDigest>) -> PayloadVerdict
    ensures { (payload : Option StoredPayload) → IsDigestOf (algorithm_by value.now) payload digest →
        result ≡ by_stated (stated_digest value.now) payload }
{
    let Some(stated) = Digest::stated(value) else {
        return PayloadVerdict::Unchecked(Unjudged::Algorithm);
    };
    match digest {
        Some(digest) => compared(&stated, &digest),
        None => PayloadVerdict::Unchecked(Unjudged::Head),
    }
}

/// How the payload of a record with these fields compares with the digest that they state.
pub(crate) fn payload_verdict<A: Allocator>(
    fields: &Fields<A>,
    digest: Option<PayloadDigest>,
) -> PayloadVerdict
    ensures { (payload : Option StoredPayload) → IsDigestOf (algorithm_for fields.now) payload digest →
        result ≡ payload_verdict fields.now payload }
{
    if has_segment_number(fields) {
        return PayloadVerdict::Unchecked(Unjudged::Segment);
    }
    by_stated(payload_value(fields), digest)
}

/// How the payload that the replay of a revisit gives compares with the digest that the revisit's fields state.
pub(crate) fn revisit_verdict<A: Allocator>(
    fields: &Fields<A>,
    digest: Option<PayloadDigest>,
) -> PayloadVerdict
    ensures { (payload : Option StoredPayload) → IsDigestOf (algorithm_for fields.now) payload digest →
        result ≡ revisit_verdict fields.now payload }
{
    match digest {
        Some(_) => payload_verdict(fields, digest),
        None => PayloadVerdict::Unchecked(Unjudged::Revisit),
    }
}

/// The verdict that is the same whatever the payload is, if there is one.
pub(crate) fn early_verdict<A: Allocator>(fields: &Fields<A>) -> Option<PayloadVerdict>
    ensures { IfSome result (λ verdict. (payload : Option StoredPayload) →
        verdict ≡ payload_verdict fields.now payload) }
{
    if has_segment_number(fields) {
        return Some(PayloadVerdict::Unchecked(Unjudged::Segment));
    }
    match Digest::stated(payload_value(fields)) {
        Some(_) => None,
        None => Some(PayloadVerdict::Unchecked(Unjudged::Algorithm)),
    }
}
