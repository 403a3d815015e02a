//! What is known of payloads once an archive is read: which records state the digest of theirs, and which of these
//! payloads are good. Of the others nothing is known: their records are read again.
ghost use Rattle.std.specs.Prelude.{◌≡◌, ℕ, ◌∷◌, ◌++◌, false, true, List, [], drop, slice_get, unwrap_or, IfSome, OnErr, OnOk};
ghost use Rattle.sha1.specs.Sha1.{sha1};
ghost use Rattle.warc_frame.specs.Record.{Record};
ghost use Rattle.warc_record.specs.Readings.{reading_of};
ghost use Rattle.warc_record.specs.Seen.{said};
ghost use Rattle.warc_fixity.specs.Judged.{stated_verdict};
ghost use Rattle.warc_reading.specs.Judging.{IsNextPlain};
ghost use Rattle.warc_reading.specs.Row.{Placed};
ghost use Rattle.warc_checking.specs.Batch.{verdict_with};
ghost use Rattle.warc_replay.specs.PayloadVerdicts.{payload_value};
ghost use Rattle.warc.specs.KnownPayloads.{AreKnownPayloads, AreRightFor, HoldsPayload, IsPayloadOf, IsRightFor, known_at, known_by};

use std::alloc::{AllocError, Allocator};
use std::marker::Model;
use warc_answer::is_http_response;
use warc_checking::{BlockCheck, PIECE_LEN};
use warc_field::Fields;
use warc_fixity::{Digest, stated_verdict};
use warc_judged::{BlockVerdicts, Verdicts, is_verdict};
use warc_payload::laws::front_has_head;
use warc_payload::{body_start, front};
use warc_quick::{QuickHead, QuickRecord};
use warc_reading::{Keep, NoBlock};
use warc_record::{GoodHead, Typed};
use warc_replay::{PayloadVerdict, holds_own, payload_value};
use warc_value::Verdict;

/// The verdict that is known, by whether a digest is stated and how the payload compares with it.
fn known_by(stated: bool, verdict: Verdict) -> Option<Option<PayloadVerdict>>
    ensures { result ≡ known_by stated verdict }
{
    if !stated {
        return Some(None);
    }
    match verdict {
        Verdict::Good => Some(Some(PayloadVerdict::Good)),
        Verdict::Bad | Verdict::Unchecked => None,
    }
}

/// What is known of each record's payload.
#[derive(Drop)]
pub(crate) struct KnownPayloads<A: Allocator> {
    stated: Vec<bool, A>,
    verdicts: Verdicts<A>,
}

impl<A: Allocator> Model for KnownPayloads<A> {
    ghost use Rattle.warc.specs.KnownPayloads.{KnownPayloads as Seen};

    ghost Value = { Seen };

    ghost view = { λ k. record { stated = k.stated.items; verdicts = k.verdicts } };
}

impl<A: Allocator> KnownPayloads<A> {
    /// Nothing of any record.
    #[tactic(auto, using(crate::proofs::KnownPayloadLemmas::none_right))]
    pub(crate) fn none(alloc: A) -> KnownPayloads<A>
    where
        A: Copy,
        ensures { (records : List Placed) → AreRightFor result records }
    {
        KnownPayloads {
            stated: Vec::new(alloc),
            verdicts: Verdicts::new(alloc),
        }
    }

    /// Whether the record at a position states the digest of its payload, as far as that is known.
    fn is_stated(&self, position: usize) -> bool
        ensures { result ≡ unwrap_or (slice_get self.now.stated position) true }
    {
        match self.stated.get(position) {
            Some(stated) => *stated,
            None => true,
        }
    }

    /// The verdict on the payload of the record at a position, if it is known: `Some(None)` where no digest is stated.
    pub(crate) fn verdict(&self, position: usize) -> Option<Option<PayloadVerdict>>
        ensures { result ≡ known_at self.now position }
    {
        known_by(self.is_stated(position), self.verdicts.at(position))
    }
}

/// Whether a head states the digest of its payload: the value isn't empty.
fn states_payload<A: Allocator>(fields: &Fields<A>) -> bool
    ensures { result ≡ false → payload_value fields.now ≡ [] }
{
    !payload_value(fields).is_empty()
}

/// What follows the first `len` bytes of a text that has as many.
fn rest_from(text: &[u8], len: usize) -> Option<&[u8]>
    ensures { IfSome result (λ rest. rest.now ≡ drop len text.now) }
{
    if len > text.len() {
        return None;
    }
    Some(&text[len..])
}

/// What follows the HTTP head at the front of a block, if one is there.
fn after_head(block: &[u8]) -> Option<&[u8]>
    ensures { IfSome result (λ rest. IsPayloadOf true block.now rest.now) }
{
    front_has_head();
    match body_start(front(block)) {
        Ok(info) => rest_from(block, info.head_len),
        Err(_) => None,
    }
}

/// The payload in a record's own block, if the record is judged by it: it is neither a revisit nor a request, and an
/// HTTP response has an HTTP head.
fn own_payload<'a>(typed: &Typed<'_>, block: &'a [u8]) -> Option<&'a [u8]>
    ensures { IfSome result (λ payload. (content : Record) → said typed.now ≡ reading_of content.fields →
        block.now ≡ content.block → HoldsPayload content payload.now) }
{
    if !holds_own(typed.kind) {
        return None;
    }
    if is_http_response(typed) {
        return after_head(block);
    }
    Some(block)
}

/// How a payload that is in memory is judged by the digest that a value states: by its SHA-1, which isn't computed yet,
/// or at once.
fn payload_check(value: &[u8], payload: &[u8]) -> BlockCheck
    ensures { verdict_with result (sha1 payload.now) ≡ stated_verdict value.now payload.now }
{
    match Digest::stated(value) {
        Some(Digest::Sha1(digest)) => BlockCheck::Compare(digest),
        _ => BlockCheck::Known(stated_verdict(value, payload)),
    }
}

/// How a payload is judged, and its bytes, if they have to be hashed.
#[derive(Clone, Copy)]
struct ToJudge<'a> {
    stated: bool,
    check: BlockCheck,
    payload: &'a [u8],
}

/// A payload of which nothing is known but whether its digest is stated.
fn not_judged(stated: bool) -> ToJudge<'static>
    ensures stated { result.stated ≡ stated }
    ensures unknown { (digest : List ℕ) → verdict_with result.check digest ≡ Verdict.Unchecked }
{
    ToJudge {
        stated,
        check: BlockCheck::Known(Verdict::Unchecked),
        payload: b"",
    }
}

/// How the payload of a record that was read in place is judged.
fn to_judge<'a>(found: &QuickRecord<'a>) -> ToJudge<'a>
    requires alone { found.now.head.is_alone ≡ true }
    requires next { (p : Placed) × (start : ℕ) × IsNextPlain p found.now start }
    ensures { (p : Placed) (start : ℕ) → IsNextPlain p found.now start →
        IsRightFor p (known_by result.stated (verdict_with result.check (sha1 result.payload.now))) }
{
    let value = found.head.payload_digest;
    if value.is_empty() {
        return not_judged(false);
    }
    match own_payload(&found.head.typed(), found.block) {
        Some(payload) => ToJudge {
            stated: true,
            check: payload_check(value, payload),
            payload,
        },
        None => not_judged(true),
    }
}

/// `KnownPayloads` while the source is read. The last payloads wait until they are hashed.
#[derive(Drop)]
pub(crate) struct WaitingPayloads<A: Allocator> {
    stated: Vec<bool, A>,
    verdicts: BlockVerdicts<A>,
}

impl<A: Allocator> Model for WaitingPayloads<A> {
    ghost use Rattle.warc.specs.KnownPayloads.{KnownPayloads as Seen};

    ghost Value = { Seen };

    ghost view = { λ k. record { stated = k.stated.items; verdicts = k.verdicts } };
}

impl<A: Allocator + Copy> WaitingPayloads<A> {
    /// Of no records.
    #[tactic(auto, using(crate::proofs::KnownPayloadLemmas::none_kept))]
    pub(crate) fn new(alloc: A) -> WaitingPayloads<A>
        ensures { AreKnownPayloads result [] }
    {
        WaitingPayloads {
            stated: Vec::new(alloc),
            verdicts: BlockVerdicts::new(alloc),
        }
    }
}

impl<A: Allocator> WaitingPayloads<A> {
    /// Adds what is known of the next payload. If an allocation fails, nothing is added.
    fn add(&mut self, one: &ToJudge<'_>) -> Result<(), AllocError>
        ensures ok { OnOk result ((self.new.stated ≡ self.old.stated ++ one.now.stated ∷ [])
            × (self.new.verdicts
            ≡ self.old.verdicts ++ verdict_with one.now.check (sha1 one.now.payload.now) ∷ [])) }
        ensures err { OnErr result (self.new ≡ self.old) }
    {
        self.stated.reserve(1)?;
        self.verdicts.add(one.check, one.payload)?;
        self.stated.push_reserved(one.stated);
        Ok(())
    }

    /// What is known of all records. The payloads that wait are hashed first. It doesn't allocate.
    pub(crate) fn into_known(self) -> KnownPayloads<A>
        ensures { result ≡ self }
    {
        KnownPayloads {
            stated: self.stated,
            verdicts: self.verdicts.into_verdicts(),
        }
    }
}

impl<A: Allocator + Copy> Keep<A> for WaitingPayloads<A> {
    ghost keeps = { AreKnownPayloads };

    type Block = NoBlock;

    ghost takes = { λ head. head.is_alone };

    fn takes(head: &QuickHead<'_>) -> bool {
        head.is_alone
    }

    fn keep(
        &mut self,
        _alloc: A,
        _position: usize,
        head: &GoodHead<A>,
        _block_start: u64,
        _block_len: u64,
        _block: NoBlock,
    ) -> Result<(), AllocError> {
        self.add(&not_judged(states_payload(head.fields())))
    }

    fn keep_plain(
        &mut self,
        _alloc: A,
        _position: usize,
        found: &QuickRecord<'_>,
        _block_start: u64,
    ) -> Result<(), AllocError> {
        self.add(&to_judge(found))
    }

    fn truncate(&mut self, count: usize) {
        self.stated.truncate(count);
        self.verdicts.truncate(count);
    }

    fn piece_len() -> usize {
        PIECE_LEN
    }
}
