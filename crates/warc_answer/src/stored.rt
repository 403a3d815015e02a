//! What is stored of an origin, coded or not.
ghost use Rattle.std.specs.Prelude.{◌≡◌, ℕ, Bool, List, length, IfErr, IfOk, Ok, false, true};
ghost use Rattle.warc_field.specs.Area.{Pair};
ghost use Rattle.warc_frame.specs.Effects.{FailsBy};
ghost use Rattle.warc_frame.specs.Record.{Record};
ghost use Rattle.warc_frame.specs.Seen.{IfHeld};
ghost use Rattle.warc_record.specs.Readings.{reading_of};
ghost use Rattle.warc_segment.specs.Joined.{ReadRecord};
ghost use Rattle.warc_answer.specs.Giving.{HasRoom, any_bad_at};
ghost use Rattle.warc_answer.specs.Judging.{IsHeadIn, IsSaidOf, IsSeenIn};
ghost use Rattle.warc_answer.specs.Origins.{AreBlocksIn, IsContentOn};
ghost use Rattle.warc_answer.specs.Payloads.{is_http_response};
ghost use Rattle.warc_answer.specs.Places.{LieIn, ReadsPlaces, len_of, text_at};
ghost use Rattle.warc_answer.specs.Replays.{out_result};
ghost use Rattle.warc_answer.specs.Seen.{IsEarly, IsJudged, stored_seen};
ghost use Rattle.warc_answer.specs.Stored.{own_type};

use crate::answer::{Path, Reason, ReplayFault};
use crate::blocks::{SHORT, any_bad, judge_blocks};
use crate::replay::{any_truncated, total};
use std::alloc::{Allocator, Global};
use warc_frame::{OutFault, PIECE, Source};
use warc_payload::laws::{front_has_head, front_has_no_head};
use warc_payload::{HeadFault, MOST_HEAD_BYTES, StoredHead, media_type, read_head};
use warc_segment::Place;
use warc_segment::laws::joined_has_total;

/// What is stored of an origin, coded or not, and what is said of it.
#[derive(Debug, Drop)]
pub struct Stored<A: Allocator = Global> {
    /// The status of the HTTP response, where the origin is one.
    pub status: Option<u16>,

    /// The media type that its `Content-Type` begins with, empty where there is none.
    pub media_type: Vec<u8, A>,

    /// For each field that says that the body is coded a space, its name in lower case, `=` and its value.
    pub codings: Vec<u8, A>,

    /// Whether a field says that the body is coded.
    pub coded: bool,

    /// Whether a record that is joined is marked as truncated.
    pub truncated: bool,

    /// How many of the joined bytes come before it: the length of the HTTP head.
    pub head_len: u64,

    /// Its length in bytes.
    pub length: u64,
}

/// The HTTP head at the front of the joined blocks, which is read through the buffer. The blocks are judged.
fn head_through<S: Source, A: Allocator + Copy>(
    alloc: A,
    source: &mut S,
    places: &[Place],
    front: &mut [u8],
) -> Result<StoredHead<A>, ReplayFault>
    requires { HasRoom (length front.old) places.now }
    ensures begins { IfHeld (S.seen source.old).holds (λ bytes. LieIn places.now bytes →
        IsHeadIn (any_bad_at bytes places.now) (text_at places.now bytes) result) }
    ensures early { IfErr result IsEarly }
    ensures reads { ReadsPlaces places.now (len_of places.now) (S.seen source.old) (S.seen source.new) }
    ensures fails { FailsBy (LieIn places.now) (out_result result) (S.seen source.old) (S.seen source.new) }
{
    front_has_head();
    front_has_no_head();
    let n = match judge_blocks(source, places, front) {
        Ok(Some(n)) => n,
        Ok(None) => return Err(ReplayFault::Reason(Reason::BadDigest)),
        Err(_) => return Err(ReplayFault::Out(OutFault::Read(0))),
    };
    match read_head(alloc, &front[..n]) {
        Ok(head) => Ok(head),
        Err(HeadFault::Bad) => Err(ReplayFault::Reason(Reason::BadHead)),
        Err(HeadFault::Memory) => Err(ReplayFault::Out(OutFault::Memory(0))),
    }
}

/// The HTTP head that `head_through` gives, through a buffer of its own that has room for any HTTP head.
fn find_long_head<S: Source, A: Allocator + Copy>(
    alloc: A,
    source: &mut S,
    places: &[Place],
) -> Result<StoredHead<A>, ReplayFault>
    ensures begins { IfHeld (S.seen source.old).holds (λ bytes. LieIn places.now bytes →
        IsHeadIn (any_bad_at bytes places.now) (text_at places.now bytes) result) }
    ensures early { IfErr result IsEarly }
    ensures reads { ReadsPlaces places.now (len_of places.now) (S.seen source.old) (S.seen source.new) }
    ensures fails { FailsBy (LieIn places.now) (out_result result) (S.seen source.old) (S.seen source.new) }
{
    let mut front = [0; MOST_HEAD_BYTES];
    head_through(alloc, source, places, &mut front)
}

/// The HTTP head that `head_through` gives, through a short buffer if the joined blocks are short.
fn find_head<S: Source, A: Allocator + Copy>(
    alloc: A,
    source: &mut S,
    places: &[Place],
) -> Result<StoredHead<A>, ReplayFault>
    ensures begins { IfHeld (S.seen source.old).holds (λ bytes. LieIn places.now bytes →
        IsHeadIn (any_bad_at bytes places.now) (text_at places.now bytes) result) }
    ensures early { IfErr result IsEarly }
    ensures reads { ReadsPlaces places.now (len_of places.now) (S.seen source.old) (S.seen source.new) }
    ensures fails { FailsBy (LieIn places.now) (out_result result) (S.seen source.old) (S.seen source.new) }
{
    let total = total(places);
    if total <= SHORT as u64 {
        let mut front = [0; SHORT];
        return head_through(alloc, source, places, &mut front);
    }
    if total > PIECE as u64 {
        return find_long_head(alloc, source, places);
    }
    let mut front = [0; PIECE];
    head_through(alloc, source, places, &mut front)
}

/// What is stored after the HTTP head of the joined blocks.
pub(crate) fn stored_after<A: Allocator>(head: StoredHead<A>, places: &[Place]) -> Stored<A>
    ensures { (bad : Bool) (fields : List Pair) (bytes : List ℕ) → IsHeadIn bad (text_at places.now bytes) (Ok head) →
        IsSaidOf true fields (text_at places.now bytes) places.now (stored_seen result) }
{
    let head_len = head.info.head_len as u64;
    Stored {
        status: Some(head.info.status),
        media_type: head.media_type,
        codings: head.codings,
        coded: head.info.coded,
        truncated: any_truncated(places),
        head_len,
        length: total(places).saturating_sub(head_len),
    }
}

/// What is stored in the joined blocks of an HTTP response.
pub(crate) fn find_stored_http<S: Source, A: Allocator + Copy>(
    alloc: A,
    source: &mut S,
    places: &[Place],
) -> Result<Stored<A>, ReplayFault>
    ensures seen { IfHeld (S.seen source.old).holds (λ bytes. (fields : List Pair) → LieIn places.now bytes →
        IsSeenIn true fields bytes places.now result) }
    ensures early { IfErr result IsEarly }
    ensures reads { ReadsPlaces places.now (len_of places.now) (S.seen source.old) (S.seen source.new) }
    ensures fails { FailsBy (LieIn places.now) (out_result result) (S.seen source.old) (S.seen source.new) }
{
    let head = find_head(alloc, source, places)?;
    Ok(stored_after(head, places))
}

/// What is said of the joined blocks of another origin, whose own `Content-Type` has this value.
pub(crate) fn all_of<A: Allocator + Copy>(
    alloc: A,
    own: &[u8],
    places: &[Place],
) -> Result<Stored<A>, ReplayFault>
    ensures seen { (bytes : List ℕ) (fields : List Pair) → own.now ≡ own_type fields →
        IfOk result (λ s. IsSaidOf false fields (text_at places.now bytes) places.now (stored_seen s)) }
    ensures memory { IfErr result (λ fault. fault ≡ ReplayFault.Out (OutFault.Memory 0)) }
{
    match Vec::from_slice(alloc, media_type(own)) {
        Ok(media_type) => Ok(Stored {
            status: None,
            media_type,
            codings: Vec::new(alloc),
            coded: false,
            truncated: any_truncated(places),
            head_len: 0,
            length: total(places),
        }),
        Err(_) => Err(ReplayFault::Out(OutFault::Memory(0))),
    }
}

/// What is stored in the joined blocks of another origin, whose own `Content-Type` has this value.
pub(crate) fn find_stored_other<S: Source, A: Allocator + Copy>(
    alloc: A,
    source: &mut S,
    own: &[u8],
    places: &[Place],
) -> Result<Stored<A>, ReplayFault>
    ensures seen { IfHeld (S.seen source.old).holds (λ bytes. (fields : List Pair) → LieIn places.now bytes →
        own.now ≡ own_type fields → IsSeenIn false fields bytes places.now result) }
    ensures early { IfErr result IsEarly }
    ensures reads { ReadsPlaces places.now (len_of places.now) (S.seen source.old) (S.seen source.new) }
    ensures fails { FailsBy (LieIn places.now) (out_result result) (S.seen source.old) (S.seen source.new) }
{
    match any_bad(source, places) {
        Ok(false) => all_of(alloc, own, places),
        Ok(true) => Err(ReplayFault::Reason(Reason::BadDigest)),
        Err(_) => Err(ReplayFault::Out(OutFault::Read(0))),
    }
}

/// What is stored of an origin, coded or not, or the reason why nothing is: a bad digest, or a response whose block
/// doesn't begin with an HTTP head. `places` are the places of the joined blocks, as `Parts::join` gives them; `http`
/// says whether the origin is an HTTP response, and `own` is the value of its own `Content-Type`, empty where it has
/// none. Each byte of the joined blocks is read at most once, to judge their digests and to find the HTTP head.
pub fn find_stored<S: Source, A: Allocator + Copy>(
    alloc: A,
    source: &mut S,
    http: bool,
    own: &[u8],
    places: &[Place],
) -> Result<Stored<A>, ReplayFault>
    ensures judged { IfHeld (S.seen source.old).holds (λ bytes. (content : Record) (joined : List ReadRecord) →
        IsContentOn bytes content joined places.now → http ≡ is_http_response (reading_of content.fields) →
        own.now ≡ own_type content.fields → IsJudged content joined result) }
    ensures early { IfErr result IsEarly }
    ensures reads { ReadsPlaces places.now (len_of places.now) (S.seen source.old) (S.seen source.new) }
    ensures fails { FailsBy (AreBlocksIn places.now) (out_result result) (S.seen source.old) (S.seen source.new) }
{
    joined_has_total();
    if http {
        find_stored_http(alloc, source, places)
    } else {
        find_stored_other(alloc, source, own, places)
    }
}
