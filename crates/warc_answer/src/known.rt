//! What is stored of an origin whose blocks were judged before: of good ones the front alone is read.
ghost use Rattle.std.specs.Prelude.{◌≡◌, ℕ, ◌*◌, ◌≤◌, List, length, IfErr, IfOk, Ok, false, true};
ghost use Rattle.std.specs.List.{list_any};
ghost use Rattle.warc_field.specs.Area.{Pair};
ghost use Rattle.warc_frame.specs.Effects.{FailsBy};
ghost use Rattle.warc_frame.specs.Record.{Record};
ghost use Rattle.warc_frame.specs.Seen.{IfHeld};
ghost use Rattle.warc_payload.specs.Head.{most_head_bytes};
ghost use Rattle.warc_record.specs.Readings.{reading_of};
ghost use Rattle.warc_segment.specs.Joined.{ReadRecord};
ghost use Rattle.warc_answer.specs.Giving.{HasRoom, any_bad_at};
ghost use Rattle.warc_answer.specs.Judging.{IsHeadIn, IsSeenIn};
ghost use Rattle.warc_answer.specs.Known.{Agrees};
ghost use Rattle.warc_answer.specs.Origins.{AreBlocksIn, IsContentOn};
ghost use Rattle.warc_answer.specs.Payloads.{has_bad_block, is_http_response};
ghost use Rattle.warc_answer.specs.Places.{LieIn, ReadsPlaces, len_of, text_at};
ghost use Rattle.warc_answer.specs.Replays.{out_result};
ghost use Rattle.warc_answer.specs.Seen.{IsEarly, IsJudged};
ghost use Rattle.warc_answer.specs.Stored.{own_type};

use crate::answer::{Reason, ReplayFault};
use crate::blocks::{SHORT, read_front};
use crate::replay::total;
use crate::stored::{Stored, all_of, find_stored, stored_after};
use std::alloc::Allocator;
use warc_frame::{OutFault, Source};
use warc_payload::laws::front_has_no_head;
use warc_payload::{HeadFault, MOST_HEAD_BYTES, StoredHead, read_head};
use warc_segment::Place;
use warc_segment::laws::joined_has_total;
use warc_value::Verdict;

/// How many bytes of longer blocks are read at first to find an HTTP head in them. Most heads are shorter.
const FRONT: usize = 2_048;

/// The HTTP head at the front of the joined blocks, none of which is bad, if it ends where the buffer does or before.
fn head_in_front<S: Source, A: Allocator + Copy>(
    alloc: A,
    source: &mut S,
    places: &[Place],
    front: &mut [u8],
) -> Result<StoredHead<A>, ReplayFault>
    requires { length front.old ≤ most_head_bytes }
    ensures found { IfHeld (S.seen source.old).holds (λ bytes. LieIn places.now bytes →
        IfOk result (λ head. IsHeadIn false (text_at places.now bytes) (Ok head))) }
    ensures whole { HasRoom (length front.old) places.now → IfHeld (S.seen source.old).holds (λ bytes.
        LieIn places.now bytes → IsHeadIn false (text_at places.now bytes) result) }
    ensures early { IfErr result IsEarly }
    ensures reads { ReadsPlaces places.now (len_of places.now) (S.seen source.old) (S.seen source.new) }
    ensures fails { FailsBy (LieIn places.now) (out_result result) (S.seen source.old) (S.seen source.new) }
{
    front_has_no_head();
    let n = match read_front(source, places, front) {
        Ok(n) => n,
        Err(_) => return Err(ReplayFault::Out(OutFault::Read(0))),
    };
    match read_head(alloc, &front[..n]) {
        Ok(head) => Ok(head),
        Err(HeadFault::Bad) => Err(ReplayFault::Reason(Reason::BadHead)),
        Err(HeadFault::Memory) => Err(ReplayFault::Out(OutFault::Memory(0))),
    }
}

/// The HTTP head at the front of the joined blocks, none of which is bad, through a buffer that has room for any head.
/// It stays out of line: else a caller would hold this buffer where it reads, through another one, blocks of which
/// nothing is known.
#[inline(never)]
fn find_long_head<S: Source, A: Allocator + Copy>(
    alloc: A,
    source: &mut S,
    places: &[Place],
) -> Result<StoredHead<A>, ReplayFault>
    ensures begins { IfHeld (S.seen source.old).holds (λ bytes. LieIn places.now bytes →
        IsHeadIn false (text_at places.now bytes) result) }
    ensures early { IfErr result IsEarly }
    ensures reads { ReadsPlaces places.now (len_of places.now) (S.seen source.old) (S.seen source.new) }
    ensures fails { FailsBy (LieIn places.now) (out_result result) (S.seen source.old) (S.seen source.new) }
{
    let mut front = [0; MOST_HEAD_BYTES];
    head_in_front(alloc, source, places, &mut front)
}

/// The HTTP head at the front of the joined blocks, none of which is bad, through a short buffer first.
fn find_head<S: Source, A: Allocator + Copy>(
    alloc: A,
    source: &mut S,
    places: &[Place],
) -> Result<StoredHead<A>, ReplayFault>
    ensures begins { IfHeld (S.seen source.old).holds (λ bytes. LieIn places.now bytes →
        IsHeadIn false (text_at places.now bytes) result) }
    ensures early { IfErr result IsEarly }
    ensures reads { ReadsPlaces places.now (2 * len_of places.now) (S.seen source.old) (S.seen source.new) }
    ensures fails { FailsBy (LieIn places.now) (out_result result) (S.seen source.old) (S.seen source.new) }
{
    if total(places) <= SHORT as u64 {
        let mut front = [0; SHORT];
        return head_in_front(alloc, source, places, &mut front);
    }
    let mut front = [0; FRONT];
    match head_in_front(alloc, source, places, &mut front) {
        Ok(head) => Ok(head),
        Err(ReplayFault::Reason(_)) => find_long_head(alloc, source, places),
        Err(ReplayFault::Out(fault)) => Err(ReplayFault::Out(fault)),
    }
}

/// What is stored in the joined blocks of an HTTP response, none of which is bad.
pub(crate) fn find_stored_http<S: Source, A: Allocator + Copy>(
    alloc: A,
    source: &mut S,
    places: &[Place],
) -> Result<Stored<A>, ReplayFault>
    ensures seen { IfHeld (S.seen source.old).holds (λ bytes. (fields : List Pair) → LieIn places.now bytes →
        any_bad_at bytes places.now ≡ false → IsSeenIn true fields bytes places.now result) }
    ensures early { IfErr result IsEarly }
    ensures reads { ReadsPlaces places.now (2 * len_of places.now) (S.seen source.old) (S.seen source.new) }
    ensures fails { FailsBy (LieIn places.now) (out_result result) (S.seen source.old) (S.seen source.new) }
{
    let head = find_head(alloc, source, places)?;
    Ok(stored_after(head, places))
}

/// What is stored of an origin, none of whose blocks is bad.
fn judge_good<S: Source, A: Allocator + Copy>(
    alloc: A,
    source: &mut S,
    http: bool,
    own: &[u8],
    places: &[Place],
) -> Result<Stored<A>, ReplayFault>
    ensures judged { IfHeld (S.seen source.old).holds (λ bytes. (content : Record) (joined : List ReadRecord) →
        IsContentOn bytes content joined places.now → http ≡ is_http_response (reading_of content.fields) →
        own.now ≡ own_type content.fields → list_any has_bad_block joined ≡ false →
        IsJudged content joined result) }
    ensures early { IfErr result IsEarly }
    ensures reads { ReadsPlaces places.now (2 * len_of places.now) (S.seen source.old) (S.seen source.new) }
    ensures fails { FailsBy (AreBlocksIn places.now) (out_result result) (S.seen source.old) (S.seen source.new) }
{
    joined_has_total();
    if http {
        find_stored_http(alloc, source, places)
    } else {
        all_of(alloc, own, places)
    }
}

/// What is stored of an origin, as `find_stored` judges it, by what is known of the joined blocks. If they are good,
/// the front of an HTTP response alone is read, to find its head: 2,048 bytes of it, and if the head is longer, 65,536.
/// If they are bad, nothing is read. If nothing is known, they are judged.
pub fn judge_known<S: Source, A: Allocator + Copy>(
    alloc: A,
    source: &mut S,
    http: bool,
    own: &[u8],
    places: &[Place],
    known: Verdict,
) -> Result<Stored<A>, ReplayFault>
    ensures judged { IfHeld (S.seen source.old).holds (λ bytes. (content : Record) (joined : List ReadRecord) →
        IsContentOn bytes content joined places.now → http ≡ is_http_response (reading_of content.fields) →
        own.now ≡ own_type content.fields → Agrees known (list_any has_bad_block joined) →
        IsJudged content joined result) }
    ensures early { IfErr result IsEarly }
    ensures reads { ReadsPlaces places.now (2 * len_of places.now) (S.seen source.old) (S.seen source.new) }
    ensures fails { FailsBy (AreBlocksIn places.now) (out_result result) (S.seen source.old) (S.seen source.new) }
{
    match known {
        Verdict::Unchecked => find_stored(alloc, source, http, own, places),
        Verdict::Good => judge_good(alloc, source, http, own, places),
        Verdict::Bad => Err(ReplayFault::Reason(Reason::BadDigest)),
    }
}
