//! Joined blocks, judged and written, read from their places in a source.
ghost use Rattle.std.specs.Prelude.{◌≡◌, ◌+◌, ◌-◌, ◌<◌, ◌≤◌, false, length, take, drop, IfErr, IfOk, IfSome, OnOk};
ghost use Rattle.warc_value.specs.Digests.{verdict_of};
ghost use Rattle.warc_frame.specs.Effects.{Emits, FailsBy, HasRange, IsOfDevice, ReadsRange, Sends, read_result};
ghost use Rattle.warc_frame.specs.Seen.{IfHeld};
ghost use Rattle.warc_digest.specs.Judging.{judged_len};
ghost use Rattle.warc_answer.specs.Giving.{IsFront, any_bad_at};
ghost use Rattle.warc_answer.specs.Origins.{ReadsToJudge};
ghost use Rattle.warc_answer.specs.Places.{IsPlacedText, LieIn, ReadsPlaces, bytes_at, len_of, text_at};

use crate::replay::total;
use warc_digest::take_range;
use warc_fixity::Judge;
use warc_fixity::laws::wanted_is_judged;
use warc_frame::laws::went_out_of_longer;
use warc_frame::{OutBuffer, OutFault, PIECE, ReadFault, Sink, Source, put_range, read_range};
use warc_segment::Place;
use warc_value::{Verdict, Wanted};

/// The length of the buffer through which blocks are read that are no longer together. Clearing a longer one would take
/// as long as reading them.
pub(crate) const SHORT: usize = 512;

/// Fills the buffer with the bytes at an offset. It fails where a read does, where the source ends too early, and where
/// the bytes don't end before offset 2^64.
fn read_bytes<S: Source>(source: &mut S, at: u64, buf: &mut [u8]) -> Result<(), ReadFault>
    ensures bytes { IfHeld (S.seen source.old).holds (λ bytes.
        OnOk result (buf.new ≡ take (length buf.old) (drop at bytes))) }
    ensures reads { ReadsRange at (length buf.old) (S.seen source.old) (S.seen source.new) }
    ensures fails { FailsBy (HasRange at (length buf.old)) (read_result result) (S.seen source.old)
        (S.seen source.new) }
{
    if buf.len() as u64 > u64::MAX - at {
        return Err(ReadFault);
    }
    read_range(source, at, buf)
}

/// Judges the block at a place, and fills the buffer with its front. After the front it reads only a block whose digest
/// can be checked.
fn judge_block<S: Source>(
    source: &mut S,
    place: &Place,
    front: &mut [u8],
    scratch: &mut [u8],
) -> Result<Verdict, ReadFault>
    requires { (0 < length scratch.old) × (length front.old ≤ place.now.len) }
    ensures bytes { IfHeld (S.seen source.old).holds (λ bytes.
        OnOk result (front.new ≡ take (length front.old) (drop place.now.start bytes))) }
    ensures verdict { IfHeld (S.seen source.old).holds (λ bytes. HasRange place.now.start place.now.len bytes →
        IfOk result (λ verdict. verdict ≡ verdict_of place.now.wanted (bytes_at bytes place.now))) }
    ensures reads { ReadsRange place.now.start (length front.old + judged_len place.now.wanted (place.now.len - length
        front.old)) (S.seen source.old) (S.seen source.new) }
    ensures fails { FailsBy (HasRange place.now.start place.now.len) (read_result result) (S.seen source.old)
        (S.seen source.new) }
{
    read_bytes(source, place.start, front)?;
    if let Wanted::Unchecked = place.wanted {
        return Ok(Verdict::Unchecked);
    }
    wanted_is_judged();
    let mut judge = Judge::wanting(&place.wanted);
    judge.update(front);
    let done = front.len() as u64;
    let at = place.start.saturating_add(done);
    take_range(source, at, place.len - done, scratch, &mut judge)?;
    Ok(judge.verdict())
}

/// Judges the joined blocks one after another, through `scratch`, and fills the buffer with their front, as far as
/// either goes. It answers how far, or that a block isn't what its digest says; then nothing after that block is read.
fn judge_each<S: Source>(
    source: &mut S,
    places: &[Place],
    front: &mut [u8],
    scratch: &mut [u8],
) -> Result<Option<usize>, ReadFault>
    requires { 0 < length scratch.old }
    ensures within { IfOk result (λ filled. IfSome filled (λ n. n ≤ length front.new)) }
    ensures judged { IfHeld (S.seen source.old).holds (λ bytes. LieIn places.now bytes → IfOk result
        (IsFront (any_bad_at bytes places.now) (take (length front.old) (text_at places.now bytes)) front.new)) }
    ensures reads { ReadsPlaces places.now (len_of places.now) (S.seen source.old) (S.seen source.new) }
    ensures checked { length front.old ≡ 0 → ReadsToJudge false places.now (S.seen source.old) (S.seen source.new) }
    ensures fails { FailsBy (LieIn places.now) (read_result result) (S.seen source.old) (S.seen source.new) }
{
    let mut filled = 0;
    'judging: for place in places {
        let want = (front.len() - filled).min(place.len as usize);
        let verdict = judge_block(source, place, &mut front[filled..filled + want], scratch)?;
        if verdict.is_bad() {
            return Ok(None);
        }
        filled += want;
    }
    Ok(Some(filled))
}

/// Judges joined blocks one after another, as `judge_each`, through a buffer of its own, which is short if they are.
pub(crate) fn judge_blocks<S: Source>(
    source: &mut S,
    places: &[Place],
    front: &mut [u8],
) -> Result<Option<usize>, ReadFault>
    ensures within { IfOk result (λ filled. IfSome filled (λ n. n ≤ length front.new)) }
    ensures judged { IfHeld (S.seen source.old).holds (λ bytes. LieIn places.now bytes → IfOk result
        (IsFront (any_bad_at bytes places.now) (take (length front.old) (text_at places.now bytes)) front.new)) }
    ensures reads { ReadsPlaces places.now (len_of places.now) (S.seen source.old) (S.seen source.new) }
    ensures checked { length front.old ≡ 0 → ReadsToJudge false places.now (S.seen source.old) (S.seen source.new) }
    ensures fails { FailsBy (LieIn places.now) (read_result result) (S.seen source.old) (S.seen source.new) }
{
    if total(places) <= SHORT as u64 {
        let mut scratch = [0; SHORT];
        return judge_each(source, places, front, &mut scratch);
    }
    let mut scratch = [0; PIECE];
    judge_each(source, places, front, &mut scratch)
}

/// Fills the buffer with the front of the joined blocks, as far as either goes, and returns how far. No block is
/// judged.
pub(crate) fn read_front<S: Source>(
    source: &mut S,
    places: &[Place],
    front: &mut [u8],
) -> Result<usize, ReadFault>
    ensures within { IfOk result (λ filled. filled ≤ length front.new) }
    ensures front { IfHeld (S.seen source.old).holds (λ bytes. LieIn places.now bytes → IfOk result (λ filled.
        take filled front.new ≡ take (length front.old) (text_at places.now bytes))) }
    ensures reads { ReadsPlaces places.now (len_of places.now) (S.seen source.old) (S.seen source.new) }
    ensures fails { FailsBy (LieIn places.now) (read_result result) (S.seen source.old) (S.seen source.new) }
{
    let mut filled = 0;
    'reading: for place in places {
        let want = (front.len() - filled).min(place.len as usize);
        read_bytes(source, place.start, &mut front[filled..filled + want])?;
        filled += want;
    }
    Ok(filled)
}

/// Whether some joined block isn't what its digest says. Only those are read whose digest can be checked.
pub(crate) fn any_bad<S: Source>(source: &mut S, places: &[Place]) -> Result<bool, ReadFault>
    ensures judged { IfHeld (S.seen source.old).holds (λ bytes. LieIn places.now bytes →
        IfOk result (λ bad. bad ≡ any_bad_at bytes places.now)) }
    ensures reads { ReadsToJudge false places.now (S.seen source.old) (S.seen source.new) }
    ensures fails { FailsBy (LieIn places.now) (read_result result) (S.seen source.old) (S.seen source.new) }
{
    Ok(judge_blocks(source, places, &mut [])?.is_none())
}

/// Adds the joined blocks to the output, without their first `skip` bytes.
fn put_blocks<S: Source, W: Sink>(
    source: &mut S,
    places: &[Place],
    skip: u64,
    scratch: &mut [u8],
    buffer: &mut OutBuffer,
    out: &mut W,
) -> Result<(), OutFault>
    requires { 0 < length scratch.old }
    ensures emits { Emits (IsPlacedText places.now skip) (S.seen source.old) (S.seen source.new) (W.seen out.old)
        (W.seen out.new) buffer.old buffer.new result }
    ensures device { IfErr result IsOfDevice }
    ensures reads { ReadsPlaces places.now (len_of places.now) (S.seen source.old) (S.seen source.new) }
{
    went_out_of_longer();
    let mut left = skip;
    'putting: for place in places {
        let gone = left.min(place.len);
        let at = place.start.saturating_add(gone);
        put_range(source, at, place.len - gone, scratch, buffer, out)?;
        left -= gone;
    }
    Ok(())
}

/// Writes the joined blocks, without their first `skip` bytes, through `scratch`.
fn send_through<S: Source, W: Sink>(
    source: &mut S,
    places: &[Place],
    skip: u64,
    scratch: &mut [u8],
    out: &mut W,
) -> Result<(), OutFault>
    requires { 0 < length scratch.old }
    ensures sends { Sends (IsPlacedText places.now skip) (S.seen source.old) (S.seen source.new) (W.seen out.old)
        (W.seen out.new) result }
    ensures device { IfErr result IsOfDevice }
    ensures reads { ReadsPlaces places.now (len_of places.now) (S.seen source.old) (S.seen source.new) }
{
    let mut buffer = OutBuffer::new();
    put_blocks(source, places, skip, scratch, &mut buffer, out)?;
    buffer.flush(out)?;
    Ok(())
}

/// Writes the joined blocks, without their first `skip` bytes.
pub fn send_blocks<S: Source, W: Sink>(
    source: &mut S,
    places: &[Place],
    skip: u64,
    out: &mut W,
) -> Result<(), OutFault>
    ensures sends { Sends (IsPlacedText places.now skip) (S.seen source.old) (S.seen source.new) (W.seen out.old)
        (W.seen out.new) result }
    ensures device { IfErr result IsOfDevice }
    ensures reads { ReadsPlaces places.now (len_of places.now) (S.seen source.old) (S.seen source.new) }
{
    if total(places) <= SHORT as u64 {
        let mut scratch = [0; SHORT];
        return send_through(source, places, skip, &mut scratch, out);
    }
    let mut scratch = [0; PIECE];
    send_through(source, places, skip, &mut scratch, out)
}
