//! The end of a replay, after the look-up of the capture and of its origin, and the joining of its segments.
ghost use Rattle.std.specs.Prelude.{◌≡◌, ℕ, List, drop, Option, Result, Err, IfErr, IfOk};
ghost use Rattle.std.specs.List.{list_any};
ghost use Rattle.warc_frame.specs.Count.{capped};
ghost use Rattle.warc_frame.specs.Effects.{FailsBy};
ghost use Rattle.warc_frame.specs.Record.{Record};
ghost use Rattle.warc_frame.specs.Seen.{IfHeld};
ghost use Rattle.warc_index.specs.declared.unfound.Unfound.{Unfound};
ghost use Rattle.warc_answer.specs.Answers.{IsAnswerOn};
ghost use Rattle.warc_answer.specs.Origins.{AreBlocksIn, IsJoinedOn, ReadsToJudge, body_reads};
ghost use Rattle.warc_answer.specs.Places.{ReadsPlaces, len_of, text_at};
ghost use Rattle.warc_answer.specs.Replays.{IsReplayOn, WantsNoMemory, WritesLate, given, out_result};
ghost use Rattle.warc_answer.specs.Seen.{IsEarly};

use crate::answer::{Answer, Path, Reason, ReplayFault};
use crate::blocks::send_blocks;
use crate::body::find_body;
use warc_frame::{Sink, Source};
use warc_payload::laws::one_of_three;
use warc_segment::Place;
use warc_segment::laws::joined_has_total;

/// Whether some record is marked as truncated.
pub(crate) fn any_truncated(places: &[Place]) -> bool
    ensures { result ≡ list_any (λ p. p.truncated) places.now }
{
    places.iter().any(|place| place.truncated)
}

/// The sum of the lengths of the blocks, up to 2^64 - 1.
pub(crate) fn total(places: &[Place]) -> u64
    ensures { result ≡ capped (len_of places.now) }
{
    let mut total = 0u64;
    'adding: for place in places {
        total = total.saturating_add(place.len);
    }
    total
}

/// What is said of a body, and how many bytes of the joined blocks come before it.
#[derive(Clone, Copy, Debug, PartialEq, Eq)]
pub(crate) struct Begun {
    pub(crate) answer: Answer,
    pub(crate) skip: u64,
}

/// What is said of the payload of an origin, and where in the joined blocks it begins. The joined blocks are judged.
pub(crate) fn begin_body<S: Source>(
    source: &mut S,
    path: Path,
    http: bool,
    places: &[Place],
) -> Result<Begun, ReplayFault>
    ensures begun { IfHeld (S.seen source.old).holds (λ bytes. (records : List Record)
        (found : Result Path Unfound) → IsJoinedOn bytes records found path http places.now →
        IfOk result (λ b. IsAnswerOn records found (given b.answer (drop b.skip (text_at places.now bytes))))) }
    ensures refused { IfHeld (S.seen source.old).holds (λ bytes. (records : List Record)
        (found : Result Path Unfound) → IsJoinedOn bytes records found path http places.now →
        IfErr result (λ fault. (reported : Option (List ℕ)) → IsReplayOn records found (Err fault) reported reported)) }
    ensures early { IfErr result IsEarly }
    ensures device { IfErr result WantsNoMemory }
    ensures reads { ReadsToJudge http places.now (S.seen source.old) (S.seen source.new) }
    ensures fails { FailsBy (AreBlocksIn places.now) (out_result result) (S.seen source.old) (S.seen source.new) }
{
    one_of_three();
    joined_has_total();
    let start = find_body(source, http, places)?;
    Ok(Begun {
        answer: Answer {
            chosen: path.chosen,
            given: path.given,
            status: start.status,
            truncated: any_truncated(places),
            length: total(places).saturating_sub(start.skip),
        },
        skip: start.skip,
    })
}

/// Writes the payload of an origin, and answers what it is. `places` are the places of the joined blocks, as
/// `Parts::join` gives them; `http` says whether the origin is an HTTP response. For a reason, nothing is written. No
/// block is kept: the joined blocks are read once to judge their digests and to find the HTTP head, and once more to
/// write the body, through a buffer of 8,192 bytes. If the source changes in between, the body isn't what was judged.
pub fn replay_joined<S: Source, W: Sink>(
    source: &mut S,
    path: Path,
    http: bool,
    places: &[Place],
    out: &mut W,
) -> Result<Answer, ReplayFault>
    ensures replayed { IfHeld (S.seen source.old).holds (λ bytes. (records : List Record)
        (found : Result Path Unfound) → IsJoinedOn bytes records found path http places.now →
        IsReplayOn records found result (W.seen out.old).reports (W.seen out.new).reports) }
    ensures late { WritesLate result (W.seen out.old) (W.seen out.new) }
    ensures device { IfErr result WantsNoMemory }

    // The joined blocks alone are read, at most twice for each byte. If the origin is no HTTP response, those whose
    // digest can't be checked are read at most once.
    ensures reads { ReadsPlaces places.now (body_reads http places.now) (S.seen source.old) (S.seen source.new) }
    ensures fails { FailsBy (AreBlocksIn places.now) (out_result result) (S.seen source.old) (S.seen source.new) }
{
    let begun = begin_body(source, path, http, places)?;
    send_blocks(source, places, begun.skip, out)?;
    Ok(begun.answer)
}
