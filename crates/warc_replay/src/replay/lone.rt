//! What is stored of an origin that is no response and no segment, and whose block is known to be good: all of its own
//! block. Of its head the `Content-Type` alone is looked for, since its row says the rest.
ghost use Rattle.std.specs.Prelude.{◌≡◌, ◌∷◌, [], IfErr, IfOk, IfSome};
ghost use Rattle.warc_answer.specs.Payloads.{is_response};
ghost use Rattle.warc_answer.specs.Seen.{IsEarly, stored_seen};
ghost use Rattle.warc_answer.specs.declared.answer.ReplayFault.TheVariants.{Out};
ghost use Rattle.warc_frame.specs.Effects.{FailsBy};
ghost use Rattle.warc_frame.specs.Record.{Record};
ghost use Rattle.warc_frame.specs.Seen.{IfHeld};
ghost use Rattle.warc_reading.specs.Rereading.{HasHeadOf, HasRoomFor, IsHeadText, ReadsHeads};
ghost use Rattle.warc_reading.specs.Row.{Row as RowSeen};
ghost use Rattle.warc_record.specs.Kinds.{kind_named};
ghost use Rattle.warc_replay.specs.Capturing.{JudgesBy};
ghost use Rattle.warc_replay.specs.KnownGaps.{AreKnownSeries};
ghost use Rattle.warc_replay.specs.Lone.{IfLone, JudgesLone, own_block};
ghost use Rattle.warc_replay.specs.TypeLines.{IsUnsegmentedType};

use crate::replay::known_gaps::KnownGaps;
use crate::replay::stored::judge_by;
use crate::replay::type_line::unsegmented_type;
use std::alloc::Allocator;
use warc_answer::{Reason, Stored};
use warc_frame::laws::head_of_spelled;
use warc_frame::{OutFault, Source};
use warc_judged::Verdicts;
use warc_lookup::Lookup;
use warc_payload::media_type;
use warc_reading::{Row, Rows, reread_text};
use warc_record::Kind;
use warc_value::Verdict;

/// How many bytes come before the field area of a head, and after it.
const VERSION_LINE: usize = 10;

const EMPTY_LINE: usize = 2;

/// A head of at most this many bytes is looked at so.
const SHORT_HEAD: usize = 512;

/// Whether a text names the type of responses.
fn is_response(kind: &[u8]) -> bool
    ensures { result ≡ is_response (kind_named kind.now) }
{
    matches!(Kind::named(kind), Kind::Response)
}

/// The value of the first `Content-Type` of a whole head, empty if it has none. `None`: it may be a segment's, or have
/// a folded line.
fn type_in_head(text: &[u8]) -> Option<&[u8]>
    ensures { IfSome result (λ value. (r : Record) (row : RowSeen) → IsHeadText r row text.now →
        IsUnsegmentedType r.fields value.now) }
{
    if text.len() < VERSION_LINE + EMPTY_LINE {
        return None;
    }
    unsegmented_type(&text[VERSION_LINE..text.len() - EMPTY_LINE])
}

/// All of the block of a row's record, whose own `Content-Type` has this value.
fn own_block<A: Allocator + Copy>(
    alloc: A,
    row: &Row<'_>,
    content_type: &[u8],
) -> Result<Stored<A>, OutFault>
    ensures made { IfOk result (λ s. stored_seen s ≡ own_block row.now content_type.now) }
    ensures memory { IfErr result (λ e. e ≡ OutFault.Memory 0) }
{
    match Vec::from_slice(alloc, media_type(content_type)) {
        Ok(media_type) => Ok(Stored {
            status: None,
            media_type,
            codings: Vec::new(alloc),
            coded: false,
            truncated: row.is_truncated,
            head_len: 0,
            length: row.block_len,
        }),
        Err(_) => Err(OutFault::Memory(0)),
    }
}

/// What is stored of a row's record by the text of its head. `None`: this can't say it.
fn stored_in<A: Allocator + Copy>(
    alloc: A,
    row: &Row<'_>,
    text: &[u8],
) -> Result<Option<Stored<A>>, OutFault>
    ensures made { (r : Record) → IsHeadText r row.now text.now → IfOk result (IfLone r.fields row.now) }
    ensures memory { IfErr result (λ e. e ≡ OutFault.Memory 0) }
{
    let Some(content_type) = type_in_head(text) else {
        return Ok(None);
    };
    match own_block(alloc, row, content_type) {
        Ok(stored) => Ok(Some(stored)),
        Err(fault) => Err(fault),
    }
}

/// What `stored_in` gives, by the head of a row's record, which is read again through a buffer that has room for it.
fn stored_through<S: Source, A: Allocator + Copy>(
    alloc: A,
    source: &mut S,
    row: &Row<'_>,
    buf: &mut [u8],
) -> Result<Option<Stored<A>>, OutFault>
    requires { HasRoomFor row.now buf.old }
    ensures made { IfHeld (S.seen source.old).holds (λ bytes. (is : HasHeadOf row.now bytes) →
        IfOk result (IfLone is.placed.content.fields row.now)) }
    ensures early { IfErr result (λ e. IsEarly (Out e)) }
    ensures reads { ReadsHeads (row.now ∷ []) (S.seen source.old) (S.seen source.new) }
    ensures fails { FailsBy (HasHeadOf row.now) result (S.seen source.old) (S.seen source.new) }
{
    match reread_text(source, row, buf) {
        Ok(len) => stored_in(alloc, row, &buf[..len]),
        Err(fault) => Err(fault.after(0)),
    }
}

/// What is stored of the origin at a position, if that is no response and no segment, and its block is good. `None`:
/// this can't say it. Nothing is read but its head, and that only if it is short.
fn judge_lone<S: Source, A: Allocator + Copy>(
    source: &mut S,
    rows: &Rows<A>,
    position: usize,
) -> Result<Option<Stored<A>>, OutFault>
    ensures { JudgesLone rows.now position (S.seen source.old) (S.seen source.new) result }
{
    head_of_spelled();
    let Some(row) = rows.get(position) else {
        return Ok(None);
    };
    if is_response(row.kind) {
        return Ok(None);
    }
    if row.block_start.saturating_sub(row.offset) > SHORT_HEAD as u64 {
        return Ok(None);
    }
    let mut buf = [0; SHORT_HEAD];
    stored_through(rows.allocator(), source, &row, &mut buf)
}

/// What is stored of an origin, or the reason why nothing is, as `judge_by` says it. Where segments are joined it is
/// asked at once, so that no head of theirs is read twice.
pub(crate) fn judge_once<S: Source, A: Allocator + Copy>(
    source: &mut S,
    rows: &Rows<A>,
    lookup: &Lookup<A>,
    gaps: &mut KnownGaps<A>,
    rests: &mut Verdicts<A>,
    position: usize,
    own: Verdict,
    joined: Verdict,
) -> Result<Result<Stored<A>, Reason>, OutFault>
    requires { AreKnownSeries lookup.now.parts gaps.old }
    ensures judges { JudgesBy rows.now lookup.now.parts position own joined rests.old rests.new (S.seen source.old)
        (S.seen source.new) result }
    ensures known { AreKnownSeries lookup.now.parts gaps.new }
{
    match own {
        Verdict::Good => {}
        _ => return judge_by(source, rows, lookup, gaps, rests, position, own, joined),
    }
    if lookup.parts.has_segments() {
        return judge_by(source, rows, lookup, gaps, rests, position, own, joined);
    }
    match judge_lone(source, rows, position) {
        Ok(Some(stored)) => Ok(Ok(stored)),
        Ok(None) => judge_by(source, rows, lookup, gaps, rests, position, own, joined),
        Err(fault) => Err(fault),
    }
}
