//! The origin of a capture: what its head says, read again, and the places of the blocks that are joined to its own.
ghost use Rattle.std.specs.Prelude.{◌≡◌, ◌∷◌, [], IfErr, IfOk, List, None};
ghost use Rattle.warc_answer.specs.Seen.{IsEarly};
ghost use Rattle.warc_answer.specs.Stored.{own_type};
ghost use Rattle.warc_answer.specs.Replays.{out_result};
ghost use Rattle.warc_frame.specs.Effects.{FailsBy};
ghost use Rattle.warc_frame.specs.Record.{Record};
ghost use Rattle.warc_frame.specs.Seen.{IfHeld};
ghost use Rattle.warc_reading.specs.Rereading.{HasHeadOf, HasRoomFor, IsHeadText, ReadsHeads};
ghost use Rattle.warc_record.specs.Heads.{head_fault};
ghost use Rattle.warc_record.specs.Seen.{said};
ghost use Rattle.warc_segment.specs.Joined.{PlacedRecord};
ghost use Rattle.warc_segment.specs.Kept.{kept_in};
ghost use Rattle.warc_replay.specs.KnownGaps.{AreKnownSeries};
ghost use Rattle.warc_replay.specs.Origins.{FindsOrigin, IsOfSeries, IsOriginBy, IsOriginOf, IsPlacedBy, IsUnjoined, place_in};

use crate::replay::known_gaps::{KnownGaps, join_once};
use crate::replay::known_series::Shared;
use std::alloc::Allocator;
use warc_answer::{Reason, ReplayFault, is_http_response};
use warc_field::Fields;
use warc_frame::laws::head_of_spelled;
use warc_frame::{OutFault, Source, names};
use warc_lookup::Lookup;
use warc_quick::alone_head;
use warc_reading::{Row, Rows, buffer_for, good_head_in, reread_text};
use warc_record::Typed;
use warc_segment::{JoinFault, Parts, Place};
use warc_value::Wanted;

/// What is kept of an origin.
#[derive(Drop)]
pub(crate) struct Origin<A: Allocator> {
    /// Whether it is an HTTP response.
    pub(crate) http: bool,

    /// The value of its own `Content-Type`, empty where it has none.
    pub(crate) content_type: Vec<u8, A>,

    /// The places of the blocks that are joined to its own.
    pub(crate) places: Vec<Place, A>,

    /// The series that they are joined from, if it begins one.
    pub(crate) shared: Option<Shared>,
}

/// The value of a record's own `Content-Type`, empty where it has none.
fn own_type<A: Allocator>(fields: &Fields<A>) -> &[u8]
    ensures { result.now ≡ own_type fields.now }
{
    fields.value_of(names::CONTENT_TYPE.as_bytes())
}

/// The place of the block of a row's record, of which this digest is asked.
fn place_in(row: &Row<'_>, wanted: Wanted) -> Place
    ensures { result ≡ place_in row.now wanted }
{
    Place {
        start: row.block_start,
        len: row.block_len,
        wanted,
        truncated: row.is_truncated,
    }
}

/// What is kept of an origin whose head says this, and has this `Content-Type`.
fn origin_by<A: Allocator + Copy>(
    alloc: A,
    parts: &Parts<A>,
    gaps: &mut KnownGaps<A>,
    row: &Row<'_>,
    typed: &Typed<'_>,
    content_type: &[u8],
) -> Result<Origin<A>, ReplayFault>
    requires known { AreKnownSeries parts.now gaps.old }
    ensures made { (all : List PlacedRecord) → parts.now ≡ kept_in all →
        IsOriginBy all row.now (said typed.now) content_type.now result }
    ensures fault { IfErr result IsUnjoined }
    ensures known { AreKnownSeries parts.now gaps.new }
{
    let Ok(content_type) = Vec::from_slice(alloc, content_type) else {
        return Err(ReplayFault::Out(OutFault::Memory(0)));
    };
    let http = is_http_response(typed);
    match join_once(parts, gaps, typed, place_in(row, typed.wanted())) {
        Ok(joined) => Ok(Origin {
            http,
            content_type,
            places: joined.places,
            shared: joined.shared,
        }),
        Err(JoinFault::Gap(gap)) => Err(ReplayFault::Reason(Reason::Segments(gap))),
        Err(JoinFault::Memory) => Err(ReplayFault::Out(OutFault::Memory(0))),
    }
}

/// What is kept of the origin whose head a text is, by all its fields.
fn origin_by_fields<A: Allocator + Copy>(
    alloc: A,
    parts: &Parts<A>,
    gaps: &mut KnownGaps<A>,
    row: &Row<'_>,
    text: &[u8],
) -> Result<Origin<A>, ReplayFault>
    requires known { AreKnownSeries parts.now gaps.old }
    ensures made { (r : Record) → IsHeadText r row.now text.now → head_fault r.fields ≡ None →
        (all : List PlacedRecord) → parts.now ≡ kept_in all → IsOriginOf all row.now r.fields result }
    ensures placed { (all : List PlacedRecord) → parts.now ≡ kept_in all → IfOk result (IsPlacedBy all row.now) }
    ensures fault { (r : Record) → IsHeadText r row.now text.now → head_fault r.fields ≡ None →
        IfErr result IsUnjoined }
    ensures early { IfErr result IsEarly }
    ensures known { AreKnownSeries parts.now gaps.new }
{
    let head = match good_head_in(alloc, text, row.block_len) {
        Ok(head) => head,
        Err(fault) => return Err(ReplayFault::Out(fault.after(0))),
    };
    origin_by(
        alloc,
        parts,
        gaps,
        row,
        &head.typed(),
        own_type(head.fields()),
    )
}

/// What is kept of the origin whose head a text is.
fn origin_in<A: Allocator + Copy>(
    alloc: A,
    parts: &Parts<A>,
    gaps: &mut KnownGaps<A>,
    row: &Row<'_>,
    text: &[u8],
) -> Result<Origin<A>, ReplayFault>
    requires known { AreKnownSeries parts.now gaps.old }
    ensures made { (r : Record) → IsHeadText r row.now text.now → head_fault r.fields ≡ None →
        (all : List PlacedRecord) → parts.now ≡ kept_in all → IsOriginOf all row.now r.fields result }
    ensures placed { (all : List PlacedRecord) → parts.now ≡ kept_in all → IfOk result (IsPlacedBy all row.now) }
    ensures fault { (r : Record) → IsHeadText r row.now text.now → head_fault r.fields ≡ None →
        IfErr result IsUnjoined }
    ensures early { IfErr result IsEarly }
    ensures known { AreKnownSeries parts.now gaps.new }
{
    match alone_head(text, row.block_len) {
        Some(head) => origin_by(alloc, parts, gaps, row, &head.typed, head.content_type),
        None => origin_by_fields(alloc, parts, gaps, row, text),
    }
}

/// What is kept of the origin that is a row's record. Its head is read again, through a buffer that it fits, and
/// nothing else is.
fn origin_through<S: Source, A: Allocator + Copy>(
    alloc: A,
    source: &mut S,
    parts: &Parts<A>,
    gaps: &mut KnownGaps<A>,
    row: &Row<'_>,
    buf: &mut [u8],
) -> Result<Origin<A>, ReplayFault>
    requires room { HasRoomFor row.now buf.old }
    requires known { AreKnownSeries parts.now gaps.old }
    ensures made { IfHeld (S.seen source.old).holds (λ bytes. (is : HasHeadOf row.now bytes) →
        (all : List PlacedRecord) → parts.now ≡ kept_in all →
        IsOriginOf all row.now is.placed.content.fields result) }
    ensures placed { (all : List PlacedRecord) → parts.now ≡ kept_in all → IfOk result (IsPlacedBy all row.now) }
    ensures early { IfErr result IsEarly }
    ensures reads { ReadsHeads (row.now ∷ []) (S.seen source.old) (S.seen source.new) }
    ensures fails { FailsBy (HasHeadOf row.now) (out_result result) (S.seen source.old) (S.seen source.new) }
    ensures known { AreKnownSeries parts.now gaps.new }
{
    match reread_text(source, row, buf) {
        Ok(len) => origin_in(alloc, parts, gaps, row, &buf[..len]),
        Err(fault) => Err(ReplayFault::Out(fault.after(0))),
    }
}

/// The origin at a position. Its head is read again, and nothing else is. A series that is known isn't put in order
/// again.
pub(crate) fn origin_once<S: Source, A: Allocator + Copy>(
    source: &mut S,
    rows: &Rows<A>,
    lookup: &Lookup<A>,
    gaps: &mut KnownGaps<A>,
    position: usize,
) -> Result<Origin<A>, ReplayFault>
    requires { AreKnownSeries lookup.now.parts gaps.old }
    ensures finds { FindsOrigin rows.now lookup.now.parts position (S.seen source.old) (S.seen source.new) result }
    ensures series { (all : List PlacedRecord) → lookup.now.parts ≡ kept_in all →
        IfOk result (λ o. IsOfSeries all o.shared o.places.items) }
    ensures known { AreKnownSeries lookup.now.parts gaps.new }
{
    head_of_spelled();
    let alloc = rows.allocator();
    let Some(row) = rows.get(position) else {
        return Err(ReplayFault::Out(OutFault::Read(0)));
    };
    let Ok(mut buf) = buffer_for(alloc, &row) else {
        return Err(ReplayFault::Out(OutFault::Memory(0)));
    };
    origin_through(alloc, source, &lookup.parts, gaps, &row, &mut buf)
}

/// The origin at a position. Its head is read again, and nothing else is.
pub(crate) fn origin_at<S: Source, A: Allocator + Copy>(
    source: &mut S,
    rows: &Rows<A>,
    lookup: &Lookup<A>,
    position: usize,
) -> Result<Origin<A>, ReplayFault>
    ensures { FindsOrigin rows.now lookup.now.parts position (S.seen source.old) (S.seen source.new) result }
{
    let mut gaps = KnownGaps::new(rows.allocator());
    origin_once(source, rows, lookup, &mut gaps, position)
}
