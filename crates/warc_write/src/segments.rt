//! Records split into segments.
ghost use Rattle.std.specs.Prelude.{◌≡◌, ℕ, List, [], ◌∷◌, ◌++◌, true, IfOk, IfSome, ◌+◌, ◌-◌, ◌*◌, ◌<◌, length, IfErr, OnOk};
ghost use Rattle.std.specs.Prelude.{Ok, Err, Some, is_none, is_some, decimal};
ghost use Rattle.std.specs.List.{list_all};
ghost use Rattle.warc_field.specs.Area.{value_or_empty};
ghost use Rattle.warc_field.specs.Text.{is_value, same};
ghost use Rattle.warc_frame.specs.Record.{IsFramed};
ghost use Rattle.warc_record.specs.Heads.{head_fault};
ghost use Rattle.warc_record.specs.Readings.{kind_of, target_of};
ghost use Rattle.warc_write.specs.Joining.{Join};
ghost use Rattle.warc_write.specs.Rendering.{AllGood};
ghost use Rattle.warc_write.specs.Refusing.{RefusesSegment};
ghost use Rattle.warc_write.specs.Splitting.{AllFramed, UnlessMemory, segment_count};
ghost use Rattle.warc_record.specs.Blocks.{has_bad_digest};
ghost use Rattle.warc_write.specs.Splitting.{has_room, split_of, piece_at, segment_of, segments_of};
ghost use Rattle.warc_write.specs.Cutting.{part_with};
ghost use Rattle.warc_write.specs.Splitting.{first_fields, has_field, is_segmented, kept};
ghost use Rattle.warc_write.specs.Splitting.{may_be_split, next_fields, origin_fields};
ghost use Rattle.warc_write.specs.Splitting.{segment_fields, split_fault_text, splittable, total_fields, version_5};

use crate::parts::{add_copy, add_digits, add_field, add_number, framed_of};
use crate::written::{digest_text, id_text};
use itoa::Buffer;
use std::alloc::{AllocError, Allocator};
use std::fmt;
use thiserror::Error;
use uuid::Uuid;
use warc_field::{Fields, Name, Value};
use warc_frame::{FieldName, Framed, names};
use warc_record::laws::{bare_texts_of_values, good_heads_read};
use warc_record::{Kind, bare, type_head, urn_uuid, wanted};
use warc_value::digest;

/// Why a record isn't split: S1 to S7.
#[derive(Clone, Copy, PartialEq, Eq, Debug, Error)]
pub enum SplitFault {
    /// The id isn't a UUID.
    NotUuid,

    /// There is a field of segments.
    AlreadySegmented,

    /// The head isn't good; or the record is a continuation, a warcinfo or of no known kind; or it has no target.
    Kind,

    /// The size is 0.
    Size,

    /// An allocation failed.
    Memory,

    /// A segment's head would be longer than 65,536 bytes.
    TooLong,

    /// The block's digest is checked and differs.
    BadDigest,
}

impl fmt::Display for SplitFault {
    ghost output = { λ fault. Some (split_fault_text fault) };

    fn fmt<W: fmt::Write>(&self, f: &mut fmt::Formatter<W>) -> fmt::Result {
        match self {
            SplitFault::NotUuid => write!(f, "S1 NotUuid"),
            SplitFault::AlreadySegmented => write!(f, "S2 AlreadySegmented"),
            SplitFault::Kind => write!(f, "S3 Kind"),
            SplitFault::Size => write!(f, "S4 Size"),
            SplitFault::Memory => write!(f, "S5 Memory"),
            SplitFault::TooLong => write!(f, "S6 TooLong"),
            SplitFault::BadDigest => write!(f, "S7 BadDigest"),
        }
    }
}

impl From<AllocError> for SplitFault {
    ghost use Rattle.warc_write.specs.declared.segments.SplitFault.TheVariants.{Memory};

    ghost from_gives = { λ _ fault. fault ≡ Memory };

    fn from(_: AllocError) -> SplitFault {
        SplitFault::Memory
    }
}

/// What a segment's head says of the segment, besides what it takes from the head of the record that is split.
#[derive(Clone, Copy, Debug)]
pub struct SegmentPart {
    /// Its number, from 1 on.
    pub number: u64,

    /// The length of the whole block in bytes, in the last segment alone.
    pub total: Option<u64>,

    /// How many bytes of the block it has.
    pub len: u64,

    /// The SHA-1 of these bytes.
    pub digest: [u8; 20],
}

/// Whether records of this kind are split.
fn may_be_split(kind: Kind) -> bool
    ensures { result ≡ may_be_split kind }
{
    match kind {
        Kind::Response
        | Kind::Resource
        | Kind::Request
        | Kind::Metadata
        | Kind::Revisit
        | Kind::Conversion => true,
        Kind::Warcinfo | Kind::Continuation | Kind::Other => false,
    }
}

/// Whether there is a field of this name.
fn has_field<A: Allocator>(fields: &Fields<A>, name: &str) -> bool
    ensures { result ≡ has_field name.now fields.now }
{
    fields.first(name.as_bytes()).is_some()
}

/// Whether there is a field of segments.
fn is_segmented<A: Allocator>(fields: &Fields<A>) -> bool
    ensures { result ≡ is_segmented fields.now }
{
    has_field(fields, names::WARC_SEGMENT_NUMBER)
        || has_field(fields, names::WARC_SEGMENT_ORIGIN_ID)
        || has_field(fields, names::WARC_SEGMENT_TOTAL_LENGTH)
}

/// The value of the first field of this name, empty where there is none.
fn value_in<'a, A: Allocator>(fields: &'a Fields<A>, name: &str) -> &'a [u8]
    ensures text { result.now ≡ value_or_empty name.now fields.now }
    ensures value { is_value result.now ≡ true }
{
    fields.value_of(name.as_bytes())
}

/// The kind of a good head, and whether it has a target.
fn read_kind<A: Allocator>(fields: &Fields<A>) -> Option<(Kind, bool)>
    ensures good { is_some result ≡ is_none (head_fault fields.now) }
    ensures kind { IfSome result (λ r. r.0 ≡ kind_of fields.now) }
    ensures target { IfSome result (λ r. r.1 ≡ is_some (target_of fields.now)) }
{
    match type_head(fields) {
        Ok(typed) => Some((typed.kind, typed.target().is_some())),
        Err(_) => None,
    }
}

/// The sixteen bytes of the UUID of a head that may be split into segments of `size` bytes. The refusals come in the
/// order S4, S3, S2, S1. It doesn't allocate.
pub fn splittable<A: Allocator>(fields: &Fields<A>, size: u64) -> Result<[u8; 16], SplitFault>
    ensures { splittable fields.now size ≡ result }
{
    if size == 0 {
        return Err(SplitFault::Size);
    }
    let Some((kind, has_target)) = read_kind(fields) else {
        return Err(SplitFault::Kind);
    };
    if !may_be_split(kind) {
        return Err(SplitFault::Kind);
    }
    if !has_target {
        return Err(SplitFault::Kind);
    }
    if is_segmented(fields) {
        return Err(SplitFault::AlreadySegmented);
    }
    urn_uuid(bare(value_in(fields, names::WARC_RECORD_ID))).ok_or(SplitFault::NotUuid)
}

/// The id of the segment with this number, of the record with this UUID.
fn segment_id(uuid: &[u8; 16], number: u64) -> Uuid
    ensures { result ≡ version_5 uuid.now (decimal number) }
{
    let mut digits = Buffer::new();
    Uuid::new_v5(&Uuid::from_bytes(*uuid), digits.format(number).as_bytes())
}

/// Whether a name is this text: ASCII case doesn't matter.
fn is_named<A: Allocator>(name: &Name<A>, text: &str) -> bool
    ensures { result ≡ same name.now text.now }
{
    name.is(text.as_bytes())
}

/// Adds what a first segment keeps of a field.
fn add_kept_field<A: Allocator + Copy>(
    alloc: A,
    name: &Name<A>,
    value: &Value<A>,
    len: u64,
    fields: &mut Fields<A>,
) -> Result<(), AllocError>
    ensures { OnOk result (fields.new ≡ fields.old ++ kept len ((name.now, value.now) ∷ [])) }
{
    if is_named(name, names::WARC_BLOCK_DIGEST) {
        return Ok(());
    }
    if is_named(name, names::CONTENT_LENGTH) {
        return add_digits(alloc, fields, name.bytes(), len);
    }
    add_copy(alloc, fields, name.bytes(), value.bytes())
}

/// Adds what a first segment keeps of the given fields.
fn add_kept<A: Allocator + Copy>(
    alloc: A,
    given: &[(Name<A>, Value<A>)],
    len: u64,
    fields: &mut Fields<A>,
) -> Result<(), AllocError>
    ensures { OnOk result (fields.new ≡ fields.old ++ kept len given.now) }
{
    for field in given {
        add_kept_field(alloc, &field.0, &field.1, len, fields)?;
    }
    Ok(())
}

/// The fields of a first segment.
fn first_fields<A: Allocator + Copy>(
    alloc: A,
    given: &Fields<A>,
    part: &SegmentPart,
) -> Result<Fields<A>, AllocError>
    ensures { IfOk result (λ fields. fields ≡ first_fields given.now part.now) }
{
    let mut fields = Fields::new(alloc);
    add_kept(alloc, given.as_slice(), part.len, &mut fields)?;
    add_field(alloc, &mut fields, FieldName::SegmentNumber, b"1")?;
    add_field(
        alloc,
        &mut fields,
        FieldName::BlockDigest,
        &digest_text(&part.digest),
    )?;
    Ok(fields)
}

/// The fields with a further segment's own id and its record's id.
fn origin_fields<A: Allocator + Copy>(
    alloc: A,
    given: &Fields<A>,
    uuid: &[u8; 16],
    number: u64,
) -> Result<Fields<A>, AllocError>
    ensures { IfOk result (λ fields. fields ≡ origin_fields given.now uuid.now number) }
{
    bare_texts_of_values();
    let target = bare(value_in(given, names::WARC_TARGET_URI));
    let mut fields = Fields::new(alloc);
    add_field(alloc, &mut fields, FieldName::Type, b"continuation")?;
    add_field(
        alloc,
        &mut fields,
        FieldName::RecordId,
        &id_text(&segment_id(uuid, number)),
    )?;
    add_field(
        alloc,
        &mut fields,
        FieldName::Date,
        value_in(given, names::WARC_DATE),
    )?;
    add_field(alloc, &mut fields, FieldName::TargetUri, target)?;
    add_field(
        alloc,
        &mut fields,
        FieldName::SegmentOriginId,
        value_in(given, names::WARC_RECORD_ID),
    )?;
    Ok(fields)
}

/// Adds the length of the whole block, if it is stated.
fn add_total<A: Allocator + Copy>(
    alloc: A,
    total: Option<u64>,
    fields: &mut Fields<A>,
) -> Result<(), AllocError>
    ensures { OnOk result (fields.new ≡ fields.old ++ total_fields total) }
{
    match total {
        Some(total) => add_number(alloc, fields, FieldName::SegmentTotalLength, total),
        None => Ok(()),
    }
}

/// The fields of a further segment.
fn next_fields<A: Allocator + Copy>(
    alloc: A,
    given: &Fields<A>,
    uuid: &[u8; 16],
    part: &SegmentPart,
) -> Result<Fields<A>, AllocError>
    ensures { IfOk result (λ fields. fields ≡ next_fields given.now uuid.now part.now) }
{
    let mut fields = origin_fields(alloc, given, uuid, part.number)?;
    add_number(alloc, &mut fields, FieldName::SegmentNumber, part.number)?;
    add_total(alloc, part.total, &mut fields)?;
    add_field(
        alloc,
        &mut fields,
        FieldName::BlockDigest,
        &digest_text(&part.digest),
    )?;
    add_number(alloc, &mut fields, FieldName::ContentLength, part.len)?;
    Ok(fields)
}

/// The fields of a segment, without a block in memory: from the fields of the record that is split, the bytes of its
/// UUID, and what is to be said of the segment. It fails only if an allocation fails.
pub fn segment_head<A: Allocator + Copy>(
    alloc: A,
    given: &Fields<A>,
    uuid: &[u8; 16],
    part: &SegmentPart,
) -> Result<Fields<A>, AllocError>
    ensures { IfOk result (λ fields. fields ≡ segment_fields given.now uuid.now part.now) }
{
    if part.number == 1 {
        first_fields(alloc, given, part)
    } else {
        next_fields(alloc, given, uuid, part)
    }
}

/// How many segments of `size` bytes each a block of `len` bytes is cut into, the last one shorter or equal.
pub fn segment_count(size: u64, len: u64) -> u64
    requires some { 0 < size }
    requires more { 0 < len }
    ensures count { result ≡ segment_count size len }
    ensures last { (result - 1) * size < len }
{
    (len - 1) / size + 1
}

/// The piece at a place, counted from 0.
fn piece_at(block: &[u8], size: u64, at: u64) -> &[u8]
    requires { at * size < length block.now }
    ensures { result.now ≡ piece_at size block.now at }
{
    let rest = &block[(at * size) as usize..];
    if rest.len() as u64 <= size {
        rest
    } else {
        &rest[..size as usize]
    }
}

/// What the head of the segment at a place, counted from 0, is to say of it, if a block of `len` bytes is cut into
/// segments of `size` bytes and this is the SHA-1 of the segment's bytes.
pub fn part_at(size: u64, len: u64, at: u64, digest: [u8; 20]) -> SegmentPart
    requires some { 0 < size }
    requires inside { at * size < len }
    ensures { (block : List ℕ) → length block ≡ len → result ≡ part_with size len (piece_at size block at) at digest }
{
    let is_last = at + 1 == segment_count(size, len);
    SegmentPart {
        number: at + 1,
        total: if is_last { Some(len) } else { None },
        len: size.min(len - at * size),
        digest,
    }
}

/// The segment at a place, counted from 0.
fn segment<A: Allocator + Copy>(
    alloc: A,
    framed: &Framed<A>,
    uuid: &[u8; 16],
    size: u64,
    at: u64,
) -> Result<Framed<A>, SplitFault>
    requires some { 0 < size }
    requires inside { at * size < length framed.now.block }
    ensures made { IfOk result (λ s. s ≡ segment_of framed.now uuid.now size at) }
    ensures framed { IfOk result IsFramed }
    ensures long { IfErr result (RefusesSegment (has_room (segment_of framed.now uuid.now size at))) }
{
    let block = framed.block();
    let piece = piece_at(block, size, at);
    let part = part_at(size, block.len() as u64, at, digest(piece));
    let fields = segment_head(alloc, framed.fields(), uuid, &part)?;
    match Framed::new(framed.version(), fields, Vec::from_slice(alloc, piece)?) {
        Ok(segment) => Ok(segment),
        Err(_) => Err(SplitFault::TooLong),
    }
}

/// All segments, in their order.
fn segments<A: Allocator + Copy>(
    alloc: A,
    framed: &Framed<A>,
    uuid: &[u8; 16],
    size: u64,
) -> Result<Vec<Framed<A>, A>, SplitFault>
    requires some { 0 < size }
    requires block { 0 < length framed.now.block }
    ensures made { IfOk result (λ all. (all.items ≡ segments_of framed.now uuid.now size) × AllFramed all.items) }
    ensures long { IfErr result (RefusesSegment (list_all has_room (segments_of framed.now uuid.now size))) }
{
    let count = segment_count(size, framed.block().len() as u64);
    let mut all = Vec::with_capacity(alloc, count as usize)?;
    for at in 0..count {
        let next = match segment(alloc, framed, uuid, size, at) {
            Ok(next) => next,
            Err(fault) => return Err(fault),
        };
        match all.push(next) {
            Ok(()) => {}
            Err(_) => return Err(SplitFault::Memory),
        }
    }
    Ok(all)
}

/// Whether the block's digest is checked and differs.
fn has_bad_digest<A: Allocator>(framed: &Framed<A>) -> bool
    ensures { result ≡ has_bad_digest framed.now }
{
    wanted(framed.fields()).verdict(framed.block()).is_bad()
}

/// A copy of the fields.
fn copied_fields<A: Allocator + Copy>(
    alloc: A,
    given: &[(Name<A>, Value<A>)],
) -> Result<Fields<A>, AllocError>
    ensures { IfOk result (λ fields. fields ≡ given.now) }
{
    let mut fields = Fields::new(alloc);
    for field in given {
        add_copy(alloc, &mut fields, field.0.bytes(), field.1.bytes())?;
    }
    Ok(fields)
}

/// A list of a copy of the record alone.
fn whole<A: Allocator + Copy>(alloc: A, framed: &Framed<A>) -> Result<Vec<Framed<A>, A>, AllocError>
    ensures made { IfOk result (λ all. all.items ≡ framed.now ∷ []) }
    ensures framed { OnOk result (IsFramed framed.now) }
{
    let fields = copied_fields(alloc, framed.fields().as_slice())?;
    let block = Vec::from_slice(alloc, framed.block())?;
    let mut all = Vec::with_capacity(alloc, 1)?;
    all.push(framed_of(framed.version(), fields, block))?;
    Ok(all)
}

/// The record cut into segments of `size` bytes, each of the record's version; the record itself if its block has no
/// more bytes. The refusals come in the order S4, S3, S2, S1, S7, S6, and S5 if an allocation fails.
pub fn split<A: Allocator + Copy>(
    alloc: A,
    framed: &Framed<A>,
    size: u64,
) -> Result<Vec<Framed<A>, A>, SplitFault>
    ensures split { IfOk result (λ all. split_of framed.now size ≡ Ok all.items) }
    ensures fault { IfErr result (λ fault. UnlessMemory fault (split_of framed.now size ≡ Err fault)) }
    ensures good { IfOk result (λ all. AllGood all.items) }
    ensures joins { IfOk result (λ all. Join framed.now.block all.items) }
{
    good_heads_read();
    let uuid = match splittable(framed.fields(), size) {
        Ok(uuid) => uuid,
        Err(fault) => return Err(fault),
    };
    if has_bad_digest(framed) {
        return Err(SplitFault::BadDigest);
    }
    if framed.block().len() as u64 <= size {
        return Ok(whole(alloc, framed)?);
    }
    segments(alloc, framed, &uuid, size)
}
