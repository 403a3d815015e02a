//! A plain head.
ghost use Rattle.std.specs.Prelude.{◌≡◌, ◌<◌, ◌≤◌, ◌++◌, List, [], IfSome, Some, true};
ghost use Rattle.warc_field.specs.Area.{Pair};
ghost use Rattle.warc_field.specs.Lines.{crlf};
ghost use Rattle.warc_field.specs.Text.{AreFields};
ghost use Rattle.warc_value.specs.Digests.{wanted_digest};
ghost use Rattle.warc_frame.specs.declared.version.Version.{Version};
ghost use Rattle.warc_frame.specs.VersionLine.{version_line};
ghost use Rattle.warc_record.specs.Heads.{is_date};
ghost use Rattle.warc_record.specs.Ids.{is_id};
ghost use Rattle.warc_record.specs.Readings.{no_segment, nothing_named, reading_of, reference_of, segment_reading};
ghost use Rattle.warc_record.specs.Seen.{said};
ghost use Rattle.warc_frame.specs.Record.{block_number, max_block};
ghost use Rattle.warc_quick.specs.Fronts.{AreValues, BeginsWithFields, IsHeadWith};
ghost use Rattle.warc_quick.specs.Quick.{Says, IsQuickHead, max_quick_head};

use crate::dates::is_plain_date;
use crate::lines::first_line;
use crate::plain_findings::PlainFindings;
use crate::runs::{LANES, holds_no_id_end};
use crate::values::Values;
use warc_field::{decimal, is_name};
use warc_frame::{FieldName, MAX_BLOCK, MAX_HEAD, Version};
use warc_record::{
    HeadTexts, Kind, Reference, Segment, SegmentNumber, Typed, bare, id_key, is_bare_id,
};
use warc_value::{Wanted, read_date};

/// A head of at most this many bytes is within the limit when it is written canonically, too.
const MAX_QUICK_HEAD: usize = MAX_HEAD / 2;

/// A good head that was read in place: each of its texts is a part of the text that was read.
#[derive(Clone, Copy)]
pub struct QuickHead<'a> {
    /// How many bytes the head has, the empty line that ends it included: at most 32,768.
    pub len: usize,

    /// How many bytes the block after it has, as its `Content-Length` says: at most 2^40.
    pub block_len: u64,

    /// What of it is listed.
    pub texts: HeadTexts<'a>,

    /// The value of `WARC-Block-Digest`, empty if it is absent.
    pub digest: &'a [u8],

    /// The value of `WARC-Payload-Digest`, empty if it is absent.
    pub payload_digest: &'a [u8],

    /// Whether it is known that the head names no other record and says nothing of segments.
    pub is_alone: bool,

    /// All findings of its record but N4 (its digest differs) and N6 (its id is used), if they are known.
    pub findings: Option<PlainFindings>,
}

impl<'a> QuickHead<'a> {
    /// The digest that it asks for of its block.
    pub fn wanted(&self) -> Wanted
        ensures { result ≡ wanted_digest self.now.digest.now }
    {
        Wanted::of(self.digest)
    }

    /// What it says, if it names no other record and says nothing of segments.
    #[inline(always)]
    #[tactic(auto, using(crate::proofs::TypedLemmas::id_found))]
    pub fn typed(&self) -> Typed<'a>
        requires alone { self.now.is_alone ≡ true }
        requires says { (fields : List Pair) × Says fields self.now }
        ensures { (fields : List Pair) → Says fields self.now → said result ≡ reading_of fields }
    {
        let Some(id) = id_key(self.texts.id) else {
            unreachable!()
        };
        let Some(moment) = read_date(self.texts.date) else {
            unreachable!()
        };
        Typed {
            texts: self.texts,
            kind: Kind::named(self.texts.kind),
            id,
            moment,
            reference: Reference {
                known_profile: false,
                named_id: None,
                named_pair: None,
            },
            segment: Segment {
                number: SegmentNumber::Absent,
                origin: None,
                total: None,
            },
            digest: self.digest,
            payload_digest: self.payload_digest,
        }
    }
}

/// What follows the version line at the front of a text.
pub(crate) fn after_version(text: &[u8]) -> Option<&[u8]>
    ensures { IfSome result (λ rest. (version : Version) × (text.now ≡ version_line version ++ rest.now)) }
{
    match text.strip_prefix(Version::V1_1.line()) {
        Some(rest) => Some(rest),
        None => text.strip_prefix(Version::V1_0.line()),
    }
}

/// Adds the values of the fields of a head whose lines follow the version line. The result is what follows the empty
/// line.
fn read_lines<'a>(text: &'a [u8], values: &mut Values<'a>) -> Option<&'a [u8]>
    requires { AreValues [] values.old.values }
    ensures { IfSome result (λ rest. BeginsWithFields text.now values.new.values (crlf ++ rest.now)) }
{
    let mut rest = text;
    while !rest.starts_with(b"\r\n") {
        let line = first_line(rest)?;
        if !values.add(&line) {
            return None;
        }
        rest = line.more;
    }
    Some(&rest[2..])
}

/// Whether a value is an id in brackets, as most are: `<`, at least sixteen bytes, none of which is a bracket, a space
/// or a tab, and `>`.
#[inline(always)]
fn is_plain_id(value: &[u8]) -> bool
    ensures { result ≡ true → is_id value.now ≡ true }
{
    let len = value.len();
    if len < LANES + 2 || value[0] != b'<' || value[len - 1] != b'>' {
        return false;
    }
    holds_no_id_end(&value[1..len - 1])
}

/// Whether a value holds an id.
#[inline(always)]
fn holds_id(value: &[u8]) -> bool
    ensures { result ≡ is_id value.now }
{
    is_plain_id(value) || is_bare_id(bare(value))
}

/// Whether a value is a date.
#[inline(always)]
fn holds_date(value: &[u8]) -> bool
    ensures { result ≡ is_date value.now }
{
    is_plain_date(value) || read_date(value).is_some()
}

/// The length of the block that a `Content-Length` states, if a block may be so long.
fn block_len(value: &[u8]) -> Option<u64>
    ensures value { result ≡ block_number (Some value.now) }
    ensures small { IfSome result (λ len. len ≤ max_block) }
{
    match decimal(value) {
        Some(len) if len <= MAX_BLOCK => Some(len),
        _ => None,
    }
}

/// Whether no other record is named. A date alone names none.
fn names_nothing(values: &Values<'_>) -> bool
    ensures { (fields : List Pair) → AreValues fields values.now.values → result ≡ true
        → reference_of fields ≡ nothing_named }
{
    values.is_absent(FieldName::RefersTo)
        & values.is_absent(FieldName::RefersToTargetUri)
        & values.is_absent(FieldName::Profile)
}

/// Whether nothing is said of segments.
fn has_no_segment(values: &Values<'_>) -> bool
    ensures { (fields : List Pair) → AreValues fields values.now.values → result ≡ true
        → segment_reading fields ≡ no_segment }
{
    values.is_absent(FieldName::SegmentNumber)
        & values.is_absent(FieldName::SegmentOriginId)
        & values.is_absent(FieldName::SegmentTotalLength)
}

/// What the fields of these values say, if their head is good.
#[inline(always)]
fn good_head<'a>(len: usize, values: &Values<'a>) -> Option<QuickHead<'a>>
    ensures lengths { IfSome result (λ head. (head.len ≡ len) × (head.block_len ≤ max_block)) }
    ensures says { (fields : List Pair) → AreFields fields → AreValues fields values.now.values
        → IfSome result (Says fields) }
{
    let block_len = block_len(values.first(FieldName::ContentLength)?)?;
    let kind = values.first(FieldName::Type)?;
    if !is_name(kind) {
        return None;
    }
    let id = values.first(FieldName::RecordId)?;
    if !holds_id(id) {
        return None;
    }
    let date = values.first(FieldName::Date)?;
    if !holds_date(date) {
        return None;
    }
    Some(QuickHead {
        len,
        block_len,
        texts: HeadTexts {
            kind,
            date,
            id,
            target: bare(values.value_of(FieldName::TargetUri)),
            is_truncated: !values.value_of(FieldName::Truncated).is_empty(),
        },
        digest: values.value_of(FieldName::BlockDigest),
        payload_digest: values.value_of(FieldName::PayloadDigest),
        is_alone: names_nothing(values) & has_no_segment(values),
        findings: None,
    })
}

/// Reads the good head at the front of a text, if it is plain and there whole, and adds the values of its fields.
#[inline(always)]
pub(crate) fn head_with_values<'a>(text: &'a [u8], values: &mut Values<'a>) -> Option<QuickHead<'a>>
    requires { AreValues [] values.old.values }
    ensures head { IfSome result (λ head. IsHeadWith text.now head values.new.values) }
    ensures bounds { IfSome result (λ head. (0 < head.len) × (head.len ≤ max_quick_head)
        × (head.block_len ≤ max_block)) }
{
    let rest = read_lines(after_version(text)?, values)?;
    let len = text.len() - rest.len();
    if len > MAX_QUICK_HEAD {
        return None;
    }
    let head = good_head(len, values)?;
    Some(head)
}

/// Reads the good head at the front of a text, if it is plain and there whole. `None` says nothing of the text.
///
/// A head is plain if each field is on one line, no value has a control character other than tabs, the names of the
/// standard are spelled as there and occur at most once, but for `WARC-Concurrent-To`, and it has at most 32,768 bytes.
#[inline(always)]
pub fn quick_head(text: &[u8]) -> Option<QuickHead<'_>>
    ensures head { IfSome result (IsQuickHead text.now) }
    ensures bounds { IfSome result (λ head. (0 < head.len) × (head.len ≤ max_quick_head)
        × (head.block_len ≤ max_block)) }
{
    let mut values = Values::none();
    head_with_values(text, &mut values)
}
