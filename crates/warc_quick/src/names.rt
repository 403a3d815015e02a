//! The names by which a head is read in place.
ghost use Rattle.std.specs.Prelude.{◌≡◌, ◌↔◌, ◌+◌, ◌*◌, ◌≤◌, IfSome, IsTrue, drop, false, length, take};
ghost use Rattle.warc_field.specs.Text.{same};
ghost use Rattle.warc_frame.specs.declared.field_name.FieldName.{FieldName};
ghost use Rattle.warc_frame.specs.FieldNames.{name_text};
ghost use Rattle.warc_quick.specs.Names.{IsNaming};

use warc_field::is_name;
use warc_frame::{FieldName, names};

/// What a field's name is: one of these names, spelled as in the standard, or none of them in any case.
#[derive(Clone, Copy, Debug, PartialEq, Eq)]
pub(crate) enum Naming {
    Known(FieldName),
    Other,
}

/// How many bytes of a name are compared together.
const PART: usize = 8;

/// Whether the next bytes of two texts from a place on are the same.
#[inline(always)]
fn have_same_part(text: &[u8], name: &[u8], at: usize) -> bool
    requires text { at + PART ≤ length text.now }
    requires name { at + PART ≤ length name.now }
    ensures { IsTrue result ↔ (take PART (drop at text.now) ≡ take PART (drop at name.now)) }
{
    text[at..].starts_with(&name[at..at + PART])
}

/// Whether a text is this one, which has 8 to 32 bytes. Four parts cover it, which may overlap. Where it is a
/// constant, that takes a few comparisons and no call.
#[inline(always)]
fn is_same(text: &[u8], name: &[u8]) -> bool
    requires { (PART ≤ length name.now) × (length name.now ≤ 4 * PART) }
    ensures { IsTrue result ↔ (text.now ≡ name.now) }
{
    if text.len() != name.len() {
        return false;
    }
    let last = name.len() - PART;
    have_same_part(text, name, 0)
        & have_same_part(text, name, last.min(PART))
        & have_same_part(text, name, last.min(2 * PART))
        & have_same_part(text, name, last)
}

/// Whether a text is this name, as the standard writes it.
#[inline(always)]
fn is_spelled(name: FieldName, text: &[u8]) -> bool
    ensures { IsTrue result ↔ (text.now ≡ name_text name) }
{
    match name {
        FieldName::Type => is_same(text, names::WARC_TYPE.as_bytes()),
        FieldName::RecordId => is_same(text, names::WARC_RECORD_ID.as_bytes()),
        FieldName::Date => is_same(text, names::WARC_DATE.as_bytes()),
        FieldName::ContentLength => is_same(text, names::CONTENT_LENGTH.as_bytes()),
        FieldName::TargetUri => is_same(text, names::WARC_TARGET_URI.as_bytes()),
        FieldName::ConcurrentTo => is_same(text, names::WARC_CONCURRENT_TO.as_bytes()),
        FieldName::IpAddress => is_same(text, names::WARC_IP_ADDRESS.as_bytes()),
        FieldName::RefersTo => is_same(text, names::WARC_REFERS_TO.as_bytes()),
        FieldName::RefersToTargetUri => is_same(text, names::WARC_REFERS_TO_TARGET_URI.as_bytes()),
        FieldName::RefersToDate => is_same(text, names::WARC_REFERS_TO_DATE.as_bytes()),
        FieldName::Filename => is_same(text, names::WARC_FILENAME.as_bytes()),
        FieldName::Profile => is_same(text, names::WARC_PROFILE.as_bytes()),
        FieldName::WarcinfoId => is_same(text, names::WARC_WARCINFO_ID.as_bytes()),
        FieldName::SegmentNumber => is_same(text, names::WARC_SEGMENT_NUMBER.as_bytes()),
        FieldName::SegmentOriginId => is_same(text, names::WARC_SEGMENT_ORIGIN_ID.as_bytes()),
        FieldName::SegmentTotalLength => is_same(text, names::WARC_SEGMENT_TOTAL_LENGTH.as_bytes()),
        FieldName::BlockDigest => is_same(text, names::WARC_BLOCK_DIGEST.as_bytes()),
        FieldName::PayloadDigest => is_same(text, names::WARC_PAYLOAD_DIGEST.as_bytes()),
        FieldName::Truncated => is_same(text, names::WARC_TRUNCATED.as_bytes()),
        FieldName::IdentifiedPayloadType => is_same(
            text,
            names::WARC_IDENTIFIED_PAYLOAD_TYPE.as_bytes(),
        ),
        FieldName::ContentType => is_same(text, names::CONTENT_TYPE.as_bytes()),
    }
}

/// A text that none of these names is in any case, if it is a name.
fn other_name(text: &[u8]) -> Option<Naming>
    requires { (name : FieldName) → same text.now (name_text name) ≡ false }
    ensures { IfSome result (IsNaming text.now) }
{
    if is_name(text) {
        Some(Naming::Other)
    } else {
        None
    }
}

/// Which name a text is, unless it is no name, or one of these names in another case.
pub(crate) fn naming_of(text: &[u8]) -> Option<Naming>
    ensures { IfSome result (IsNaming text.now) }
{
    let Some(known) = FieldName::candidate(text) else {
        return other_name(text);
    };
    if is_spelled(known, text) {
        return Some(Naming::Known(known));
    }
    if text.eq_ignore_ascii_case(known.text().as_bytes()) {
        return None;
    }
    other_name(text)
}
