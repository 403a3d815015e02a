//! The fields of the standard (ISO 28500:2017, 5) as one table.
ghost use Rattle.std.specs.Prelude.{◌≡◌, ◌<◌, true, Some, slice_index};
ghost use Rattle.std.specs.Char.{to_ascii_lowercase};
ghost use Rattle.warc_field.specs.Text.{is_name, same};
ghost use Rattle.warc_frame.specs.FieldNames.{name_by, name_place, name_text};

use crate::names;

/// A field of the standard. The four that every head has come first. `warc_quick` relies on the order of the others:
/// it is the order of the table of field rules in `warc_record`.
#[derive(Clone, Copy, Debug, PartialEq, Eq)]
pub enum FieldName {
    Type,
    RecordId,
    Date,
    ContentLength,
    TargetUri,
    ConcurrentTo,
    IpAddress,
    RefersTo,
    RefersToTargetUri,
    RefersToDate,
    Filename,
    Profile,
    WarcinfoId,
    SegmentNumber,
    SegmentOriginId,
    SegmentTotalLength,
    BlockDigest,
    PayloadDigest,
    Truncated,
    IdentifiedPayloadType,
    ContentType,
}

/// How many there are.
pub const NAME_COUNT: usize = FieldName::ContentType as usize + 1;

/// The only field whose name has this length and this eighth letter, in lower case.
#[inline(always)]
fn name_by(len: usize, letter: u8) -> Option<FieldName>
    ensures { result ≡ name_by len letter }
{
    match (len, letter) {
        (9, b'p') => Some(FieldName::Type),
        (9, b't') => Some(FieldName::Date),
        (12, b'-') => Some(FieldName::ContentType),
        (12, b'o') => Some(FieldName::Profile),
        (13, _) => Some(FieldName::Filename),
        (14, b'c') => Some(FieldName::RecordId),
        (14, b'-') => Some(FieldName::ContentLength),
        (14, b'f') => Some(FieldName::RefersTo),
        (14, b'u') => Some(FieldName::Truncated),
        (15, b'r') => Some(FieldName::TargetUri),
        (15, b'-') => Some(FieldName::IpAddress),
        (16, _) => Some(FieldName::WarcinfoId),
        (17, _) => Some(FieldName::BlockDigest),
        (18, _) => Some(FieldName::ConcurrentTo),
        (19, b'f') => Some(FieldName::RefersToDate),
        (19, b'g') => Some(FieldName::SegmentNumber),
        (19, b'y') => Some(FieldName::PayloadDigest),
        (22, _) => Some(FieldName::SegmentOriginId),
        (25, b'f') => Some(FieldName::RefersToTargetUri),
        (25, b'g') => Some(FieldName::SegmentTotalLength),
        (28, _) => Some(FieldName::IdentifiedPayloadType),
        _ => None,
    }
}

/// The eighth letter of a text in lower case, or 0 if it is shorter.
#[inline(always)]
fn eighth(text: &[u8]) -> u8
    ensures { result ≡ to_ascii_lowercase (slice_index text.now 7) }
{
    match text.get(7) {
        Some(letter) => letter.to_ascii_lowercase(),
        None => 0,
    }
}

impl FieldName {
    /// The only field whose name the text can be, in any case. Whether it is that name is for the caller to compare.
    #[inline(always)]
    #[tactic(auto, using(crate::proofs::FieldNameLemmas::reported_by))]
    pub fn candidate(text: &[u8]) -> Option<FieldName>
        ensures { (name : FieldName) → same text.now (name_text name) ≡ true → result ≡ Some name }
    {
        name_by(text.len(), eighth(text))
    }

    /// The name, as the standard writes it.
    #[tactic(auto, unfolding(warc_field::specs::Text::is_name, warc_field::specs::Text::is_name_byte))]
    pub fn text(self) -> &'static str
        ensures text { result.now ≡ name_text self }
        ensures named { is_name result.now ≡ true }
    {
        match self {
            FieldName::Type => names::WARC_TYPE,
            FieldName::RecordId => names::WARC_RECORD_ID,
            FieldName::Date => names::WARC_DATE,
            FieldName::ContentLength => names::CONTENT_LENGTH,
            FieldName::TargetUri => names::WARC_TARGET_URI,
            FieldName::ConcurrentTo => names::WARC_CONCURRENT_TO,
            FieldName::IpAddress => names::WARC_IP_ADDRESS,
            FieldName::RefersTo => names::WARC_REFERS_TO,
            FieldName::RefersToTargetUri => names::WARC_REFERS_TO_TARGET_URI,
            FieldName::RefersToDate => names::WARC_REFERS_TO_DATE,
            FieldName::Filename => names::WARC_FILENAME,
            FieldName::Profile => names::WARC_PROFILE,
            FieldName::WarcinfoId => names::WARC_WARCINFO_ID,
            FieldName::SegmentNumber => names::WARC_SEGMENT_NUMBER,
            FieldName::SegmentOriginId => names::WARC_SEGMENT_ORIGIN_ID,
            FieldName::SegmentTotalLength => names::WARC_SEGMENT_TOTAL_LENGTH,
            FieldName::BlockDigest => names::WARC_BLOCK_DIGEST,
            FieldName::PayloadDigest => names::WARC_PAYLOAD_DIGEST,
            FieldName::Truncated => names::WARC_TRUNCATED,
            FieldName::IdentifiedPayloadType => names::WARC_IDENTIFIED_PAYLOAD_TYPE,
            FieldName::ContentType => names::CONTENT_TYPE,
        }
    }

    /// Its place in a table of `NAME_COUNT` entries.
    pub fn place(self) -> usize
        ensures place { result ≡ name_place self }
        ensures within { result < NAME_COUNT }
    {
        self as usize
    }
}
