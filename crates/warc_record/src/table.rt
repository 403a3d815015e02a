//! The field table: which fields a kind of record must have, and which it must not.
ghost use Rattle.std.specs.Prelude.{◌≡◌, map};
ghost use Rattle.warc_record.specs.Table.{rules, rule_seen, is_among, may_repeat};

use crate::types::Kind;
use warc_frame::FieldName;

/// A row of the field table.
pub(crate) struct FieldRule<'a> {
    /// The field that it is about.
    pub field: FieldName,

    /// The kinds of record that must have the field.
    pub required: &'a [Kind],

    /// The kinds that must not have it.
    pub forbidden: &'a [Kind],
}

const ALL_BUT_REVISIT: &[Kind] = &[
    Kind::Warcinfo,
    Kind::Response,
    Kind::Resource,
    Kind::Request,
    Kind::Metadata,
    Kind::Conversion,
    Kind::Continuation,
];

const ALL_BUT_WARCINFO: &[Kind] = &[
    Kind::Response,
    Kind::Resource,
    Kind::Request,
    Kind::Metadata,
    Kind::Revisit,
    Kind::Conversion,
    Kind::Continuation,
];

const ALL_BUT_CONTINUATION: &[Kind] = &[
    Kind::Warcinfo,
    Kind::Response,
    Kind::Resource,
    Kind::Request,
    Kind::Metadata,
    Kind::Revisit,
    Kind::Conversion,
];

static FIELD_RULES: [FieldRule<'static>; 17] = [
    FieldRule {
        field: FieldName::TargetUri,
        required: &[
            Kind::Response,
            Kind::Resource,
            Kind::Request,
            Kind::Revisit,
            Kind::Conversion,
            Kind::Continuation,
        ],
        forbidden: &[Kind::Warcinfo],
    },
    FieldRule {
        field: FieldName::ConcurrentTo,
        required: &[],
        forbidden: &[Kind::Warcinfo, Kind::Conversion, Kind::Continuation],
    },
    FieldRule {
        field: FieldName::IpAddress,
        required: &[],
        forbidden: &[Kind::Warcinfo, Kind::Conversion, Kind::Continuation],
    },
    FieldRule {
        field: FieldName::RefersTo,
        required: &[],
        forbidden: &[
            Kind::Warcinfo,
            Kind::Response,
            Kind::Resource,
            Kind::Request,
            Kind::Continuation,
        ],
    },
    FieldRule {
        field: FieldName::RefersToTargetUri,
        required: &[],
        forbidden: ALL_BUT_REVISIT,
    },
    FieldRule {
        field: FieldName::RefersToDate,
        required: &[],
        forbidden: ALL_BUT_REVISIT,
    },
    FieldRule {
        field: FieldName::Filename,
        required: &[],
        forbidden: ALL_BUT_WARCINFO,
    },
    FieldRule {
        field: FieldName::Profile,
        required: &[Kind::Revisit],
        forbidden: &[],
    },
    FieldRule {
        field: FieldName::WarcinfoId,
        required: &[],
        forbidden: &[Kind::Warcinfo],
    },
    FieldRule {
        field: FieldName::SegmentNumber,
        required: &[Kind::Continuation],
        forbidden: &[],
    },
    FieldRule {
        field: FieldName::SegmentOriginId,
        required: &[Kind::Continuation],
        forbidden: ALL_BUT_CONTINUATION,
    },
    FieldRule {
        field: FieldName::SegmentTotalLength,
        required: &[],
        forbidden: ALL_BUT_CONTINUATION,
    },
    FieldRule {
        field: FieldName::BlockDigest,
        required: &[],
        forbidden: &[],
    },
    FieldRule {
        field: FieldName::PayloadDigest,
        required: &[],
        forbidden: &[],
    },
    FieldRule {
        field: FieldName::Truncated,
        required: &[],
        forbidden: &[],
    },
    FieldRule {
        field: FieldName::IdentifiedPayloadType,
        required: &[],
        forbidden: &[],
    },
    FieldRule {
        field: FieldName::ContentType,
        required: &[],
        forbidden: &[],
    },
];

/// Whether a field of this name may occur more than once.
pub fn may_repeat(name: FieldName) -> bool
    ensures { result ≡ may_repeat name }
{
    name == FieldName::ConcurrentTo
}

/// The rows of the field table, in their order.
pub(crate) fn rows() -> &'static [FieldRule<'static>]
    ensures { map rule_seen result.now ≡ rules }
{
    &FIELD_RULES
}

/// Whether the kind is one of these.
#[inline(always)]
pub(crate) fn is_among(kind: Kind, kinds: &[Kind]) -> bool
    ensures { result ≡ is_among kind kinds.now }
{
    // `contains` isn't compiled in line, and this is asked for each rule.
    kinds.iter().any(|other| *other == kind)
}
