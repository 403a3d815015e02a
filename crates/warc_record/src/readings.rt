//! What single fields of a head say.
ghost use Rattle.std.specs.Prelude.{◌≡◌, List};
ghost use Rattle.std.specs.Option.{option_copied};
ghost use Rattle.warc_field.specs.Area.{Pair, value_or_empty};
ghost use Rattle.warc_frame.specs.FieldNames.{name_text};
ghost use Rattle.warc_record.specs.Readings.{present_value, present_bare, unless_empty, key_in, kind_of, number_in, is_known_profile, segment_number};

use crate::head_fields::HeadFields;
use crate::ids::{IdKey, bare, id_key};
use crate::types::Kind;
use warc_field::decimal;
use warc_frame::FieldName;

/// The segment number that a head states.
#[derive(Clone, Copy, Debug, PartialEq, Eq)]
pub enum SegmentNumber {
    /// There is none: the record is whole.
    Absent,

    /// A number, at most 2^48.
    Number(u64),

    /// A value that isn't such a number.
    Bad,
}

/// The text, if it isn't empty.
pub(crate) fn unless_empty(text: &[u8]) -> Option<&[u8]>
    ensures { option_copied result ≡ unless_empty text.now }
{
    if text.is_empty() { None } else { Some(text) }
}

/// The value of the first field of the name, if it isn't empty.
pub(crate) fn present<'a, H: HeadFields<'a>>(fields: &H, name: FieldName) -> Option<&'a [u8]>
    ensures { (pairs : List Pair) → H.reads fields.now pairs
        → option_copied result ≡ present_value (name_text name) pairs }
{
    unless_empty(fields.first_text(name)?)
}

/// The first field's value, empty if it is absent.
#[tactic(auto, using(crate::proofs::TypedLemmas::present_or_empty))]
pub(crate) fn text_in<'a, H: HeadFields<'a>>(fields: &H, name: FieldName) -> &'a [u8]
    ensures text { (pairs : List Pair) → H.reads fields.now pairs
        → result.now ≡ value_or_empty (name_text name) pairs }
    ensures present { (pairs : List Pair) → H.reads fields.now pairs
        → unless_empty result.now ≡ present_value (name_text name) pairs }
{
    match fields.first_text(name) {
        Some(value) => value,
        None => b"",
    }
}

/// The bare text of the first field's value, if it isn't empty.
pub(crate) fn bare_in<'a, H: HeadFields<'a>>(fields: &H, name: FieldName) -> Option<&'a [u8]>
    ensures { (pairs : List Pair) → H.reads fields.now pairs
        → option_copied result ≡ present_bare (name_text name) pairs }
{
    unless_empty(bare(present(fields, name)?))
}

/// The key of the id that the first field's value holds.
pub(crate) fn key_in<'a, H: HeadFields<'a>>(fields: &H, name: FieldName) -> Option<IdKey<'a>>
    ensures { (pairs : List Pair) → H.reads fields.now pairs → result ≡ key_in (name_text name) pairs }
{
    id_key(present(fields, name)?)
}

/// The kind of the record.
pub fn kind_in<'a, H: HeadFields<'a>>(fields: &H) -> Kind
    ensures { (pairs : List Pair) → H.reads fields.now pairs → result ≡ kind_of pairs }
{
    match fields.first_text(FieldName::Type) {
        Some(value) => Kind::named(value),
        None => Kind::Other,
    }
}

/// The number that the first field's value is.
pub(crate) fn number_in<'a, H: HeadFields<'a>>(fields: &H, name: FieldName) -> Option<u64>
    ensures { (pairs : List Pair) → H.reads fields.now pairs → result ≡ number_in (name_text name) pairs }
{
    decimal(present(fields, name)?)
}

/// The segment number that the head states.
pub(crate) fn segment_number<'a, H: HeadFields<'a>>(fields: &H) -> SegmentNumber
    ensures { (pairs : List Pair) → H.reads fields.now pairs → result ≡ segment_number pairs }
{
    match present(fields, FieldName::SegmentNumber) {
        None => SegmentNumber::Absent,
        Some(value) => match decimal(value) {
            Some(number) => SegmentNumber::Number(number),
            None => SegmentNumber::Bad,
        },
    }
}

/// Whether the value is one of the known profiles of revisits, in brackets or without.
pub fn is_known_profile(value: &[u8]) -> bool
    ensures { result ≡ is_known_profile value.now }
{
    let profile = bare(value);
    profile == b"http://netpreserve.org/warc/1.1/revisit/identical-payload-digest".as_slice()
        || profile == b"http://netpreserve.org/warc/1.1/revisit/server-not-modified".as_slice()
        || profile == b"http://netpreserve.org/warc/1.0/revisit/identical-payload-digest".as_slice()
        || profile == b"http://netpreserve.org/warc/1.0/revisit/server-not-modified".as_slice()
}
