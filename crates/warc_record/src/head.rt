//! What the head of a good record says, by its fields.
ghost use Rattle.std.specs.Prelude.{◌≡◌, [], MatchResult, Some, None, true, option_and_then, option_map, unwrap_or};
ghost use Rattle.std.specs.Option.{option_copied};
ghost use Rattle.warc_field.specs.Area.{first_value};
ghost use Rattle.warc_value.specs.Dates.{instant_of};
ghost use Rattle.warc_frame.specs.FaultText.{name_of};
ghost use Rattle.warc_frame.specs.FieldNames.{name_text};
ghost use Rattle.warc_frame.specs.Names.{warc_type, warc_record_id, warc_date, warc_refers_to_target_uri};
ghost use Rattle.warc_frame.specs.Names.{warc_refers_to_date};
ghost use Rattle.warc_record.specs.Ids.{is_id};
ghost use Rattle.warc_record.specs.Readings.{bare_present, both, present_bare, instant_in, unless_empty, reference_of, segment_reading, digest_wanted, reading_of, target_of};
ghost use Rattle.warc_record.specs.Heads.{count_fault, type_fault, id_fault, head_fault};
ghost use Rattle.warc_record.specs.Seen.{pair_said, reference_said, segment_said, said};

use crate::ids::{IdKey, bare, id_key, is_bare_id};
use crate::known::{ByName, Spots};
use crate::readings::{
    SegmentNumber, bare_in, is_known_profile, key_in, number_in, present, segment_number, text_in,
    unless_empty,
};
use crate::types::Kind;
use std::alloc::{Allocator, Global};
use std::marker::Model;
use warc_field::{Fields, Value, is_name};
use warc_frame::{FaultKind, FieldName, Mandatory};
use warc_value::{Moment, Wanted, read_date};

/// The texts of a head that are listed, each empty if it is absent, and whether the record is marked as truncated.
#[derive(Clone, Copy, Debug)]
pub struct HeadTexts<'a> {
    /// The values of `WARC-Type`, `WARC-Date` and `WARC-Record-ID`, as they are written.
    pub kind: &'a [u8],
    pub date: &'a [u8],
    pub id: &'a [u8],

    /// The bare text of `WARC-Target-URI`.
    pub target: &'a [u8],

    /// Whether `WARC-Truncated` isn't absent.
    pub is_truncated: bool,
}

/// A target and an instant that a revisit names.
#[derive(Clone, Copy, Debug)]
pub struct NamedPair<'a> {
    pub target: &'a [u8],
    pub moment: Moment,
}

/// What a revisit refers to.
#[derive(Debug, Drop)]
pub struct Reference<'a> {
    /// Whether `WARC-Profile` is one of the four known profiles.
    pub known_profile: bool,

    /// The id in `WARC-Refers-To`.
    pub named_id: Option<IdKey<'a>>,

    /// `WARC-Refers-To-Target-URI` and `WARC-Refers-To-Date`, if both can be read.
    pub named_pair: Option<NamedPair<'a>>,
}

/// Which segment of which record a record is.
#[derive(Debug, Drop)]
pub struct Segment<'a> {
    pub number: SegmentNumber,

    /// The id in `WARC-Segment-Origin-ID`.
    pub origin: Option<IdKey<'a>>,

    /// The number in `WARC-Segment-Total-Length`, in bytes.
    pub total: Option<u64>,
}

/// What the head of a good record says, each reading from the first field of its name. Its texts are borrowed.
#[derive(Debug, Drop)]
pub struct Typed<'a> {
    pub texts: HeadTexts<'a>,
    pub kind: Kind,
    pub id: IdKey<'a>,
    pub moment: Moment,
    pub reference: Reference<'a>,
    pub segment: Segment<'a>,

    /// The value of `WARC-Block-Digest`, empty if it is absent.
    pub digest: &'a [u8],

    /// The value of `WARC-Payload-Digest`, empty if it is absent.
    pub payload_digest: &'a [u8],
}

impl<'a> Typed<'a> {
    /// The digest that it asks for of its block.
    pub fn wanted(&self) -> Wanted
        ensures { result ≡ (said self.now).wanted }
    {
        Wanted::of(self.digest)
    }

    /// The bare text of the target.
    pub fn target(&self) -> Option<&'a [u8]>
        ensures { option_copied result ≡ (said self.now).target }
    {
        unless_empty(self.texts.target)
    }

    /// The digest that is stated of the payload.
    pub fn payload_digest(&self) -> Option<&'a [u8]>
        ensures { option_copied result ≡ (said self.now).payload_digest }
    {
        unless_empty(self.payload_digest)
    }
}

/// The date that the first field's value is.
fn instant_in<A: Allocator>(fields: &ByName<'_, A>, name: FieldName) -> Option<Moment>
    ensures { result ≡ instant_in (name_text name) fields.now }
{
    read_date(present(fields, name)?)
}

/// The target and the instant that the head names.
fn named_pair<'a, A: Allocator>(fields: &ByName<'a, A>) -> Option<NamedPair<'a>>
    ensures { option_map pair_said result
        ≡ both (present_bare warc_refers_to_target_uri fields.now)
        (instant_in warc_refers_to_date fields.now) }
{
    let target = bare_in(fields, FieldName::RefersToTargetUri)?;
    let moment = instant_in(fields, FieldName::RefersToDate)?;
    Some(NamedPair { target, moment })
}

/// What the head refers to.
fn read_reference<'a, A: Allocator>(fields: &ByName<'a, A>) -> Reference<'a>
    ensures { reference_said result ≡ reference_of fields.now }
{
    let known_profile = match present(fields, FieldName::Profile) {
        Some(value) => is_known_profile(value),
        None => false,
    };
    Reference {
        known_profile,
        named_id: key_in(fields, FieldName::RefersTo),
        named_pair: named_pair(fields),
    }
}

/// Which segment the head says that the record is.
fn read_segment<'a, A: Allocator>(fields: &ByName<'a, A>) -> Segment<'a>
    ensures { segment_said result ≡ segment_reading fields.now }
{
    Segment {
        number: segment_number(fields),
        origin: key_in(fields, FieldName::SegmentOriginId),
        total: number_in(fields, FieldName::SegmentTotalLength),
    }
}

/// The digest that the head asks for of its block.
pub fn wanted<A: Allocator>(fields: &Fields<A>) -> Wanted
    ensures { result ≡ digest_wanted fields.now }
{
    wanted_in(&ByName::new(fields))
}

/// The digest that the head asks for of its block, from fields by their names.
fn wanted_in<A: Allocator>(fields: &ByName<'_, A>) -> Wanted
    ensures { result ≡ digest_wanted fields.now }
{
    match present(fields, FieldName::BlockDigest) {
        Some(value) => Wanted::of(value),
        None => Wanted::Unchecked,
    }
}

/// The value of a field that must occur exactly once.
fn only<'a, A: Allocator>(
    fields: &ByName<'a, A>,
    name: FieldName,
    field: Mandatory,
) -> Result<&'a Value<A>, FaultKind>
    requires { name_text name ≡ name_of field }
    ensures { MatchResult result
        (λ value. (count_fault field fields.now ≡ None) × (first_value (name_of field) fields.now ≡ Some value.now))
        (λ fault. count_fault field fields.now ≡ Some fault) }
{
    let Some(value) = fields.first(name) else {
        return Err(FaultKind::Missing(field));
    };
    if fields.repeats(name) {
        Err(FaultKind::Repeated(field))
    } else {
        Ok(value)
    }
}

/// The value of the head's type.
fn type_text<'a, A: Allocator>(fields: &ByName<'a, A>) -> Result<&'a Value<A>, FaultKind>
    ensures { MatchResult result
        (λ value. (type_fault fields.now ≡ None) × (first_value warc_type fields.now ≡ Some value.now))
        (λ fault. type_fault fields.now ≡ Some fault) }
{
    let value = only(fields, FieldName::Type, Mandatory::Type)?;
    if is_name(value.bytes()) {
        Ok(value)
    } else {
        Err(FaultKind::BadType)
    }
}

/// The value of the head's id.
fn id_text<'a, A: Allocator>(fields: &ByName<'a, A>) -> Result<&'a Value<A>, FaultKind>
    ensures { MatchResult result
        (λ value. (id_fault fields.now ≡ None) × (first_value warc_record_id fields.now ≡ Some value.now)
        × (is_id value.now ≡ true))
        (λ fault. id_fault fields.now ≡ Some fault) }
{
    let value = only(fields, FieldName::RecordId, Mandatory::RecordId)?;
    if is_bare_id(bare(value.bytes())) {
        Ok(value)
    } else {
        Err(FaultKind::Id)
    }
}

/// The bare text of the target, empty if it is absent.
#[tactic(auto, using(crate::proofs::TypedLemmas::bare_or_empty))]
fn target_in<'a, A: Allocator>(fields: &ByName<'a, A>) -> &'a [u8]
    ensures text { result.now ≡ unwrap_or (target_of fields.now) [] }
    ensures present { unless_empty result.now ≡ target_of fields.now }
{
    match bare_in(fields, FieldName::TargetUri) {
        Some(target) => target,
        None => b"",
    }
}

/// What a head of these mandatory fields says.
#[tactic(auto, using(crate::proofs::TypedLemmas::wanted_unless_empty))]
fn read_typed<'a, A: Allocator>(
    fields: &ByName<'a, A>,
    type_text: &'a [u8],
    id_text: &'a [u8],
    date_text: &'a [u8],
    moment: Moment,
) -> Typed<'a>
    requires of_type { first_value warc_type fields.now ≡ Some type_text.now }
    requires of_id { first_value warc_record_id fields.now ≡ Some id_text.now }
    requires id { is_id id_text.now ≡ true }
    requires of_date { first_value warc_date fields.now ≡ Some date_text.now }
    requires date { instant_of date_text.now ≡ Some moment }
    ensures { said result ≡ reading_of fields.now }
{
    let Some(id) = id_key(id_text) else {
        unreachable!()
    };
    Typed {
        texts: HeadTexts {
            kind: type_text,
            date: date_text,
            id: id_text,
            target: target_in(fields),
            is_truncated: present(fields, FieldName::Truncated).is_some(),
        },
        kind: Kind::named(type_text),
        id,
        moment,
        reference: read_reference(fields),
        segment: read_segment(fields),
        digest: text_in(fields, FieldName::BlockDigest),
        payload_digest: text_in(fields, FieldName::PayloadDigest),
    }
}

/// What the head of a record says, or the first refusal of its type, its id and its date, in this
/// order: F4 Missing or F5 Repeated, and then F7 BadType, F8 Id or F9 Date. It doesn't look at `Content-Length`.
pub fn type_head<A: Allocator>(fields: &Fields<A>) -> Result<Typed<'_>, FaultKind>
    ensures { MatchResult result
        (λ typed. (head_fault fields.now ≡ None) × (said typed ≡ reading_of fields.now))
        (λ fault. head_fault fields.now ≡ Some fault) }
{
    type_fields(&ByName::new(fields))
}

/// What `type_head` gives, from fields by their names.
fn type_fields<'a, A: Allocator>(fields: &ByName<'a, A>) -> Result<Typed<'a>, FaultKind>
    ensures { MatchResult result
        (λ typed. (head_fault fields.now ≡ None) × (said typed ≡ reading_of fields.now))
        (λ fault. head_fault fields.now ≡ Some fault) }
{
    let type_text = type_text(fields)?.bytes();
    let id_text = id_text(fields)?.bytes();
    let date_text = only(fields, FieldName::Date, Mandatory::Date)?.bytes();
    match read_date(date_text) {
        Some(moment) => Ok(read_typed(fields, type_text, id_text, date_text, moment)),
        None => Err(FaultKind::Date),
    }
}

/// The first refusal of a head's type, its id and its date, if there is one.
fn judge<A: Allocator>(fields: &ByName<'_, A>) -> Result<(), FaultKind>
    ensures { MatchResult result (λ _. head_fault fields.now ≡ None) (λ fault. head_fault fields.now ≡ Some fault) }
{
    type_text(fields)?;
    id_text(fields)?;
    let date_text = only(fields, FieldName::Date, Mandatory::Date)?;
    match read_date(date_text.bytes()) {
        Some(_) => Ok(()),
        None => Err(FaultKind::Date),
    }
}

/// The head that these fields are, or the first refusal of its type, its id and its date, in the order of `type_head`.
pub fn good_head_of<A: Allocator>(fields: Fields<A>) -> Result<GoodHead<A>, FaultKind>
    ensures { MatchResult result
        (λ head. (head_fault fields ≡ None) × (head ≡ fields))
        (λ fault. head_fault fields ≡ Some fault) }
{
    let named = ByName::new(&fields);
    judge(&named)?;
    let spots = named.spots();
    Ok(GoodHead { fields, spots })
}

/// A good head: its fields, and where the names of the standard are among them. Contracts see the list of its fields.
#[derive(Drop)]
pub struct GoodHead<A: Allocator = Global> {
    fields: Fields<A>,
    spots: Spots,
}

impl<A: Allocator> Model for GoodHead<A> {
    ghost use Rattle.std.specs.Prelude.{◌≡◌, List, ℕ, None};
    ghost use Rattle.warc_record.specs.Heads.{head_fault};
    ghost use Rattle.warc_record.specs.Known.{AreSpots};

    ghost Value = { List (List ℕ × List ℕ) };

    ghost view = { λ h. h.fields };

    ghost invariant = { λ h. record { good : head_fault h.fields ≡ None; spots : AreSpots h.fields h.spots } };
}

impl<A: Allocator> GoodHead<A> {
    /// Its fields.
    pub fn fields(&self) -> &Fields<A>
        ensures fields { result.now ≡ self.now }
        ensures good { head_fault self.now ≡ None }
    {
        &self.fields
    }

    /// Returns its fields.
    pub fn into_fields(self) -> Fields<A>
        ensures { result ≡ self }
    {
        self.fields
    }

    /// Its fields by their names.
    fn by_name(&self) -> ByName<'_, A>
        ensures fields { result ≡ self.now }
        ensures good { head_fault self.now ≡ None }
    {
        ByName::with(&self.fields, self.spots)
    }

    /// What it says.
    pub fn typed(&self) -> Typed<'_>
        ensures { said result ≡ reading_of self.now }
    {
        match type_fields(&self.by_name()) {
            Ok(typed) => typed,
            // A good head has no fault.
            Err(_) => unreachable!(),
        }
    }

    /// The digest that it asks for of its block.
    pub fn wanted(&self) -> Wanted
        ensures { result ≡ digest_wanted self.now }
    {
        wanted_in(&self.by_name())
    }

    /// What of it is listed: the values of its type, date and id as they are written, and its target without brackets.
    pub fn texts(&self) -> HeadTexts<'_>
        ensures kind { result.kind.now ≡ unwrap_or (reading_of self.now).type_text [] }
        ensures date { result.date.now ≡ unwrap_or (reading_of self.now).date_text [] }
        ensures id { result.id.now ≡ unwrap_or (reading_of self.now).id_text [] }
        ensures target { result.target.now ≡ unwrap_or (reading_of self.now).target [] }
        ensures truncated { result.is_truncated ≡ (reading_of self.now).truncated }
    {
        let fields = &self.by_name();
        HeadTexts {
            kind: text_in(fields, FieldName::Type),
            date: text_in(fields, FieldName::Date),
            id: text_in(fields, FieldName::RecordId),
            target: target_in(fields),
            is_truncated: present(fields, FieldName::Truncated).is_some(),
        }
    }
}
