//! The rules of findings: when each of them holds, by the fields of a head.
ghost use Rattle.std.specs.Prelude.{◌≡◌, ◌++◌, List, [], OnOk, false, true};
ghost use Rattle.warc_field.specs.Area.{Pair};
ghost use Rattle.warc_record.specs.declared.checks.TableCheck.TheVariants.{Lacks, HasForbidden, Repeats};
ghost use Rattle.warc_record.specs.declared.checks.TableCheck.{TableCheck};
ghost use Rattle.warc_record.specs.Kinds.{is_known};
ghost use Rattle.warc_record.specs.Readings.{kind_of, reading_of};
ghost use Rattle.warc_frame.specs.FieldNames.{name_text};
ghost use Rattle.warc_record.specs.Table.{rule_seen};
ghost use Rattle.warc_record.specs.Findings.{BareId, NoContentType, NoOrigin, Profile, is_present, broken_rule, is_broken, by_table, once, plain_seen, is_bad_number, has_bad_segment, lacks_content_type, has_unknown_profile, lacks_origin, has_bare_id, is_in_brackets};

use crate::checks::TableCheck;
use crate::finding_sink::{FindingSink, PlainFinding, add_once};
use crate::head_fields::HeadFields;
use crate::ids::bare;
use crate::readings::{
    SegmentNumber, is_known_profile, key_in, number_in, present, segment_number,
};
use crate::table::{FieldRule, is_among, rows};
use crate::types::Kind;
use warc_frame::FieldName;

/// Whether the kind is one of the eight.
pub fn is_known(kind: Kind) -> bool
    ensures { result ≡ is_known kind }
{
    kind != Kind::Other
}

impl TableCheck {
    /// The finding that the rule of a field is broken.
    fn finding(self, rule: &FieldRule<'_>) -> PlainFinding
        ensures { plain_seen result ≡ broken_rule self (rule_seen rule.now) }
    {
        match self {
            TableCheck::Lacks => PlainFinding::Absent(rule.field),
            TableCheck::HasForbidden => PlainFinding::Forbidden(rule.field),
            TableCheck::Repeats => PlainFinding::Repeated(rule.field),
        }
    }
}

/// Whether the field isn't absent. A target is absent too if its bare text is empty.
fn is_present<'a, H: HeadFields<'a>>(fields: &H, name: FieldName) -> bool
    ensures { (pairs : List Pair) → H.reads fields.now pairs → result ≡ is_present (name_text name) pairs }
{
    match present(fields, name) {
        Some(value) => name != FieldName::TargetUri || !bare(value).is_empty(),
        None => false,
    }
}

/// Whether the rule of a field gives the finding that is looked for. `has_field` is whether its field isn't absent.
fn is_broken<'a, H: HeadFields<'a>>(
    check: TableCheck,
    kind: Kind,
    fields: &H,
    rule: &FieldRule<'_>,
    has_field: bool,
) -> bool
    ensures { (pairs : List Pair) → H.reads fields.now pairs
        → has_field ≡ is_present (rule_seen rule.now).name pairs
        → result ≡ is_broken check kind pairs (rule_seen rule.now) }
{
    match check {
        TableCheck::Lacks => !has_field && is_among(kind, rule.required),
        TableCheck::HasForbidden => has_field && is_among(kind, rule.forbidden),
        TableCheck::Repeats => is_known(kind) && fields.occurs_again(rule.field),
    }
}

/// Whether the rule of a field gives no finding.
fn keeps_rule<'a, H: HeadFields<'a>>(kind: Kind, fields: &H, rule: &FieldRule<'_>) -> bool
    ensures { result ≡ true → (pairs : List Pair) → H.reads fields.now pairs
        → (check : TableCheck) → is_broken check kind pairs (rule_seen rule.now) ≡ false }
{
    let has_field = is_present(fields, rule.field);
    !is_broken(TableCheck::Lacks, kind, fields, rule, has_field)
        && !is_broken(TableCheck::HasForbidden, kind, fields, rule, has_field)
        && !is_broken(TableCheck::Repeats, kind, fields, rule, has_field)
}

/// Whether no rule of the field table gives a finding.
fn keeps_table<'a, H: HeadFields<'a>>(kind: Kind, fields: &H) -> bool
    ensures { result ≡ true → (pairs : List Pair) → H.reads fields.now pairs
        → (check : TableCheck) → by_table check kind pairs ≡ [] }
{
    for rule in rows() {
        if !keeps_rule(kind, fields, rule) {
            return false;
        }
    }
    true
}

/// Adds the findings of one check by the field table.
fn add_broken<'a, H: HeadFields<'a>, S: FindingSink>(
    found: &mut S,
    check: TableCheck,
    kind: Kind,
    fields: &H,
) -> Result<(), S::Refusal>
    ensures { (pairs : List Pair) → H.reads fields.now pairs → OnOk result
        (S.listed found.new ≡ S.listed found.old ++ by_table check kind pairs) }
{
    for rule in rows() {
        let has_field = is_present(fields, rule.field);
        add_once(
            found,
            check.finding(rule),
            is_broken(check, kind, fields, rule, has_field),
        )?;
    }
    Ok(())
}

/// Adds the findings by the field table: N1, N2 and N3. Most records keep the table, which is found in one pass.
pub fn add_by_table<'a, H: HeadFields<'a>, S: FindingSink>(
    found: &mut S,
    kind: Kind,
    fields: &H,
) -> Result<(), S::Refusal>
    ensures { (pairs : List Pair) → H.reads fields.now pairs → OnOk result
        (S.listed found.new ≡ S.listed found.old ++ by_table Lacks kind pairs ++ by_table HasForbidden kind pairs
        ++ by_table Repeats kind pairs) }
{
    if keeps_table(kind, fields) {
        return Ok(());
    }
    add_broken(found, TableCheck::Lacks, kind, fields)?;
    add_broken(found, TableCheck::HasForbidden, kind, fields)?;
    add_broken(found, TableCheck::Repeats, kind, fields)
}

/// Whether a segment number is bad in a record of this kind.
fn is_bad_number(kind: Kind, number: SegmentNumber) -> bool
    ensures { result ≡ is_bad_number kind number }
{
    match number {
        SegmentNumber::Absent => false,
        SegmentNumber::Bad => true,
        SegmentNumber::Number(number) => match kind {
            Kind::Continuation => number < 2,
            _ => number != 1,
        },
    }
}

/// Whether the record's segment number or its total is bad: N5.
pub fn has_bad_segment<'a, H: HeadFields<'a>>(kind: Kind, fields: &H) -> bool
    ensures { (pairs : List Pair) → H.reads fields.now pairs → kind ≡ kind_of pairs
        → result ≡ has_bad_segment (reading_of pairs) pairs }
{
    is_known(kind)
        && (is_bad_number(kind, segment_number(fields))
            || kind == Kind::Continuation
                && present(fields, FieldName::SegmentTotalLength).is_some()
                && number_in(fields, FieldName::SegmentTotalLength).is_none())
}

/// Whether the record has a block and no content type: N7.
fn lacks_content_type<'a, H: HeadFields<'a>>(kind: Kind, fields: &H, block_len: u64) -> bool
    ensures { (pairs : List Pair) → H.reads fields.now pairs → result ≡ lacks_content_type kind pairs block_len }
{
    is_known(kind)
        && kind != Kind::Continuation
        && block_len != 0
        && present(fields, FieldName::ContentType).is_none()
}

/// Whether the record is a revisit whose profile isn't known: N8.
fn has_unknown_profile<'a, H: HeadFields<'a>>(kind: Kind, fields: &H) -> bool
    ensures { (pairs : List Pair) → H.reads fields.now pairs → kind ≡ kind_of pairs
        → result ≡ has_unknown_profile (reading_of pairs) pairs }
{
    if kind != Kind::Revisit {
        return false;
    }
    match present(fields, FieldName::Profile) {
        Some(profile) => !is_known_profile(profile),
        None => false,
    }
}

/// Whether the record is a continuation whose origin holds no id: N11.
fn lacks_origin<'a, H: HeadFields<'a>>(kind: Kind, fields: &H) -> bool
    ensures { (pairs : List Pair) → H.reads fields.now pairs → kind ≡ kind_of pairs
        → result ≡ lacks_origin (reading_of pairs) pairs }
{
    kind == Kind::Continuation
        && present(fields, FieldName::SegmentOriginId).is_some()
        && key_in(fields, FieldName::SegmentOriginId).is_none()
}

/// Whether the text begins with `<` and ends with `>`.
fn is_in_brackets(text: &[u8]) -> bool
    ensures { result ≡ is_in_brackets text.now }
{
    !text.is_empty() && text[0] == b'<' && text[text.len() - 1] == b'>'
}

/// Whether the value of the record's id isn't in brackets: N10.
fn has_bare_id<'a, H: HeadFields<'a>>(fields: &H) -> bool
    ensures { (pairs : List Pair) → H.reads fields.now pairs → result ≡ has_bare_id (reading_of pairs) }
{
    match fields.first_text(FieldName::RecordId) {
        Some(id) => !is_in_brackets(id),
        None => false,
    }
}

/// Adds the findings of what the block is said to be: N7 and N8.
pub fn add_of_block<'a, H: HeadFields<'a>, S: FindingSink>(
    found: &mut S,
    kind: Kind,
    fields: &H,
    block_len: u64,
) -> Result<(), S::Refusal>
    ensures { (pairs : List Pair) → H.reads fields.now pairs → kind ≡ kind_of pairs → OnOk result
        (S.listed found.new ≡ S.listed found.old
        ++ once NoContentType (lacks_content_type kind pairs block_len)
        ++ once Profile (has_unknown_profile (reading_of pairs) pairs)) }
{
    add_once(
        found,
        PlainFinding::NoContentType,
        lacks_content_type(kind, fields, block_len),
    )?;
    add_once(
        found,
        PlainFinding::Profile,
        has_unknown_profile(kind, fields),
    )
}

/// Adds the findings of the ids that the head states: N10 and N11.
pub fn add_of_ids<'a, H: HeadFields<'a>, S: FindingSink>(
    found: &mut S,
    kind: Kind,
    fields: &H,
) -> Result<(), S::Refusal>
    ensures { (pairs : List Pair) → H.reads fields.now pairs → kind ≡ kind_of pairs → OnOk result
        (S.listed found.new ≡ S.listed found.old
        ++ once BareId (has_bare_id (reading_of pairs)) ++ once NoOrigin (lacks_origin (reading_of pairs) pairs)) }
{
    add_once(found, PlainFinding::BareId, has_bare_id(fields))?;
    add_once(found, PlainFinding::NoOrigin, lacks_origin(kind, fields))
}
