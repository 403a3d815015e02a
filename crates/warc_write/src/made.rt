//! Records made of a target, a date, an id and a block.
ghost use Rattle.std.specs.Prelude.{◌≡◌, ℕ, ◌<◌, ◌≤◌, List, [], true, length, IfErr, IfOk, OnOk, Ok, Err, Some};
ghost use Rattle.std.specs.Option.{option_copied};
ghost use Rattle.uuid.specs.Text.{parsed};
ghost use Rattle.warc_field.specs.Text.{is_value};
ghost use Rattle.warc_frame.specs.Record.{IsFramed, block_len, max_block};
ghost use Rattle.warc_record.specs.Good.{IsGood};
ghost use Rattle.warc_record.specs.Heads.{is_date};
ghost use Rattle.warc_write.specs.Making.{Makes, fitted, is_target, is_one_text, made, made_fields};
ghost use Rattle.warc_write.specs.Making.{make_fault_text, planned, type_of};

use crate::parts::{add_field, add_number};
use crate::written::{digest_text, id_text};
use std::alloc::{AllocError, Allocator};
use std::fmt;
use thiserror::Error;
use uuid::Uuid;
use warc_field::{Fields, is_value};
use warc_frame::{FieldName, Framed, MAX_BLOCK, Version};
use warc_record::{Kind, bare};
use warc_value::laws::date_is_value;
use warc_value::{digest, read_date};

/// Why no record is made: M1 to M5.
#[derive(Clone, Copy, PartialEq, Eq, Debug, Error)]
pub enum MakeFault {
    /// The date isn't valid.
    Date,

    /// The target is empty, not a value or not its own bare text; or the id isn't a UUID; or the content type is
    /// empty or not a value.
    Text,

    /// The head would be longer than 65,536 bytes, or the block than 2^40.
    TooLong,

    /// An allocation failed.
    Memory,

    /// The kind isn't resource, metadata or conversion.
    Kind,
}

impl MakeFault {
    /// Its number and name, which are its text, in at most 10 bytes.
    pub fn name(self) -> &'static str
        ensures text { result.now ≡ make_fault_text self }
        ensures short { length result.now ≤ 10 }
    {
        match self {
            MakeFault::Date => "M1 Date",
            MakeFault::Text => "M2 Text",
            MakeFault::TooLong => "M3 TooLong",
            MakeFault::Memory => "M4 Memory",
            MakeFault::Kind => "M5 Kind",
        }
    }
}

impl fmt::Display for MakeFault {
    ghost output = { λ fault. Some (make_fault_text fault) };

    fn fmt<W: fmt::Write>(&self, f: &mut fmt::Formatter<W>) -> fmt::Result {
        write!(f, "{}", self.name())
    }
}

impl From<AllocError> for MakeFault {
    ghost use Rattle.warc_write.specs.declared.made.MakeFault.TheVariants.{Memory};

    ghost from_gives = { λ _ fault. fault ≡ Memory };

    fn from(_: AllocError) -> MakeFault {
        MakeFault::Memory
    }
}

/// The type of a kind that is made.
fn type_of(kind: Kind) -> Option<&'static [u8]>
    ensures { option_copied result ≡ type_of kind }
{
    match kind {
        Kind::Resource => Some(b"resource"),
        Kind::Metadata => Some(b"metadata"),
        Kind::Conversion => Some(b"conversion"),
        _ => None,
    }
}

/// Whether the text is a value that isn't empty.
fn is_text(text: &[u8]) -> bool
    ensures { result ≡ is_one_text text.now }
{
    is_value(text) && !text.is_empty()
}

/// Whether the text is such a value and its own bare text.
fn is_target(uri: &[u8]) -> bool
    ensures { result ≡ is_target uri.now }
{
    is_text(uri) && bare(uri) == uri
}

/// The fields of a made record, in their order.
fn made_fields<A: Allocator + Copy>(
    alloc: A,
    kind: &[u8],
    uuid: &Uuid,
    date: &[u8],
    uri: &[u8],
    content_type: &[u8],
    block: &[u8],
) -> Result<Fields<A>, AllocError>
    requires named { is_value kind.now ≡ true }
    requires date { is_value date.now ≡ true }
    requires uri { is_value uri.now ≡ true }
    requires content_type { is_value content_type.now ≡ true }
    ensures { IfOk result (λ fields. fields ≡ made_fields kind.now uuid.now
        (planned Kind.Resource uri.now date.now [] content_type.now block.now)) }
{
    let mut fields = Fields::new(alloc);
    add_field(alloc, &mut fields, FieldName::Type, kind)?;
    add_field(alloc, &mut fields, FieldName::RecordId, &id_text(uuid))?;
    add_field(alloc, &mut fields, FieldName::Date, date)?;
    add_field(alloc, &mut fields, FieldName::TargetUri, uri)?;
    add_field(alloc, &mut fields, FieldName::ContentType, content_type)?;
    add_field(
        alloc,
        &mut fields,
        FieldName::BlockDigest,
        &digest_text(&digest(block)),
    )?;
    add_number(
        alloc,
        &mut fields,
        FieldName::ContentLength,
        block.len() as u64,
    )?;
    Ok(fields)
}

/// The record of these fields and this block, unless its head is too long.
fn fitting<A: Allocator>(fields: Fields<A>, block: Vec<u8, A>) -> Result<Framed<A>, MakeFault>
    requires { block_len fields ≡ Ok (length block.items) }
    ensures framed { IfOk result IsFramed }
    ensures made { result ≡ fitted fields block.items }
{
    match Framed::new(Version::V1_1, fields, block) {
        Ok(framed) => Ok(framed),
        Err(_) => Err(MakeFault::TooLong),
    }
}

/// The id, or the first refusal of all that a record has but its block.
fn judge(uri: &[u8], date: &[u8], uuid: &[u8], content_type: &[u8]) -> Result<Uuid, MakeFault>
    ensures date { OnOk result (is_date date.now ≡ true) }
    ensures target { OnOk result (is_target uri.now ≡ true) }
    ensures id { IfOk result (λ id. parsed uuid.now ≡ Some id) }
    ensures content_type { OnOk result (is_one_text content_type.now ≡ true) }
    ensures refused { (kind : Kind) (type block : List ℕ) → type_of kind ≡ Some type →
        IfErr result (λ fault. made (planned kind uri.now date.now uuid.now content_type.now block) ≡ Err fault) }
{
    if read_date(date).is_none() {
        return Err(MakeFault::Date);
    }
    if !is_target(uri) {
        return Err(MakeFault::Text);
    }
    let Ok(uuid) = Uuid::try_parse_ascii(uuid) else {
        return Err(MakeFault::Text);
    };
    if !is_text(content_type) {
        return Err(MakeFault::Text);
    }
    Ok(uuid)
}

/// Why no record is made of these and a block of more than 2^40 bytes, if anything else is wrong or not: the first
/// refusal in the order of `make`.
pub fn refusal_of_long(
    kind: Kind,
    uri: &[u8],
    date: &[u8],
    uuid: &[u8],
    content_type: &[u8],
) -> MakeFault
    ensures { (block : List ℕ) → max_block < length block → made (planned kind uri.now date.now uuid.now
        content_type.now block) ≡ Err result }
{
    let Some(_) = type_of(kind) else {
        return MakeFault::Kind;
    };
    match judge(uri, date, uuid, content_type) {
        Ok(_) => MakeFault::TooLong,
        Err(fault) => fault,
    }
}

/// The record of WARC 1.1 with this kind, target, date, id and content type, and this block: the kind is resource,
/// metadata or conversion; the id a UUID in any form that `uuid` reads, written between `<` and `>` in lower case with
/// hyphens. It has the block's digest. The refusals come in the order M5, M1, M2, M3, and M4 if an allocation fails.
pub fn make<A: Allocator + Copy>(
    alloc: A,
    kind: Kind,
    uri: &[u8],
    date: &[u8],
    uuid: &[u8],
    content_type: &[u8],
    block: &[u8],
) -> Result<Framed<A>, MakeFault>
    ensures made { Makes result (made (planned kind uri.now date.now uuid.now content_type.now block.now)) }
    ensures good { IfOk result IsGood }
{
    date_is_value();
    let Some(type_text) = type_of(kind) else {
        return Err(MakeFault::Kind);
    };
    let uuid = judge(uri, date, uuid, content_type)?;
    if block.len() as u64 > MAX_BLOCK {
        return Err(MakeFault::TooLong);
    }
    let fields = made_fields(alloc, type_text, &uuid, date, uri, content_type, block)?;
    fitting(fields, Vec::from_slice(alloc, block)?)
}
