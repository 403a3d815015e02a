//! Findings: what is wrong with a record that can be read.
ghost use Rattle.std.specs.Prelude.{◌≡◌, ◌++◌, ◌&&◌, OnOk, IfOk, map, false};
ghost use Rattle.std.specs.Option.{option_copied};
ghost use Rattle.std.specs.Str.{is_utf8};
ghost use Rattle.warc_record.specs.Kinds.{is_known};
ghost use Rattle.warc_record.specs.Findings.{finding_seen, finding_number, finding_field, not_utf8, findings_of};

use crate::finding_sink::{FindingSink, PlainFinding, add_once};
use crate::known::ByName;
use crate::readings::kind_in;
use crate::rules::{add_by_table, add_of_block, add_of_ids, has_bad_segment, is_known};
use crate::types::Kind;
use std::alloc::{AllocError, Allocator};
use warc_field::Fields;

/// What is wrong with a record that can be read, or with an archive: N1 to N12. Some hold the name of a field.
#[derive(Clone, Copy, Debug, PartialEq, Eq)]
pub enum Finding<'a> {
    /// A finding that holds no text of the record.
    Plain(PlainFinding),

    /// The value of a field isn't UTF-8: N9. The name is spelled as in the record.
    NotUtf8(&'a [u8]),
}

impl<'a> Finding<'a> {
    /// 1 to 12, for N1 to N12.
    pub fn number(self) -> u8
        ensures { result ≡ finding_number (finding_seen self.entry) }
    {
        match self {
            Finding::Plain(plain) => plain.number(),
            Finding::NotUtf8(_) => 9,
        }
    }

    /// The name of the field that it is about, if it is about one.
    pub fn field(self) -> Option<&'a [u8]>
        ensures { option_copied result ≡ finding_field (finding_seen self.entry) }
    {
        match self {
            Finding::Plain(plain) => plain.field(),
            Finding::NotUtf8(name) => Some(name),
        }
    }
}

/// What is looked for in the field table: N1, N2 or N3.
#[derive(Clone, Copy)]
pub enum TableCheck {
    /// A field that a rule requires is absent.
    Lacks,

    /// A field that a rule forbids isn't absent.
    HasForbidden,

    /// A field that may not be repeated is repeated.
    Repeats,
}

/// Whether the bytes are UTF-8.
#[tactic(auto, using(crate::proofs::FindingLemmas::utf8_is, crate::proofs::FindingLemmas::utf8_is_not))]
fn is_utf8(bytes: &[u8]) -> bool
    ensures { result ≡ is_utf8 bytes.now }
{
    match str::from_utf8(bytes) {
        Ok(_) => true,
        Err(_) => false,
    }
}

/// Adds a finding for each field whose value isn't UTF-8.
fn add_not_utf8<'a, A: Allocator>(
    found: &mut Vec<Finding<'a>, A>,
    fields: &ByName<'a, A>,
) -> Result<(), AllocError>
    ensures { OnOk result
        (map finding_seen found.new.items ≡ map finding_seen found.old.items ++ not_utf8 fields.now) }
{
    for (name, value) in fields.as_slice() {
        if !is_utf8(value.bytes()) {
            found.push(Finding::NotUtf8(name.bytes()))?;
        }
    }
    Ok(())
}

/// What an archive says of a record besides what the record itself says.
#[derive(Clone, Copy, Debug, PartialEq, Eq)]
pub struct ArchiveFacts {
    /// Its block's digest is checked and differs.
    pub bad_digest: bool,

    /// An earlier record has the same id.
    pub used_id: bool,
}

/// Whether a wrong digest is reported of a record of this kind.
fn has_bad_digest(kind: Kind, facts: ArchiveFacts) -> bool
    ensures { result ≡ (is_known kind && facts.bad_digest) }
{
    is_known(kind) && facts.bad_digest
}

impl<'a, A: Allocator> FindingSink for Vec<Finding<'a>, A> {
    ghost use Rattle.std.specs.Prelude.{map};
    ghost use Rattle.warc_record.specs.Findings.{finding_seen};

    type Refusal = AllocError;

    ghost listed = { λ found. map finding_seen found.items };

    fn add(&mut self, finding: PlainFinding) -> Result<(), AllocError> {
        self.push(Finding::Plain(finding))?;
        Ok(())
    }
}

/// The findings N1 to N11 of a record with these fields, in their order.
fn findings_in<'a, A: Allocator + Copy>(
    alloc: A,
    fields: &ByName<'a, A>,
    block_len: u64,
    facts: ArchiveFacts,
) -> Result<Vec<Finding<'a>, A>, AllocError>
    ensures { IfOk result (λ found. map finding_seen found.items
        ≡ findings_of fields.now block_len facts.bad_digest facts.used_id) }
{
    let kind = kind_in(fields);
    let mut found = Vec::new(alloc);
    add_by_table(&mut found, kind, fields)?;
    add_once(
        &mut found,
        PlainFinding::Digest,
        has_bad_digest(kind, facts),
    )?;
    add_once(
        &mut found,
        PlainFinding::SegmentNumber,
        has_bad_segment(kind, fields),
    )?;
    add_once(&mut found, PlainFinding::IdUsed, facts.used_id)?;
    add_of_block(&mut found, kind, fields, block_len)?;
    add_not_utf8(&mut found, fields)?;
    add_of_ids(&mut found, kind, fields)?;
    Ok(found)
}

/// The findings N1 to N11 of a record with these fields, in their order, whether its head is good or not. `block_len`
/// is the length of its block in bytes.
pub fn all_findings<'a, A: Allocator + Copy>(
    alloc: A,
    fields: &'a Fields<A>,
    block_len: u64,
    facts: ArchiveFacts,
) -> Result<Vec<Finding<'a>, A>, AllocError>
    ensures { IfOk result (λ found. map finding_seen found.items
        ≡ findings_of fields.now block_len facts.bad_digest facts.used_id) }
{
    findings_in(alloc, &ByName::new(fields), block_len, facts)
}

/// The findings that the record alone shows: all but N4, N6 and N12.
pub fn findings<'a, A: Allocator + Copy>(
    alloc: A,
    fields: &'a Fields<A>,
    block_len: u64,
) -> Result<Vec<Finding<'a>, A>, AllocError>
    ensures { IfOk result (λ found. map finding_seen found.items ≡ findings_of fields.now block_len false false) }
{
    let facts = ArchiveFacts {
        bad_digest: false,
        used_id: false,
    };
    all_findings(alloc, fields, block_len, facts)
}
