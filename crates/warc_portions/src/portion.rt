//! Records in a form: the head of each made from its fields, its block where it is.
ghost use Rattle.std.specs.Prelude.{◌≡◌, ◌↔◌, ◌≤◌, IfErr, IfOk, IsTrue, MatchResult, OnOk};
ghost use Rattle.warc_field.specs.Area.{canonical_fields};
ghost use Rattle.warc_frame.specs.Effects.{HasRange};
ghost use Rattle.warc_frame.specs.Record.{head_text};
ghost use Rattle.warc_portions.specs.Portions.{IsInPlace, IsPortionOf};
ghost use Rattle.warc_reading.specs.Rereading.{IsHeadReadOf};
ghost use Rattle.warc_reading.specs.Row.{Placed};
ghost use Rattle.warc_rewrite.specs.Forms.{text_as};

use std::alloc::{AllocError, Allocator};
use warc_field::{Fields, write_area};
use warc_frame::{EarlyFault, Head, Version};
use warc_reading::{Row, head_in};
use warc_rewrite::Form;
use warc_write::convert_fields;

/// A record that is written: its head, and its block among bytes that are lent. CRLF CRLF closes it.
#[derive(Drop)]
pub struct Portion<A: Allocator> {
    /// The head, from its version line to its empty line.
    pub head: Vec<u8, A>,
    /// The offset of the block's first byte.
    pub block_start: u64,
    /// How many bytes the block has.
    pub block_len: u64,
}

/// The canonical head of these fields.
fn head_text<A: Allocator + Copy>(
    alloc: A,
    version: Version,
    fields: &Fields<A>,
) -> Result<Vec<u8, A>, AllocError>
    ensures { IfOk result (λ text. text.items ≡ head_text version (canonical_fields fields.now)) }
{
    let mut text = Vec::new(alloc);
    text.extend_from_slice(version.line())?;
    write_area(fields, &mut text)?;
    text.extend_from_slice(b"\r\n")?;
    Ok(text)
}

/// The record of these fields whose block is at this place. It fails only if an allocation fails.
pub(crate) fn portion_of<A: Allocator + Copy>(
    alloc: A,
    version: Version,
    fields: &Fields<A>,
    block_start: u64,
    block_len: u64,
) -> Result<Portion<A>, EarlyFault>
    ensures head { IfOk result (λ portion.
        portion.head.items ≡ head_text version (canonical_fields fields.now)) }
    ensures start { IfOk result (λ portion. portion.block_start ≡ block_start) }
    ensures len { IfOk result (λ portion. portion.block_len ≡ block_len) }
    ensures memory { IfErr result (λ fault. fault ≡ EarlyFault.Memory) }
{
    match head_text(alloc, version, fields) {
        Ok(head) => Ok(Portion {
            head,
            block_start,
            block_len,
        }),
        Err(_) => Err(EarlyFault::Memory),
    }
}

/// Whether a row's head and block are within the bytes.
fn are_within(row: &Row<'_>, bytes: &[u8]) -> bool
    ensures { IsTrue result ↔ ((row.now.offset ≤ row.now.block_start)
        × HasRange row.now.block_start row.now.block_len bytes.now) }
{
    let len = bytes.len() as u64;
    if row.block_start < row.offset || len < row.block_start {
        return false;
    }
    row.block_len <= len - row.block_start
}

/// The head of a row's record, read in the bytes of its archive. `Read`: the bytes aren't what they were.
pub(crate) fn head_at<A: Allocator + Copy>(
    alloc: A,
    row: &Row<'_>,
    bytes: &[u8],
) -> Result<Head<A>, EarlyFault>
    ensures head { (p : Placed) → IsInPlace bytes.now row.now p →
        MatchResult result (IsHeadReadOf p.content) (λ fault. fault ≡ EarlyFault.Memory) }
    ensures range { OnOk result (HasRange row.now.block_start row.now.block_len bytes.now) }
{
    if !are_within(row, bytes) {
        return Err(EarlyFault::Read);
    }
    let text = &bytes[row.offset as usize..row.block_start as usize];
    head_in(alloc, text, row.block_len)
}

/// What is written of a row's record in a form. `Read`: the bytes aren't what they were.
pub(crate) fn portion_as<A: Allocator + Copy>(
    alloc: A,
    form: Form,
    row: &Row<'_>,
    bytes: &[u8],
) -> Result<Portion<A>, EarlyFault>
    ensures written { (p : Placed) → IsInPlace bytes.now row.now p → MatchResult result
        (λ portion. IsPortionOf portion bytes.now (text_as form p.content)) (λ fault. fault ≡ EarlyFault.Memory) }
    ensures range { IfOk result (λ portion. HasRange portion.block_start portion.block_len bytes.now) }
{
    let head = match head_at(alloc, row, bytes) {
        Ok(head) => head,
        Err(fault) => return Err(fault),
    };
    let (start, len) = (row.block_start, row.block_len);
    match form {
        Form::Canonical => portion_of(alloc, head.version, &head.fields, start, len),
        Form::Converted => match convert_fields(alloc, &head.fields) {
            Ok(fields) => portion_of(alloc, Version::V1_1, &fields, start, len),
            Err(_) => Err(EarlyFault::Memory),
        },
    }
}
