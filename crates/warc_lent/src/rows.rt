//! What is kept of a record, as numbers and texts.
ghost use Rattle.std.specs.Prelude.{◌≡◌, ◌++◌, ℕ, List, [], Result, length, slice_get, IfErr, IfOk, OnErr, Some, None};
ghost use Rattle.warc_frame.specs.Count.{capped};
ghost use Rattle.warc_lookup.specs.Indexed.{IsUnchanged};
ghost use Rattle.warc_reading.specs.Row.{Row as Seen};
ghost use Rattle.warc_lent.specs.Buffers.{HoldsFront, KeepsAfter};
ghost use Rattle.warc_replay.specs.Judged.{GivesVerdict};
ghost use Rattle.warc_replay.specs.declared.fault.TakeFault.{TakeFault as GhostFault};
ghost use Rattle.warc_value.specs.declared.hash.Verdict.{Verdict as Found};
ghost use Rattle.warc_lent.specs.Problems.{IsNoRecord, IsNotGiven};
ghost use Rattle.warc_lent.specs.Rows.{IsRowPut, flag_of, row_numbers, row_texts, short_length, verdict_answer, verdict_number};

use crate::buffers::put_text_at;
use crate::problem::Problem;
use std::alloc::Allocator;
use warc::Archive;
use warc_frame::Source;
use warc_reading::Row;
use warc_value::Verdict;

/// What is kept of a record, but for its texts: how long its type, date, id and target are, and 1 if it is marked as
/// truncated.
#[repr(C)]
#[derive(Clone, Copy, Debug, PartialEq, Eq)]
pub struct RowNumbers {
    /// The offset of its first byte.
    pub offset: u64,
    /// The offset of its block's first byte.
    pub block_offset: u64,
    /// How many bytes its block has.
    pub block_length: u64,
    /// How many bytes its type has.
    pub type_length: u32,
    /// How many bytes its date has.
    pub date_length: u32,
    /// How many bytes its id has.
    pub id_length: u32,
    /// How many bytes its target has.
    pub target_length: u32,
    /// Whether it is marked as truncated.
    pub is_truncated: u32,
}

/// The number of a verdict: 0 for good, 1 for bad, 2 for unchecked.
pub fn verdict_number(verdict: Verdict) -> u32
    ensures { result ≡ verdict_number verdict }
{
    match verdict {
        Verdict::Good => 0,
        Verdict::Bad => 1,
        Verdict::Unchecked => 2,
    }
}

/// 1 for what is so.
pub fn flag_of(is_so: bool) -> u32
    ensures { result ≡ flag_of is_so }
{
    match is_so {
        true => 1,
        false => 0,
    }
}

/// The length of a text, up to 2^32 - 1. No text of a good record has 2^16 bytes.
pub(crate) fn short_length(text: &[u8]) -> u32
    ensures { result ≡ short_length text.now }
{
    text.len().min(4_294_967_295) as u32
}

/// A row as numbers.
pub fn row_numbers(row: &Row<'_>) -> RowNumbers
    ensures { result ≡ row_numbers row.now }
{
    RowNumbers {
        offset: row.offset,
        block_offset: row.block_start,
        block_length: row.block_len,
        type_length: short_length(row.kind),
        date_length: short_length(row.date),
        id_length: short_length(row.id),
        target_length: short_length(row.target),
        is_truncated: flag_of(row.is_truncated),
    }
}

/// Puts the texts of a row into a buffer from an index on, one after another, and answers the index after them. What
/// follows in the buffer stays.
pub fn put_row_texts(row: &Row<'_>, at: usize, out: &mut [u8]) -> usize
    ensures end { (before : List ℕ) → at ≡ capped (length before) →
        result ≡ capped (length (before ++ row_texts row.now)) }
    ensures front { (before : List ℕ) → at ≡ capped (length before) → HoldsFront before out.old →
        HoldsFront (before ++ row_texts row.now) out.new }
    ensures rest { (before : List ℕ) → at ≡ capped (length before) →
        KeepsAfter (length (before ++ row_texts row.now)) out.old out.new }
    ensures room { length out.new ≡ length out.old }
{
    let date = put_text_at(row.kind, at, out);
    let id = put_text_at(row.date, date, out);
    let target = put_text_at(row.id, id, out);
    put_text_at(row.target, target, out)
}

/// Puts a row: its numbers, and its texts as far as there is room for them. The answer is the length of the texts.
fn put_kept(row: &Row<'_>, numbers: &mut RowNumbers, texts: &mut [u8]) -> usize
    ensures put { IsRowPut row.now result numbers.new texts.old texts.new }
    ensures room { length texts.new ≡ length texts.old }
{
    *numbers = row_numbers(row);
    put_row_texts(row, 0, texts)
}

/// Puts what is kept of the record at a position: numbers, and its type, date, id and target one after another, as far
/// as there is room for them. What follows in the buffer stays. The answer is the length of these texts.
pub fn put_row<S: Source, A: Allocator>(
    archive: &Archive<S, A>,
    position: usize,
    numbers: &mut RowNumbers,
    texts: &mut [u8],
) -> Result<usize, Problem>
    ensures kept { IfOk result (λ answered. (row : Seen) × (slice_get archive.now.listing.rows position ≡ Some row) ×
        IsRowPut row answered numbers.new texts.old texts.new) }
    ensures refused { IfErr result IsNoRecord }
    ensures absent { OnErr result (slice_get archive.now.listing.rows position ≡ None) }
    ensures same { OnErr result ((numbers.new ≡ numbers.old) × (texts.new ≡ texts.old)) }
    ensures room { length texts.new ≡ length texts.old }
{
    match archive.row(position) {
        Some(row) => Ok(put_kept(&row, numbers, texts)),
        None => Err(Problem::NoRecord),
    }
}

/// How the block of the record at a position compares with its digest, as a number, if that is SHA-1 in base32. The
/// head is read again, and the block too if a digest of it can be checked. `Changed`: the bytes are no longer what they
/// were.
pub fn verdict_at<S: Source, A: Allocator + Copy>(
    archive: &mut Archive<S, A>,
    position: usize,
) -> Result<u32, Problem>
    ensures judged { (answer : Result Found GhostFault) × GivesVerdict archive.old.listing.rows position
        (S.seen archive.old.listing.source) (S.seen archive.new.listing.source) answer ×
        (result ≡ verdict_answer answer) }
    ensures refused { IfErr result IsNotGiven }
    ensures unchanged { IsUnchanged archive.old archive.new }
{
    match archive.verdict(position) {
        Ok(verdict) => Ok(verdict_number(verdict)),
        Err(fault) => Err(Problem::of_take(fault)),
    }
}
