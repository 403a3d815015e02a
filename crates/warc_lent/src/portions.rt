//! The next portion of an output, as numbers and as a text in a buffer that callers lend.
ghost use Rattle.std.specs.Prelude.{◌≡◌, ◌↔◌, ◌<◌, ◌+◌, ◌^◌, ◌++◌, ℕ, List, [], All, IfErr, IfSome, IsTrue, OnErr, OnOk, length, slice_get};
ghost use Rattle.warc_field.specs.Lines.{crlf};
ghost use Rattle.warc_frame.specs.Effects.{HasRange};
ghost use Rattle.warc_portions.specs.Outputs.{IsAny, IsInSplit, left_of, left_selected, left_split};
ghost use Rattle.warc_portions.specs.Portions.{IsPortionOf};
ghost use Rattle.warc_reading.specs.Archive.{IsArchiveOf, contents};
ghost use Rattle.warc_record.specs.Kinds.{kind_named};
ghost use Rattle.warc_rewrite.specs.Forms.{text_as};
ghost use Rattle.warc_write.specs.Making.{planned};
ghost use Rattle.warc_lent.specs.Buffers.{HoldsFront, KeepsAfter};
ghost use Rattle.warc_lent.specs.Portions.{IsNotThere, IsPortionPut, PutsMade, PutsNext, PutsWithin, problem_of_reread};
ghost use Rattle.warc_lent.specs.Texts.{IsUnreadable};

use crate::buffers::put_text_at;
use crate::problem::Problem;
use std::alloc::Allocator;
use warc::{Archive, Form};
use warc_frame::{EarlyFault, Source};
use warc_portions::laws::{ends_after_positions, ends_after_records};
use warc_portions::{Cursor, Portion, next_as, next_selected, next_split, portion_made};
use warc_reading::Row;
use warc_record::Kind;

/// What closes a record.
const CLOSING: &[u8] = b"\r\n\r\n";

/// A portion of an output: the first bytes of its text, a span of bytes that are lent, and the last bytes of its text.
#[repr(C)]
#[derive(Clone, Copy, Debug, PartialEq, Eq)]
pub struct PortionNumbers {
    /// How many bytes of its text come before the span.
    pub before: u64,
    /// How many come after it.
    pub after: u64,
    /// The offset of the span's first byte.
    pub offset: u64,
    /// How many bytes the span has.
    pub length: u64,
    /// Where the next portion is.
    pub next: Cursor,
}

/// Why no portion is made.
fn problem_of_reread(fault: EarlyFault) -> Problem
    ensures { result ≡ problem_of_reread fault }
{
    match fault {
        EarlyFault::Read => Problem::Changed,
        EarlyFault::Memory => Problem::Memory,
    }
}

/// Puts a head and what closes its record, as far as there is room.
fn put_ends(head: &[u8], out: &mut [u8])
    ensures front { HoldsFront (head.now ++ (crlf ++ crlf)) out.new }
    ensures rest { KeepsAfter (length head.now + 4) out.old out.new }
    ensures room { length out.new ≡ length out.old }
{
    let end = put_text_at(head, 0, out);
    put_text_at(CLOSING, end, out);
}

/// Puts a portion, and where the next one is.
fn put_portion<A: Allocator>(
    portion: &Portion<A>,
    next: Cursor,
    text: &mut [u8],
    out: &mut PortionNumbers,
)
    ensures put { (lent bytes : List ℕ) → IsPortionOf portion.now lent bytes →
        IsPortionPut lent bytes out.new text.new }
    ensures next { out.new.next ≡ next }
    ensures start { out.new.offset ≡ portion.now.block_start }
    ensures span { out.new.length ≡ portion.now.block_len }
    ensures rest { KeepsAfter (out.new.before + out.new.after) text.old text.new }
    ensures room { length text.new ≡ length text.old }
{
    put_ends(&portion.head, text);
    *out = PortionNumbers {
        before: portion.head.len() as u64,
        after: CLOSING.len() as u64,
        offset: portion.block_start,
        length: portion.block_len,
        next,
    };
}

/// The row of the record at a cursor's place, if there is one.
fn row_at<S: Source, A: Allocator>(archive: &Archive<S, A>, cursor: Cursor) -> Option<Row<'_>>
    ensures row { result ≡ slice_get archive.now.listing.rows cursor.place }
    ensures more { IfSome result (λ _. cursor.place + 1 < 2 ^ 64) }
{
    if cursor.place >= archive.count() as u64 {
        return None;
    }
    archive.row(cursor.place as usize)
}

/// Puts the next portion of an archive's records in a form: its numbers, and its text as far as there is room. False:
/// nothing is left. The bytes are those of the archive; `Changed`: they aren't. After a problem the same cursor may be
/// asked again. What follows in the buffer stays.
pub fn put_next_as<S: Source, A: Allocator + Copy>(
    alloc: A,
    archive: &Archive<S, A>,
    bytes: &[u8],
    form: Form,
    cursor: Cursor,
    text: &mut [u8],
    portion: &mut PortionNumbers,
) -> Result<bool, Problem>
    ensures puts { (is : IsArchiveOf bytes.now archive.now.listing.rows) →
        PutsNext (left_of (text_as form) (contents is.are.records)) IsAny cursor bytes.now result portion.new
        text.new }
    ensures within { PutsWithin bytes.now result portion.old portion.new text.old text.new }
    ensures refused { IfErr result IsUnreadable }
    ensures room { length text.new ≡ length text.old }
{
    ends_after_records();
    let Some(row) = row_at(archive, cursor) else {
        return Ok(false);
    };
    match next_as(alloc, form, &row, bytes, cursor) {
        Ok((made, next)) => {
            put_portion(&made, next, text, portion);
            Ok(true)
        }
        Err(fault) => Err(problem_of_reread(fault)),
    }
}

/// Puts the next portion of an archive's records, each split into segments of `size` bytes, in the same way. The digest
/// of a segment is computed with its portion.
pub fn put_next_split<S: Source, A: Allocator + Copy>(
    alloc: A,
    archive: &Archive<S, A>,
    bytes: &[u8],
    size: u64,
    cursor: Cursor,
    text: &mut [u8],
    portion: &mut PortionNumbers,
) -> Result<bool, Problem>
    ensures puts { (is : IsArchiveOf bytes.now archive.now.listing.rows) →
        IsInSplit size (contents is.are.records) cursor → PutsNext (left_split size (contents is.are.records))
        (IsInSplit size (contents is.are.records)) cursor bytes.now result portion.new text.new }
    ensures within { PutsWithin bytes.now result portion.old portion.new text.old text.new }
    ensures refused { IfErr result IsUnreadable }
    ensures room { length text.new ≡ length text.old }
{
    ends_after_records();
    let Some(row) = row_at(archive, cursor) else {
        return Ok(false);
    };
    match next_split(alloc, size, &row, bytes, cursor) {
        Ok((made, next)) => {
            put_portion(&made, next, text, portion);
            Ok(true)
        }
        Err(fault) => Err(problem_of_reread(fault)),
    }
}

/// The position at a cursor's place, if there is one.
fn position_at(positions: &[usize], cursor: Cursor) -> Option<usize>
    ensures position { result ≡ slice_get positions.now cursor.place }
    ensures more { IfSome result (λ _. cursor.place + 1 < 2 ^ 64) }
{
    if cursor.place >= positions.len() as u64 {
        return None;
    }
    positions.get(cursor.place as usize).copied()
}

/// Whether there are this many bytes from an offset on.
fn has_range(offset: u64, length: u64, bytes: &[u8]) -> bool
    ensures { IsTrue result ↔ HasRange offset length bytes.now }
{
    let len = bytes.len() as u64;
    if len < offset {
        return false;
    }
    length <= len - offset
}

/// Puts where the next of the records at positions of an archive is, with the two line ends after its block. False:
/// nothing is left. The bytes are those of the archive; `Changed`: they aren't. `NoRecord`: no record is at the
/// position. After a problem the same cursor may be asked again.
pub fn put_next_selected<S: Source, A: Allocator>(
    archive: &Archive<S, A>,
    bytes: &[u8],
    positions: &[usize],
    cursor: Cursor,
    portion: &mut PortionNumbers,
) -> Result<bool, Problem>
    ensures puts { IsArchiveOf bytes.now archive.now.listing.rows →
        All (λ p. p < length archive.now.listing.rows) positions.now →
        PutsNext (left_selected archive.now.listing.rows positions.now bytes.now) IsAny cursor bytes.now result
        portion.new [] }
    ensures within { PutsWithin bytes.now result portion.old portion.new [] [] }
    ensures refused { IfErr result IsNotThere }
{
    ends_after_positions();
    let Some(position) = position_at(positions, cursor) else {
        return Ok(false);
    };
    let Some(row) = archive.row(position) else {
        return Err(Problem::NoRecord);
    };
    let (offset, length, next) = next_selected(&row, cursor);
    if !has_range(offset, length, bytes) {
        return Err(Problem::Changed);
    }
    *portion = PortionNumbers {
        before: 0,
        after: 0,
        offset,
        length,
        next,
    };
    Ok(true)
}

/// Puts a record of WARC 1.1 that is made, as `warc_write::make` does: its span is its block. The kind is named in any
/// case. What follows in the buffer stays.
pub fn put_made<A: Allocator + Copy>(
    alloc: A,
    kind: &[u8],
    uri: &[u8],
    date: &[u8],
    uuid: &[u8],
    content_type: &[u8],
    block: &[u8],
    text: &mut [u8],
    portion: &mut PortionNumbers,
) -> Result<(), Problem>
    ensures puts { PutsMade (planned (kind_named kind.now) uri.now date.now uuid.now content_type.now block.now)
        block.now result portion.new text.new }
    ensures range { OnOk result (HasRange portion.new.offset portion.new.length block.now) }
    ensures rest { OnOk result (KeepsAfter (portion.new.before + portion.new.after) text.old text.new) }
    ensures same { OnErr result ((portion.new ≡ portion.old) × (text.new ≡ text.old)) }
    ensures room { length text.new ≡ length text.old }
{
    let kind = Kind::named(kind);
    let made = match portion_made(alloc, kind, uri, date, uuid, content_type, block) {
        Ok(made) => made,
        Err(fault) => return Err(Problem::Made(fault)),
    };
    let next = Cursor {
        place: 1,
        segment: 0,
    };
    put_portion(&made, next, text, portion);
    Ok(())
}
