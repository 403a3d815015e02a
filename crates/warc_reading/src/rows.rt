//! What an archive keeps of its records, in flat lists: where each is, and its texts one after another.
ghost use Rattle.std.specs.Prelude.{◌≡◌, ℕ, ◌+◌, ◌≤◌, ◌^◌, List, [], ◌∷◌, ◌++◌, length, take, slice_range, vec_capacity, vec_len, IfNone, IfSome, OnErr, OnOk};
ghost use Rattle.std.specs.List.{slice_get, sum_by};
ghost use Rattle.warc_frame.specs.Record.{max_archive};
ghost use Rattle.warc_reading.specs.Archive.{IsArchiveOf};
ghost use Rattle.warc_reading.specs.Row.{texts_len};
ghost use Rattle.warc_reading.specs.Fitting.{Fits, RowsFit};
ghost use Rattle.warc_reading.specs.Rows.{IsPackedOf, unpacked, whole};

use std::alloc::{AllocError, Allocator};
use std::marker::Model;
use warc_frame::MAX_ARCHIVE;

/// How many bytes close a record: CRLF CRLF.
const CLOSING: u64 = 4;

/// What is kept of a record: where it is, and the texts of its type, date, id and target.
#[derive(Drop)]
pub struct Row<'a> {
    /// The offset of its first byte.
    pub offset: u64,
    /// The offset of its block's first byte.
    pub block_start: u64,
    /// How many bytes its block has.
    pub block_len: u64,
    /// Whether it is marked as truncated.
    pub is_truncated: bool,
    /// The value of its `WARC-Type`.
    pub kind: &'a [u8],
    /// The value of its `WARC-Date`.
    pub date: &'a [u8],
    /// The value of its `WARC-Record-ID`.
    pub id: &'a [u8],
    /// Its target without brackets, empty if it is absent.
    pub target: &'a [u8],
}

impl<'a> Model for Row<'a> {
    ghost use Rattle.warc_reading.specs.Row.{Row as Seen};

    ghost Value = { Seen };

    ghost view = { λ r. record {
      offset = r.offset;
      block_start = r.block_start;
      block_len = r.block_len;
      is_truncated = r.is_truncated;
      kind = r.kind.now;
      date = r.date.now;
      id = r.id.now;
      target = r.target.now;
    } };
}

/// A record's place, and the places where its texts begin and end in the list of texts.
#[derive(Clone, Copy)]
struct RowEntry {
    offset: u64,
    block_start: u64,
    block_len: u64,
    is_truncated: bool,
    kind_start: usize,
    kind_end: usize,
    date_end: usize,
    id_end: usize,
    target_end: usize,
}

/// A number below 2^48 in six bytes, as any offset in an archive is.
#[derive(Clone, Copy)]
struct Compact {
    low: u16,
    middle: u16,
    high: u16,
}

impl Compact {
    /// The number, if it is below 2^48.
    #[tactic(auto, unfolding(crate::specs::Rows::whole))]
    fn of(number: u64) -> Option<Compact>
        ensures is { IfSome result (λ s. whole s ≡ number) }
        ensures none { IfNone result (max_archive ≤ number) }
    {
        let Ok(high) = u16::try_from(number / 4_294_967_296) else {
            return None;
        };
        Some(Compact {
            low: (number % 65_536) as u16,
            middle: (number / 65_536 % 65_536) as u16,
            high,
        })
    }

    /// The number.
    #[tactic(auto, unfolding(crate::specs::Rows::whole))]
    fn value(self) -> u64
        ensures { result ≡ whole self }
    {
        self.low as u64 + self.middle as u64 * 65_536 + self.high as u64 * 4_294_967_296
    }
}

/// An entry in 32 bytes: of its head and its texts it keeps the lengths.
#[derive(Clone, Copy)]
struct Packed {
    head_len: u32,
    offset: Compact,
    block_len: Compact,
    start: Compact,
    kind_len: u16,
    date_len: u16,
    id_len: u16,
    target_len: u16,
    is_truncated: bool,
}

/// A length, if it is less than 2^16, as the length of any value in a head is.
fn short(len: usize) -> Option<u16>
    ensures is { IfSome result (λ n. n ≡ len) }
    ensures none { IfNone result (2 ^ 16 ≤ len) }
{
    match u16::try_from(len) {
        Ok(len) => Some(len),
        Err(_) => None,
    }
}

/// The length from one offset to another, if it is less than 2^32, as the length of any head is.
fn distance(from: u64, to: u64) -> Option<u32>
    ensures is { IfSome result (λ n. from + n ≡ to) }
    ensures none { IfNone result (from ≤ to → from + 2 ^ 32 ≤ to) }
{
    match u32::try_from(to.checked_sub(from)?) {
        Ok(len) => Some(len),
        Err(_) => None,
    }
}

impl Packed {
    /// The entry of a row whose texts begin at a place of the list. `None`: an offset or a length of 2^48 or more, a
    /// head of 2^32 bytes or more, or a text of 2^16 or more, which no good record has.
    fn of(start: usize, row: &Row<'_>) -> Option<Packed>
        ensures is { IfSome result (IsPackedOf start row.now) }
        ensures none { IfNone result (Fits start row.now → ⊥) }
    {
        Some(Packed {
            head_len: distance(row.offset, row.block_start)?,
            offset: Compact::of(row.offset)?,
            block_len: Compact::of(row.block_len)?,
            start: Compact::of(start as u64)?,
            kind_len: short(row.kind.len())?,
            date_len: short(row.date.len())?,
            id_len: short(row.id.len())?,
            target_len: short(row.target.len())?,
            is_truncated: row.is_truncated,
        })
    }

    /// The entry.
    fn entry(self) -> RowEntry
        ensures { result ≡ unpacked self }
    {
        let offset = self.offset.value();
        let kind_start = self.start.value() as usize;
        let kind_end = kind_start.saturating_add(self.kind_len as usize);
        let date_end = kind_end.saturating_add(self.date_len as usize);
        let id_end = date_end.saturating_add(self.id_len as usize);
        RowEntry {
            offset,
            block_start: offset.saturating_add(self.head_len as u64),
            block_len: self.block_len.value(),
            is_truncated: self.is_truncated,
            kind_start,
            kind_end,
            date_end,
            id_end,
            target_end: id_end.saturating_add(self.target_len as usize),
        }
    }
}

/// The rows of an archive's records, in their order.
#[derive(Drop)]
pub struct Rows<A: Allocator> {
    texts: Vec<u8, A>,
    entries: Vec<Packed, A>,
}

impl<A: Allocator> Model for Rows<A> {
    ghost use Rattle.std.specs.Prelude.{List, length, map};
    ghost use Rattle.warc_reading.specs.Row.{Row as Seen};
    ghost use Rattle.warc_reading.specs.Rows.{packed_row, AreKept};

    ghost Value = { List Seen };

    ghost view = { λ r. map (packed_row r.texts.items) r.entries.items };

    ghost invariant = { λ r. AreKept (length r.texts.items) r.entries.items };
}

/// A part of the bytes.
fn part(bytes: &[u8], start: usize, end: usize) -> &[u8]
    requires order { start ≤ end }
    requires end { end ≤ length bytes.now }
    ensures { result.now ≡ slice_range bytes.now start end }
{
    &bytes[start..end]
}

/// How many bytes a row's texts have, if fewer than 2^64.
fn texts_len(row: &Row<'_>) -> Option<usize>
    ensures is { IfSome result (λ n. n ≡ texts_len row.now) }
    ensures none { IfNone result (2 ^ 64 ≤ texts_len row.now) }
{
    row.kind
        .len()
        .checked_add(row.date.len())?
        .checked_add(row.id.len())?
        .checked_add(row.target.len())
}

/// Appends a text for which there is room, and returns where it ends.
#[inline(always)]
fn put<A: Allocator>(text: &[u8], texts: &mut Vec<u8, A>) -> usize
    requires { vec_len texts.old + length text.now ≤ vec_capacity texts.old }
    ensures items { texts.new.items ≡ texts.old.items ++ text.now }
    ensures len { vec_len texts.new ≡ vec_len texts.old + length text.now }
    ensures capacity { vec_capacity texts.old ≤ vec_capacity texts.new }
    ensures end { result ≡ length texts.new.items }
{
    match texts.extend_from_slice(text) {
        Ok(()) => {}
        Err(_) => unreachable!(),
    }
    texts.len()
}

impl<A: Allocator + Copy> Rows<A> {
    /// No rows.
    pub fn new(alloc: A) -> Rows<A>
        ensures { result ≡ [] }
    {
        Rows {
            texts: Vec::new(alloc),
            entries: Vec::new(alloc),
        }
    }

    /// Adds a row after the others. If an allocation fails, no row is added, and no part of its text. A row that
    /// doesn't fit an entry is refused in the same way; each row of an archive fits (law `rows_fit`).
    #[inline(always)]
    pub fn push(&mut self, row: &Row<'_>) -> Result<(), AllocError>
        ensures ok { OnOk result (self.new ≡ self.old ++ row.now ∷ []) }
        ensures err { OnErr result (self.new ≡ self.old) }
    {
        let Some(room) = texts_len(row) else {
            return Err(AllocError);
        };
        let Some(packed) = Packed::of(self.texts.len(), row) else {
            return Err(AllocError);
        };
        self.texts.reserve(room)?;
        self.entries.reserve(1)?;
        put(row.kind, &mut self.texts);
        put(row.date, &mut self.texts);
        put(row.id, &mut self.texts);
        put(row.target, &mut self.texts);
        self.entries.push_reserved(packed);
        Ok(())
    }
}

impl<A: Allocator> Rows<A> {
    /// Keeps the first `count` rows. It doesn't allocate.
    pub fn truncate(&mut self, count: usize)
        ensures { self.new ≡ take count self.old }
    {
        if let Some(entry) = self.entries.get(count) {
            let end = entry.start.value() as usize;
            self.texts.truncate(end);
            self.entries.truncate(count);
        }
    }

    /// The offset after the last record, at most 2^48.
    pub fn end(&self) -> u64
        ensures limit { result ≤ max_archive }
        ensures end { (bytes : List ℕ) → IsArchiveOf bytes self.now → result ≡ length bytes }
    {
        let Some(last) = self.entries.len().checked_sub(1) else {
            return 0;
        };
        let Some(packed) = self.entries.get(last) else {
            return 0;
        };
        let entry = packed.entry();
        let block_end = entry.block_start.saturating_add(entry.block_len);
        block_end.saturating_add(CLOSING).min(MAX_ARCHIVE)
    }

    /// How many bytes the texts have.
    pub fn kept(&self) -> u64
        ensures { result ≡ sum_by texts_len self.now }
    {
        self.texts.len() as u64
    }
}

impl<A: Allocator + Copy> Rows<A> {
    /// The allocator of its memory.
    pub fn allocator(&self) -> A {
        *self.texts.allocator()
    }
}

impl<A: Allocator> Rows<A> {
    /// How many rows there are.
    pub fn len(&self) -> usize
        ensures { result ≡ length self.now }
    {
        self.entries.len()
    }

    /// The row at a place, if there is one.
    pub fn get(&self, i: usize) -> Option<Row<'_>>
        ensures { result ≡ slice_get self.now i }
    {
        let entry = self.entries.get(i)?.entry();
        let texts = self.texts.as_slice();
        Some(Row {
            offset: entry.offset,
            block_start: entry.block_start,
            block_len: entry.block_len,
            is_truncated: entry.is_truncated,
            kind: part(texts, entry.kind_start, entry.kind_end),
            date: part(texts, entry.kind_end, entry.date_end),
            id: part(texts, entry.date_end, entry.id_end),
            target: part(texts, entry.id_end, entry.target_end),
        })
    }
}

/// Each row of an archive fits an entry after the texts of those before it: for none of them a failed allocation is
/// reported because of a limit.
pub fn rows_fit()
    ensures { RowsFit }
{}
