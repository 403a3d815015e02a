//! Entries one after another, in the order in which they were added.

ghost use Rattle.std.specs.Prelude.{◌≡◌, ℕ, ◌+◌, ◌<◌, ◌≤◌, [], ◌∷◌, ◌++◌, length, take, filter, nat_lt, slice_range};
ghost use Rattle.std.specs.Prelude.{OnOk, OnErr, IfSome, IfNone};
ghost use Rattle.std.specs.List.{concat, sum_by};
ghost use Rattle.warc_order.specs.Entries.{entry_of, entry_at, HasPosition, IsTextAt, IsNone};
ghost use Rattle.warc_order.specs.Layout.{texts_of, IsGrowing};

use crate::column::Column;
use crate::mark::Mark;
use std::alloc::{AllocError, Allocator};
use std::marker::Model;

/// A part of the bytes.
fn part(bytes: &[u8], start: usize, end: usize) -> &[u8]
    requires order { start ≤ end }
    requires end { end ≤ length bytes.now }
    ensures { result.now ≡ slice_range bytes.now start end }
{
    &bytes[start..end]
}

/// Entries in the order in which they were added, and in no other: the bytes of all texts, and for each entry the end
/// of its text among them, its mark and its position.
#[derive(Drop)]
pub struct Entries<A: Allocator> {
    /// Each text begins where the one before it ends.
    ends: Vec<usize, A>,
    bytes: Vec<u8, A>,

    /// A number of 0 is blank.
    majors: Column<u32, A>,
    minors: Column<u64, A>,

    /// A position is blank if it is its entry's own index.
    positions: Column<u32, A>,
}

impl<A: Allocator> Model for Entries<A> {
    ghost use Rattle.std.specs.Prelude.{List};
    ghost use Rattle.warc_order.specs.Entries.{Entry};
    ghost use Rattle.warc_order.specs.Layout.{parts_in, entries_of, IsFlat};

    ghost Value = { List Entry };

    ghost view = { λ s. entries_of (parts_in s.ends.items s.bytes.items s.majors s.minors s.positions) };

    ghost invariant = { λ s. IsFlat (parts_in s.ends.items s.bytes.items s.majors s.minors s.positions)
        (entries_of (parts_in s.ends.items s.bytes.items s.majors s.minors s.positions)) };
}

impl<A: Allocator + Copy> Entries<A> {
    /// No entries.
    pub fn new(alloc: A) -> Entries<A>
        ensures { result ≡ [] }
    {
        Entries {
            ends: Vec::new(alloc),
            bytes: Vec::new(alloc),
            majors: Column::new(alloc),
            minors: Column::new(alloc),
            positions: Column::new(alloc),
        }
    }

    /// How many entries there are.
    pub fn len(&self) -> usize
        ensures { result ≡ length self.now }
    {
        self.ends.len()
    }

    /// The sum of the texts' lengths.
    pub fn kept(&self) -> u64
        ensures { result ≡ sum_by (λ e. length e.text) self.now }
    {
        self.bytes.len() as u64
    }

    /// The place where the text at an index begins.
    fn start(&self, i: usize) -> usize
        requires { i ≤ length self.now }
        ensures { result ≡ length (concat (texts_of (take i self.now))) }
    {
        if i == 0 { 0 } else { self.ends[i - 1] }
    }

    /// The text at an index, or the empty text past the end.
    pub fn text(&self, i: usize) -> &[u8]
        ensures { result.now ≡ (entry_at self.now i).text }
    {
        if i < self.len() {
            let start = self.start(i);
            let end = self.start(i + 1);
            part(&self.bytes, start, end)
        } else {
            &[]
        }
    }

    /// The mark at an index, or the least mark past the end.
    pub fn mark(&self, i: usize) -> Mark
        ensures { result ≡ (entry_at self.now i).mark }
    {
        Mark {
            major: self.majors.get(i).unwrap_or(0),
            minor: self.minors.get(i).unwrap_or(0),
        }
    }

    /// The position at an index, or 0 past the end.
    pub fn position(&self, i: usize) -> usize
        ensures { result ≡ (entry_at self.now i).position }
    {
        if i >= self.len() {
            return 0;
        }
        match self.positions.get(i) {
            Some(position) => position as usize,
            None => i,
        }
    }

    /// How many entries at the beginning have positions below a number. The positions rise.
    pub(crate) fn count_below(&self, position: usize) -> usize
        requires { IsGrowing self.now }
        ensures front { take result self.now ≡ filter (λ e. nat_lt e.position position) self.now }
        ensures below { (k : ℕ) → k < result → (entry_at self.now k).position < position }
        ensures above { (k : ℕ) → result ≤ k → k < length self.now → position ≤ (entry_at self.now k).position }
    {
        let mut low = 0;
        let mut high = self.len();
        while low < high {
            let middle = low + (high - low) / 2;
            if self.position(middle) < position {
                low = middle + 1;
            } else {
                high = middle;
            }
        }
        low
    }

    /// The text of the entry with a position, `None` if no entry has it. The positions rise.
    pub(crate) fn text_at(&self, position: usize) -> Option<&[u8]>
        requires { IsGrowing self.now }
        ensures some { IfSome result (λ text. IsTextAt self.now position text.now) }
        ensures none { IfNone result (IsNone self.now (HasPosition position)) }
    {
        let index = self.count_below(position);
        if index < self.len() && self.position(index) == position {
            Some(self.text(index))
        } else {
            None
        }
    }

    /// Adds an entry. `Err`: no memory for it; then nothing changes.
    pub fn add(&mut self, text: &[u8], mark: Mark, position: u32) -> Result<(), AllocError>
        ensures ok { OnOk result (self.new ≡ self.old ++ entry_of text.now mark position ∷ []) }
        ensures err { OnErr result (self.new ≡ self.old) }
    {
        let is_own = position as usize == self.ends.len();
        self.ends.reserve(1)?;
        self.majors.reserve(mark.major == 0)?;
        self.minors.reserve(mark.minor == 0)?;
        self.positions.reserve(is_own)?;
        self.bytes.extend_from_slice(text)?;
        self.ends.push_reserved(self.bytes.len());
        self.majors.push_reserved(mark.major, mark.major == 0);
        self.minors.push_reserved(mark.minor, mark.minor == 0);
        self.positions.push_reserved(position, is_own);
        Ok(())
    }

    /// Keeps the first `count` entries. It doesn't allocate.
    pub fn truncate(&mut self, count: usize)
        ensures { self.new ≡ take count self.old }
    {
        if count < self.len() {
            let end = self.start(count);
            self.bytes.truncate(end);
            self.ends.truncate(count);
            self.majors.truncate(count);
            self.minors.truncate(count);
            self.positions.truncate(count);
        }
    }
}
