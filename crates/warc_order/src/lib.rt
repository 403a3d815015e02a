//! Texts in order: entries of a text, a mark and a position, found by text and mark.
//!
//! An [`Order`] holds entries. Each is a text (any bytes), a [`Mark`] of two numbers, and a position in some list of
//! the caller. Entries are added by rising positions, and `truncate` keeps the entries of the
//! first positions. Look-ups give the last entry of a text whose mark isn't above one, the first whose mark isn't below
//! one, and from an entry the next and the one before of its text, by mark, then by position. The text of an entry is
//! also found by its position.
//!
//! To a caller an `Order` is the plain list of its entries, in the order in which they were added: contracts use
//! no other. Many entries at once are added to an [`Unordered`], which `into_order` puts in order: the value is the
//! same as after adding them to an order one by one, in about half the time or less. Each addition reserves the memory
//! that this takes.
//!
//! Each look-up halves, and doesn't allocate; a step from an entry to the next doesn't halve. An entry takes 8 bytes
//! and its text, and 8 bytes of the order, also while it waits. A mark's two numbers take 4 and 8 bytes more, each from
//! the first entry on whose number isn't 0, and a position 4 bytes more, from the first entry on whose position isn't
//! its index. If entries are added one by one, an entry takes up to about 16 bytes of the order, which is kept in
//! blocks between half full and full. The first addition to an order that was filled at once cuts it into such blocks,
//! which takes memory once.
#![tactic(auto)]

ghost use Rattle.std.specs.Prelude.{◌≡◌, ℕ, ◌+◌, ◌<◌, [], ◌∷◌, ◌++◌, length, filter, nat_lt, OnOk, OnErr, IfOk, IfSome};
ghost use Rattle.std.specs.Prelude.{IfNone, All};
ghost use Rattle.std.specs.List.{sum_by};
ghost use Rattle.warc_order.specs.Entries.{entry_of, entry_at, IsUpTo, IsFrom, IsAfter, IsBefore, IsFirst, IsLast};
ghost use Rattle.warc_order.specs.Entries.{IsNone, HasPosition, IsTextAt};

mod block;
mod column;
mod compare;
mod entries;
mod entry_list;
mod hash;
mod lookup;
mod mark;
mod ranked;
mod slot;
mod unsorted;

pub use column::Column;
pub use entries::Entries;
pub use entry_list::{EntryList, HasEntries};
pub use lookup::narrow;
pub use mark::Mark;
use ranked::{Ranked, SlotPlace};
use std::alloc::{AllocError, Allocator, Global};
use std::marker::Model;
use unsorted::Waiting;

/// An entry that a look-up found: the number of entries that were added before it. It also keeps the entry's place
/// in the order, so that a step from it needs no search.
#[derive(Clone, Copy, Debug)]
pub struct FoundEntry {
    pub index: u32,
    place: SlotPlace,
}

/// Entries that wait to be put in order.
#[derive(Drop)]
pub struct Unordered<A: Allocator = Global> {
    entries: Entries<A>,
    waiting: Waiting<A>,
}

impl<A: Allocator> Model for Unordered<A> {
    ghost use Rattle.std.specs.Prelude.{List};
    ghost use Rattle.warc_order.specs.Entries.{Entry};
    ghost use Rattle.warc_order.specs.Layout.{AreWaiting};

    ghost Value = { List Entry };

    ghost view = { λ s. s.entries };

    ghost invariant = { λ s. AreWaiting s.entries s.waiting.list };
}

impl<A: Allocator + Copy> Unordered<A> {
    /// No entries.
    pub fn new(alloc: A) -> Unordered<A>
        ensures { result ≡ [] }
    {
        Unordered {
            entries: Entries::new(alloc),
            waiting: Waiting::new(alloc),
        }
    }

    /// Adds an entry. Its position is above all positions so far. `Err`: no memory for it and for putting it in order,
    /// or the position is 2^32 or more; then nothing changes.
    pub fn add(&mut self, text: &[u8], mark: Mark, position: usize) -> Result<(), AllocError>
        requires { All (λ e. e.position < position) self.old }
        ensures ok { OnOk result (self.new ≡ self.old ++ entry_of text.now mark position ∷ []) }
        ensures err { OnErr result (self.new ≡ self.old) }
    {
        let index = narrow(self.entries.len())?;
        let position = narrow(position)?;
        self.waiting.reserve()?;
        self.entries.add(text, mark, position)?;
        self.waiting
            .push_reserved(lookup::slot_of(&self.entries, index));
        Ok(())
    }

    /// Keeps the entries of the first `count` positions: those whose positions are below it. It doesn't allocate.
    pub fn truncate(&mut self, count: usize)
        ensures { self.new ≡ filter (λ e. nat_lt e.position count) self.old }
    {
        let kept = self.entries.count_below(count);
        self.entries.truncate(kept);
        self.waiting.keep_below(kept);
    }

    /// Puts the entries in order. It doesn't allocate.
    pub fn into_order(self) -> Order<A>
        ensures { result ≡ self }
    {
        let Unordered { entries, waiting } = self;
        let ranked = lookup::rank_all(&entries, waiting);
        Order { entries, ranked }
    }
}

/// Entries in order.
#[derive(Drop)]
pub struct Order<A: Allocator = Global> {
    entries: Entries<A>,
    ranked: Ranked<A>,
}

impl<A: Allocator> Model for Order<A> {
    ghost use Rattle.std.specs.Prelude.{List};
    ghost use Rattle.warc_order.specs.Entries.{Entry};
    ghost use Rattle.warc_order.specs.Layout.{IsOrdered};

    ghost Value = { List Entry };

    ghost view = { λ s. s.entries };

    ghost invariant = { λ s. IsOrdered s.entries s.ranked.list };
}

impl<A: Allocator + Copy> Order<A> {
    /// No entries.
    pub fn new(alloc: A) -> Order<A>
        ensures { result ≡ [] }
    {
        Order {
            entries: Entries::new(alloc),
            ranked: Ranked::new(alloc),
        }
    }

    /// How many entries there are.
    pub fn len(&self) -> usize
        ensures { result ≡ length self.now }
    {
        self.entries.len()
    }

    /// The bytes of all texts.
    pub fn kept(&self) -> u64
        ensures { result ≡ sum_by (λ e. length e.text) self.now }
    {
        self.entries.kept()
    }

    /// Adds an entry. Its position is above all positions so far. `Err`: no memory for it, or the position is 2^32 or
    /// more; then nothing changes.
    pub fn add(&mut self, text: &[u8], mark: Mark, position: usize) -> Result<(), AllocError>
        requires { All (λ e. e.position < position) self.old }
        ensures ok { OnOk result (self.new ≡ self.old ++ entry_of text.now mark position ∷ []) }
        ensures err { OnErr result (self.new ≡ self.old) }
    {
        let index = narrow(self.entries.len())?;
        let position = narrow(position)?;
        self.ranked.reserve()?;
        self.entries.add(text, mark, position)?;
        lookup::rank_one(&mut self.ranked, &self.entries, index);
        Ok(())
    }

    /// Keeps the entries of the first `count` positions: those whose positions are below it. It doesn't allocate.
    pub fn truncate(&mut self, count: usize)
        ensures { self.new ≡ filter (λ e. nat_lt e.position count) self.old }
    {
        let kept = self.entries.count_below(count);
        self.entries.truncate(kept);
        self.ranked.keep_below(kept);
    }

    /// The last entry of a text whose mark isn't above one.
    pub fn last_up_to(&self, text: &[u8], mark: Mark) -> Option<FoundEntry>
        ensures within { IfSome result (λ found. found.index < length self.now) }
        ensures some { IfSome result (λ found. IsLast self.now (IsUpTo text.now mark) (entry_at self.now found.index)) }
        ensures none { IfNone result (IsNone self.now (IsUpTo text.now mark)) }
    {
        lookup::last_up_to(&self.entries, &self.ranked, text, mark)
    }

    /// The first entry of a text whose mark isn't below one.
    pub fn first_from(&self, text: &[u8], mark: Mark) -> Option<FoundEntry>
        ensures within { IfSome result (λ found. found.index < length self.now) }
        ensures some { IfSome result (λ found. IsFirst self.now (IsFrom text.now mark)
            (entry_at self.now found.index)) }
        ensures none { IfNone result (IsNone self.now (IsFrom text.now mark)) }
    {
        lookup::first_from(&self.entries, &self.ranked, text, mark)
    }

    /// The next entry of the same text.
    pub fn next(&self, found: FoundEntry) -> Option<FoundEntry>
        requires { found.index < length self.now }
        ensures within { IfSome result (λ next. next.index < length self.now) }
        ensures some { IfSome result (λ next. IsFirst self.now (IsAfter (entry_at self.now found.index))
            (entry_at self.now next.index)) }
        ensures none { IfNone result (IsNone self.now (IsAfter (entry_at self.now found.index))) }
    {
        lookup::next(&self.entries, &self.ranked, found.index, found.place)
    }

    /// The entry of the same text before one.
    pub fn previous(&self, found: FoundEntry) -> Option<FoundEntry>
        requires { found.index < length self.now }
        ensures within { IfSome result (λ next. next.index < length self.now) }
        ensures some { IfSome result (λ next. IsLast self.now (IsBefore (entry_at self.now found.index))
            (entry_at self.now next.index)) }
        ensures none { IfNone result (IsNone self.now (IsBefore (entry_at self.now found.index))) }
    {
        lookup::previous(&self.entries, &self.ranked, found.index, found.place)
    }

    /// The text of an entry.
    pub fn text(&self, found: FoundEntry) -> &[u8]
        requires { found.index < length self.now }
        ensures { result.now ≡ (entry_at self.now found.index).text }
    {
        self.entries.text(found.index as usize)
    }

    /// The text of the entry with a position, `None` if no entry has it. It halves, and doesn't allocate.
    pub fn text_at(&self, position: usize) -> Option<&[u8]>
        ensures some { IfSome result (λ text. IsTextAt self.now position text.now) }
        ensures none { IfNone result (IsNone self.now (HasPosition position)) }
    {
        self.entries.text_at(position)
    }

    /// The mark of an entry.
    pub fn mark(&self, found: FoundEntry) -> Mark
        requires { found.index < length self.now }
        ensures { result ≡ (entry_at self.now found.index).mark }
    {
        self.entries.mark(found.index as usize)
    }

    /// The position of an entry.
    pub fn position(&self, found: FoundEntry) -> usize
        requires { found.index < length self.now }
        ensures { result ≡ (entry_at self.now found.index).position }
    {
        self.entries.position(found.index as usize)
    }
}
