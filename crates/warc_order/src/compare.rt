//! The order of slots: by the hash of a text, then by the text, by mark, and by index.

ghost use Rattle.std.specs.Prelude.{◌≡◌, ℕ, ◌+◌, ◌<◌, length, IsTrue, IfSome, IfNone};
ghost use Rattle.std.specs.Ordering.{is_lt, is_le};
ghost use Rattle.warc_order.specs.Hashes.{hash_of};
ghost use Rattle.warc_order.specs.Ranking.{IsRanked};
ghost use Rattle.warc_order.specs.Entries.{IsUpTo, IsFrom, IsAfter, IsBefore, IsFirst, IsLast, IsNone, entry_at};
ghost use Rattle.warc_order.specs.Layout.{key_cmp, key_at, slot_order};

use crate::entries::Entries;
use crate::mark::{Mark, compare_marks};
use crate::slot::{Slot, SlotOrder, SlotTest};
use std::alloc::Allocator;
use std::cmp::Ordering;

/// By the hash of a text, then by the text, by mark and by index. A text is read only if hashes are equal.
#[derive(Drop)]
pub(crate) struct ByText<'a, A: Allocator> {
    pub(crate) entries: &'a Entries<A>,
}

impl<A: Allocator + Copy> ByText<'_, A> {
    /// Compares a slot with a key.
    fn compare_key(&self, slot: Slot, hash: u32, text: &[u8], mark: Mark) -> Ordering
        ensures { result ≡ key_cmp (key_at self.now.entries.now slot) (record {
          hash = hash;
          text = text.now;
          mark = mark;
        }) }
    {
        let index = slot.index as usize;
        match slot.hash.cmp(&hash) {
            Ordering::Equal => match self.entries.text(index).cmp(text) {
                Ordering::Equal => compare_marks(self.entries.mark(index), mark),
                other => other,
            },
            other => other,
        }
    }

    /// Compares slots by all that orders them. Few hashes are equal, so this stays out of the loop that sorts.
    #[inline(never)]
    fn compare_entries(&self, a: Slot, b: Slot) -> Ordering
        ensures { result ≡ slot_order self.now.entries.now a b }
    {
        let other = b.index as usize;
        let mark = self.entries.mark(other);
        match self.compare_key(a, b.hash, self.entries.text(other), mark) {
            Ordering::Equal => a.index.cmp(&b.index),
            unequal => unequal,
        }
    }
}

impl<A: Allocator + Copy> SlotOrder for ByText<'_, A> {
    ghost use Rattle.std.proofs.lemmas.Cmp.{then_total, on_total, nat_list_cmp_total, nat_cmp_total};
    ghost use Rattle.warc_order.specs.declared.slot.Slot.{Slot};
    ghost use Rattle.warc_order.specs.declared.mark.Mark.{Mark};
    ghost use Rattle.warc_order.specs.Layout.{Key, key_at, slot_order};

    ghost compare = { λ s. slot_order s.entries.now };

    ghost total = { λ s. then_total
        (on_total (key_at s.entries.now) (then_total
        (then_total (on_total (λ (k : Key). k.hash) nat_cmp_total) (on_total (λ (k : Key). k.text) nat_list_cmp_total))
        (on_total (λ (k : Key). k.mark) (then_total (on_total (λ (m : Mark). m.major) nat_cmp_total)
        (on_total (λ (m : Mark). m.minor) nat_cmp_total)))))
        (on_total (λ (s : Slot). s.index) nat_cmp_total) };

    fn compare(&self, a: Slot, b: Slot) -> Ordering {
        match a.hash.cmp(&b.hash) {
            Ordering::Equal => self.compare_entries(a, b),
            unequal => unequal,
        }
    }
}

/// The test of a key below another.
#[derive(Drop)]
pub(crate) struct Below<'a, A: Allocator> {
    pub(crate) order: ByText<'a, A>,
    pub(crate) hash: u32,
    pub(crate) text: &'a [u8],
    pub(crate) mark: Mark,
}

impl<A: Allocator + Copy> SlotTest for Below<'_, A> {
    ghost passes = { λ s slot. is_lt (key_cmp (key_at s.order.entries.now slot) (record {
      hash = s.hash;
      text = s.text.now;
      mark = s.mark;
    })) };

    fn passes(&self, slot: Slot) -> bool {
        matches!(
            self.order
                .compare_key(slot, self.hash, self.text, self.mark),
            Ordering::Less
        )
    }
}

/// The test of a key that isn't above another.
#[derive(Drop)]
pub(crate) struct NotAbove<'a, A: Allocator> {
    pub(crate) order: ByText<'a, A>,
    pub(crate) hash: u32,
    pub(crate) text: &'a [u8],
    pub(crate) mark: Mark,
}

impl<A: Allocator + Copy> SlotTest for NotAbove<'_, A> {
    ghost passes = { λ s slot. is_le (key_cmp (key_at s.order.entries.now slot) (record {
      hash = s.hash;
      text = s.text.now;
      mark = s.mark;
    })) };

    fn passes(&self, slot: Slot) -> bool {
        !matches!(
            self.order
                .compare_key(slot, self.hash, self.text, self.mark),
            Ordering::Greater
        )
    }
}
