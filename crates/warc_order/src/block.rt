//! Some slots, one after another.

ghost use Rattle.std.specs.Prelude.{◌≡◌, ℕ, ◌<◌, ◌≤◌, true, false, [], length, take, drop, slice_index_or};
ghost use Rattle.std.specs.Prelude.{OnOk, IfOk, filter, insert, nat_lt, vec_capacity};
ghost use Rattle.std.specs.List.Sorted.{IsPartitionedBy};
ghost use Rattle.warc_order.specs.Ranking.{blank};

use crate::slot::{Slot, SlotTest};
use std::alloc::{AllocError, Allocator};
use std::marker::Model;

/// How many slots at the beginning pass.
fn cut<T: SlotTest>(slots: &[Slot], test: &T) -> usize
    requires { IsPartitionedBy (T.passes test.now) slots.now }
    ensures bound { result ≤ length slots.now }
    ensures front { (k : ℕ) → k < result → T.passes test.now (slice_index_or slots.now k blank) ≡ true }
    ensures back { (k : ℕ) → result ≤ k → k < length slots.now →
        T.passes test.now (slice_index_or slots.now k blank) ≡ false }
{
    let mut low = 0;
    let mut high = slots.len();
    while low < high {
        let middle = low + (high - low) / 2;
        if test.passes(slots[middle]) {
            low = middle + 1;
        } else {
            high = middle;
        }
    }
    low
}

/// Entries that are one after another in the order.
#[derive(Drop)]
pub(crate) struct Block<A: Allocator> {
    slots: Vec<Slot, A>,
}

impl<A: Allocator> Model for Block<A> {
    ghost use Rattle.std.specs.Prelude.{vec_capacity};
    ghost use Rattle.warc_order.specs.Ranking.{Held};

    ghost Value = { Held };

    ghost view = { λ s. record { list = s.slots.items; room = vec_capacity s.slots } };
}

impl<A: Allocator> Block<A> {
    pub(crate) fn len(&self) -> usize
        ensures { result ≡ length self.now.list }
    {
        self.slots.len()
    }

    /// The slots of a vector. It doesn't allocate.
    pub(crate) fn of(slots: Vec<Slot, A>) -> Block<A>
        ensures { result.list ≡ slots.items }
    {
        Block { slots }
    }

    pub(crate) fn slots(&self) -> &[Slot]
        ensures { result.now ≡ self.now.list }
    {
        &self.slots
    }

    pub(crate) fn at(&self, i: usize) -> Slot
        requires { i < length self.now.list }
        ensures { result ≡ slice_index_or self.now.list i blank }
    {
        self.slots[i]
    }

    pub(crate) fn cut<T: SlotTest>(&self, test: &T) -> usize
        requires { IsPartitionedBy (T.passes test.now) self.now.list }
        ensures bound { result ≤ length self.now.list }
        ensures front { (k : ℕ) → k < result → T.passes test.now (slice_index_or self.now.list k blank) ≡ true }
        ensures back { (k : ℕ) → result ≤ k → k < length self.now.list →
            T.passes test.now (slice_index_or self.now.list k blank) ≡ false }
    {
        cut(&self.slots, test)
    }

    pub(crate) fn insert(&mut self, i: usize, slot: Slot)
        requires within { i ≤ length self.old.list }
        requires room { length self.old.list < self.old.room }
        ensures list { self.new.list ≡ insert self.old.list i slot }
        ensures room { self.new.room ≡ self.old.room }
    {
        match self.slots.insert(i, slot) {
            Ok(()) => {}
            Err(_) => unreachable!(),
        }
    }

    /// Moves the slots from the middle on to an empty block.
    pub(crate) fn move_tail(&mut self, middle: usize, tail: &mut Block<A>)
        requires middle { middle ≤ length self.old.list }
        requires empty { tail.old.list ≡ [] }
        requires room { length self.old.list ≤ tail.old.room }
        ensures front { self.new.list ≡ take middle self.old.list }
        ensures back { tail.new.list ≡ drop middle self.old.list }
        ensures capacity { self.new.room ≡ self.old.room }
        ensures room { tail.old.room ≤ tail.new.room }
    {
        match tail.slots.extend_from_slice(&self.slots[middle..]) {
            Ok(()) => {}
            Err(_) => unreachable!(),
        }
        self.slots.truncate(middle);
    }

    /// Drops the slots whose indices aren't below a number.
    pub(crate) fn keep_below(&mut self, count: usize)
        ensures list { self.new.list ≡ filter (λ e. nat_lt e.index count) self.old.list }
        ensures bound { length self.new.list ≤ length self.old.list }
        ensures room { self.new.room ≡ self.old.room }
    {
        self.slots.retain(|slot| (slot.index as usize) < count);
    }
}

impl<A: Allocator + Copy> Block<A> {
    pub(crate) fn new(alloc: A) -> Block<A>
        ensures { result.list ≡ [] }
    {
        Block {
            slots: Vec::new(alloc),
        }
    }

    /// Some slots, with room for `room`.
    pub(crate) fn holding(alloc: A, slots: &[Slot], room: usize) -> Result<Block<A>, AllocError>
        ensures list { IfOk result (λ block. block.list ≡ slots.now) }
        ensures room { IfOk result (λ block. room ≤ block.room) }
    {
        let mut held = Vec::with_capacity(alloc, room)?;
        held.extend_from_slice(slots)?;
        Ok(Block { slots: held })
    }

    pub(crate) fn allocator(&self) -> A {
        *self.slots.allocator()
    }

    /// Makes room for this many slots.
    pub(crate) fn reserve(&mut self, count: usize) -> Result<(), AllocError>
        ensures list { self.new.list ≡ self.old.list }
        ensures room { OnOk result (count ≤ self.new.room) }
    {
        self.slots.reserve(count)
    }
}
