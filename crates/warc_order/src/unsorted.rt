//! Slots that wait to be put in order.
ghost use Rattle.std.specs.Prelude.{◌≡◌, [], ◌∷◌, ◌++◌, filter, nat_lt, OnOk, IsTrue};
ghost use Rattle.std.specs.List.Sorted.{IsPermutation};
ghost use Rattle.warc_order.specs.Ranking.{IsRanked};

use crate::block::Block;
use crate::ranked::Ranked;
use crate::slot::{Slot, SlotOrder};
use std::alloc::{AllocError, Allocator};
use std::marker::Model;

/// Sorts slots. It doesn't allocate.
fn sort<O: SlotOrder>(slots: &mut [Slot], order: &O)
    ensures ranked { IsRanked (O.compare order.now) slots.new }
    ensures members { IsPermutation slots.old slots.new }
{
    slots.sort_unstable_by(|a, b| order.compare(*a, *b));
}

/// Slots as they came, one after another. The vector becomes the one block of their order, for which there is a place:
/// so putting them in order doesn't allocate.
#[derive(Drop)]
pub(crate) struct Waiting<A: Allocator> {
    slots: Vec<Slot, A>,
    blocks: Vec<Block<A>, A>,
}

impl<A: Allocator> Model for Waiting<A> {
    ghost use Rattle.std.specs.Prelude.{◌≡◌, ◌<◌, ◌&&◌, [], length, nat_lt, vec_len, vec_capacity};
    ghost use Rattle.warc_order.specs.Ranking.{Ranking};

    ghost Value = { Ranking };

    ghost view = { λ s. record {
      list = s.slots.items;
      ready = nat_lt (vec_len s.slots) (vec_capacity s.slots) && nat_lt 0 (vec_capacity s.blocks);
    } };

    ghost invariant = { λ s. record {
      none : s.blocks.items ≡ [];
      room : 0 < length s.slots.items → 0 < vec_capacity s.blocks;
    } };
}

impl<A: Allocator + Copy> Waiting<A> {
    pub(crate) fn new(alloc: A) -> Waiting<A>
        ensures { result.list ≡ [] }
    {
        Waiting {
            slots: Vec::new(alloc),
            blocks: Vec::new(alloc),
        }
    }

    /// Makes room for one more slot.
    pub(crate) fn reserve(&mut self) -> Result<(), AllocError>
        ensures list { self.new.list ≡ self.old.list }
        ensures ready { OnOk result (IsTrue self.new.ready) }
    {
        self.slots.reserve(1)?;
        self.blocks.reserve(1)
    }

    /// Adds a slot for which there is room.
    pub(crate) fn push_reserved(&mut self, slot: Slot)
        requires { IsTrue self.old.ready }
        ensures { self.new.list ≡ self.old.list ++ slot ∷ [] }
    {
        self.slots.push_reserved(slot);
    }

    /// Drops the slots from an index on. It doesn't allocate.
    pub(crate) fn keep_below(&mut self, count: usize)
        ensures { self.new.list ≡ filter (λ e. nat_lt e.index count) self.old.list }
    {
        self.slots.retain(|slot| (slot.index as usize) < count);
    }

    /// The slots in order.
    pub(crate) fn into_ranked<O: SlotOrder>(self, order: &O) -> Ranked<A>
        ensures ranked { IsRanked (O.compare order.now) result.list }
        ensures members { IsPermutation self.list result.list }
    {
        let Waiting { mut slots, blocks } = self;
        sort(&mut slots, order);
        Ranked::whole(slots, blocks)
    }
}
