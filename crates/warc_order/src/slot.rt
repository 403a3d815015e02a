//! Entries, orders and tests.

ghost use Rattle.std.specs.Prelude.{◌≡◌, Bool};
ghost use Rattle.std.specs.Cmp.{IsTotalOrder};
ghost use Rattle.std.specs.declared.cmp.Ordering.{Ordering};

use std::cmp::Ordering;

/// An index and the hash of its key, a number in which most keys differ.
#[derive(Clone, Copy, PartialEq, Eq, Debug)]
pub struct Slot {
    pub hash: u32,
    pub index: u32,
}

/// A total order on slots.
pub trait SlotOrder {
    ghost use Rattle.warc_order.specs.declared.slot.Slot.{Slot};

    ghost compare: { Self → Slot → Slot → Ordering };

    fn compare(&self, a: Slot, b: Slot) -> Ordering
        ensures { result ≡ compare self.now a b };

    ghost total: { (s : Self) → IsTotalOrder (compare s) };
}

/// A test that slots pass up to some place in an order.
pub trait SlotTest {
    ghost use Rattle.warc_order.specs.declared.slot.Slot.{Slot};

    ghost passes: { Self → Slot → Bool };

    fn passes(&self, slot: Slot) -> bool
        ensures { result ≡ passes self.now slot };
}
