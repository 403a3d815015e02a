//! Values by index, of which the blank ones at the beginning take no memory.

ghost use Rattle.std.specs.Prelude.{◌≡◌, false, IsTrue, OnErr, OnOk, IfSome, IfNone};
ghost use Rattle.warc_order.specs.Columns.{is_skipped, needs_no_growth, IsEmpty, IsSame, IsPushed, IsCutTo, HoldsAt, IsBlankAt};

use std::alloc::{AllocError, Allocator};
use std::marker::Model;

/// Values by index. Those at the beginning that a caller calls blank, since it expects them at their index, are
/// only counted. The others, and blank ones after them, are kept one after another.
#[derive(Drop)]
pub struct Column<T: Copy, A: Allocator> {
    blanks: usize,
    items: Vec<T, A>,
}

impl<T: Copy, A: Allocator> Model for Column<T, A> {
    ghost use Rattle.std.specs.Prelude.{◌-◌, vec_len, vec_capacity};
    ghost use Rattle.warc_order.specs.Columns.{Sparse};

    ghost Value = { Sparse T };

    ghost view = { λ s. record {
      blanks = s.blanks;
      items = s.items.items;
      free = vec_capacity s.items - vec_len s.items;
    } };
}

impl<T: Copy, A: Allocator + Copy> Column<T, A> {
    /// No values.
    pub fn new(alloc: A) -> Column<T, A>
        ensures { IsEmpty result }
    {
        Column {
            blanks: 0,
            items: Vec::new(alloc),
        }
    }

    /// The value at an index, or none if it is blank and not kept, and past the end.
    pub fn get(&self, i: usize) -> Option<T>
        ensures some { IfSome result (HoldsAt self.now i) }
        ensures none { IfNone result (IsBlankAt self.now i) }
    {
        if i < self.blanks {
            None
        } else {
            self.items.get(i - self.blanks).copied()
        }
    }

    /// Whether one more value is only counted.
    fn skips(&self, blank: bool) -> bool
        ensures { result ≡ is_skipped blank self.now }
    {
        blank && self.items.is_empty() && self.blanks < usize::MAX
    }

    /// Makes room for one more value, blank or not. `Err`: no memory for it.
    pub fn reserve(&mut self, blank: bool) -> Result<(), AllocError>
        ensures same { IsSame self.old self.new }
        ensures room { OnOk result (IsTrue (needs_no_growth blank self.new)) }

        // A value that is only counted is never refused.
        ensures needed { OnErr result (is_skipped blank self.old ≡ false) }
    {
        if self.skips(blank) {
            Ok(())
        } else {
            self.items.reserve(1)
        }
    }

    /// Adds a value, blank or not, for which `reserve` has made room.
    pub fn push_reserved(&mut self, value: T, blank: bool)
        requires { IsTrue (needs_no_growth blank self.old) }
        ensures { IsPushed self.old self.new value blank }
    {
        if self.skips(blank) {
            self.blanks += 1;
        } else {
            self.items.push_reserved(value);
        }
    }

    /// Keeps the first `count` values. It doesn't allocate.
    pub fn truncate(&mut self, count: usize)
        ensures { IsCutTo self.old self.new count }
    {
        let kept = count.saturating_sub(self.blanks);
        self.items.truncate(kept);
        self.blanks = self.blanks.min(count);
    }
}
