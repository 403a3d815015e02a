//! What an order and entries that wait to be put in order have in common.

ghost use Rattle.std.specs.Prelude.{◌≡◌, ◌<◌, [], ◌∷◌, ◌++◌, filter, nat_lt, OnOk, OnErr, All};
ghost use Rattle.warc_order.specs.Entries.{entry_of};

use crate::mark::Mark;
use crate::{Order, Unordered};
use std::alloc::{AllocError, Allocator};

/// What holds entries.
pub trait HasEntries {
    ghost use Rattle.std.specs.Prelude.{List};
    ghost use Rattle.warc_order.specs.Entries.{Entry};

    ghost entries: { Self → List Entry };
}

/// Entries that are added by rising positions, and dropped from a position on: an `Order` or an `Unordered`.
pub trait EntryList: HasEntries {
    /// Adds an entry. `Err`: no memory for it, or the position is 2^32 or more; then nothing changes.
    fn add(&mut self, text: &[u8], mark: Mark, position: usize) -> Result<(), AllocError>
        requires { All (λ e. e.position < position) (Self.entries self.old) }
        ensures ok { OnOk result (Self.entries self.new
            ≡ Self.entries self.old ++ entry_of text.now mark position ∷ []) }
        ensures err { OnErr result (Self.entries self.new ≡ Self.entries self.old) };

    /// Keeps the entries of the first `count` positions. It doesn't allocate.
    fn truncate(&mut self, count: usize)
        ensures { Self.entries self.new ≡ filter (λ e. nat_lt e.position count) (Self.entries self.old) };
}

impl<A: Allocator> HasEntries for Order<A> {
    ghost entries = { λ s. s };
}

impl<A: Allocator> HasEntries for Unordered<A> {
    ghost entries = { λ s. s };
}

impl<A: Allocator + Copy> EntryList for Order<A> {
    fn add(&mut self, text: &[u8], mark: Mark, position: usize) -> Result<(), AllocError> {
        self.add(text, mark, position)
    }

    fn truncate(&mut self, count: usize) {
        self.truncate(count);
    }
}

impl<A: Allocator + Copy> EntryList for Unordered<A> {
    fn add(&mut self, text: &[u8], mark: Mark, position: usize) -> Result<(), AllocError> {
        self.add(text, mark, position)
    }

    fn truncate(&mut self, count: usize) {
        self.truncate(count);
    }
}
