//! An allocator that refuses one request, to run a call without memory.

ghost use Rattle.std.specs.Prelude.{◌≡◌};

use std::alloc::{AllocError, Allocator, Global};
use std::cell::Cell;

/// Passes each request on to another allocator, but for one, which it refuses.
pub struct RefusingAllocator<B: Allocator> {
    inner: B,

    /// The number of requests up to the refused one, with that one; 0 if none will be refused.
    left: Cell<u64>,
}

/// An allocator that refuses one request, or none.
pub type Heap<'a> = &'a RefusingAllocator<Global>;

impl<B: Allocator> RefusingAllocator<B> {
    /// Refuses the n-th request, counted from 1; at 0 it refuses none.
    pub fn new(inner: B, number: u64) -> RefusingAllocator<B>
        ensures { result.inner ≡ inner }
    {
        RefusingAllocator {
            inner,
            left: Cell::new(number),
        }
    }

    /// Whether that request has come and was refused, or there was none to refuse.
    /// No contract can say what a cell holds.
    pub fn has_refused(&self) -> bool {
        self.left.get() == 0
    }
}

impl<B: Allocator> Drop for RefusingAllocator<B> {
    fn drop(self) {
        let Self { inner: _, left: _ } = self;
    }
}

/// Counts a request, and says whether it is the one to refuse.
fn is_refused(left: &Cell<u64>) -> bool {
    let number = left.get();
    left.set(number.saturating_sub(1));
    number == 1
}

unsafe impl<B: Allocator> Allocator for RefusingAllocator<B> {
    ghost dealloc_token = { λ heap ty ptr. B.dealloc_token heap.inner ty ptr };

    fn allocate(&self, size: usize, align: usize) -> Result<*mut u8, AllocError> {
        if is_refused(&self.left) {
            return Err(AllocError);
        }
        self.inner.allocate(size, align)
    }

    unsafe fn deallocate(&self, ptr: *mut u8, size: usize, align: usize) {
        self.inner.deallocate(ptr, size, align);
    }
}
