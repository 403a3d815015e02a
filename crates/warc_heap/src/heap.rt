//! An allocator over memory of a host.
ghost use Rattle.std.specs.Prelude.{◌≡◌, ◌*◌, ◌^◌, ◌<◌, ◌≤◌, IfSome, None};
ghost use Rattle.std.specs.Borrow.{ftrue};
ghost use Rattle.warc_heap.specs.declared.heap.TheConstants.{OWN};

use crate::memory::{Memory, UNIT};
use std::alloc::{AllocError, Allocator};
use std::cell::Cell;

/// How many units an allocator that is never dropped has for itself.
const OWN: usize = 8;

/// What isn't handed out yet.
#[derive(Drop)]
struct Free {
    memory: Memory,
    units: usize,
    ghost whole: { memory.units ≡ units },
}

/// An allocator that hands out the memory of a host from front to back, and takes nothing back.
#[derive(Drop)]
pub struct Heap {
    free: Cell<Option<Free>>,
}

impl Heap {
    /// An allocator over memory that has this many units.
    pub fn new(memory: Memory, units: usize) -> Heap
        requires { memory.units ≡ units }
    {
        Heap {
            free: Cell::new(Some(Free { memory, units })),
        }
    }

    /// Makes an allocator that is never dropped. It is kept in the first units of its own memory. `None` if they don't
    /// suffice.
    pub fn for_good(memory: Memory, units: usize) -> Option<&'static Heap>
        requires { memory.units ≡ units }
        ensures { units < OWN → result ≡ None }
    {
        if units < OWN {
            return None;
        }
        let (own, rest) = memory.cut(OWN, OWN * UNIT);
        let heap = Heap::new(rest, units - OWN);
        match Box::new(Heap::new(own, OWN), heap) {
            Ok(heap) => Some(Box::leak(heap)),
            Err(_) => None,
        }
    }

    /// Takes the first units that have room for this many bytes. The cell is empty only while this runs, and nothing
    /// that it calls reaches the cell.
    fn take(&self, size: usize, align: usize) -> Option<Memory>
        ensures { IfSome result (λ m. (size ≤ m.units * 16) × (size < 2 ^ 63) × (align ≤ 16)) }
    {
        if align > UNIT || size > isize::MAX as usize {
            return None;
        }
        let units = size.div_ceil(UNIT);
        let free = self.free.replace(None)?;
        if units > free.units {
            self.free.set(Some(free));
            return None;
        }
        let Free { memory, units: all } = free;
        let (front, rest) = memory.cut(units, units * UNIT);
        self.free.set(Some(Free {
            memory: rest,
            units: all - units,
        }));
        Some(front)
    }
}

unsafe impl Allocator for Heap {
    ghost dealloc_token = { λ _ _ _. ftrue };

    fn allocate(&self, size: usize, align: usize) -> Result<*mut u8, AllocError> {
        match self.take(size, align) {
            Some(Memory { at }) => Ok(at),
            None => Err(AllocError),
        }
    }

    unsafe fn deallocate(&self, _ptr: *mut u8, _size: usize, _align: usize) {}
}
