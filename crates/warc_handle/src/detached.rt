//! A box, taken apart into its pointer and its allocator.
ghost use Rattle.std.specs.Box.Ownership.{box_owns};
ghost use base.Fml.{fex};

use std::alloc::Allocator;
use std::marker::Model;

/// A box as its pointer. It owns the value that the pointer leads to, and the right to free it. No contract sees the
/// value.
pub(crate) struct Detached<T, A: Allocator> {
    pub(crate) at: *mut T,
    pub(crate) alloc: A,
}

impl<T, A: Allocator> Model for Detached<T, A> {
    ghost also_owns = { λ d. fex T.row.Denot (λ x. box_owns (A.dealloc_token d.alloc) T.row d.at x) };
}

impl<T: Drop, A: Allocator> Detached<T, A> {
    /// Takes a box apart.
    pub(crate) fn from_box(value: Box<T, A>) -> Detached<T, A> {
        let (at, alloc) = Box::into_raw_with_allocator(value);
        Detached { at, alloc }
    }

    /// Puts the box together again.
    pub(crate) fn into_box(self) -> Box<T, A> {
        let Detached { at, alloc } = self;
        unsafe { Box::from_raw(alloc, at) }
    }
}
