//! An allocator over memory that a host gives, for a module that has no C library: a page of a browser.
//!
//! The memory is given for good. A heap hands it out from front to back, in units of 16 bytes, and takes nothing back:
//! what a collection frees stays unused until the host drops the whole memory.
#![tactic(auto)]

mod heap;
mod memory;

pub use heap::Heap;
pub use memory::{Memory, UNIT};
