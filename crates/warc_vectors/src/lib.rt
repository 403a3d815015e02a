//! What the suites share: sources and writers that break, and an allocator that refuses.
#![tactic(auto)]

pub mod allocator;
pub mod broken;

pub use allocator::{Heap, RefusingAllocator};
pub use broken::{Break, BrokenSource, BrokenWriter, ChangingSource};
