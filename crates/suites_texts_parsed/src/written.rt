//! What is written after what is in a vector.

use std::alloc::{AllocError, Allocator, Global};
use warc_field::{Fields, write_area};
use warc_frame::{Framed, write_one};
use warc_vectors::RefusingAllocator;

/// What can be written.
pub trait Writable {
    /// Writes it after what is in a vector.
    fn write_after<A: Allocator>(&self, written: &mut Vec<u8, A>) -> Result<(), AllocError>;
}

impl Writable for Fields {
    fn write_after<A: Allocator>(&self, written: &mut Vec<u8, A>) -> Result<(), AllocError> {
        write_area(self, written)
    }
}

impl Writable for Framed {
    fn write_after<A: Allocator>(&self, written: &mut Vec<u8, A>) -> Result<(), AllocError> {
        write_one(self, written)
    }
}

/// Adds what is written after a text.
pub fn say_written<T: Writable>(
    alloc: Global,
    answer: &mut Vec<u8>,
    it: &T,
) -> Result<(), AllocError> {
    let mut written = b"before".to_vec(alloc)?;
    it.write_after(&mut written)?;
    answer.extend_from_slice(&written)
}

/// Adds whether it could not be written after what is in a vector, and what is there then.
fn say_written_into<T: Writable, A: Allocator>(
    answer: &mut Vec<u8>,
    it: &T,
    written: &mut Vec<u8, A>,
) -> Result<(), AllocError> {
    if it.write_after(written).is_err() {
        answer.extend_from_slice(b"refused: ")?;
    }
    answer.extend_from_slice(written)?;
    answer.extend_from_slice(b"\n")
}

/// Adds what is written where the first growth is refused, and what is written then.
pub fn say_written_twice<T: Writable>(
    alloc: Global,
    answer: &mut Vec<u8>,
    it: &T,
) -> Result<(), AllocError> {
    let heap = RefusingAllocator::new(alloc, 2);
    let mut written = b"before".to_vec(&heap)?;
    say_written_into(answer, it, &mut written)?;
    say_written_into(answer, it, &mut written)
}
