//! Records that are made.

use crate::framed::written::say_rendered;
use std::alloc::{AllocError, Global};
use std::slice::from_ref;
use suites_script::Case;
use suites_texts_parsed::{Attempt, say_line, say_refusals};
use warc_frame::Framed;
use warc_record::Kind;
use warc_vectors::RefusingAllocator;
use warc_write::{MakeFault, make};

/// What a record is made of.
#[derive(Drop)]
struct Draft<'a> {
    kind: Kind,
    target: &'a [u8],
    date: &'a [u8],
    uuid: &'a [u8],
    content_type: Vec<u8>,
    block: &'a [u8],
}

/// A word; no bytes where it is `-`.
fn word_of<'a>(case: &Case<'a>, place: usize) -> &'a [u8] {
    match case.word(place) {
        b"-" => b"",
        word => word,
    }
}

impl<'a> Draft<'a> {
    /// The kind, the date, the UUID, the type and the block are words, and the target is the text that is given.
    fn of(alloc: Global, case: &'a Case<'_>) -> Result<Draft<'a>, AllocError> {
        let mut content_type = case.bytes(alloc, 4)?;
        if content_type.as_slice() == b"-".as_slice() {
            content_type.clear();
        }
        Ok(Draft {
            kind: Kind::named(case.word(1)),
            target: case.given(),
            date: word_of(case, 2),
            uuid: word_of(case, 3),
            content_type,
            block: word_of(case, 5),
        })
    }

    fn make<A: std::alloc::Allocator + Copy>(&self, alloc: A) -> Result<Framed<A>, MakeFault> {
        make(
            alloc,
            self.kind,
            self.target,
            self.date,
            self.uuid,
            &self.content_type,
            self.block,
        )
    }

    /// How it is refused, if it is.
    fn fault<A: std::alloc::Allocator + Copy>(&self, alloc: A) -> Option<MakeFault> {
        self.make(alloc).err()
    }
}

impl Attempt for Draft<'_> {
    fn refused_at(&self, alloc: Global, number: u64) -> Option<bool> {
        let heap = RefusingAllocator::new(alloc, number);
        let is_refused = self.fault(&heap) == Some(MakeFault::Memory);
        (is_refused == heap.has_refused()).then_some(is_refused)
    }
}

/// Adds what is written of the record that a case makes, or why it makes none.
pub(crate) fn say_made(
    alloc: Global,
    case: &Case<'_>,
    answer: &mut Vec<u8>,
    kept: &[u8],
) -> Result<(), AllocError> {
    let draft = Draft::of(alloc, case)?;
    match draft.make(alloc) {
        Ok(made) => say_rendered(alloc, answer, from_ref(&made), kept),
        Err(fault) => say_line(alloc, answer, &fault),
    }
}

/// Adds whether each refused request is reported. There are as many as the seventh word says, or more.
pub(crate) fn say_made_without_memory(
    alloc: Global,
    case: &Case<'_>,
    answer: &mut Vec<u8>,
) -> Result<(), AllocError> {
    let draft = Draft::of(alloc, case)?;
    say_refusals(alloc, answer, &draft, case.number(6))
}
