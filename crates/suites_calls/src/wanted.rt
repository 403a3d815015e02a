//! What archives and listings are wanted to answer before they grow and after.

use crate::sources::source_of;
use crate::subjects::Subject;
use std::alloc::{AllocError, Allocator, Global};
use warc_frame::Source;

/// All that is answered before it grows, and all that is answered then.
#[derive(Drop)]
pub(crate) struct Wanted {
    pub(crate) before: Vec<u8>,
    pub(crate) after: Vec<u8>,
}

/// All that is answered by what a word names, opened of these bytes; nothing where it doesn't open.
fn all_of_bytes(alloc: Global, name: &str, bytes: &[u8]) -> Result<Vec<u8>, AllocError> {
    match Subject::open(name, alloc, source_of(alloc, bytes, usize::MAX)?) {
        Ok(mut subject) => {
            let reported = subject.all(alloc);
            subject.close();
            reported
        }
        Err(_) => Ok(Vec::new(alloc)),
    }
}

impl Wanted {
    /// What is answered by what a word names, opened at once of these bytes and of the longer ones.
    pub(crate) fn of(
        alloc: Global,
        name: &str,
        bytes: &[u8],
        longer: &[u8],
    ) -> Result<Wanted, AllocError> {
        Ok(Wanted {
            before: all_of_bytes(alloc, name, bytes)?,
            after: all_of_bytes(alloc, name, longer)?,
        })
    }
}

/// Whether this is all that is answered.
pub(crate) fn answers<S: Source + Drop, A: Allocator + Copy>(
    alloc: Global,
    subject: &mut Subject<S, A>,
    wanted: &[u8],
) -> Result<bool, AllocError> {
    let all = subject.all(alloc)?;
    Ok(!wanted.is_empty() && all.as_slice() == wanted)
}
