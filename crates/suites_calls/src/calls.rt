//! Calls of archives, each in a function of its own: plain values.

use std::alloc::{AllocError, Allocator, Global};
use warc::{Archive, ExtractFault, Located, Outcome};
use warc_answer::{Answer, ReplayFault};
use warc_frame::{Fault, MemSink, OutFault, Sink, Source};
use warc_value::Moment;

/// The archive of a source, or why it doesn't open.
pub(crate) fn opened<S: Source + Drop, A: Allocator + Copy>(
    heap: A,
    source: S,
) -> Result<Archive<S, A>, Fault> {
    match Archive::open(heap, source) {
        Ok(archive) => Ok(archive),
        Err((fault, _source)) => Err(fault),
    }
}

/// Lets an archive go, and its source. To let one go at the end of its block would be proved there anew, part by part.
pub(crate) fn close<S: Source + Drop, A: Allocator + Copy>(archive: Archive<S, A>) {
    archive.into_source();
}

/// What an archive lists.
pub(crate) fn listed<S: Source, A: Allocator + Copy>(
    alloc: Global,
    archive: &Archive<S, A>,
) -> Result<Vec<u8>, AllocError> {
    let mut lines = MemSink::new(Vec::new(alloc));
    match archive.list(&mut lines) {
        Ok(()) => Ok(lines.into_inner()),
        Err(_) => Err(AllocError),
    }
}

/// What an archive answers to a replay.
pub(crate) fn replayed<S: Source, A: Allocator + Copy, W: Sink>(
    archive: &mut Archive<S, A>,
    uri: &[u8],
    moment: &Moment,
    out: &mut W,
) -> Result<Answer, ReplayFault> {
    archive.replay(uri, moment, out)
}

/// Where an archive has the body that a replay gives.
pub(crate) fn located<S: Source, A: Allocator + Copy>(
    archive: &mut Archive<S, A>,
    uri: &[u8],
    moment: &Moment,
) -> Result<Located<A>, ReplayFault> {
    archive.locate(uri, moment)
}

/// What an archive answers to an extraction.
pub(crate) fn extracted<S: Source, A: Allocator + Copy, W: Sink>(
    archive: &mut Archive<S, A>,
    id: &[u8],
    out: &mut W,
) -> Result<u64, ExtractFault> {
    archive.extract(id, out)
}

/// What an archive answers to a check.
pub(crate) fn checked<S: Source, A: Allocator + Copy, W: Sink>(
    archive: &mut Archive<S, A>,
    out: &mut W,
) -> Result<usize, OutFault> {
    archive.check(out)
}

/// What all captures of an archive give.
fn outcomes_of<S: Source, A: Allocator + Copy>(
    archive: &mut Archive<S, A>,
) -> Result<Vec<Outcome<A>, A>, OutFault> {
    let Ok(positions) = archive.captures() else {
        return Err(OutFault::Memory(0));
    };
    archive.outcomes(&positions)
}

/// What an archive answers where all its captures are listed.
pub(crate) fn captured<S: Source, A: Allocator + Copy, W: Sink>(
    archive: &mut Archive<S, A>,
    out: &mut W,
) -> Result<(), OutFault> {
    let outcomes = outcomes_of(archive)?;
    archive.list_outcomes(&outcomes, out)
}
