//! Records of an archive with all that they need, as an archive of their own, by public calls alone.
ghost use Rattle.std.specs.Prelude.{◌≡◌, length, IfErr, IfOk};
ghost use Rattle.warc_frame.specs.Effects.{IsOfDevice};
ghost use Rattle.warc_frame.specs.Seen.{IfHeld};
ghost use Rattle.warc_reading.specs.Archive.{IsArchiveOf};
ghost use Rattle.warc_lookup.specs.Indexed.{IsIndexed};
ghost use Rattle.warc_rewrite.specs.Selecting.{ArePositions, selected_text};
ghost use Rattle.example_library.specs.Share.{IsNotShared, IsShareOf};

use crate::opened::opened;
use std::alloc::Global;
use warc::Archive;
use warc::laws::{
    closed_selections_are_closed, closed_selections_keep_answers, no_fault_where_spelled,
    records_are_spelled, selection_is_an_archive,
};
use warc_frame::{Fault, MemSink, MemSource, OutFault, Source};

/// Why records aren't given as an archive of their own.
#[derive(Debug, Drop)]
pub enum ShareFault {
    /// What they need isn't found: an allocation failed, or the source failed.
    Unclosed(OutFault),

    /// They aren't written, for the same reasons.
    Unwritten(OutFault),

    /// What was written doesn't open.
    Unopened(Fault),
}

/// The bytes of the records at positions.
fn selection<S: Source>(
    alloc: Global,
    archive: &mut Archive<S>,
    positions: &[usize],
) -> Result<Vec<u8>, OutFault>
    requires ascending { ArePositions (length archive.old.listing.rows) positions.now }
    ensures text { IfHeld (S.seen archive.old.listing.source).holds (λ bytes.
        IsArchiveOf bytes archive.old.listing.rows →
        IfOk result (λ text. text.items ≡ selected_text archive.old.listing.rows positions.now bytes)) }
    ensures device { IfErr result IsOfDevice }
{
    let mut sink = MemSink::new(Vec::new(alloc));
    match archive.select(positions, &mut sink) {
        Ok(()) => Ok(sink.into_inner()),
        Err(fault) => Err(fault),
    }
}

/// Writes the records at positions to memory, with all that they need, and opens that. Each of its records gives what
/// it gives in the whole archive, positions aside. What was written doesn't open only if an allocation failed.
pub fn share<S: Source>(
    alloc: Global,
    archive: &mut Archive<S>,
    positions: &[usize],
) -> Result<Archive<MemSource>, ShareFault>
    requires ascending { ArePositions (length archive.old.listing.rows) positions.now }
    ensures shared { IfHeld (S.seen archive.old.listing.source).holds (λ bytes. (is : IsIndexed bytes archive.old) →
        IfOk result (IsShareOf bytes archive.old.listing.rows is.listed positions.now)) }
    ensures refused { IfHeld (S.seen archive.old.listing.source).holds (λ bytes. IsIndexed bytes archive.old →
        IfErr result IsNotShared) }
{
    closed_selections_keep_answers();
    closed_selections_are_closed();
    selection_is_an_archive();
    records_are_spelled();
    no_fault_where_spelled();
    let closed = match archive.closed(positions) {
        Ok(closed) => closed,
        Err(fault) => return Err(ShareFault::Unclosed(fault)),
    };
    let text = match selection(alloc, archive, &closed) {
        Ok(text) => text,
        Err(fault) => return Err(ShareFault::Unwritten(fault)),
    };
    match opened(alloc, text) {
        Ok(shared) => Ok(shared),
        Err(fault) => Err(ShareFault::Unopened(fault)),
    }
}
