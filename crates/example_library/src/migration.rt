//! An archive moved to WARC 1.1, by public calls alone.
ghost use Rattle.std.specs.Prelude.{◌≡◌, IfErr, IfOk};
ghost use Rattle.warc_frame.specs.Seen.{IfHeld};
ghost use Rattle.warc_reading.specs.Archive.{IsArchiveOf, contents};
ghost use Rattle.warc_rewrite.specs.Forms.{texts_as};
ghost use Rattle.warc_rewrite.specs.declared.forms.Form.TheVariants.{Converted};
ghost use Rattle.example_library.specs.Migration.{IsNotMoved, IsMigrationOf};

use crate::opened::opened;
use std::alloc::Global;
use warc::laws::{migration_keeps_answers, no_fault_where_spelled, written_opens_as_same};
use warc::{Archive, Form, Listing};
use warc_frame::{Fault, MemSink, MemSource, OutFault, Source};

/// Why an archive isn't moved.
#[derive(Debug, Drop)]
pub enum MoveFault {
    /// It doesn't open.
    Refused(Fault),

    /// It isn't written: an allocation failed, or the source failed.
    Unwritten(OutFault),

    /// What was written doesn't open.
    Unopened(Fault),
}

/// What is written of an archive as records of WARC 1.1.
fn converted<S: Source>(alloc: Global, listing: &mut Listing<S>) -> Result<Vec<u8>, OutFault>
    ensures { IfHeld (S.seen listing.old.source).holds (λ bytes. (is : IsArchiveOf bytes listing.old.rows) → IfOk
        result (λ text. text.items ≡ texts_as Converted (contents is.are.records))) }
{
    let mut sink = MemSink::new(Vec::new(alloc));
    match listing.write_as(Form::Converted, &mut sink) {
        Ok(()) => Ok(sink.into_inner()),
        Err(fault) => Err(fault),
    }
}

/// What `converted` gives of a listing, which is dropped then.
fn conversion<S: Source + Drop>(alloc: Global, mut listing: Listing<S>) -> Result<Vec<u8>, OutFault>
    ensures { IfHeld (S.seen listing.source).holds (λ bytes. (is : IsArchiveOf bytes listing.rows) → IfOk result
        (λ text. text.items ≡ texts_as Converted (contents is.are.records))) }
{
    let text = converted(alloc, &mut listing);
    listing.into_source();
    text
}

/// Opens an archive, writes it to memory as records of WARC 1.1, and opens that. Each replay of what it gives gives
/// what one of the archive does. What was written doesn't open only if an allocation failed, or where it is longer than
/// 2^48 bytes.
pub fn migrate<S: Source + Drop>(alloc: Global, source: S) -> Result<Archive<MemSource>, MoveFault>
    ensures moved { IfHeld (S.seen source).holds (λ bytes. IfOk result (IsMigrationOf bytes)) }
    ensures refused { IfHeld (S.seen source).holds (λ bytes. IfErr result (IsNotMoved bytes)) }
{
    written_opens_as_same();
    migration_keeps_answers();
    no_fault_where_spelled();
    let listing = match Listing::open(alloc, source) {
        Ok(listing) => listing,
        Err((fault, _source)) => return Err(MoveFault::Refused(fault)),
    };
    let text = match conversion(alloc, listing) {
        Ok(text) => text,
        Err(fault) => return Err(MoveFault::Unwritten(fault)),
    };
    match opened(alloc, text) {
        Ok(archive) => Ok(archive),
        Err(fault) => Err(MoveFault::Unopened(fault)),
    }
}
