//! Archives in memory.
ghost use Rattle.std.specs.Prelude.{◌≡◌, IfErr, IfOk};
ghost use Rattle.warc_lookup.specs.Indexed.{IsIndexed};
ghost use Rattle.example_library.specs.Opened.{IsRefused};

use std::alloc::Global;
use warc::Archive;
use warc_frame::{Fault, MemSource};

/// Opens an archive in memory. It is refused for its first fault, or because an allocation failed.
pub(crate) fn opened(alloc: Global, text: Vec<u8>) -> Result<Archive<MemSource>, Fault>
    ensures bytes { IfOk result (λ archive. archive.listing.source.bytes ≡ text.items) }
    ensures opened { IfOk result (IsIndexed text.items) }
    ensures refused { IfErr result (IsRefused text.items) }
{
    match Archive::open(alloc, MemSource::new(text, usize::MAX)) {
        Ok(archive) => Ok(archive),
        Err((fault, _source)) => Err(fault),
    }
}
