//! The page that an archive in memory holds: a caller that proves what it promises.
ghost use Rattle.std.specs.Option.{IfSome};
ghost use Rattle.std.specs.Prelude.{◌≡◌, IfOk, List, false, ℕ};
ghost use Rattle.warc_lookup.specs.Indexed.{IsIndexed};
ghost use Rattle.example_page.specs.Page.{IsPageOf};

use std::alloc::Global;
use std::fmt;
use warc::{Archive, Fault, MemSink, MemSource, Moment, ReplayFault};

/// Why there is no page.
#[derive(Debug, Drop)]
pub enum NoPage {
    /// The bytes aren't an archive.
    Refused(Fault),
    /// The archive has no such page.
    Unanswered(ReplayFault),
}

impl fmt::Display for NoPage {
    fn fmt<W: fmt::Write>(&self, f: &mut fmt::Formatter<W>) -> fmt::Result {
        match self {
            NoPage::Refused(fault) => write!(f, "{fault}"),
            NoPage::Unanswered(fault) => write!(f, "{fault}"),
        }
    }
}

/// Opens the archive that these bytes are.
pub fn opened(alloc: Global, bytes: Vec<u8>) -> Result<Archive<MemSource>, Fault>
    ensures source { IfOk result (λ archive. archive.listing.source.bytes ≡ bytes.items) }
    ensures opened { IfOk result (IsIndexed bytes.items) }
{
    match Archive::open(alloc, MemSource::new(bytes, usize::MAX)) {
        Ok(archive) => Ok(archive),
        Err((fault, _source)) => Err(fault),
    }
}

/// Replays a page into memory.
fn replayed(
    alloc: Global,
    archive: &mut Archive<MemSource>,
    uri: &[u8],
    moment: &Moment,
) -> Result<Vec<u8>, ReplayFault>
    ensures { IsIndexed archive.old.listing.source.bytes archive.old → IfOk result (λ page. IsPageOf
        archive.old.listing.source.bytes uri.now moment.now page.items) }
{
    let mut out = MemSink::new(Vec::new(alloc));
    archive.replay(uri, moment, &mut out)?;
    Ok(out.into_inner())
}

/// The page that the bytes of an archive hold of a URI as of a moment.
pub fn page(alloc: Global, bytes: Vec<u8>, uri: &[u8], moment: &Moment) -> Result<Vec<u8>, NoPage>
    ensures { IfOk result (λ page. IsPageOf bytes.items uri.now moment.now page.items) }
{
    let mut archive = match opened(alloc, bytes) {
        Ok(archive) => archive,
        Err(fault) => return Err(NoPage::Refused(fault)),
    };
    let answer = replayed(alloc, &mut archive, uri, moment);
    archive.into_source();
    answer.map_err(NoPage::Unanswered)
}

/// Grows an archive in memory, and says whether it grew. One that didn't is as it was.
fn has_grown(archive: &mut Archive<MemSource>, source: MemSource) -> bool
    ensures stays { (bytes : List ℕ) → IsIndexed bytes archive.old → result ≡ false → IsIndexed bytes archive.new }
    ensures listing { result ≡ false → archive.new.listing ≡ archive.old.listing }
{
    match archive.grow(source) {
        Ok(()) => true,
        Err(_refused) => false,
    }
}

/// Grows an archive. Where that is refused, gives the page that it holds all the same, as before.
pub fn page_if_refused(
    alloc: Global,
    archive: &mut Archive<MemSource>,
    source: MemSource,
    uri: &[u8],
    moment: &Moment,
) -> Option<Result<Vec<u8>, ReplayFault>>
    ensures { IsIndexed archive.old.listing.source.bytes archive.old → IfSome result (λ answer. IfOk answer (λ page.
        IsPageOf archive.old.listing.source.bytes uri.now moment.now page.items)) }
{
    if has_grown(archive, source) {
        return None;
    }
    Some(replayed(alloc, archive, uri, moment))
}
