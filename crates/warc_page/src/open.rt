//! Archives that stay open between questions, over bytes that the page keeps where they are.
ghost use Rattle.std.specs.Prelude.{◌≡◌, ◌≢◌, true, IfErr, IfOk};
ghost use Rattle.warc_lookup.specs.Indexed.{IsIndexed};
ghost use Rattle.warc_lent.specs.Texts.{IsRefusedFor};
ghost use Rattle.warc_page.specs.Shown.{EndsOpened};

use crate::archive::{Open, PageArchive};
use crate::ends::{end_by, ended};
use crate::shapes::{DONE, MEMORY, PageOutcome};
use warc::Archive;
use warc_frame::SliceSource;
use warc_heap::{Heap, Memory};
use warc_lent::Problem;

/// An archive over these bytes, for good.
fn open_for_good(heap: &'static Heap, bytes: &'static [u8]) -> Result<&'static mut Open, Problem>
    ensures opened { IfOk result (λ archive. IsIndexed bytes.now archive.now) }
    ensures refused { IfErr result (IsRefusedFor bytes.now) }
{
    let archive = match Archive::open(heap, SliceSource::new(bytes)) {
        Ok(archive) => archive,
        Err((fault, _source)) => return Err(Problem::Fault(fault)),
    };
    match Box::new(heap, archive) {
        Ok(archive) => Ok(Box::leak(archive)),
        Err(_) => Err(Problem::Memory),
    }
}

/// Opens an archive over these bytes, in the place of one that is open. Where they are refused, puts the text of the
/// fault into the buffer, and leaves the handle as it was.
#[unsafe(no_mangle)]
pub extern "C" fn page_open(
    memory: Memory,
    units: usize,
    bytes: &'static [u8],
    handle: &mut PageArchive,
    text: &mut [u8],
    outcome: &mut PageOutcome,
)
    requires { memory.units ≡ units }
    ensures ends { EndsOpened bytes.now outcome.new text.new }
    ensures holds { outcome.new.state ≡ 0 → handle.new.is_open ≡ true }
    ensures same { outcome.new.state ≢ 0 → handle.new ≡ handle.old }
{
    let Some(heap) = Heap::for_good(memory, units) else {
        *outcome = ended(MEMORY, 0);
        return;
    };
    *outcome = match open_for_good(heap, bytes) {
        Ok(archive) => {
            handle.put(archive);
            ended(DONE, 0)
        }
        Err(problem) => end_by(heap, problem, text),
    };
}
