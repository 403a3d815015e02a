//! What is wrong with the records of an archive.
ghost use Rattle.std.specs.Prelude.{◌≡◌};
ghost use Rattle.warc_page.specs.Shown.{PutsFindingLines};

use crate::ends::{end_by, ended};
use crate::shapes::{DONE, PageOutcome};
use warc_heap::{Heap, Memory};
use warc_lent::put_findings;

/// Puts the lines that `warc check` writes of these bytes into a buffer, or the text of their fault.
#[unsafe(no_mangle)]
pub extern "C" fn page_findings(
    memory: Memory,
    units: usize,
    bytes: &[u8],
    out: &mut [u8],
    outcome: &mut PageOutcome,
)
    requires { memory.units ≡ units }
    ensures { PutsFindingLines bytes.now outcome.new out.new }
{
    let heap = Heap::new(memory, units);
    *outcome = match put_findings(&heap, bytes, out) {
        Ok(length) => ended(DONE, length),
        Err(problem) => end_by(&heap, problem, out),
    };
}
