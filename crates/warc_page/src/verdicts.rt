//! How a record's block compares with its digest.
ghost use Rattle.std.specs.Prelude.{◌≡◌};
ghost use Rattle.warc_page.specs.Shown.{IsVerdictOn};

use warc::block_verdict;
use warc_frame::read_head;
use warc_heap::{Heap, Memory};
use warc_lent::verdict_number;

/// There is no verdict.
const NONE: u64 = 3;

/// Answers how a record's block compares with the digest that its head states, by whatever algorithm: 0 good, 1 bad, 2
/// unchecked. If these bytes begin with no head, or the memory doesn't suffice, the answer is 3.
#[unsafe(no_mangle)]
pub extern "C" fn page_verdict(memory: Memory, units: usize, head: &[u8], block: &[u8]) -> u64
    requires { memory.units ≡ units }
    ensures { IsVerdictOn head.now block.now result }
{
    let heap = Heap::new(memory, units);
    match read_head(&heap, head) {
        Ok(head) => verdict_number(block_verdict(&head.fields, block)) as u64,
        Err(_) => NONE,
    }
}
