//! The findings of records whose blocks are judged elsewhere, and are marked by their verdicts at last.
ghost use Rattle.std.specs.Prelude.{◌≡◌, true, List, map};
ghost use Rattle.warc_reading.specs.Archive.{contents};
ghost use Rattle.warc_reading.specs.Judging.{verdict_on};
ghost use Rattle.warc_reading.specs.Row.{Placed};
ghost use Rattle.warc_checking.specs.Judged.{own_findings};
ghost use Rattle.warc_checking.specs.OwnFindings.{all_of, unjudged};

use crate::findings::{add_plain_head, mark_last};
use crate::own_findings::OwnFindings;
use std::alloc::{AllocError, Allocator};
use warc_quick::{QuickHead, QuickRecord};
use warc_reading::{Keep, NoBlock};
use warc_record::GoodHead;
use warc_value::Verdict;

impl<A: Allocator + Copy> Keep<A> for OwnFindings<A> {
    ghost keeps = { λ f records. f ≡ map unjudged (contents records) };

    type Block = NoBlock;

    ghost takes = { λ _. true };

    fn takes(_head: &QuickHead<'_>) -> bool {
        true
    }

    fn keep(
        &mut self,
        alloc: A,
        _position: usize,
        head: &GoodHead<A>,
        _block_start: u64,
        block_len: u64,
        _block: NoBlock,
    ) -> Result<(), AllocError> {
        self.add(alloc, head.fields(), block_len)
    }

    fn keep_plain(
        &mut self,
        alloc: A,
        _position: usize,
        found: &QuickRecord<'_>,
        _block_start: u64,
    ) -> Result<(), AllocError> {
        add_plain_head(alloc, found, self)
    }

    fn truncate(&mut self, count: usize) {
        OwnFindings::truncate(self, count);
    }

    fn checks_heads() -> bool {
        true
    }
}

/// Marks of each record whether its digest differs, by the verdicts on all blocks. It doesn't allocate.
pub fn mark_each<A: Allocator>(findings: &mut OwnFindings<A>, verdicts: &[Verdict])
    ensures { (records : List Placed) → findings.old ≡ map unjudged (contents records) →
        verdicts.now ≡ map verdict_on records → map all_of findings.new ≡ map own_findings (contents records) }
{
    let count = verdicts.len();
    if findings.len() < count {
        // These aren't verdicts of the same records.
        return;
    }
    mark_last(findings, verdicts);
}
