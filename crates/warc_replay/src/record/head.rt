//! The head of a record, read again through the source.
ghost use Rattle.std.specs.Prelude.{◌∷◌, [], Some, IfErr};
ghost use Rattle.warc_frame.specs.Effects.{FailsBy};
ghost use Rattle.warc_frame.specs.Seen.{IfHeld};
ghost use Rattle.warc_reading.specs.Rereading.{HasHeadOf, ReadsHeads};
ghost use Rattle.warc_replay.specs.Heading.{GivesHead, IsHeadTaken};
ghost use Rattle.warc_replay.specs.Status.{IsUntaken};
ghost use Rattle.warc_replay.specs.Taking.{take_result};

use crate::fault::TakeFault;
use std::alloc::Allocator;
use warc_frame::laws::head_of_spelled;
use warc_frame::{EarlyFault, Head, Source};
use warc_reading::{Row, Rows, buffer_for, reread_head};

/// The head of the record of a row, read again.
fn take_head<S: Source, A: Allocator + Copy>(
    alloc: A,
    source: &mut S,
    row: &Row<'_>,
) -> Result<Head<A>, TakeFault>
    ensures taken { IfHeld (S.seen source.old).holds (λ bytes. (is : HasHeadOf row.now bytes) →
        IsHeadTaken (Some is.placed) result) }
    ensures is { IfErr result IsUntaken }
    ensures reads { ReadsHeads (row.now ∷ []) (S.seen source.old) (S.seen source.new) }
    ensures fails { FailsBy (HasHeadOf row.now) (take_result result) (S.seen source.old) (S.seen source.new) }
{
    let Ok(mut buf) = buffer_for(alloc, row) else {
        return Err(TakeFault::Memory);
    };
    match reread_head(alloc, source, row, &mut buf) {
        Ok(head) => Ok(Head {
            version: head.version,
            fields: head.fields,
            len: (row.block_start - row.offset) as usize,
            block_len: row.block_len,
        }),
        Err(EarlyFault::Read) => Err(TakeFault::Read),
        Err(EarlyFault::Memory) => Err(TakeFault::Memory),
    }
}

/// The head of the record at a position, read again.
pub fn take_head_at<S: Source, A: Allocator + Copy>(
    source: &mut S,
    rows: &Rows<A>,
    position: usize,
) -> Result<Head<A>, TakeFault>
    ensures { GivesHead rows.now position (S.seen source.old) (S.seen source.new) result }
{
    head_of_spelled();
    let Some(row) = rows.get(position) else {
        return Err(TakeFault::NoRecord);
    };
    take_head(rows.allocator(), source, &row)
}
