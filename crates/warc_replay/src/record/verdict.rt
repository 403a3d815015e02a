//! How the block of a record compares with the digest that its head asks for, or states.
ghost use Rattle.std.specs.Prelude.{◌∷◌, [], Some, IfErr};
ghost use Rattle.warc_frame.specs.Effects.{FailsBy};
ghost use Rattle.warc_frame.specs.Seen.{IfHeld};
ghost use Rattle.warc_reading.specs.Rereading.{HasTextOf, ReadsRows};
ghost use Rattle.warc_replay.specs.Judged.{GivesStated, GivesVerdict, IsStatedTaken, IsVerdictTaken};
ghost use Rattle.warc_replay.specs.Status.{IsUntaken};
ghost use Rattle.warc_replay.specs.Taking.{take_result};

use crate::fault::TakeFault;
use std::alloc::Allocator;
use warc_checking::judge_again;
use warc_digest::stated_range;
use warc_frame::laws::head_of_spelled;
use warc_frame::{EarlyFault, Source};
use warc_judged::digest_value;
use warc_reading::{Row, Rows, head_buffer, reread_good};
use warc_value::Verdict;

/// The verdict on the block of the record of a row. Its head is read again, and its block if a digest of it can be
/// checked.
fn take_verdict<S: Source, A: Allocator + Copy>(
    alloc: A,
    source: &mut S,
    row: &Row<'_>,
) -> Result<Verdict, TakeFault>
    ensures taken { IfHeld (S.seen source.old).holds (λ bytes. (is : HasTextOf row.now bytes) →
        IsVerdictTaken (Some is.placed) result) }
    ensures is { IfErr result IsUntaken }
    ensures reads { ReadsRows (row.now ∷ []) (S.seen source.old) (S.seen source.new) }
    ensures fails { FailsBy (HasTextOf row.now) (take_result result) (S.seen source.old) (S.seen source.new) }
{
    let Ok(mut buf) = head_buffer(alloc) else {
        return Err(TakeFault::Memory);
    };
    match judge_again(alloc, source, row, &mut buf) {
        Ok(judged) => Ok(judged.verdict),
        Err(EarlyFault::Read) => Err(TakeFault::Read),
        Err(EarlyFault::Memory) => Err(TakeFault::Memory),
    }
}

/// The verdict on the block of the record of a row, by the digest that its head states. Its head is read again, and its
/// block if a digest is stated.
fn take_stated<S: Source, A: Allocator + Copy>(
    alloc: A,
    source: &mut S,
    row: &Row<'_>,
) -> Result<Verdict, TakeFault>
    ensures taken { IfHeld (S.seen source.old).holds (λ bytes. (is : HasTextOf row.now bytes) →
        IsStatedTaken (Some is.placed) result) }
    ensures is { IfErr result IsUntaken }
    ensures reads { ReadsRows (row.now ∷ []) (S.seen source.old) (S.seen source.new) }
    ensures fails { FailsBy (HasTextOf row.now) (take_result result) (S.seen source.old) (S.seen source.new) }
{
    let Ok(mut buf) = head_buffer(alloc) else {
        return Err(TakeFault::Memory);
    };
    let head = match reread_good(alloc, source, row, &mut buf) {
        Ok(head) => head,
        Err(EarlyFault::Read) => return Err(TakeFault::Read),
        Err(EarlyFault::Memory) => return Err(TakeFault::Memory),
    };
    let value = digest_value(head.fields());
    match stated_range(source, row.block_start, row.block_len, value, &mut buf) {
        Ok(verdict) => Ok(verdict),
        Err(_) => Err(TakeFault::Read),
    }
}

/// The verdict on the block of the record at a position, by the digest that its head asks for.
pub fn take_verdict_at<S: Source, A: Allocator + Copy>(
    source: &mut S,
    rows: &Rows<A>,
    position: usize,
) -> Result<Verdict, TakeFault>
    ensures { GivesVerdict rows.now position (S.seen source.old) (S.seen source.new) result }
{
    head_of_spelled();
    let Some(row) = rows.get(position) else {
        return Err(TakeFault::NoRecord);
    };
    take_verdict(rows.allocator(), source, &row)
}

/// The verdict on the block of the record at a position, by the digest that its head states.
pub fn take_stated_at<S: Source, A: Allocator + Copy>(
    source: &mut S,
    rows: &Rows<A>,
    position: usize,
) -> Result<Verdict, TakeFault>
    ensures { GivesStated rows.now position (S.seen source.old) (S.seen source.new) result }
{
    head_of_spelled();
    let Some(row) = rows.get(position) else {
        return Err(TakeFault::NoRecord);
    };
    take_stated(rows.allocator(), source, &row)
}
