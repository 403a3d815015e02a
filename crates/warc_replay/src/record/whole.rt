//! A whole record, read again through the source.
ghost use Rattle.std.specs.Prelude.{◌≡◌, ℕ, ◌^◌, ◌+◌, ◌<◌, length, take, drop, Some, IfSome, IfOk, IfErr, MatchResult};
ghost use Rattle.warc_frame.specs.Effects.{FailsBy, ReadsRange};
ghost use Rattle.warc_frame.specs.Record.{Record};
ghost use Rattle.warc_frame.specs.Seen.{IfHeld};
ghost use Rattle.warc_frame.specs.Spelling.{Spells};
ghost use Rattle.warc_replay.specs.Status.{HasRecordAt, HasRecordOf, IsUntaken};
ghost use Rattle.warc_replay.specs.Taking.{GivesRecord, IsSpelledIn, IsTaken, ReadsRecord, take_result};
ghost use Rattle.warc_lookup.specs.RecordBytes.{record_len};

use crate::fault::TakeFault;
use std::alloc::Allocator;
use warc_frame::{FaultKind, Framed, Source, read_one, read_range};
use warc_reading::{Row, Rows};

/// The length of a record, the two line ends after its block included, where it ends before offset 2^64.
fn record_len(row: &Row<'_>) -> Option<usize>
    ensures within { IfSome result (λ len. (row.now.offset + len ≡ row.now.block_start + row.now.block_len + 4)
        × (row.now.offset + len < 2 ^ 64)) }
    ensures only { (len : ℕ) → row.now.offset + len ≡ row.now.block_start + row.now.block_len + 4 →
        row.now.offset + len < 2 ^ 64 → result ≡ Some len }
{
    let end = row.block_start.checked_add(row.block_len)?.checked_add(4)?;
    if end < row.offset {
        return None;
    }
    Some((end - row.offset) as usize)
}

/// Why a record isn't given, from what reading it answered.
fn fault_of(kind: FaultKind) -> TakeFault
    ensures is { IsUntaken result }
    ensures memory { kind ≡ FaultKind.Memory → result ≡ TakeFault.Memory }
{
    match kind {
        FaultKind::Memory => TakeFault::Memory,
        _ => TakeFault::Read,
    }
}

/// The record that a whole text is.
fn whole_record<A: Allocator + Copy>(alloc: A, text: &[u8]) -> Result<Framed<A>, TakeFault>
    ensures is { IfErr result IsUntaken }
    ensures whole { IfOk result (λ framed. Spells framed text.now) }
    ensures only { (r : Record) → Spells r text.now →
        MatchResult result (λ framed. framed ≡ r) (λ fault. fault ≡ TakeFault.Memory) }
{
    let (framed, len) = match read_one(alloc, text) {
        Ok(found) => found,
        Err(fault) => return Err(fault_of(fault.kind)),
    };
    if len != text.len() {
        return Err(TakeFault::Read);
    }
    Ok(framed)
}

/// The record that is at an offset and fills the buffer.
fn read_record<S: Source, A: Allocator + Copy>(
    alloc: A,
    source: &mut S,
    at: u64,
    text: &mut [u8],
) -> Result<Framed<A>, TakeFault>
    requires { at + length text.old < 2 ^ 64 }
    ensures taken { IfHeld (S.seen source.old).holds (λ bytes. (r : Record) →
        Spells r (take (length text.old) (drop at bytes)) → IfOk result (λ framed. framed ≡ r)) }
    ensures is { IfErr result IsUntaken }
    ensures whole { IfOk result (IsSpelledIn (length text.old)) }
    ensures reads { ReadsRange at (length text.old) (S.seen source.old) (S.seen source.new) }
    ensures fails { FailsBy (HasRecordAt at (length text.old)) (take_result result) (S.seen source.old)
        (S.seen source.new) }
{
    match read_range(source, at, text) {
        Ok(()) => {}
        Err(_) => return Err(TakeFault::Read),
    }
    whole_record(alloc, text)
}

/// The record of a row, read again.
fn take_record<S: Source, A: Allocator + Copy>(
    alloc: A,
    source: &mut S,
    row: &Row<'_>,
) -> Result<Framed<A>, TakeFault>
    ensures taken { IfHeld (S.seen source.old).holds (λ bytes. (is : HasRecordOf row.now bytes) →
        IsTaken (Some is.placed) result) }
    ensures is { IfErr result IsUntaken }
    ensures whole { IfOk result (IsSpelledIn (record_len (Some row.now))) }
    ensures reads { ReadsRecord (Some row.now) (S.seen source.old) (S.seen source.new) }
    ensures fails { FailsBy (HasRecordOf row.now) (take_result result) (S.seen source.old) (S.seen source.new) }
{
    let Some(len) = record_len(row) else {
        return Err(TakeFault::Read);
    };
    let Ok(mut text) = vec![in alloc; 0u8; len] else {
        return Err(TakeFault::Memory);
    };
    read_record(alloc, source, row.offset, &mut text)
}

/// The record at a position, read again.
pub fn take_record_at<S: Source, A: Allocator + Copy>(
    source: &mut S,
    rows: &Rows<A>,
    position: usize,
) -> Result<Framed<A>, TakeFault>
    ensures { GivesRecord rows.now position (S.seen source.old) (S.seen source.new) result }
{
    let Some(row) = rows.get(position) else {
        return Err(TakeFault::NoRecord);
    };
    take_record(rows.allocator(), source, &row)
}
