//! The verdicts on the blocks of some records, which are read again. Their SHA-1 is computed side by side.
ghost use Rattle.std.specs.Prelude.{◌≡◌, ◌≤◌, List, [], ◌∷◌, ◌++◌, length, take, drop, IfErr, IfOk, OnOk};
ghost use Rattle.sha1.specs.Sha1.{sha1};
ghost use Rattle.warc_value.specs.Digests.{verdict_of};
ghost use Rattle.warc_frame.specs.Effects.{FailsBy, HasRange, ReadsOnly, ReadsRange};
ghost use Rattle.warc_frame.specs.Record.{max_head};
ghost use Rattle.warc_frame.specs.Seen.{IfHeld};
ghost use Rattle.warc_record.specs.Readings.{digest_wanted};
ghost use Rattle.warc_digest.specs.Judging.{judged_len};
ghost use Rattle.warc_answer.specs.Seen.{IsEarly};
ghost use Rattle.warc_reading.specs.Archive.{contents};
ghost use Rattle.warc_reading.specs.Judging.{verdict_on};
ghost use Rattle.warc_reading.specs.Placing.{IsInRow};
ghost use Rattle.warc_reading.specs.Rereading.{HasTextOf, ReadsHeads, row_len};
ghost use Rattle.warc_reading.specs.Row.{Placed};
ghost use Rattle.warc_checking.specs.Batch.{verdict_with};
ghost use Rattle.warc_replay.specs.BlocksAgain.{AddsBlock, AreBlocksAt, JudgesBlocks, JudgesEachAt};
ghost use Rattle.warc_replay.specs.Capturing.{AreKnownBlocks};

use std::alloc::{AllocError, Allocator};
use warc_answer::ReplayFault;
use warc_checking::BlockCheck;
use warc_frame::laws::head_of_spelled;
use warc_frame::{OutFault, Source, read_range};
use warc_judged::{BlockVerdicts, Verdicts};
use warc_reading::{Row, Rows, reread_good};
use warc_value::{Verdict, Wanted};

/// The longest block that is read, 256 KiB: a longer one wouldn't wait for others.
const MAX_BLOCK: usize = 262_144;

/// Adds the verdict on the next block, which is in memory.
fn add_block<A: Allocator>(
    check: BlockCheck,
    block: &[u8],
    blocks: &mut BlockVerdicts<A>,
) -> Result<(), OutFault>
    ensures ok { OnOk result (blocks.new ≡ blocks.old ++ verdict_with check (sha1 block.now) ∷ []) }
    ensures memory { IfErr result (λ fault. fault ≡ OutFault.Memory 0) }
{
    match blocks.add(check, block) {
        Ok(()) => Ok(()),
        Err(_) => Err(OutFault::Memory(0)),
    }
}

/// Adds that nothing is known of the next block.
fn add_unknown<A: Allocator>(blocks: &mut BlockVerdicts<A>) -> Result<(), OutFault>
    ensures ok { OnOk result (blocks.new ≡ blocks.old ++ Verdict.Unchecked ∷ []) }
    ensures memory { IfErr result (λ fault. fault ≡ OutFault.Memory 0) }
{
    add_block(BlockCheck::Known(Verdict::Unchecked), b"", blocks)
}

/// The digest that is asked of the block of a row's record. Its head is read again.
fn reread_wanted<S: Source, A: Allocator + Copy>(
    alloc: A,
    source: &mut S,
    row: &Row<'_>,
    buf: &mut [u8],
) -> Result<Wanted, OutFault>
    requires { max_head ≤ length buf.old }
    ensures read { IfHeld (S.seen source.old).holds (λ bytes. (is : HasTextOf row.now bytes) →
        IfOk result (λ wanted. wanted ≡ digest_wanted is.placed.content.fields)) }
    ensures order { IfOk result (λ _. row.now.offset ≤ row.now.block_start) }
    ensures early { IfErr result (λ e. IsEarly (ReplayFault.Out e)) }
    ensures reads { ReadsHeads (row.now ∷ []) (S.seen source.old) (S.seen source.new) }
    ensures fails { FailsBy (HasTextOf row.now) result (S.seen source.old) (S.seen source.new) }
{
    match reread_good(alloc, source, row, buf) {
        Ok(head) => Ok(head.wanted()),
        Err(fault) => Err(fault.after(0)),
    }
}

/// Adds the verdict on the next block, which is read through a buffer that it fits, if a digest of it can be checked.
fn add_read<S: Source, A: Allocator>(
    source: &mut S,
    start: u64,
    len: u64,
    wanted: &Wanted,
    buf: &mut [u8],
    blocks: &mut BlockVerdicts<A>,
) -> Result<(), OutFault>
    requires { len ≤ length buf.old }
    ensures added { IfHeld (S.seen source.old).holds (λ bytes.
        OnOk result (blocks.new ≡ blocks.old ++ verdict_of wanted.now (take len (drop start bytes)) ∷ [])) }
    ensures early { IfErr result (λ e. IsEarly (ReplayFault.Out e)) }
    ensures reads { ReadsRange start (judged_len wanted.now len) (S.seen source.old) (S.seen source.new) }
    ensures fails { FailsBy (HasRange start len) result (S.seen source.old) (S.seen source.new) }
{
    if let Wanted::Unchecked = wanted {
        return add_unknown(blocks);
    }
    if len > u64::MAX - start {
        return Err(OutFault::Read(0));
    }
    let block = &mut buf[..len as usize];
    match read_range(source, start, block) {
        Ok(()) => add_block(BlockCheck::of(wanted), block, blocks),
        Err(_) => Err(OutFault::Read(0)),
    }
}

/// Adds the verdict on the block of a row's record. Its head is read again, and its block, through a buffer that each
/// fits.
fn add_row<S: Source, A: Allocator + Copy>(
    alloc: A,
    source: &mut S,
    row: &Row<'_>,
    buf: &mut [u8],
    blocks: &mut BlockVerdicts<A>,
) -> Result<(), OutFault>
    requires head { max_head ≤ length buf.old }
    requires block { row.now.block_len ≤ length buf.old }
    ensures added { IfHeld (S.seen source.old).holds (λ bytes. (is : HasTextOf row.now bytes) →
        OnOk result (blocks.new ≡ blocks.old ++ verdict_on is.placed ∷ [])) }
    ensures early { IfErr result (λ e. IsEarly (ReplayFault.Out e)) }
    ensures reads { ReadsOnly (IsInRow row.now) (row_len row.now) (S.seen source.old) (S.seen source.new) }
    ensures fails { FailsBy (HasTextOf row.now) result (S.seen source.old) (S.seen source.new) }
{
    let wanted = reread_wanted(alloc, source, row, buf)?;
    add_read(source, row.block_start, row.block_len, &wanted, buf, blocks)
}

/// Adds the verdict on the block of the record at a position, if it is one that is read.
fn add_at<S: Source, A: Allocator + Copy>(
    source: &mut S,
    rows: &Rows<A>,
    position: usize,
    buf: &mut [u8],
    blocks: &mut BlockVerdicts<A>,
) -> Result<(), OutFault>
    requires { max_head ≤ length buf.old }
    ensures { AddsBlock rows.now position blocks.old blocks.new (S.seen source.old) (S.seen source.new) result }
{
    head_of_spelled();
    let Some(row) = rows.get(position) else {
        return add_unknown(blocks);
    };
    if row.block_len > buf.len() as u64 {
        return add_unknown(blocks);
    }
    add_row(rows.allocator(), source, &row, buf, blocks)
}

/// The verdicts on the blocks of the records at these positions.
fn judge_each_at<S: Source, A: Allocator + Copy>(
    source: &mut S,
    rows: &Rows<A>,
    positions: &[usize],
) -> Result<Verdicts<A>, OutFault>
    ensures { JudgesEachAt rows.now positions.now (S.seen source.old) (S.seen source.new) result }
{
    let alloc = rows.allocator();
    let Ok(mut buf) = vec![in alloc; 0u8; MAX_BLOCK] else {
        return Err(OutFault::Memory(0));
    };
    let mut blocks = BlockVerdicts::new(alloc);
    'judging: for position in positions {
        add_at(source, rows, *position, &mut buf, &mut blocks)?;
    }
    Ok(blocks.into_verdicts())
}

/// What is known of the block of each record, by the verdicts on those at these positions.
fn spread<A: Allocator + Copy>(
    alloc: A,
    count: usize,
    positions: &[usize],
    found: &Verdicts<A>,
) -> Result<Verdicts<A>, AllocError>
    ensures { (records : List Placed) → AreBlocksAt (contents records) positions.now found.now →
        IfOk result (λ blocks. AreKnownBlocks blocks records) }
{
    let mut all = Verdicts::unknown(alloc, count)?;
    'spreading: for i in 0..positions.len() {
        all.set(positions[i], found.at(i));
    }
    Ok(all)
}

/// What is known of the block of each record, once those of the records at these positions are judged. Each of their
/// heads is read again, and each block of at most 256 KiB whose digest can be checked. Of any other nothing is known.
pub fn judge_blocks_at<S: Source, A: Allocator + Copy>(
    source: &mut S,
    rows: &Rows<A>,
    positions: &[usize],
) -> Result<Verdicts<A>, OutFault>
    ensures { JudgesBlocks rows.now (S.seen source.old) (S.seen source.new) result }
{
    if positions.is_empty() {
        return Ok(Verdicts::new(rows.allocator()));
    }
    let found = judge_each_at(source, rows, positions)?;
    match spread(rows.allocator(), rows.len(), positions, &found) {
        Ok(blocks) => Ok(blocks),
        Err(_) => Err(OutFault::Memory(0)),
    }
}
