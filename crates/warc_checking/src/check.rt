//! What is wrong with records that can be read: each is read and judged again, and then a line is written for each
//! finding.
ghost use Rattle.std.specs.Prelude.{◌≡◌, ◌≤◌, List, [], IfOk, OnOk, length, map};
ghost use Rattle.warc_frame.specs.Effects.{FailsBy, ReadsOnly};
ghost use Rattle.warc_frame.specs.Record.{max_head};
ghost use Rattle.warc_frame.specs.Seen.{IfHeld};
ghost use Rattle.warc_reading.specs.Archive.{contents};
ghost use Rattle.warc_reading.specs.Judging.{verdict_on};
ghost use Rattle.warc_reading.specs.Placing.{IsInRow};
ghost use Rattle.warc_frame.specs.Send.{early_result};
ghost use Rattle.warc_reading.specs.Rereading.{AreCheckable, HasRecordsOf, HasTextOf, IsHeadBy, ReadsRows, row_len};
ghost use Rattle.warc_reading.specs.Row.{Placed};
ghost use Rattle.warc_checking.specs.Checks.{Checks};
ghost use Rattle.warc_checking.specs.Judged.{own_findings};
ghost use Rattle.warc_checking.specs.OwnFindings.{all_of};

use crate::findings::Judging;
use crate::output::write_findings;
use crate::own_findings::OwnFindings;
use std::alloc::Allocator;
use warc_digest::judge_range;
use warc_field::Fields;
use warc_frame::laws::head_of_spelled;
use warc_frame::{EarlyFault, OutFault, Sink, Source};
use warc_reading::{Row, Rows, head_buffer, reread_good};
use warc_value::Verdict;

/// A record's fields, read again, and how its block compares with the digest that they ask for.
#[derive(Drop)]
pub struct Rejudged<A: Allocator> {
    pub fields: Fields<A>,
    pub verdict: Verdict,
}

/// Reads the head of a record again, through a buffer that any head fits, and its block too if a digest of it can be
/// checked. Each byte is read at most once, and no other. If the source doesn't give what it gave before, the head is
/// taken as by `reread_good`.
pub fn judge_again<S: Source, A: Allocator + Copy>(
    alloc: A,
    source: &mut S,
    row: &Row<'_>,
    buf: &mut [u8],
) -> Result<Rejudged<A>, EarlyFault>
    requires { max_head ≤ length buf.old }
    ensures judged { IfHeld (S.seen source.old).holds (λ bytes. (is : HasTextOf row.now bytes) → IfOk result (λ x.
        (x.fields ≡ is.placed.content.fields) × (x.verdict ≡ verdict_on is.placed))) }
    ensures whole { IfOk result (λ x. IsHeadBy row.now x.fields) }
    ensures reads { ReadsOnly (IsInRow row.now) (row_len row.now) (S.seen source.old) (S.seen source.new) }
    ensures fails { FailsBy (HasTextOf row.now) (early_result result) (S.seen source.old) (S.seen source.new) }
{
    let head = reread_good(alloc, source, row, buf)?;
    let wanted = head.wanted();
    match judge_range(source, row.block_start, row.block_len, &wanted, buf) {
        Ok(verdict) => Ok(Rejudged {
            fields: head.into_fields(),
            verdict,
        }),
        Err(_) => Err(EarlyFault::Read),
    }
}

/// Reads and judges each record again, in order, and adds its findings. Heads are read through a buffer that any head
/// fits, and blocks are judged several at a time.
fn judge_each<S: Source, A: Allocator + Copy>(
    alloc: A,
    source: &mut S,
    rows: &Rows<A>,
    judging: &mut Judging<A>,
    head: &mut [u8],
) -> Result<(), EarlyFault>
    requires head { max_head ≤ length head.old }
    requires none { judging.old ≡ [] }
    ensures judged { IfHeld (S.seen source.old).holds (λ bytes. (records : List Placed)
        → AreCheckable bytes records rows.now
        → OnOk result (judging.new ≡ map own_findings (contents records))) }
    ensures reads { ReadsRows rows.now (S.seen source.old) (S.seen source.new) }
    ensures fails { FailsBy (HasRecordsOf rows.now) (early_result result) (S.seen source.old) (S.seen source.new) }
{
    'judging: for position in 0..rows.len() {
        let Some(row) = rows.get(position) else {
            unreachable!()
        };
        judging.add_reread(alloc, source, &row, head)?;
    }
    Ok(())
}

/// The findings that each record alone shows. Each head is read again, and each block whose digest can be checked.
fn row_findings<S: Source, A: Allocator + Copy>(
    alloc: A,
    source: &mut S,
    rows: &Rows<A>,
) -> Result<OwnFindings<A>, EarlyFault>
    ensures judged { IfHeld (S.seen source.old).holds (λ bytes. (records : List Placed)
        → AreCheckable bytes records rows.now
        → IfOk result (λ found. map all_of found ≡ map own_findings (contents records))) }
    ensures reads { ReadsRows rows.now (S.seen source.old) (S.seen source.new) }
    ensures fails { FailsBy (HasRecordsOf rows.now) (early_result result) (S.seen source.old) (S.seen source.new) }
{
    let Ok(mut head) = head_buffer(alloc) else {
        return Err(EarlyFault::Memory);
    };
    let mut judging = Judging::new(alloc);
    judge_each(alloc, source, rows, &mut judging, &mut head)?;
    Ok(judging.into_findings())
}

/// Writes a line for each finding of the records of an archive with these rows, in their order, or that there is no
/// record, and returns how many lines there are. First each record's head is read again, and its block too if a digest
/// of it can be checked. Then the lines are written.
///
/// A read that fails, or a source that doesn't give what the rows say, is `Read`, and then nothing was written. A write
/// that fails is `Write`, and a failed allocation `Memory`. Each has the number of bytes that went out, the first of
/// the output.
pub fn check_rows<S: Source, A: Allocator + Copy, W: Sink>(
    alloc: A,
    source: &mut S,
    rows: &Rows<A>,
    out: &mut W,
) -> Result<usize, OutFault>
    ensures { Checks rows.now (S.seen source.old) (S.seen source.new) (W.seen out.old) (W.seen out.new) result }
{
    head_of_spelled();
    let findings = match row_findings(alloc, source, rows) {
        Ok(findings) => findings,
        Err(fault) => return Err(fault.after(0)),
    };
    write_findings(alloc, rows, &findings, out)
}
