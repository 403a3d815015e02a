//! The lines of findings that are known, of all records of an archive.
ghost use Rattle.std.specs.Prelude.{◌≡◌, ℕ, ◌++◌, List, [], ◌∷◌, Option, Some, false, IfErr, IfOk, OnOk, length, map};
ghost use Rattle.warc_frame.specs.Count.{capped};
ghost use Rattle.warc_frame.specs.Failing.{failed_by, is_read};
ghost use Rattle.warc_frame.specs.Record.{Record};
ghost use Rattle.warc_frame.specs.Send.{IsStaged, WentOut, sent_of};
ghost use Rattle.warc_record.specs.Ids.{id_key};
ghost use Rattle.warc_reading.specs.Archive.{contents};
ghost use Rattle.warc_reading.specs.Row.{Placed};
ghost use Rattle.warc_checking.specs.Checking.{findings_after, findings_of_archive};
ghost use Rattle.warc_checking.specs.Checks.{AreCutOff, AreReported};
ghost use Rattle.warc_checking.specs.Lines.{PutsCheck, PutsFindingsOf, record_lines};
ghost use Rattle.warc_checking.specs.OwnFindings.{AreJudged, IsDue, all_of, found_at};
ghost use Rattle.warc_checking.specs.UsedIds.{HoldsIdsOf, IsBucketAt, IsTally};

use crate::lines::put_none;
use crate::own_findings::OwnFindings;
use crate::used_ids::UsedIds;
use std::alloc::Allocator;
use warc_frame::laws::{staged_went_out, went_out_of_longer};
use warc_frame::{OutBuffer, OutFault, Sink};
use warc_reading::{Row, Rows};
use warc_record::laws::good_heads_read;

/// Adds the lines of a record's findings to the output, and returns their number, up to 2^64 - 1. Its id is added to
/// the ids of the records before it.
fn put_next<A: Allocator + Copy, W: Sink>(
    alloc: A,
    position: usize,
    row: &Row<'_>,
    findings: &OwnFindings<A>,
    ids: &mut UsedIds<A>,
    buffer: &mut OutBuffer,
    out: &mut W,
) -> Result<usize, OutFault>
    requires bucket { (key : List ℕ) → id_key row.now.id ≡ Some key → IsBucketAt ids.old position key }
    ensures out { (before : List Record) (p : Placed) (start : Option (List ℕ)) (output : List ℕ) →
        IsDue before p row.now (found_at (map all_of findings.now) position) ids.old →
        IsStaged start output (W.seen out.old).reports buffer.old →
        OnOk result (IsStaged start (output ++ record_lines position (findings_after before p.content))
        (W.seen out.new).reports buffer.new) }
    ensures cut { (before : List Record) (p : Placed) (start : Option (List ℕ)) (output : List ℕ) →
        IsDue before p row.now (found_at (map all_of findings.now) position) ids.old →
        IsStaged start output (W.seen out.old).reports buffer.old →
        IfErr result (λ e. WentOut start (output ++ record_lines position (findings_after before p.content))
        (W.seen out.new).reports (sent_of e)) }
    ensures number { (before : List Record) (p : Placed) →
        IsDue before p row.now (found_at (map all_of findings.now) position) ids.old →
        IfOk result (λ n. n ≡ capped (length (findings_after before p.content))) }
    ensures ids { (before : List Record) (p : Placed) →
        IsDue before p row.now (found_at (map all_of findings.now) position) ids.old →
        OnOk result (HoldsIdsOf (before ++ p.content ∷ []) ids.new) }
    ensures counts { ids.new.counts ≡ ids.old.counts }
    ensures buckets { ids.new.buckets ≡ ids.old.buckets }
    ensures cause { (W.seen out.new).faults ≡ failed_by result (W.seen out.old).faults }
    ensures unread { IfErr result (λ e. is_read e ≡ false) }
{
    good_heads_read();
    staged_went_out();
    went_out_of_longer();
    let Ok(used) = ids.add(alloc, position, row.id) else {
        return Err(OutFault::Memory(buffer.sent()));
    };
    Ok(findings.put(position, used, buffer, out)?)
}

/// Adds the lines of all records' findings to the output, and returns their number, up to 2^64 - 1.
fn put_each<A: Allocator + Copy, W: Sink>(
    alloc: A,
    rows: &Rows<A>,
    findings: &OwnFindings<A>,
    ids: &mut UsedIds<A>,
    buffer: &mut OutBuffer,
    out: &mut W,
) -> Result<usize, OutFault>
    requires tally { IsTally (length rows.now) rows.now ids.old.counts ids.old.buckets }
    requires ids { HoldsIdsOf [] ids.old }
    ensures puts { (bytes : List ℕ) (records : List Placed) →
        AreJudged bytes records rows.now (map all_of findings.now) →
        PutsFindingsOf (contents records) (W.seen out.old) (W.seen out.new) buffer.old buffer.new result }
    ensures cause { (W.seen out.new).faults ≡ failed_by result (W.seen out.old).faults }
    ensures unread { IfErr result (λ e. is_read e ≡ false) }
{
    went_out_of_longer();
    good_heads_read();
    let mut count = 0usize;
    'reporting: for position in 0..rows.len() {
        let Some(row) = rows.get(position) else {
            unreachable!()
        };
        let number = put_next(alloc, position, &row, findings, ids, buffer, out)?;
        count = count.saturating_add(number);
    }
    Ok(count)
}

/// Adds the lines of all findings to the output, or that there is no record. The result is the number of lines, up to
/// 2^64 - 1.
pub fn put_findings<A: Allocator + Copy, W: Sink>(
    alloc: A,
    rows: &Rows<A>,
    findings: &OwnFindings<A>,
    buffer: &mut OutBuffer,
    out: &mut W,
) -> Result<usize, OutFault>
    ensures puts { (bytes : List ℕ) (records : List Placed) →
        AreJudged bytes records rows.now (map all_of findings.now) →
        PutsCheck (contents records) (W.seen out.old) (W.seen out.new) buffer.old buffer.new result }
    ensures cause { (W.seen out.new).faults ≡ failed_by result (W.seen out.old).faults }
    ensures unread { IfErr result (λ e. is_read e ≡ false) }
{
    staged_went_out();
    went_out_of_longer();
    if rows.len() == 0 {
        return put_none(buffer, out);
    }
    let Ok(mut ids) = UsedIds::new(alloc, rows) else {
        return Err(OutFault::Memory(buffer.sent()));
    };
    put_each(alloc, rows, findings, &mut ids, buffer, out)
}

/// Writes a line for each finding of the records, in their order, or that there is no record. The result is the number
/// of lines, up to 2^64 - 1.
pub fn write_findings<A: Allocator + Copy, W: Sink>(
    alloc: A,
    rows: &Rows<A>,
    findings: &OwnFindings<A>,
    out: &mut W,
) -> Result<usize, OutFault>
    ensures reported { (bytes : List ℕ) (records : List Placed) →
        AreJudged bytes records rows.now (map all_of findings.now) →
        AreReported (contents records) result (W.seen out.old) (W.seen out.new) }
    ensures number { (bytes : List ℕ) (records : List Placed) →
        AreJudged bytes records rows.now (map all_of findings.now) →
        IfOk result (λ n. n ≡ capped (length (findings_of_archive (contents records)))) }
    ensures cut { (bytes : List ℕ) (records : List Placed) →
        AreJudged bytes records rows.now (map all_of findings.now) →
        AreCutOff (contents records) result (W.seen out.old) (W.seen out.new) }
    ensures cause { (W.seen out.new).faults ≡ failed_by result (W.seen out.old).faults }
    ensures unread { IfErr result (λ e. is_read e ≡ false) }
{
    let mut buffer = OutBuffer::new();
    let number = put_findings(alloc, rows, findings, &mut buffer, out)?;
    buffer.flush(out)?;
    Ok(number)
}
