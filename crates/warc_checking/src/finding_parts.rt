//! The findings of each record, as parts of one list.
ghost use Rattle.std.specs.Prelude.{◌≡◌, ℕ, ◌+◌, ◌≤◌, ◌<◌, false, List, [], ◌∷◌, ◌++◌, length, take, OnErr, OnOk, IfOk, if◌then◌else◌};
ghost use Rattle.warc_frame.specs.Count.{capped};
ghost use Rattle.warc_frame.specs.Effects.{Puts};
ghost use Rattle.warc_record.specs.Findings.{SeenFinding, findings_of};
ghost use Rattle.warc_quick.specs.PlainFindings.{all_plain};
ghost use Rattle.warc_checking.specs.Lines.{record_lines};
ghost use Rattle.warc_checking.specs.OwnFindings.{AreEnds, IsPart, found_at, found_by_part, findings_of_part, last_end, with_both};

use crate::finding_list::{FindingList, ListPart, add_others, add_plain_findings};
use std::alloc::{AllocError, Allocator};
use std::marker::Model;
use warc_field::Fields;
use warc_frame::{OutBuffer, SendFault, Sink};
use warc_quick::PlainFindings;
use warc_record::ArchiveFacts;

/// How many lines a finding takes, if it holds.
fn line_count(holds: bool) -> usize
    ensures { result ≡ (if holds then 1 else 0) }
{
    if holds { 1 } else { 0 }
}

/// Where the last part before a place ends.
fn end_before(ends: &[usize], position: usize) -> usize
    requires { position ≤ length ends.now }
    ensures { result ≡ last_end 0 (take position ends.now) }
{
    if position == 0 {
        return 0;
    }
    ends[position - 1]
}

/// The part at a place, an empty one past the end.
fn part_at(ends: &[usize], position: usize) -> ListPart
    ensures is { (findings : List SeenFinding) → findings_of_part findings result
        ≡ found_at (found_by_part findings ends.now) position }
    ensures within { (count : ℕ) → AreEnds count ends.now → IsPart count result }
{
    if position >= ends.len() {
        return ListPart { start: 0, end: 0 };
    }
    ListPart {
        start: end_before(ends, position),
        end: ends[position],
    }
}

/// Forgets the findings that are in no part. A refusal or a truncation left them.
fn forget_rest<A: Allocator>(findings: &mut FindingList<A>, ends: &[usize])
    requires { AreEnds (length findings.old) ends.now }
    ensures last { length findings.new ≡ last_end 0 ends.now }
    ensures within { AreEnds (length findings.new) ends.now }
    ensures same { found_by_part findings.new ends.now ≡ found_by_part findings.old ends.now }
{
    findings.truncate(end_before(ends, ends.len()));
}

/// Adds the part of the next record, by the fields of its head and the length of its block. If an allocation fails,
/// none is added, and the findings that were added are in no part.
fn add_part<A: Allocator + Copy>(
    alloc: A,
    findings: &mut FindingList<A>,
    ends: &mut Vec<usize, A>,
    fields: &Fields<A>,
    block_len: u64,
) -> Result<(), AllocError>
    requires { AreEnds (length findings.old) ends.old.items }
    ensures within { AreEnds (length findings.new) ends.new.items }
    ensures ok { OnOk result (found_by_part findings.new ends.new.items
        ≡ found_by_part findings.old ends.old.items ++ findings_of fields.now block_len false false ∷ []) }
    ensures err { OnErr result (found_by_part findings.new ends.new.items
        ≡ found_by_part findings.old ends.old.items) }
{
    forget_rest(findings, ends.as_slice());
    ends.reserve(1)?;
    add_others(alloc, fields, block_len, findings)?;
    ends.push_reserved(findings.len());
    Ok(())
}

/// Adds the part of the next record, by the findings of its plain head. If an allocation fails, none is added, and the
/// findings that were added are in no part.
fn add_plain_part<A: Allocator>(
    findings: &mut FindingList<A>,
    ends: &mut Vec<usize, A>,
    found: &PlainFindings,
) -> Result<(), AllocError>
    requires { AreEnds (length findings.old) ends.old.items }
    ensures within { AreEnds (length findings.new) ends.new.items }
    ensures ok { OnOk result (found_by_part findings.new ends.new.items
        ≡ found_by_part findings.old ends.old.items ++ all_plain found.now ∷ []) }
    ensures err { OnErr result (found_by_part findings.new ends.new.items
        ≡ found_by_part findings.old ends.old.items) }
{
    forget_rest(findings, ends.as_slice());
    ends.reserve(1)?;
    add_plain_findings(found.as_slice(), findings)?;
    ends.push_reserved(findings.len());
    Ok(())
}

/// The findings of each record but for N4 and N6. Of a record's part only its end is kept: it begins at the end of the
/// one before it.
#[derive(Drop)]
pub(crate) struct OtherFindings<A: Allocator> {
    findings: FindingList<A>,
    ends: Vec<usize, A>,
}

impl<A: Allocator> Model for OtherFindings<A> {
    ghost use Rattle.std.specs.Prelude.{List, length};
    ghost use Rattle.warc_record.specs.Findings.{SeenFinding};
    ghost use Rattle.warc_checking.specs.OwnFindings.{AreEnds, found_by_part};

    ghost Value = { List (List SeenFinding) };

    ghost view = { λ n. found_by_part n.findings n.ends.items };

    ghost invariant = { λ n. AreEnds (length n.findings) n.ends.items };
}

impl<A: Allocator + Copy> OtherFindings<A> {
    /// Of no records.
    pub(crate) fn new(alloc: A) -> OtherFindings<A>
        ensures { result ≡ [] }
    {
        OtherFindings {
            findings: FindingList::new(alloc),
            ends: Vec::new(alloc),
        }
    }

    /// Adds the findings of the next record, by the fields of its head and the length of its block. If an allocation
    /// fails, none is added.
    pub(crate) fn add(
        &mut self,
        alloc: A,
        fields: &Fields<A>,
        block_len: u64,
    ) -> Result<(), AllocError>
        ensures ok { OnOk result (self.new ≡ self.old ++ findings_of fields.now block_len false false ∷ []) }
        ensures err { OnErr result (self.new ≡ self.old) }
    {
        add_part(alloc, &mut self.findings, &mut self.ends, fields, block_len)
    }
}

impl<A: Allocator> OtherFindings<A> {
    /// Adds the findings of the next record, whose head is plain. If an allocation fails, none is added.
    pub(crate) fn add_plain(&mut self, found: &PlainFindings) -> Result<(), AllocError>
        ensures ok { OnOk result (self.new ≡ self.old ++ all_plain found.now ∷ []) }
        ensures err { OnErr result (self.new ≡ self.old) }
    {
        add_plain_part(&mut self.findings, &mut self.ends, found)
    }

    /// Forgets the findings of all but the first records, this many.
    pub(crate) fn truncate(&mut self, count: usize)
        ensures { self.new ≡ take count self.old }
    {
        // The findings of the others stay in no part until the next are added.
        self.ends.truncate(count);
    }

    /// Adds the lines of the findings of the record at a position to the output, and of N4 and N6 among them, if they
    /// hold. The result is their number, up to 2^64 - 1.
    pub(crate) fn put<W: Sink>(
        &self,
        position: usize,
        facts: ArchiveFacts,
        buffer: &mut OutBuffer,
        out: &mut W,
    ) -> Result<usize, SendFault>
        ensures puts { Puts (W.seen out.old) (W.seen out.new) buffer.old buffer.new result (record_lines position
            (with_both (found_at self.now position) facts.bad_digest facts.used_id)) }
        ensures number { IfOk result (λ n. n ≡ capped (length (found_at self.now position)
            + (if facts.bad_digest then 1 else 0) + (if facts.used_id then 1 else 0))) }
    {
        let part = part_at(self.ends.as_slice(), position);
        self.findings
            .put(part, position as u64, facts, buffer, out)?;
        let more = line_count(facts.bad_digest) + line_count(facts.used_id);
        Ok((part.end - part.start).saturating_add(more))
    }
}
