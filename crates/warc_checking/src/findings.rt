//! The findings of records as they are read. The blocks of the last ones wait, so that they are hashed side by side.
ghost use Rattle.std.specs.Prelude.{◌≡◌, ℕ, ◌++◌, ◌<◌, ◌≤◌, true, false, List, [], ◌∷◌, IfOk, OnErr, OnOk, length, map, take};
ghost use Rattle.warc_value.specs.Digests.{is_bad};
ghost use Rattle.warc_frame.specs.Effects.{FailsBy, ReadsOnly};
ghost use Rattle.warc_frame.specs.Record.{max_head};
ghost use Rattle.warc_frame.specs.Seen.{IfHeld};
ghost use Rattle.warc_record.specs.Findings.{findings_of};
ghost use Rattle.warc_record.specs.Readings.{digest_wanted};
ghost use Rattle.warc_reading.specs.Archive.{contents};
ghost use Rattle.warc_reading.specs.Judging.{IsNextPlain};
ghost use Rattle.warc_reading.specs.Placing.{IsInRow};
ghost use Rattle.warc_frame.specs.Send.{early_result};
ghost use Rattle.warc_reading.specs.Rereading.{HasHeadOf, HasRoomFor, HasTextOf, ReadsHeads, row_len};
ghost use Rattle.warc_reading.specs.Row.{Placed};
ghost use Rattle.warc_checking.specs.Judged.{own_findings};
ghost use Rattle.warc_checking.specs.Judging.{AddsGoodHead, IsOneMore, all_shown, settled};
ghost use Rattle.warc_checking.specs.OwnFindings.{Found, all_of};

use crate::batch::{Batch, BlockCheck, MAX_WAITING, PIECE_LEN};
use crate::own_findings::OwnFindings;
use std::alloc::{AllocError, Allocator};
use std::marker::Model;
use warc_field::Fields;
use warc_frame::{EarlyFault, Source};
use warc_quick::{QuickHead, QuickRecord, text_findings};
use warc_reading::{BlockDigest, Keep, Row, good_head_in, reread_text};
use warc_record::GoodHead;
use warc_value::{Verdict, Wanted};

/// Marks of the last records, one for each of these verdicts, whether the digest differs.
pub(crate) fn mark_last<A: Allocator>(findings: &mut OwnFindings<A>, verdicts: &[Verdict])
    requires { length verdicts.now ≤ length findings.old }
    ensures { findings.new ≡ settled findings.old verdicts.now }
{
    let first = findings.len() - verdicts.len();
    'marking: for i in 0..verdicts.len() {
        if verdicts[i].is_bad() {
            findings.mark(first + i);
        }
    }
}

/// Hashes the blocks that wait, and marks of their records, the last ones, whether the digest differs. Then none waits.
/// It doesn't allocate.
fn settle<A: Allocator>(findings: &mut OwnFindings<A>, batch: &mut Batch<A>)
    requires { length batch.old ≤ length findings.old }
    ensures same { findings.new ≡ settled findings.old batch.old }
    ensures none { batch.new ≡ [] }
{
    let mut verdicts = [Verdict::Unchecked; MAX_WAITING];
    let count = batch.judge(&mut verdicts);
    mark_last(findings, &verdicts[..count]);
}

/// Hashes the blocks that wait, as `settle`, if no further block of this length should wait.
fn settle_if_full<A: Allocator>(findings: &mut OwnFindings<A>, batch: &mut Batch<A>, len: u64)
    requires { length batch.old ≤ length findings.old }
    ensures same { settled findings.new batch.new ≡ settled findings.old batch.old }
    ensures few { length batch.new < MAX_WAITING }
    ensures last { length batch.new ≤ length findings.new }
{
    if batch.is_full(len) {
        settle(findings, batch);
    }
}

/// Adds what the good head that a text is shows, if it is a whole one with a block of this length, and returns the
/// digest that it asks for. If it fails, nothing is added.
fn add_good_head<A: Allocator + Copy>(
    alloc: A,
    text: &[u8],
    block_len: u64,
    findings: &mut OwnFindings<A>,
) -> Result<Wanted, EarlyFault>
    ensures is { AddsGoodHead text.now block_len findings.old findings.new result }
    ensures more { OnOk result ((found : Found) × (findings.new ≡ findings.old ++ found ∷ [])) }
    ensures err { OnErr result (findings.new ≡ findings.old) }
{
    let head = good_head_in(alloc, text, block_len)?;
    match findings.add(alloc, head.fields(), block_len) {
        Ok(()) => Ok(head.wanted()),
        Err(_) => Err(EarlyFault::Memory),
    }
}

/// Adds what the head that a text is shows, as `add_good_head`. If the head is plain and its findings are known, no
/// fields are kept.
fn add_head<A: Allocator + Copy>(
    alloc: A,
    text: &[u8],
    block_len: u64,
    findings: &mut OwnFindings<A>,
) -> Result<Wanted, EarlyFault>
    ensures is { AddsGoodHead text.now block_len findings.old findings.new result }
    ensures more { OnOk result ((found : Found) × (findings.new ≡ findings.old ++ found ∷ [])) }
    ensures err { OnErr result (findings.new ≡ findings.old) }
{
    let Some((wanted, found)) = text_findings(text, block_len) else {
        return add_good_head(alloc, text, block_len, findings);
    };
    match findings.add_plain(&found) {
        Ok(()) => Ok(wanted),
        Err(_) => Err(EarlyFault::Memory),
    }
}

/// Adds what the head of a record shows that was read in place. If an allocation fails, nothing is added.
pub(crate) fn add_plain_head<A: Allocator + Copy>(
    alloc: A,
    found: &QuickRecord<'_>,
    findings: &mut OwnFindings<A>,
) -> Result<(), AllocError>
    requires { (p : Placed) × (start : ℕ) × IsNextPlain p found.now start }
    ensures ok { (p : Placed) (start : ℕ) → IsNextPlain p found.now start →
        OnOk result (IsOneMore p.content.fields (length p.content.block) findings.old findings.new) }
    ensures more { OnOk result ((one : Found) × (findings.new ≡ findings.old ++ one ∷ [])) }
    ensures err { OnErr result (findings.new ≡ findings.old) }
{
    // A copy of them is lent, so that the record itself can stay in registers.
    if let Some(known) = found.head.findings {
        return findings.add_plain(&known);
    }
    // The head was read already, so only memory can fail.
    match add_good_head(alloc, found.head_text, found.head.block_len, findings) {
        Ok(_) => Ok(()),
        Err(_) => Err(AllocError),
    }
}

/// Adds a record that was read in place. If an allocation fails, it isn't added.
fn add_in_place<A: Allocator + Copy>(
    alloc: A,
    found: &QuickRecord<'_>,
    findings: &mut OwnFindings<A>,
    batch: &mut Batch<A>,
) -> Result<(), AllocError>
    requires next { (p : Placed) × (start : ℕ) × IsNextPlain p found.now start }
    requires few { length batch.old < MAX_WAITING }
    requires last { length batch.old ≤ length findings.old }
    ensures last { length batch.new ≤ length findings.new }
    ensures ok { (p : Placed) (start : ℕ) → IsNextPlain p found.now start → OnOk result
        (all_shown findings.new batch.new ≡ all_shown findings.old batch.old ++ own_findings p.content ∷ []) }
    ensures err { OnErr result (all_shown findings.new batch.new ≡ all_shown findings.old batch.old) }
{
    let count = findings.len();
    add_plain_head(alloc, found, findings)?;
    match batch.add(BlockCheck::of(&found.head.wanted()), found.block) {
        Ok(()) => Ok(()),
        Err(refused) => {
            // What was added is taken back, which doesn't allocate.
            findings.truncate(count);
            Err(refused)
        }
    }
}

/// Adds a record whose block is judged already. If an allocation fails, it isn't added.
fn add_known<A: Allocator + Copy>(
    alloc: A,
    fields: &Fields<A>,
    block_len: u64,
    verdict: Verdict,
    findings: &mut OwnFindings<A>,
    batch: &mut Batch<A>,
) -> Result<(), AllocError>
    requires few { length batch.old < MAX_WAITING }
    requires last { length batch.old ≤ length findings.old }
    ensures last { length batch.new ≤ length findings.new }
    ensures ok { OnOk result (all_shown findings.new batch.new ≡ all_shown findings.old batch.old
        ++ findings_of fields.now block_len (is_bad verdict) false ∷ []) }
    ensures err { OnErr result (all_shown findings.new batch.new ≡ all_shown findings.old batch.old) }
{
    let count = findings.len();
    findings.add(alloc, fields, block_len)?;
    match batch.add(BlockCheck::Known(verdict), b"") {
        Ok(()) => Ok(()),
        Err(refused) => {
            // What was added is taken back, which doesn't allocate.
            findings.truncate(count);
            Err(refused)
        }
    }
}

/// Reads the head of a record again, through a buffer that it fits, adds what it shows, and returns the digest that it
/// asks for. If it fails, nothing is added.
fn reread_head<S: Source, A: Allocator + Copy>(
    alloc: A,
    source: &mut S,
    row: &Row<'_>,
    findings: &mut OwnFindings<A>,
    buf: &mut [u8],
) -> Result<Wanted, EarlyFault>
    requires { HasRoomFor row.now buf.old }
    ensures read { IfHeld (S.seen source.old).holds (λ bytes. (is : HasHeadOf row.now bytes) →
        IfOk result (λ wanted. (wanted ≡ digest_wanted is.placed.content.fields)
        × IsOneMore is.placed.content.fields row.now.block_len findings.old findings.new)) }
    ensures more { OnOk result ((found : Found) × (findings.new ≡ findings.old ++ found ∷ [])) }
    ensures err { OnErr result (findings.new ≡ findings.old) }
    ensures size { IfOk result (λ _. row.now.offset ≤ row.now.block_start) }
    ensures reads { ReadsHeads (row.now ∷ []) (S.seen source.old) (S.seen source.new) }
    ensures fails { FailsBy (HasHeadOf row.now) (early_result result) (S.seen source.old) (S.seen source.new) }
{
    let len = reread_text(source, row, buf)?;
    add_head(alloc, &buf[..len], row.block_len, findings)
}

/// Reads a record again: its head, and its block if a digest of it can be checked. If it fails, it isn't added.
fn add_reread<S: Source, A: Allocator + Copy>(
    alloc: A,
    source: &mut S,
    row: &Row<'_>,
    findings: &mut OwnFindings<A>,
    batch: &mut Batch<A>,
    buf: &mut [u8],
) -> Result<(), EarlyFault>
    requires room { max_head ≤ length buf.old }
    requires few { length batch.old < MAX_WAITING }
    requires last { length batch.old ≤ length findings.old }
    ensures last { length batch.new ≤ length findings.new }
    ensures added { IfHeld (S.seen source.old).holds (λ bytes. (is : HasTextOf row.now bytes) → OnOk result
        (all_shown findings.new batch.new
        ≡ all_shown findings.old batch.old ++ own_findings is.placed.content ∷ [])) }
    ensures err { OnErr result (all_shown findings.new batch.new ≡ all_shown findings.old batch.old) }
    ensures reads { ReadsOnly (IsInRow row.now) (row_len row.now) (S.seen source.old) (S.seen source.new) }
    ensures fails { FailsBy (HasTextOf row.now) (early_result result) (S.seen source.old) (S.seen source.new) }
{
    let count = findings.len();
    let wanted = reread_head(alloc, source, row, findings, buf)?;
    match batch.add_read(source, row.block_start, row.block_len, &wanted, buf) {
        Ok(()) => Ok(()),
        Err(fault) => {
            // What was added is taken back, which doesn't allocate.
            findings.truncate(count);
            Err(fault)
        }
    }
}

/// Records whose heads were read, of which the last ones wait until their blocks are hashed. Contracts see the findings
/// that each of them alone shows.
#[derive(Drop)]
pub struct Judging<A: Allocator> {
    findings: OwnFindings<A>,
    batch: Batch<A>,
}

impl<A: Allocator> Model for Judging<A> {
    ghost use Rattle.std.specs.Prelude.{◌≤◌, List, length};
    ghost use Rattle.warc_record.specs.Findings.{SeenFinding};
    ghost use Rattle.warc_checking.specs.Judging.{all_shown};

    ghost Value = { List (List SeenFinding) };

    ghost view = { λ j. all_shown j.findings j.batch };

    ghost invariant = { λ j. length j.batch ≤ length j.findings };
}

impl<A: Allocator + Copy> Judging<A> {
    /// Of no records.
    pub fn new(alloc: A) -> Judging<A>
        ensures { result ≡ [] }
    {
        Judging {
            findings: OwnFindings::new(alloc),
            batch: Batch::new(alloc),
        }
    }

    /// Adds the next record, by the fields of its head, the length of its block and the verdict on its digest. If an
    /// allocation fails, it isn't added.
    pub(crate) fn add(
        &mut self,
        alloc: A,
        fields: &Fields<A>,
        block_len: u64,
        verdict: Verdict,
    ) -> Result<(), AllocError>
        ensures ok { OnOk result (self.new ≡ self.old
            ++ findings_of fields.now block_len (is_bad verdict) false ∷ []) }
        ensures err { OnErr result (self.new ≡ self.old) }
    {
        settle_if_full(&mut self.findings, &mut self.batch, 0);
        add_known(
            alloc,
            fields,
            block_len,
            verdict,
            &mut self.findings,
            &mut self.batch,
        )
    }

    /// Adds the next record, which was read in place. If an allocation fails, it isn't added.
    pub(crate) fn add_plain(&mut self, alloc: A, found: &QuickRecord<'_>) -> Result<(), AllocError>
        requires { (p : Placed) × (start : ℕ) × IsNextPlain p found.now start }
        ensures ok { (p : Placed) (start : ℕ) → IsNextPlain p found.now start →
            OnOk result (self.new ≡ self.old ++ own_findings p.content ∷ []) }
        ensures err { OnErr result (self.new ≡ self.old) }
    {
        settle_if_full(&mut self.findings, &mut self.batch, found.head.block_len);
        add_in_place(alloc, found, &mut self.findings, &mut self.batch)
    }

    /// Adds the next record, whose head is read again, and its block if a digest of it can be checked. If it fails, it
    /// isn't added.
    pub(crate) fn add_reread<S: Source>(
        &mut self,
        alloc: A,
        source: &mut S,
        row: &Row<'_>,
        buf: &mut [u8],
    ) -> Result<(), EarlyFault>
        requires { max_head ≤ length buf.old }
        ensures added { IfHeld (S.seen source.old).holds (λ bytes. (is : HasTextOf row.now bytes) →
            OnOk result (self.new ≡ self.old ++ own_findings is.placed.content ∷ [])) }
        ensures err { OnErr result (self.new ≡ self.old) }
        ensures reads { ReadsOnly (IsInRow row.now) (row_len row.now) (S.seen source.old) (S.seen source.new) }
        ensures fails { FailsBy (HasTextOf row.now) (early_result result) (S.seen source.old) (S.seen source.new) }
    {
        settle_if_full(&mut self.findings, &mut self.batch, row.block_len);
        add_reread(alloc, source, row, &mut self.findings, &mut self.batch, buf)
    }

    /// Forgets all but the first records, this many. It doesn't allocate.
    pub(crate) fn truncate(&mut self, count: usize)
        ensures { self.new ≡ take count self.old }
    {
        settle(&mut self.findings, &mut self.batch);
        self.findings.truncate(count);
    }

    /// What is found of each record. The blocks that wait are hashed first. It doesn't allocate.
    pub fn into_findings(self) -> OwnFindings<A>
        ensures { map all_of result ≡ self }
    {
        let Judging {
            mut findings,
            mut batch,
        } = self;
        settle(&mut findings, &mut batch);
        findings
    }
}

impl<A: Allocator + Copy> Keep<A> for Judging<A> {
    ghost keeps = { λ l records. l ≡ map own_findings (contents records) };

    type Block = BlockDigest;

    ghost takes = { λ _. true };

    fn takes(_head: &QuickHead<'_>) -> bool {
        true
    }

    fn keep(
        &mut self,
        alloc: A,
        _position: usize,
        head: &GoodHead<A>,
        _block_start: u64,
        block_len: u64,
        block: BlockDigest,
    ) -> Result<(), AllocError> {
        self.add(alloc, head.fields(), block_len, block.verdict())
    }

    fn keep_plain(
        &mut self,
        alloc: A,
        _position: usize,
        found: &QuickRecord<'_>,
        _block_start: u64,
    ) -> Result<(), AllocError> {
        self.add_plain(alloc, found)
    }

    fn truncate(&mut self, count: usize) {
        Judging::truncate(self, count);
    }

    fn checks_heads() -> bool {
        true
    }

    fn piece_len() -> usize {
        PIECE_LEN
    }
}
