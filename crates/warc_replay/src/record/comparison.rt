//! The verdict on the payload of one record: its head is read again, and its block, or the joined blocks of the origin
//! of a revisit.
ghost use Rattle.std.specs.Prelude.{◌≡◌, ℕ, ◌+◌, List, [], ◌∷◌, IfErr, IfOk};
ghost use Rattle.warc_frame.specs.Effects.{FailsBy, ReadsOnly};
ghost use Rattle.warc_frame.specs.Record.{Record};
ghost use Rattle.warc_frame.specs.Seen.{IfHeld, IsInRange};
ghost use Rattle.warc_record.specs.Readings.{reading_of};
ghost use Rattle.warc_record.specs.Seen.{said};
ghost use Rattle.warc_answer.specs.Seen.{IsEarly};
ghost use Rattle.warc_reading.specs.Rereading.{HasTextOf, ReadsHeads};
ghost use Rattle.warc_replay.specs.PayloadStates.{IsVerdictFrom, JudgesNextPayload, JudgesPayload, take_fault};
ghost use Rattle.warc_replay.specs.PayloadVerdicts.{GivesPayload, IsOwnVerdict, IsVerdictByKind};

use crate::fault::TakeFault;
use crate::record::digests::{KnownDigests, path_digest};
use crate::record::payload::{
    PayloadVerdict, Unjudged, algorithm_for, early_verdict, payload_verdict, revisit_verdict,
    states_payload,
};
use std::alloc::Allocator;
use warc_answer::laws::has_one_payload;
use warc_answer::{ReplayFault, digest_own};
use warc_field::Fields;
use warc_frame::laws::head_of_spelled;
use warc_frame::{OutFault, Source};
use warc_lookup::Lookup;
use warc_reading::{Row, Rows, buffer_for, reread_good};
use warc_record::{GoodHead, Kind, Typed};

/// The head of the record of a row, which is read again.
pub(crate) fn head_of_row<S: Source, A: Allocator + Copy>(
    alloc: A,
    source: &mut S,
    row: &Row<'_>,
) -> Result<GoodHead<A>, OutFault>
    ensures read { IfHeld (S.seen source.old).holds (λ bytes. (is : HasTextOf row.now bytes) →
        IfOk result (λ head. head ≡ is.placed.content.fields)) }
    ensures early { IfErr result (λ e. IsEarly (ReplayFault.Out e)) }
    ensures reads { ReadsHeads (row.now ∷ []) (S.seen source.old) (S.seen source.new) }
    ensures fails { FailsBy (HasTextOf row.now) result (S.seen source.old) (S.seen source.new) }
{
    let Ok(mut buf) = buffer_for(alloc, row) else {
        return Err(OutFault::Memory(0));
    };
    match reread_good(alloc, source, row, &mut buf) {
        Ok(head) => Ok(head),
        Err(fault) => Err(fault.after(0)),
    }
}

/// The verdict on the payload in the block of the record of a row, which is read if it matters.
fn own_verdict<S: Source, A: Allocator + Copy>(
    source: &mut S,
    row: &Row<'_>,
    fields: &Fields<A>,
    typed: &Typed<'_>,
) -> Result<PayloadVerdict, OutFault>
    requires { said typed.now ≡ reading_of fields.now }
    ensures reported { IfHeld (S.seen source.old).holds (λ bytes. (is : HasTextOf row.now bytes) →
        fields.now ≡ is.placed.content.fields → IfOk result (IsOwnVerdict is.placed.content)) }
    ensures early { IfErr result (λ e. IsEarly (ReplayFault.Out e)) }
    ensures reads { ReadsOnly (IsInRange row.now.block_start row.now.block_len) (row.now.block_len + row.now.block_len)
        (S.seen source.old) (S.seen source.new) }
    ensures fails { FailsBy (HasTextOf row.now) result (S.seen source.old) (S.seen source.new) }
{
    has_one_payload();
    if let Some(verdict) = early_verdict(fields) {
        return Ok(verdict);
    }
    let algorithm = algorithm_for(fields);
    match digest_own(source, typed, row.block_start, row.block_len, algorithm) {
        Ok(digest) => Ok(payload_verdict(fields, digest)),
        Err(_) => Err(OutFault::Read(0)),
    }
}

/// Where the payload of a record is.
#[derive(Clone, Copy)]
pub(crate) enum Holder {
    /// In its own block.
    Itself,
    /// In the block of the origin that its replay gives.
    Origin,
    /// Nowhere.
    Nobody,
}

/// Where the payload of a record of this kind is.
fn holder_of(kind: Kind) -> Holder
    ensures { (records : List Record) (position : ℕ) (content : Record) (verdict : PayloadVerdict) →
        IsVerdictFrom result records position content verdict →
        IsVerdictByKind kind records position content verdict }
{
    match kind {
        Kind::Revisit => Holder::Origin,
        Kind::Request => Holder::Nobody,
        _ => Holder::Itself,
    }
}

/// The verdict on the payload of the record at a position, whose row and head these are.
fn verdict_by_head<S: Source, A: Allocator + Copy>(
    source: &mut S,
    rows: &Rows<A>,
    lookup: &Lookup<A>,
    position: usize,
    row: &Row<'_>,
    head: &GoodHead<A>,
    digested: &mut KnownDigests<A>,
) -> Result<Option<PayloadVerdict>, OutFault>
    ensures { JudgesPayload rows.now lookup.now.index lookup.now.parts position row.now head.now
        digested.old.known.items digested.new.known.items (S.seen source.old) (S.seen source.new) result }
{
    head_of_spelled();
    let fields = head.fields();
    if !states_payload(fields) {
        return Ok(None);
    }
    let typed = head.typed();
    match holder_of(typed.kind) {
        Holder::Nobody => Ok(Some(PayloadVerdict::Unchecked(Unjudged::Request))),
        Holder::Origin => {
            let algorithm = algorithm_for(fields);
            match path_digest(source, rows, lookup, position, algorithm, digested) {
                Ok(digest) => Ok(Some(revisit_verdict(fields, digest))),
                Err(fault) => Err(fault),
            }
        }
        Holder::Itself => match own_verdict(source, row, fields, &typed) {
            Ok(verdict) => Ok(Some(verdict)),
            Err(fault) => Err(fault),
        },
    }
}

/// The head of a record, and the verdict on its payload, if it states a digest.
#[derive(Drop)]
pub struct Compared<A: Allocator> {
    pub head: GoodHead<A>,
    pub verdict: Option<PayloadVerdict>,
}

/// The verdict on the payload of the record at a position. Its head is read again.
pub fn compare_at<S: Source, A: Allocator + Copy>(
    source: &mut S,
    rows: &Rows<A>,
    lookup: &Lookup<A>,
    position: usize,
    digested: &mut KnownDigests<A>,
) -> Result<Compared<A>, OutFault>
    ensures { JudgesNextPayload rows.now lookup.now.index lookup.now.parts position digested.old.known.items
        digested.new.known.items (S.seen source.old) (S.seen source.new) result }
{
    head_of_spelled();
    let Some(row) = rows.get(position) else {
        return Err(OutFault::Read(0));
    };
    let head = head_of_row(rows.allocator(), source, &row)?;
    match verdict_by_head(source, rows, lookup, position, &row, &head, digested) {
        Ok(verdict) => Ok(Compared { head, verdict }),
        Err(fault) => Err(fault),
    }
}

/// Why a record isn't judged, by the end of an output of which nothing went out.
fn take_fault(fault: OutFault) -> TakeFault
    ensures { result ≡ take_fault fault }
{
    match fault {
        OutFault::Memory(_) => TakeFault::Memory,
        OutFault::Read(_) | OutFault::Write(_) => TakeFault::Read,
    }
}

/// The verdict on the payload of the record at a position, if there is one.
pub fn take_payload<S: Source, A: Allocator + Copy>(
    source: &mut S,
    rows: &Rows<A>,
    lookup: &Lookup<A>,
    position: usize,
) -> Result<Option<PayloadVerdict>, TakeFault>
    ensures { GivesPayload rows.now lookup.now.index lookup.now.parts position (S.seen source.old)
        (S.seen source.new) result }
{
    let Some(_) = rows.get(position) else {
        return Err(TakeFault::NoRecord);
    };
    let mut digested = KnownDigests::new(rows.allocator());
    match compare_at(source, rows, lookup, position, &mut digested) {
        Ok(compared) => Ok(compared.verdict),
        Err(fault) => Err(take_fault(fault)),
    }
}
