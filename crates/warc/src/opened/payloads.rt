//! How the payloads of an archive compare with the digests that their records' heads state.
ghost use Rattle.std.specs.Prelude.{◌≡◌, ◌<◌, [], ◌∷◌, ◌++◌, length, is_some, IfErr, OnErr, OnOk};
ghost use Rattle.std.specs.List.{list_all, list_any};
ghost use Rattle.warc_frame.specs.Effects.{Puts, SendsText};
ghost use Rattle.warc_judged.specs.Fixity.{digest_at};
ghost use Rattle.warc_replay.specs.Capturing.{AreKnownBlocks};
ghost use Rattle.warc_replay.specs.PayloadText.{are_verified, is_payload_verdict, is_verified, payload_counts, payload_line, payload_line_if, payload_tally, payloads_text};
ghost use Rattle.warc_replay.specs.PayloadVerdicts.{JudgesPayloads, payload_verdict_at, value_shown};
ghost use Rattle.warc.specs.KnownPayloads.{AreKnownFor, AreRightFor, JudgesMoreBy, JudgesPayloadsBy};

use crate::opened::known_payloads::KnownPayloads;
use itoa::Buffer;
use std::alloc::{AllocError, Allocator, Global};
use std::marker::Model;
use warc_frame::{OutBuffer, OutFault, SendFault, Sink, Source, put_columns};
use warc_judged::{Counts, Verdicts, is_verdict, one_if, put_counts, shown_as, verdict_text};
use warc_lookup::Lookup;
use warc_reading::{Row, Rows};
use warc_record::bare;
use warc_replay::{
    KnownDigests, PayloadVerdict, Unjudged, compare_at, judge_blocks_at, learn_origin, path_from,
    payload_value, plain_verdict, reason_of,
};
use warc_value::Verdict;

/// How the payload of each record compares with the digest that its head states, if it states one, and the value of
/// each digest by which a payload isn't good.
#[derive(Drop)]
pub struct Payloads<A: Allocator = Global> {
    verdicts: Vec<Option<PayloadVerdict>, A>,
    values: Vec<Vec<u8, A>, A>,
}

impl<A: Allocator> Model for Payloads<A> {
    ghost use Rattle.std.specs.Prelude.{map};
    ghost use Rattle.warc_replay.specs.PayloadVerdicts.{PayloadJudgements};

    ghost Value = { PayloadJudgements };

    ghost view = { λ p. record { verdicts = p.verdicts.items; digests = map (λ v. v.items) p.values.items } };
}

/// A value, where it states the digest of a payload that isn't good by it.
fn value_shown(verdict: Option<PayloadVerdict>, value: &[u8]) -> &[u8]
    ensures { result.now ≡ value_shown verdict value.now }
{
    match verdict {
        None | Some(PayloadVerdict::Good) => b"",
        Some(PayloadVerdict::Bad | PayloadVerdict::Unchecked(_)) => value,
    }
}

/// Whether a payload has a verdict, or this one.
fn is_payload_verdict(wanted: Option<Verdict>, verdict: Option<PayloadVerdict>) -> bool
    ensures { result ≡ is_payload_verdict wanted verdict }
{
    match (wanted, verdict) {
        (_, None) => false,
        (None, Some(_)) => true,
        (Some(one), Some(verdict)) => is_verdict(one, plain_verdict(verdict)),
    }
}

/// How many payloads have a verdict, or this one.
fn payload_tally(wanted: Option<Verdict>, verdicts: &[Option<PayloadVerdict>]) -> usize
    ensures { result ≡ payload_tally wanted verdicts.now }
{
    let mut count = 0usize;
    'counting: for position in 0..verdicts.len() {
        count += one_if(is_payload_verdict(wanted, verdicts[position]));
    }
    count
}

/// Whether a payload is good, or has no digest, or is a request's.
fn is_verified(verdict: Option<PayloadVerdict>) -> bool
    ensures { result ≡ is_verified verdict }
{
    match verdict {
        None | Some(PayloadVerdict::Good | PayloadVerdict::Unchecked(Unjudged::Request)) => true,
        Some(_) => false,
    }
}

/// Whether some payload has a digest.
fn any_stated(verdicts: &[Option<PayloadVerdict>]) -> bool
    ensures { result ≡ list_any is_some verdicts.now }
{
    verdicts.iter().any(|verdict| verdict.is_some())
}

/// Whether each payload is verified.
fn all_verified(verdicts: &[Option<PayloadVerdict>]) -> bool
    ensures { result ≡ list_all is_verified verdicts.now }
{
    verdicts.iter().all(|&verdict| is_verified(verdict))
}

impl<A: Allocator + Copy> Payloads<A> {
    /// Of no records.
    fn new(alloc: A) -> Payloads<A>
        ensures verdicts { result.verdicts ≡ [] }
        ensures digests { result.digests ≡ [] }
    {
        Payloads {
            verdicts: Vec::new(alloc),
            values: Vec::new(alloc),
        }
    }

    /// Adds how the next payload compares with its digest, and the value of that digest unless the payload is good. If
    /// an allocation fails, nothing is added.
    fn add(
        &mut self,
        alloc: A,
        verdict: Option<PayloadVerdict>,
        value: &[u8],
    ) -> Result<(), AllocError>
        ensures ok { OnOk result ((self.new.verdicts ≡ self.old.verdicts ++ verdict ∷ [])
            × (self.new.digests ≡ self.old.digests ++ value_shown verdict value.now ∷ [])) }
        ensures err { OnErr result (self.new ≡ self.old) }
    {
        self.values.reserve(1)?;
        let value = value_shown(verdict, value).to_vec(alloc)?;
        self.verdicts.push(verdict)?;
        self.values.push_reserved(value);
        Ok(())
    }

    /// Adds what `add` adds. A failed allocation is reported as the end of an output of which nothing went out.
    fn add_or_fail(
        &mut self,
        alloc: A,
        verdict: Option<PayloadVerdict>,
        value: &[u8],
    ) -> Result<(), OutFault>
        ensures ok { OnOk result ((self.new.verdicts ≡ self.old.verdicts ++ verdict ∷ [])
            × (self.new.digests ≡ self.old.digests ++ value_shown verdict value.now ∷ [])) }
        ensures memory { IfErr result (λ fault. fault ≡ OutFault.Memory 0) }
    {
        match self.add(alloc, verdict, value) {
            Ok(()) => Ok(()),
            Err(_) => Err(OutFault::Memory(0)),
        }
    }
}

impl<A: Allocator> Payloads<A> {
    /// How each payload compares with its digest.
    fn verdicts(&self) -> &[Option<PayloadVerdict>]
        ensures { result.now ≡ self.now.verdicts }
    {
        &self.verdicts
    }

    /// How the payload of the record at a position compares with its digest.
    fn verdict(&self, position: usize) -> Option<PayloadVerdict>
        ensures { result ≡ payload_verdict_at self.now.verdicts position }
    {
        match self.verdicts.get(position) {
            Some(verdict) => *verdict,
            None => None,
        }
    }

    /// The value that is kept of the record at a position, empty where none is.
    fn at(&self, position: usize) -> &[u8]
        ensures { result.now ≡ digest_at self.now.digests position }
    {
        match self.values.get(position) {
            Some(value) => value.as_slice(),
            None => b"",
        }
    }

    /// How many records state the digest of their payload, and how many of these payloads are good, bad and unchecked.
    pub fn counts(&self) -> Counts
        ensures { result ≡ payload_counts self.now.verdicts }
    {
        Counts {
            records: payload_tally(None, &self.verdicts),
            good: payload_tally(Some(Verdict::Good), &self.verdicts),
            bad: payload_tally(Some(Verdict::Bad), &self.verdicts),
            unchecked: payload_tally(Some(Verdict::Unchecked), &self.verdicts),
        }
    }

    /// Whether some record states the digest of its payload, and each of these payloads is good, but for those of
    /// requests.
    pub fn are_verified(&self) -> bool
        ensures { result ≡ are_verified self.now.verdicts }
    {
        any_stated(&self.verdicts) && all_verified(&self.verdicts)
    }
}

/// Adds the line of a payload to the output.
fn put_payload<W: Sink>(
    position: u64,
    verdict: PayloadVerdict,
    row: &Row<'_>,
    digest: &[u8],
    buffer: &mut OutBuffer,
    out: &mut W,
) -> Result<(), SendFault>
    ensures { Puts (W.seen out.old) (W.seen out.new) buffer.old buffer.new result
        (payload_line position verdict row.now digest.now) }
{
    let mut digits = Buffer::new();
    let columns = [
        (digits.format(position).as_bytes(), b'\t'),
        (verdict_text(plain_verdict(verdict)), b'\t'),
        (bare(row.id), b'\t'),
        (reason_of(verdict), b'\t'),
        (shown_as(digest), b'\n'),
    ];
    put_columns(&columns, buffer, out)
}

/// Adds the line of a payload to the output, unless it is good or has no digest.
fn put_payload_if<W: Sink>(
    position: u64,
    verdict: Option<PayloadVerdict>,
    row: &Row<'_>,
    digest: &[u8],
    buffer: &mut OutBuffer,
    out: &mut W,
) -> Result<(), SendFault>
    ensures { Puts (W.seen out.old) (W.seen out.new) buffer.old buffer.new result
        (payload_line_if position verdict row.now digest.now) }
{
    match verdict {
        None | Some(PayloadVerdict::Good) => put_columns(&[], buffer, out),
        Some(PayloadVerdict::Bad) => {
            put_payload(position, PayloadVerdict::Bad, row, digest, buffer, out)
        }
        Some(PayloadVerdict::Unchecked(why)) => {
            let verdict = PayloadVerdict::Unchecked(why);
            put_payload(position, verdict, row, digest, buffer, out)
        }
    }
}

/// Adds a line for each payload that has a digest and isn't good, and a last line with the counts.
pub(crate) fn put_payloads<W: Sink, A: Allocator>(
    rows: &Rows<A>,
    payloads: &Payloads<A>,
    buffer: &mut OutBuffer,
    out: &mut W,
) -> Result<(), SendFault>
    ensures { Puts (W.seen out.old) (W.seen out.new) buffer.old buffer.new result
        (payloads_text rows.now payloads.now) }
{
    'listing: for position in 0..rows.len() {
        let Some(row) = rows.get(position) else {
            unreachable!()
        };
        let verdict = payloads.verdict(position);
        let digest = payloads.at(position);
        put_payload_if(position as u64, verdict, &row, digest, buffer, out)?;
    }
    put_counts(payloads.counts(), buffer, out)
}

/// Writes a line for each payload that has a digest and isn't good, and a last line with the counts.
pub(crate) fn list_payloads<W: Sink, A: Allocator>(
    rows: &Rows<A>,
    payloads: &Payloads<A>,
    out: &mut W,
) -> Result<(), OutFault>
    ensures { SendsText (W.seen out.old) (W.seen out.new) result (payloads_text rows.now payloads.now) }
{
    let mut buffer = OutBuffer::new();
    put_payloads(rows, payloads, &mut buffer, out)?;
    buffer.flush(out)?;
    Ok(())
}

/// Adds the verdict on the payload of the record at a position, the next one, which is read again. If it is a revisit
/// of a record whose payload is good, what that one states is its digest.
fn judge_again<S: Source, A: Allocator + Copy>(
    source: &mut S,
    rows: &Rows<A>,
    lookup: &Lookup<A>,
    blocks: &Verdicts<A>,
    position: usize,
    digested: &mut KnownDigests<A>,
    payloads: &mut Payloads<A>,
) -> Result<(), OutFault>
    ensures { JudgesMoreBy (AreKnownBlocks blocks.now) rows.now lookup.now.index lookup.now.parts position
        digested.old.known.items digested.new.known.items payloads.old payloads.new (S.seen source.old)
        (S.seen source.new) result }
{
    let found = payloads.verdicts();
    learn_origin(source, rows, lookup, position, blocks, found, digested)?;
    let next = compare_at(source, rows, lookup, position, digested)?;
    let value = payload_value(next.head.fields());
    payloads.add_or_fail(rows.allocator(), next.verdict, value)
}

/// Adds the verdict on the payload of the record at a position, the next one. If it is known, nothing is read.
fn judge_next<S: Source, A: Allocator + Copy>(
    source: &mut S,
    rows: &Rows<A>,
    lookup: &Lookup<A>,
    known: &KnownPayloads<A>,
    blocks: &Verdicts<A>,
    position: usize,
    digested: &mut KnownDigests<A>,
    payloads: &mut Payloads<A>,
) -> Result<(), OutFault>
    requires { position < length rows.now }
    ensures { JudgesMoreBy (AreKnownFor known.now blocks.now) rows.now lookup.now.index lookup.now.parts position
        digested.old.known.items digested.new.known.items payloads.old payloads.new (S.seen source.old)
        (S.seen source.new) result }
{
    match known.verdict(position) {
        Some(verdict) => payloads.add_or_fail(rows.allocator(), verdict, b""),
        None => judge_again(source, rows, lookup, blocks, position, digested, payloads),
    }
}

/// The verdicts on the payloads of all records, of which some are known, by what is known of blocks. Each other record
/// is read again, and each origin of revisits once for each algorithm that these revisits ask for. A payload that is
/// good isn't hashed again by the algorithm of its digest, and a block isn't of which the verdict is known.
pub(crate) fn judge_payloads_by<S: Source, A: Allocator + Copy>(
    source: &mut S,
    rows: &Rows<A>,
    lookup: &Lookup<A>,
    known: &KnownPayloads<A>,
    blocks: &Verdicts<A>,
) -> Result<Payloads<A>, OutFault>
    ensures { JudgesPayloadsBy (AreKnownFor known.now blocks.now) rows.now lookup.now.index lookup.now.parts
        (S.seen source.old) (S.seen source.new) result }
{
    let alloc = rows.allocator();
    let Ok(mut digested) = KnownDigests::with_room(alloc, rows.len()) else {
        return Err(OutFault::Memory(0));
    };
    let mut payloads = Payloads::new(alloc);
    'judging: for position in 0..rows.len() {
        judge_next(
            source,
            rows,
            lookup,
            known,
            blocks,
            position,
            &mut digested,
            &mut payloads,
        )?;
    }
    Ok(payloads)
}

/// The origin of the revisit at a position, which is read again, if its payload is known to be good.
fn good_origin<A: Allocator + Copy>(
    lookup: &Lookup<A>,
    known: &KnownPayloads<A>,
    position: usize,
) -> Option<usize> {
    if known.verdict(position).is_some() {
        return None;
    }
    let Ok(path) = path_from(lookup, position) else {
        return None;
    };
    match known.verdict(path.given) {
        Some(Some(PayloadVerdict::Good)) => Some(path.given),
        _ => None,
    }
}

/// Marks each such origin.
fn mark_origins<A: Allocator + Copy>(
    lookup: &Lookup<A>,
    known: &KnownPayloads<A>,
    marks: &mut [bool],
) {
    'marking: for position in 0..marks.len() {
        if let Some(origin) = good_origin(lookup, known, position) {
            if origin < marks.len() {
                marks[origin] = true;
            }
        }
    }
}

/// The positions that are marked, in their order.
fn marked<A: Allocator>(alloc: A, marks: &[bool]) -> Result<Vec<usize, A>, AllocError> {
    let mut positions = Vec::new(alloc);
    'listing: for position in 0..marks.len() {
        if marks[position] {
            positions.push(position)?;
        }
    }
    Ok(positions)
}

/// The origins of revisits that are read again, as far as their payloads are known to be good. Their blocks alone are
/// to be judged.
fn good_origins<A: Allocator + Copy>(
    alloc: A,
    count: usize,
    lookup: &Lookup<A>,
    known: &KnownPayloads<A>,
) -> Result<Vec<usize, A>, AllocError> {
    let mut marks = vec![in alloc; false; count]?;
    mark_origins(lookup, known, &mut marks);
    marked(alloc, &marks)
}

/// The verdicts on the payloads of all records, as `judge_payloads_by`, if nothing is known of any block. The blocks of
/// origins whose payloads are good are judged first, side by side.
pub(crate) fn judge_payloads<S: Source, A: Allocator + Copy>(
    source: &mut S,
    rows: &Rows<A>,
    lookup: &Lookup<A>,
    known: &KnownPayloads<A>,
) -> Result<Payloads<A>, OutFault>
    ensures { JudgesPayloadsBy (AreRightFor known.now) rows.now lookup.now.index lookup.now.parts
        (S.seen source.old) (S.seen source.new) result }
{
    let Ok(origins) = good_origins(rows.allocator(), rows.len(), lookup, known) else {
        return Err(OutFault::Memory(0));
    };
    let blocks = judge_blocks_at(source, rows, &origins)?;
    judge_payloads_by(source, rows, lookup, known, &blocks)
}

/// The verdicts on the payloads of all records, as `judge_payloads`, if nothing is known of any payload either.
pub(crate) fn judge_all_payloads<S: Source, A: Allocator + Copy>(
    source: &mut S,
    rows: &Rows<A>,
    lookup: &Lookup<A>,
) -> Result<Payloads<A>, OutFault>
    ensures { JudgesPayloads rows.now lookup.now.index lookup.now.parts (S.seen source.old) (S.seen source.new)
        result }
{
    let known = KnownPayloads::none(rows.allocator());
    let blocks = Verdicts::new(rows.allocator());
    judge_payloads_by(source, rows, lookup, &known, &blocks)
}
