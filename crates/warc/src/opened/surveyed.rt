//! An archive of which all that a survey says is known once it is read, but for the outcomes of captures and some
//! payloads.
ghost use Rattle.std.specs.Prelude.{◌≡◌, ℕ, List, [], ◌++◌, false, IfErr, codes, map};
ghost use Rattle.warc_frame.specs.Effects.{Puts};
ghost use Rattle.warc_frame.specs.Failing.{failed_by, is_read};
ghost use Rattle.warc_reading.specs.Archive.{contents};
ghost use Rattle.warc_lookup.specs.Indexed.{AreOf};
ghost use Rattle.warc_reading.specs.Opening.{Opens, source_left, without_source};
ghost use Rattle.warc_reading.specs.Row.{Placed};
ghost use Rattle.warc_checking.specs.Checking.{check_text};
ghost use Rattle.warc_checking.specs.OwnFindings.{AreJudged, all_of};
ghost use Rattle.warc_replay.specs.Captures.{capture_positions};
ghost use Rattle.warc_replay.specs.Capturing.{AreKnownBlocks, PutsCaptures};
ghost use Rattle.warc_replay.specs.PayloadText.{payloads_text};
ghost use Rattle.warc_judged.specs.Fixity.{fixity_text};
ghost use Rattle.warc_judged.specs.Listing.{listing};
ghost use Rattle.warc_judged.specs.Summary.{summary_text};
ghost use Rattle.warc.specs.Survey.{AreGathered, IsSurveyKept, IsSurveyed, PutsPart, WritesSurvey, known_text, part_name};

use crate::opened::known_payloads::{KnownPayloads, WaitingPayloads};
use crate::opened::payloads::{Payloads, judge_payloads_by, put_payloads};
use std::alloc::{Allocator, Global};
use std::marker::Model;
use warc_checking::{OwnFindings, mark_each, put_findings};
use warc_fixity::laws::wanted_verdict_is_kept;
use warc_frame::laws::head_of_spelled;
use warc_frame::{Fault, OutBuffer, OutFault, SendFault, Sink, Source, put_all};
use warc_judged::{
    Digests, HeadMarks, Summary, Verdicts, WaitingDigests, put_fixity, put_rows, summary_of,
};
use warc_lookup::{Lookup, UnorderedLookup};
use warc_reading::{KeptPair, Opened, Rows};
use warc_replay::{capture_positions, put_captures};

/// What is kept of records for a survey while the source is read: how their blocks compare with the digests that are
/// stated, what is known of their payloads, marks of their heads, what each alone shows but for N4, and what finds and
/// joins them.
type WaitingSurvey<A> = KeptPair<
    WaitingDigests<A>,
    KeptPair<
        WaitingPayloads<A>,
        KeptPair<HeadMarks<A>, KeptPair<OwnFindings<A>, UnorderedLookup<A>>>,
    >,
>;

/// Of no records.
fn waiting_survey<A: Allocator + Copy>(alloc: A) -> WaitingSurvey<A>
    ensures { AreGathered [] result.first result.second.first result.second.second.first
        result.second.second.second.first result.second.second.second.second.index
        result.second.second.second.second.parts }
{
    KeptPair {
        first: WaitingDigests::new(alloc),
        second: KeptPair {
            first: WaitingPayloads::new(alloc),
            second: KeptPair {
                first: HeadMarks::new(alloc),
                second: KeptPair {
                    first: OwnFindings::new(alloc),
                    second: UnorderedLookup::new(alloc),
                },
            },
        },
    }
}

/// What is kept of records for a survey: what finds them, what each alone shows, which are segments, the verdicts by
/// the digests that `check` and replays judge, and by those that are stated, and what is known of payloads.
#[derive(Drop)]
struct SurveyParts<A: Allocator> {
    lookup: Lookup<A>,
    findings: OwnFindings<A>,
    segmented: Vec<bool, A>,
    wanted: Verdicts<A>,
    digests: Digests<A>,
    known: KnownPayloads<A>,
}

impl<A: Allocator> Model for SurveyParts<A> {
    ghost use Rattle.std.specs.Prelude.{map};
    ghost use Rattle.warc_checking.specs.OwnFindings.{all_of};
    ghost use Rattle.warc.specs.Survey.{SurveyKept};

    ghost Value = { SurveyKept };

    ghost view = { λ s. record {
      index = s.lookup.index;
      parts = s.lookup.parts;
      judged = s.digests;
      wanted = s.wanted;
      segmented = s.segmented.items;
      findings = map all_of s.findings;
      known = s.known;
    } };
}

/// What is kept once all records are read. The blocks that wait are hashed first. It doesn't allocate.
fn into_parts<A: Allocator + Copy>(alloc: A, waiting: WaitingSurvey<A>) -> SurveyParts<A>
    ensures { (records : List Placed) → AreGathered records waiting.first waiting.second.first
        waiting.second.second.first waiting.second.second.second.first waiting.second.second.second.second.index
        waiting.second.second.second.second.parts → IsSurveyKept records result }
{
    wanted_verdict_is_kept();
    let KeptPair {
        first: digests,
        second: more,
    } = waiting;
    let KeptPair {
        first: payloads,
        second: heads,
    } = more;
    let KeptPair {
        first: marks,
        second: others,
    } = heads;
    let KeptPair {
        first: mut findings,
        second: lookup,
    } = others;
    let HeadMarks {
        segmented,
        claims: mut wanted,
    } = marks;
    let digests = digests.into_digests(alloc);
    wanted.settle_claims(digests.verdicts());
    mark_each(&mut findings, wanted.as_slice());
    SurveyParts {
        lookup: lookup.into_lookup(),
        findings,
        segmented,
        wanted,
        digests,
        known: payloads.into_known(),
    }
}

/// Adds the line before a part to the output.
fn put_name<W: Sink>(name: &str, buffer: &mut OutBuffer, out: &mut W) -> Result<(), SendFault>
    ensures { Puts (W.seen out.old) (W.seen out.new) buffer.old buffer.new result (part_name name.now) }
{
    put_all(&[b"# ", name.as_bytes(), b"\n"], buffer, out)
}

/// Adds what `list` writes, after its name.
fn put_list<W: Sink, A: Allocator>(
    rows: &Rows<A>,
    buffer: &mut OutBuffer,
    out: &mut W,
) -> Result<(), SendFault>
    ensures { Puts (W.seen out.old) (W.seen out.new) buffer.old buffer.new result
        (part_name (codes "list") ++ listing rows.now) }
{
    put_name("list", buffer, out)?;
    put_rows(rows, buffer, out)
}

/// Adds what `fixity` writes, after its name.
fn put_digests<W: Sink, A: Allocator>(
    rows: &Rows<A>,
    digests: &Digests<A>,
    buffer: &mut OutBuffer,
    out: &mut W,
) -> Result<(), SendFault>
    ensures { Puts (W.seen out.old) (W.seen out.new) buffer.old buffer.new result
        (part_name (codes "fixity") ++ fixity_text rows.now digests.now) }
{
    put_name("fixity", buffer, out)?;
    put_fixity(rows, digests, buffer, out)
}

/// Adds what `list` and `fixity` write, each after its name.
fn put_two<W: Sink, A: Allocator>(
    rows: &Rows<A>,
    digests: &Digests<A>,
    buffer: &mut OutBuffer,
    out: &mut W,
) -> Result<(), SendFault>
    ensures { Puts (W.seen out.old) (W.seen out.new) buffer.old buffer.new result
        ((part_name (codes "list") ++ listing rows.now)
        ++ (part_name (codes "fixity") ++ fixity_text rows.now digests.now)) }
{
    put_list(rows, buffer, out)?;
    put_digests(rows, digests, buffer, out)
}

/// Adds what `check` writes, after its name.
fn put_check<W: Sink, A: Allocator + Copy>(
    rows: &Rows<A>,
    findings: &OwnFindings<A>,
    buffer: &mut OutBuffer,
    out: &mut W,
) -> Result<(), OutFault>
    ensures puts { (bytes : List ℕ) (records : List Placed) →
        AreJudged bytes records rows.now (map all_of findings.now) →
        PutsPart (part_name (codes "check") ++ check_text (contents records)) (W.seen out.old) (W.seen out.new)
        buffer.old buffer.new result }
    ensures cause { (W.seen out.new).faults ≡ failed_by result (W.seen out.old).faults }
    ensures unread { IfErr result (λ e. is_read e ≡ false) }
{
    put_name("check", buffer, out)?;
    put_findings(rows.allocator(), rows, findings, buffer, out)?;
    Ok(())
}

/// Adds what `summary` writes, after its name, and the name of the last part.
fn put_summary<W: Sink>(
    summary: &Summary<'_>,
    buffer: &mut OutBuffer,
    out: &mut W,
) -> Result<(), SendFault>
    ensures { Puts (W.seen out.old) (W.seen out.new) buffer.old buffer.new result
        ((part_name (codes "summary") ++ summary_text summary.now) ++ part_name (codes "captures")) }
{
    put_name("summary", buffer, out)?;
    summary.put(buffer, out)?;
    put_name("captures", buffer, out)
}

/// Adds all but what `captures` writes.
fn put_known<W: Sink, A: Allocator + Copy>(
    rows: &Rows<A>,
    digests: &Digests<A>,
    findings: &OwnFindings<A>,
    summary: &Summary<'_>,
    buffer: &mut OutBuffer,
    out: &mut W,
) -> Result<(), OutFault>
    ensures puts { (bytes : List ℕ) (records : List Placed) →
        AreJudged bytes records rows.now (map all_of findings.now) →
        PutsPart (known_text rows.now digests.now (contents records) summary.now) (W.seen out.old) (W.seen out.new)
        buffer.old buffer.new result }
    ensures cause { (W.seen out.new).faults ≡ failed_by result (W.seen out.old).faults }
    ensures unread { IfErr result (λ e. is_read e ≡ false) }
{
    put_two(rows, digests, buffer, out)?;
    put_check(rows, findings, buffer, out)?;
    put_summary(summary, buffer, out)?;
    Ok(())
}

/// Adds what `captures` writes.
fn put_outcomes<S: Source, W: Sink, A: Allocator + Copy>(
    source: &mut S,
    rows: &Rows<A>,
    lookup: &Lookup<A>,
    wanted: &Verdicts<A>,
    buffer: &mut OutBuffer,
    out: &mut W,
) -> Result<(), OutFault>
    ensures { PutsCaptures (AreKnownBlocks wanted.now) rows.now lookup.now.index lookup.now.parts
        (capture_positions rows.now) (S.seen source.old) (S.seen source.new) (W.seen out.old) (W.seen out.new)
        buffer.old buffer.new result }
{
    let Ok(positions) = capture_positions(rows) else {
        return Err(OutFault::Memory(buffer.sent()));
    };
    put_captures(source, rows, lookup, wanted, &positions, buffer, out)
}

/// Adds what `fixity --payload` writes, after its name.
fn put_judged<W: Sink, A: Allocator>(
    rows: &Rows<A>,
    payloads: &Payloads<A>,
    buffer: &mut OutBuffer,
    out: &mut W,
) -> Result<(), SendFault>
    ensures { Puts (W.seen out.old) (W.seen out.new) buffer.old buffer.new result
        (part_name (codes "payloads") ++ payloads_text rows.now payloads.now) }
{
    put_name("payloads", buffer, out)?;
    put_payloads(rows, payloads, buffer, out)
}

/// Writes the survey of the records of an archive, by their rows and what is kept of them. The payloads of which
/// nothing is known are judged first.
fn write_survey<S: Source, W: Sink, A: Allocator + Copy>(
    source: &mut S,
    rows: &Rows<A>,
    parts: &SurveyParts<A>,
    out: &mut W,
) -> Result<(), OutFault>
    ensures { WritesSurvey rows.now parts.now (S.seen source.old) (S.seen source.new) (W.seen out.old)
        (W.seen out.new) result }
{
    head_of_spelled();
    let summary = summary_of(rows, &parts.segmented, parts.digests.verdicts());
    let payloads = judge_payloads_by(source, rows, &parts.lookup, &parts.known, &parts.wanted)?;
    let mut buffer = OutBuffer::new();
    put_known(
        rows,
        &parts.digests,
        &parts.findings,
        &summary,
        &mut buffer,
        out,
    )?;
    put_outcomes(source, rows, &parts.lookup, &parts.wanted, &mut buffer, out)?;
    put_judged(rows, &payloads, &mut buffer, out)?;
    buffer.flush(out)?;
    Ok(())
}

/// An archive that was read for a survey. Contracts see its listing, and what is kept of its records.
#[derive(Drop)]
pub struct Surveyed<S: Source, A: Allocator = Global> {
    opened: Opened<S, SurveyParts<A>, A>,
}

impl<S: Source, A: Allocator> Model for Surveyed<S, A> {
    ghost use Rattle.warc.specs.Survey.{SurveyedArchive};

    ghost Value = { SurveyedArchive S };

    ghost view = { λ a. record {
      listing = record { source = a.opened.source; rows = a.opened.rows };
      kept = a.opened.kept;
    } };
}

impl<S: Source, A: Allocator> Surveyed<S, A> {
    /// Returns the source.
    pub fn into_source(self) -> S
        ensures { result ≡ self.listing.source }
    {
        self.opened.source
    }
}

impl<S: Source, A: Allocator + Copy> Surveyed<S, A> {
    /// Reads the source as a listing is read, in larger pieces, and keeps beside the rows all that a survey says but
    /// for the outcomes of captures, and for payloads that aren't known to be good. Every block is hashed once, and so
    /// is the payload of a record that was read in place and states its digest.
    pub fn open(alloc: A, source: S) -> Result<Surveyed<S, A>, (Fault, S)>
        ensures { Opens IsSurveyed (S.seen source) (S.seen (source_left (λ a. a.listing.source) result))
            (without_source (λ a. a) result) }
    {
        match Opened::open(alloc, source, waiting_survey(alloc)) {
            Ok(Opened { source, rows, kept }) => {
                let kept = into_parts(alloc, kept);
                Ok(Surveyed {
                    opened: Opened { source, rows, kept },
                })
            }
            Err(refused) => Err(refused),
        }
    }

    /// Writes what `list`, `fixity`, `check`, `summary`, `captures` and `fixity --payload` write, in this order, each
    /// after a line with its name, the last one `payloads`. Of an origin the head is read again, and of an HTTP
    /// response the head in its block; the blocks of an origin in several segments are read whole. So is first each
    /// record that states the digest of its payload, which isn't known to be good.
    ///
    /// A read that fails, or a source that doesn't give what it gave, is `Read`; a write that fails is `Write`, and a
    /// failed allocation `Memory`. Each has the number of bytes that went out, the first of the output.
    pub fn write<W: Sink>(&mut self, out: &mut W) -> Result<(), OutFault>
        ensures writes { WritesSurvey self.old.listing.rows self.old.kept (S.seen self.old.listing.source)
            (S.seen self.new.listing.source) (W.seen out.old) (W.seen out.new) result }
        ensures rows { self.new.listing.rows ≡ self.old.listing.rows }
        ensures kept { self.new.kept ≡ self.old.kept }
    {
        let Opened { source, rows, kept } = &mut self.opened;
        kept.lookup.index.follow_chains(rows.allocator());
        write_survey(source, rows, kept, out)
    }
}
