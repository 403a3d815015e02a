//! Findings one after another, in two flat lists, and their lines.
ghost use Rattle.std.specs.Prelude.{◌≡◌, ◌+◌, ◌<◌, false, List, [], ◌∷◌, ◌++◌, length, map, take, OnErr, OnOk};
ghost use Rattle.std.specs.List.{filter};
ghost use Rattle.warc_frame.specs.Effects.{Puts};
ghost use Rattle.warc_record.specs.Findings.{NotUtf8, SeenFinding, finding_seen, findings_of, once, plain_seen};
ghost use Rattle.warc_checking.specs.Lines.{record_lines};
ghost use Rattle.warc_checking.specs.OwnFindings.{AreNamed, IsNamed, IsPart, all_found, finding_in, is_between, findings_of_part, with_both};

use crate::lines::put_finding;
use std::alloc::{AllocError, Allocator};
use std::marker::Model;
use warc_field::Fields;
use warc_frame::laws::went_out_of_longer;
use warc_frame::{OutBuffer, SendFault, Sink};
use warc_record::{ArchiveFacts, Finding, PlainFinding};

/// The number of the finding that a digest differs: N4.
const DIGEST_NUMBER: u8 = 4;

/// The number of the finding that an id is used: N6.
const USED_NUMBER: u8 = 6;

/// A part of a list: where it starts and where it ends.
#[derive(Clone, Copy)]
pub(crate) struct ListPart {
    pub(crate) start: usize,
    pub(crate) end: usize,
}

/// A finding in 24 bytes. N4 is never packed.
#[derive(Clone, Copy)]
enum PackedFinding {
    /// A finding that holds no text of the record.
    Plain(PlainFinding),

    /// N9: the name of the field is this part of a list of bytes.
    NotUtf8(ListPart),
}

/// The finding that is packed.
fn finding_in<'a>(names: &'a [u8], packed: &PackedFinding) -> Finding<'a>
    requires { IsNamed (length names.now) packed.now }
    ensures { finding_seen result ≡ finding_in names.now packed.now }
{
    match *packed {
        PackedFinding::Plain(plain) => Finding::Plain(plain),
        PackedFinding::NotUtf8(name) => Finding::NotUtf8(&names[name.start..name.end]),
    }
}

/// The numbers between two others.
#[derive(Clone, Copy)]
struct Between {
    above: u8,
    below: u8,
}

/// The numbers before N4.
const BEFORE_DIGEST: Between = Between {
    above: 0,
    below: DIGEST_NUMBER,
};

/// The numbers after N4 and before N6.
const DIGEST_TO_USED: Between = Between {
    above: DIGEST_NUMBER,
    below: USED_NUMBER,
};

/// The numbers after N6.
const AFTER_USED: Between = Between {
    above: USED_NUMBER,
    below: u8::MAX,
};

/// Whether the number of a finding is among these.
fn is_between(finding: Finding<'_>, numbers: Between) -> bool
    ensures { result ≡ is_between numbers.above numbers.below (finding_seen finding.entry) }
{
    let number = finding.number();
    numbers.above < number && number < numbers.below
}

/// Adds the line of a finding to the output, by the position of its record, if its number is among these.
fn put_packed<W: Sink>(
    position: u64,
    names: &[u8],
    packed: &PackedFinding,
    numbers: Between,
    buffer: &mut OutBuffer,
    out: &mut W,
) -> Result<(), SendFault>
    requires { IsNamed (length names.now) packed.now }
    ensures { Puts (W.seen out.old) (W.seen out.new) buffer.old buffer.new result (record_lines position
        (filter (is_between numbers.above numbers.below) (finding_in names.now packed.now ∷ []))) }
{
    let finding = finding_in(names, packed);
    if !is_between(finding, numbers) {
        return Ok(());
    }
    put_finding(position, &finding, buffer, out)
}

/// Adds the lines of the findings whose numbers are among these.
fn put_range<W: Sink>(
    position: u64,
    names: &[u8],
    findings: &[PackedFinding],
    numbers: Between,
    buffer: &mut OutBuffer,
    out: &mut W,
) -> Result<(), SendFault>
    requires { AreNamed (length names.now) findings.now }
    ensures { Puts (W.seen out.old) (W.seen out.new) buffer.old buffer.new result (record_lines position
        (filter (is_between numbers.above numbers.below) (all_found names.now findings.now))) }
{
    went_out_of_longer();
    'putting: for packed in findings {
        put_packed(position, names, packed, numbers, buffer, out)?;
    }
    Ok(())
}

/// Adds the line of a finding to the output, if it holds.
fn put_once<W: Sink>(
    position: u64,
    finding: PlainFinding,
    holds: bool,
    buffer: &mut OutBuffer,
    out: &mut W,
) -> Result<(), SendFault>
    ensures { Puts (W.seen out.old) (W.seen out.new) buffer.old buffer.new result (record_lines position
        (once (plain_seen finding) holds)) }
{
    if !holds {
        return Ok(());
    }
    put_finding(position, &Finding::Plain(finding), buffer, out)
}

/// Adds the lines of the findings whose numbers are among these, and then of another finding, if it holds.
fn put_range_and<W: Sink>(
    position: u64,
    names: &[u8],
    findings: &[PackedFinding],
    numbers: Between,
    finding: PlainFinding,
    holds: bool,
    buffer: &mut OutBuffer,
    out: &mut W,
) -> Result<(), SendFault>
    requires { AreNamed (length names.now) findings.now }
    ensures { Puts (W.seen out.old) (W.seen out.new) buffer.old buffer.new result (record_lines position
        (filter (is_between numbers.above numbers.below) (all_found names.now findings.now)
        ++ once (plain_seen finding) holds)) }
{
    went_out_of_longer();
    put_range(position, names, findings, numbers, buffer, out)?;
    put_once(position, finding, holds, buffer, out)
}

/// Adds the lines of a record's findings to the output, and of N4 and N6 among them, if they hold.
fn put_found<W: Sink>(
    position: u64,
    names: &[u8],
    findings: &[PackedFinding],
    facts: ArchiveFacts,
    buffer: &mut OutBuffer,
    out: &mut W,
) -> Result<(), SendFault>
    requires { AreNamed (length names.now) findings.now }
    ensures { Puts (W.seen out.old) (W.seen out.new) buffer.old buffer.new result (record_lines position
        (with_both (all_found names.now findings.now) facts.bad_digest facts.used_id)) }
{
    went_out_of_longer();
    put_range_and(
        position,
        names,
        findings,
        BEFORE_DIGEST,
        PlainFinding::Digest,
        facts.bad_digest,
        buffer,
        out,
    )?;
    put_range_and(
        position,
        names,
        findings,
        DIGEST_TO_USED,
        PlainFinding::IdUsed,
        facts.used_id,
        buffer,
        out,
    )?;
    put_range(position, names, findings, AFTER_USED, buffer, out)
}

/// Adds N9 after the others, with the name of its field. If an allocation fails, none is added.
#[tactic(auto, using(crate::proofs::OwnFindingLemmas::packed_named))]
fn add_not_utf8<A: Allocator>(
    names: &mut Vec<u8, A>,
    findings: &mut Vec<PackedFinding, A>,
    name: &[u8],
) -> Result<(), AllocError>
    requires { AreNamed (length names.old.items) findings.old.items }
    ensures named { AreNamed (length names.new.items) findings.new.items }
    ensures ok { OnOk result (all_found names.new.items findings.new.items
        ≡ all_found names.old.items findings.old.items ++ NotUtf8 name.now ∷ []) }
    ensures err { OnErr result (all_found names.new.items findings.new.items
        ≡ all_found names.old.items findings.old.items) }
{
    let start = names.len();
    findings.reserve(1)?;
    names.extend_from_slice(name)?;
    findings.push_reserved(PackedFinding::NotUtf8(ListPart {
        start,
        end: names.len(),
    }));
    Ok(())
}

/// Adds a finding that holds no text of the record after the others. If an allocation fails, it isn't added.
#[tactic(auto, using(crate::proofs::OwnFindingLemmas::plain_named, crate::proofs::OwnFindingLemmas::plain_more))]
fn add_plain<A: Allocator>(
    names: &[u8],
    findings: &mut Vec<PackedFinding, A>,
    finding: PlainFinding,
) -> Result<(), AllocError>
    requires { AreNamed (length names.now) findings.old.items }
    ensures named { AreNamed (length names.now) findings.new.items }
    ensures ok { OnOk result (all_found names.now findings.new.items
        ≡ all_found names.now findings.old.items ++ plain_seen finding ∷ []) }
    ensures err { OnErr result (findings.new.items ≡ findings.old.items) }
{
    findings.push(PackedFinding::Plain(finding))?;
    Ok(())
}

/// Adds a finding after the others. If an allocation fails, none is added.
fn add_finding<A: Allocator>(
    names: &mut Vec<u8, A>,
    findings: &mut Vec<PackedFinding, A>,
    finding: &Finding<'_>,
) -> Result<(), AllocError>
    requires { AreNamed (length names.old.items) findings.old.items }
    ensures named { AreNamed (length names.new.items) findings.new.items }
    ensures ok { OnOk result (all_found names.new.items findings.new.items
        ≡ all_found names.old.items findings.old.items ++ finding_seen finding.now ∷ []) }
    ensures err { OnErr result (all_found names.new.items findings.new.items
        ≡ all_found names.old.items findings.old.items) }
{
    match *finding {
        Finding::Plain(plain) => add_plain(names.as_slice(), findings, plain),
        Finding::NotUtf8(name) => add_not_utf8(names, findings, name),
    }
}

/// Findings, one after another.
#[derive(Drop)]
pub(crate) struct FindingList<A: Allocator> {
    names: Vec<u8, A>,
    findings: Vec<PackedFinding, A>,
}

impl<A: Allocator> Model for FindingList<A> {
    ghost use Rattle.std.specs.Prelude.{List, length};
    ghost use Rattle.warc_record.specs.Findings.{SeenFinding};
    ghost use Rattle.warc_checking.specs.OwnFindings.{AreNamed, all_found};

    ghost Value = { List SeenFinding };

    ghost view = { λ n. all_found n.names.items n.findings.items };

    ghost invariant = { λ n. AreNamed (length n.names.items) n.findings.items };
}

impl<A: Allocator + Copy> FindingList<A> {
    /// No findings.
    pub(crate) fn new(alloc: A) -> FindingList<A>
        ensures { result ≡ [] }
    {
        FindingList {
            names: Vec::new(alloc),
            findings: Vec::new(alloc),
        }
    }
}

impl<A: Allocator> FindingList<A> {
    /// How many findings there are.
    pub(crate) fn len(&self) -> usize
        ensures { result ≡ length self.now }
    {
        self.findings.len()
    }

    /// Adds a finding after the others. If an allocation fails, none is added.
    pub(crate) fn push(&mut self, finding: &Finding<'_>) -> Result<(), AllocError>
        ensures ok { OnOk result (self.new ≡ self.old ++ finding_seen finding.now ∷ []) }
        ensures err { OnErr result (self.new ≡ self.old) }
    {
        add_finding(&mut self.names, &mut self.findings, finding)
    }

    /// Forgets the findings after the first ones, this many.
    pub(crate) fn truncate(&mut self, count: usize)
        ensures { self.new ≡ take count self.old }
    {
        // Their names stay, and are never looked at.
        self.findings.truncate(count);
    }

    /// Adds the lines of a part to the output, and of N4 and N6 among them, if they hold.
    pub(crate) fn put<W: Sink>(
        &self,
        part: ListPart,
        position: u64,
        facts: ArchiveFacts,
        buffer: &mut OutBuffer,
        out: &mut W,
    ) -> Result<(), SendFault>
        requires { IsPart (length self.now) part }
        ensures { Puts (W.seen out.old) (W.seen out.new) buffer.old buffer.new result (record_lines position
            (with_both (findings_of_part self.now part) facts.bad_digest facts.used_id)) }
    {
        put_part(
            self.names.as_slice(),
            self.findings.as_slice(),
            part,
            position,
            facts,
            buffer,
            out,
        )
    }
}

/// Adds the lines of a part of the findings to the output, and of N4 and N6 among them, if they hold.
fn put_part<W: Sink>(
    names: &[u8],
    findings: &[PackedFinding],
    part: ListPart,
    position: u64,
    facts: ArchiveFacts,
    buffer: &mut OutBuffer,
    out: &mut W,
) -> Result<(), SendFault>
    requires named { AreNamed (length names.now) findings.now }
    requires within { IsPart (length findings.now) part }
    ensures { Puts (W.seen out.old) (W.seen out.new) buffer.old buffer.new result (record_lines position
        (with_both (findings_of_part (all_found names.now findings.now) part) facts.bad_digest facts.used_id)) }
{
    put_found(
        position,
        names,
        &findings[part.start..part.end],
        facts,
        buffer,
        out,
    )
}

/// Adds findings after the others. If an allocation fails, some of them are added.
fn add_all<A: Allocator>(
    found: &[Finding<'_>],
    findings: &mut FindingList<A>,
) -> Result<(), AllocError>
    ensures ok { OnOk result (findings.new ≡ findings.old ++ map finding_seen found.now) }
    ensures more { (more : List SeenFinding) × (findings.new ≡ findings.old ++ more) }
{
    'adding: for finding in found {
        findings.push(finding)?;
    }
    Ok(())
}

/// Adds findings of a plain head after the others. If an allocation fails, some of them are added.
pub(crate) fn add_plain_findings<A: Allocator>(
    found: &[PlainFinding],
    findings: &mut FindingList<A>,
) -> Result<(), AllocError>
    ensures ok { OnOk result (findings.new ≡ findings.old ++ map plain_seen found.now) }
    ensures more { (more : List SeenFinding) × (findings.new ≡ findings.old ++ more) }
{
    'adding: for one in found {
        findings.push(&Finding::Plain(*one))?;
    }
    Ok(())
}

/// Adds the findings that a record alone shows but for N4, by the fields of its head and the length of its block. If an
/// allocation fails some of them are added.
pub(crate) fn add_others<A: Allocator + Copy>(
    alloc: A,
    fields: &Fields<A>,
    block_len: u64,
    findings: &mut FindingList<A>,
) -> Result<(), AllocError>
    ensures ok { OnOk result (findings.new ≡ findings.old ++ findings_of fields.now block_len false false) }
    ensures more { (more : List SeenFinding) × (findings.new ≡ findings.old ++ more) }
{
    let found = warc_record::findings(alloc, fields, block_len)?;
    add_all(&found, findings)
}
