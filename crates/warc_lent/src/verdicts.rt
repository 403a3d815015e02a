//! The verdicts on a block and on a payload by the digests that a record's head states, as numbers.
ghost use Rattle.std.specs.Prelude.{◌≡◌, Option, Result, IfErr};
ghost use Rattle.warc_replay.specs.Judged.{GivesStated};
ghost use Rattle.warc_replay.specs.PayloadVerdicts.{GivesPayload};
ghost use Rattle.warc_replay.specs.declared.fault.TakeFault.{TakeFault as GhostFault};
ghost use Rattle.warc_replay.specs.declared.record.payload.PayloadVerdict.{PayloadVerdict as Judged};
ghost use Rattle.warc_lookup.specs.Indexed.{IsUnchanged};
ghost use Rattle.warc_value.specs.declared.hash.Verdict.{Verdict as Found};
ghost use Rattle.warc_lent.specs.Problems.{IsNotGiven};
ghost use Rattle.warc_lent.specs.Rows.{verdict_answer};
ghost use Rattle.warc_lent.specs.Verdicts.{payload_answer, payload_number, unjudged_number};

use crate::problem::Problem;
use crate::rows::verdict_number;
use std::alloc::Allocator;
use warc::{Archive, PayloadVerdict, Unjudged};
use warc_frame::Source;

/// The number of a reason why a payload is unchecked: from 3 on.
fn unjudged_number(reason: Unjudged) -> u32
    ensures { result ≡ unjudged_number reason }
{
    match reason {
        Unjudged::Revisit => 3,
        Unjudged::Request => 4,
        Unjudged::Segment => 5,
        Unjudged::Algorithm => 6,
        Unjudged::Head => 7,
        Unjudged::Coded => 8,
    }
}

/// The number of the verdict on a payload: 0 for good, 1 for bad, and from 3 on for unchecked, by its reason. It is 2
/// if the record states no digest of its payload.
fn payload_number(verdict: Option<PayloadVerdict>) -> u32
    ensures { result ≡ payload_number verdict }
{
    match verdict {
        Some(PayloadVerdict::Good) => 0,
        Some(PayloadVerdict::Bad) => 1,
        None => 2,
        Some(PayloadVerdict::Unchecked(reason)) => unjudged_number(reason),
    }
}

/// How the block of the record at a position compares with the digest that its head states, as a number, in any of five
/// algorithms, in hexadecimal or base32. The head is read again, and the block too if a digest is stated. `Changed`:
/// the bytes are no longer what they were.
pub fn stated_verdict_at<S: Source, A: Allocator + Copy>(
    archive: &mut Archive<S, A>,
    position: usize,
) -> Result<u32, Problem>
    ensures judged { (answer : Result Found GhostFault) × GivesStated archive.old.listing.rows position
        (S.seen archive.old.listing.source) (S.seen archive.new.listing.source) answer ×
        (result ≡ verdict_answer answer) }
    ensures refused { IfErr result IsNotGiven }
    ensures unchanged { IsUnchanged archive.old archive.new }
{
    match archive.stated_verdict(position) {
        Ok(verdict) => Ok(verdict_number(verdict)),
        Err(fault) => Err(Problem::of_take(fault)),
    }
}

/// How the payload of the record at a position compares with the digest that its head states, as a number. `Changed`:
/// the bytes are no longer what they were.
pub fn payload_verdict_at<S: Source, A: Allocator + Copy>(
    archive: &mut Archive<S, A>,
    position: usize,
) -> Result<u32, Problem>
    ensures judged { (answer : Result (Option Judged) GhostFault) × GivesPayload archive.old.listing.rows
        archive.old.index archive.old.parts position (S.seen archive.old.listing.source)
        (S.seen archive.new.listing.source) answer × (result ≡ payload_answer answer) }
    ensures refused { IfErr result IsNotGiven }
    ensures unchanged { IsUnchanged archive.old archive.new }
{
    match archive.payload_verdict(position) {
        Ok(verdict) => Ok(payload_number(verdict)),
        Err(fault) => Err(Problem::of_take(fault)),
    }
}
