//! Digests of origins' payloads that are learned from verdicts: where a record's payload is good, its digest is the one
//! that its head states, and isn't computed again.
ghost use Rattle.std.specs.Prelude.{◌≡◌, ◌==◌, not, ℕ, List, Some, IfSome, IsTrue, slice_get, unwrap_or};
ghost use Rattle.warc_frame.specs.Record.{Record};
ghost use Rattle.warc_record.specs.Readings.{reading_of};
ghost use Rattle.warc_record.specs.Seen.{said};
ghost use Rattle.warc_replay.specs.GoodPayloads.{DigestsKnown, IsOwnDigest, LearnsDigest, LearnsOrigin, StatesGood};
ghost use Rattle.warc_replay.specs.PayloadVerdicts.{IsJudgedPayload, payload_verdict_at};

use crate::record::comparison::head_of_row;
use crate::record::digests::{KnownDigests, no_digest};
use crate::record::payload::{PayloadVerdict, holds_own, payload_value};
use crate::replay::answer::path_from;
use crate::replay::origin::origin_at;
use std::alloc::Allocator;
use warc_answer::laws::{has_one_payload, paths_end_inside};
use warc_answer::{PayloadDigest, digest_known};
use warc_field::Fields;
use warc_fixity::Digest;
use warc_frame::laws::head_of_spelled;
use warc_frame::{OutFault, Source};
use warc_judged::Verdicts;
use warc_lookup::Lookup;
use warc_reading::Rows;
use warc_record::Typed;
use warc_segment::laws::places_are_of_records;
use warc_value::Verdict;

/// The digest that a head states of the payload in its record's own block, which is good.
fn stated_own<A: Allocator>(typed: &Typed<'_>, fields: &Fields<A>) -> Option<Digest>
    requires { said typed.now ≡ reading_of fields.now }
    ensures { (records : List Record) (position : ℕ) (content : Record) → fields.now ≡ content.fields →
        IsJudgedPayload records position content (Some PayloadVerdict.Good) → IfSome result (IsOwnDigest content) }
{
    has_one_payload();
    if !holds_own(typed.kind) {
        return None;
    }
    Digest::stated(payload_value(fields))
}

/// The digest that the head of the record at a position states of the payload in its block, which is good. The head is
/// read again, and nothing else is.
fn stated_at<S: Source, A: Allocator + Copy>(
    source: &mut S,
    rows: &Rows<A>,
    position: usize,
) -> Result<Option<Digest>, OutFault>
    ensures { StatesGood rows.now position (S.seen source.old) (S.seen source.new) result }
{
    head_of_spelled();
    let Some(row) = rows.get(position) else {
        return Err(OutFault::Read(0));
    };
    let head = head_of_row(rows.allocator(), source, &row)?;
    Ok(stated_own(&head.typed(), head.fields()))
}

/// The digest of the payload of the origin at a position, by that of what is in its own block and by what is known of
/// this block: its payload isn't hashed.
fn known_digest<S: Source, A: Allocator + Copy>(
    source: &mut S,
    rows: &Rows<A>,
    lookup: &Lookup<A>,
    origin: usize,
    own: Verdict,
    digest: Digest,
) -> Result<Option<PayloadDigest>, OutFault>
    ensures { DigestsKnown rows.now lookup.now.parts origin own digest (S.seen source.old) (S.seen source.new)
        result }
{
    places_are_of_records();
    let found = match origin_at(source, rows, lookup, origin) {
        Ok(found) => found,
        Err(fault) => return no_digest(fault),
    };
    match digest_known(source, found.http, &found.places, digest, own) {
        Ok(digest) => Ok(digest),
        Err(_) => Err(OutFault::Read(0)),
    }
}

/// Adds the digest of the payload of the origin at a position, which is good, by what is known of its block.
fn learn<S: Source, A: Allocator + Copy>(
    source: &mut S,
    rows: &Rows<A>,
    lookup: &Lookup<A>,
    origin: usize,
    own: Verdict,
    digested: &mut KnownDigests<A>,
) -> Result<(), OutFault>
    ensures { LearnsDigest rows.now lookup.now.parts origin own digested.old.known.items digested.new.known.items
        (S.seen source.old) (S.seen source.new) result }
{
    let Some(stated) = stated_at(source, rows, origin)? else {
        return Ok(());
    };
    let digest = known_digest(source, rows, lookup, origin, own, stated)?;
    match digested.add(origin, stated.algorithm(), digest) {
        Ok(()) => Ok(()),
        Err(_) => Err(OutFault::Memory(0)),
    }
}

/// Whether the payload at a position is good, by the verdicts that were found.
fn is_good(verdicts: &[Option<PayloadVerdict>], position: usize) -> bool
    ensures { IsTrue result → payload_verdict_at verdicts.now position ≡ Some PayloadVerdict.Good }
{
    match verdicts.get(position) {
        Some(Some(PayloadVerdict::Good)) => true,
        _ => false,
    }
}

/// Adds the digest of the payload of the origin of the capture at a position, if that payload is good by the verdicts
/// that were found, and no digest of it is known: its head is read again, and its block, if nothing is known of it.
pub fn learn_origin<S: Source, A: Allocator + Copy>(
    source: &mut S,
    rows: &Rows<A>,
    lookup: &Lookup<A>,
    position: usize,
    blocks: &Verdicts<A>,
    verdicts: &[Option<PayloadVerdict>],
    digested: &mut KnownDigests<A>,
) -> Result<(), OutFault>
    ensures { LearnsOrigin rows.now lookup.now.index lookup.now.parts position blocks.now verdicts.now
        digested.old.known.items digested.new.known.items (S.seen source.old) (S.seen source.new) result }
{
    paths_end_inside();
    let Ok(path) = path_from(lookup, position) else {
        return Ok(());
    };
    if digested.knows(path.given) {
        return Ok(());
    }
    if !is_good(verdicts, path.given) {
        return Ok(());
    }
    let own = blocks.at(path.given);
    learn(source, rows, lookup, path.given, own, digested)
}
