//! The digests of the payloads of origins, each of which is computed once for an algorithm.
ghost use Rattle.std.specs.Prelude.{◌≡◌, ◌==◌, not, List, IfOk, IfSome, IsTrue, OnOk, slice_get, unwrap_or};
ghost use Rattle.warc_frame.specs.Record.{Record};
ghost use Rattle.warc_replay.specs.PayloadStates.{AreKnown, DigestsOnce, DigestsOrigin, DigestsPath, IsKnownOf, IsOriginDigest, no_digest};

use crate::replay::answer::path_from;
use crate::replay::origin::origin_at;
use std::alloc::{AllocError, Allocator};
use warc_answer::laws::paths_end_inside;
use warc_answer::{PayloadDigest, ReplayFault, digest_joined};
use warc_fixity::Algorithm;
use warc_frame::{OutFault, Source};
use warc_lookup::Lookup;
use warc_reading::Rows;
use warc_segment::laws::places_are_of_records;

/// How many algorithms there are.
const ALGORITHMS: usize = 5;

/// The digest of the payload of an origin, none where it gives no payload. `before` is one more than the index of
/// another one of the same origin, or 0.
#[derive(Clone, Copy)]
pub(crate) struct Known {
    pub(crate) origin: usize,
    pub(crate) algorithm: Algorithm,
    pub(crate) digest: Option<PayloadDigest>,
    pub(crate) before: usize,
}

/// Digests that are known. `slots` has for each record one more than the index of the last one that is of this origin,
/// or 0; where it has none, nothing is found again.
#[derive(Drop)]
pub struct KnownDigests<A: Allocator> {
    pub(crate) slots: Vec<usize, A>,
    pub(crate) known: Vec<Known, A>,
}

/// Whether a digest is of this origin, under this algorithm.
fn is_of(one: &Known, origin: usize, algorithm: Algorithm) -> bool
    ensures { IsTrue result → (one.now.origin ≡ origin) × (one.now.algorithm ≡ algorithm) }
{
    one.origin == origin && one.algorithm == algorithm
}

/// The digest that is known of an origin under an algorithm, if one is.
fn recalled(slots: &[usize], known: &[Known], origin: usize, algorithm: Algorithm) -> Option<Known>
    ensures { IfSome result (IsKnownOf known.now origin algorithm) }
{
    let mut slot = slots.get(origin).copied().unwrap_or(0);
    'recalling: for _ in 0..ALGORITHMS {
        if slot == 0 {
            return None;
        }
        let Some(one) = known.get(slot - 1) else {
            return None;
        };
        if is_of(one, origin, algorithm) {
            return Some(*one);
        }
        slot = one.before;
    }
    None
}

impl<A: Allocator> KnownDigests<A> {
    /// None, and nothing will be found again.
    pub fn new(alloc: A) -> KnownDigests<A>
    where
        A: Copy,
        ensures { (records : List Record) → AreKnown records result.known.items }
    {
        KnownDigests {
            slots: Vec::new(alloc),
            known: Vec::new(alloc),
        }
    }

    /// None, of the origins among this many records.
    pub fn with_room(alloc: A, count: usize) -> Result<KnownDigests<A>, AllocError>
    where
        A: Copy,
        ensures { IfOk result (λ all. (records : List Record) → AreKnown records all.known.items) }
    {
        Ok(KnownDigests {
            slots: vec![in alloc; 0usize; count]?,
            known: Vec::new(alloc),
        })
    }

    /// Whether a digest is known of an origin.
    pub(crate) fn knows(&self, origin: usize) -> bool
        ensures { result ≡ not (unwrap_or (slice_get self.now.slots.items origin) 0 == 0) }
    {
        self.slots.get(origin).copied().unwrap_or(0) != 0
    }

    /// Adds the digest of the payload of an origin.
    pub(crate) fn add(
        &mut self,
        origin: usize,
        algorithm: Algorithm,
        digest: Option<PayloadDigest>,
    ) -> Result<(), AllocError>
        ensures { (records : List Record) → AreKnown records self.old.known.items →
            IsOriginDigest records origin algorithm digest → OnOk result (AreKnown records self.new.known.items) }
    {
        let before = self.slots.get(origin).copied().unwrap_or(0);
        self.known.push(Known {
            origin,
            algorithm,
            digest,
            before,
        })?;
        if origin < self.slots.len() {
            self.slots[origin] = self.known.len();
        }
        Ok(())
    }
}

/// What is digested of an origin that isn't found: nothing where its blocks don't join.
pub(crate) fn no_digest(fault: ReplayFault) -> Result<Option<PayloadDigest>, OutFault>
    ensures { result ≡ no_digest fault }
{
    match fault {
        ReplayFault::Reason(_) => Ok(None),
        ReplayFault::Out(fault) => Err(fault),
    }
}

/// The digest of the payload of the origin at a position: its head is read again, and its joined blocks.
fn origin_digest<S: Source, A: Allocator + Copy>(
    source: &mut S,
    rows: &Rows<A>,
    lookup: &Lookup<A>,
    origin: usize,
    algorithm: Algorithm,
) -> Result<Option<PayloadDigest>, OutFault>
    ensures { DigestsOrigin rows.now lookup.now.parts origin algorithm (S.seen source.old) (S.seen source.new)
        result }
{
    places_are_of_records();
    let found = match origin_at(source, rows, lookup, origin) {
        Ok(found) => found,
        Err(fault) => return no_digest(fault),
    };
    match digest_joined(source, found.http, &found.places, algorithm) {
        Ok(digest) => Ok(digest),
        Err(_) => Err(OutFault::Read(0)),
    }
}

/// The digest that `origin_digest` gives, or the one that is known.
fn digest_once<S: Source, A: Allocator + Copy>(
    source: &mut S,
    rows: &Rows<A>,
    lookup: &Lookup<A>,
    origin: usize,
    algorithm: Algorithm,
    digested: &mut KnownDigests<A>,
) -> Result<Option<PayloadDigest>, OutFault>
    ensures { DigestsOnce rows.now lookup.now.parts origin algorithm digested.old.known.items
        digested.new.known.items (S.seen source.old) (S.seen source.new) result }
{
    if let Some(one) = recalled(&digested.slots, &digested.known, origin, algorithm) {
        return Ok(one.digest);
    }
    let digest = origin_digest(source, rows, lookup, origin, algorithm)?;
    match digested.add(origin, algorithm, digest) {
        Ok(()) => Ok(digest),
        Err(_) => Err(OutFault::Memory(0)),
    }
}

/// The digest of the payload that a replay of the capture at a position gives.
pub(crate) fn path_digest<S: Source, A: Allocator + Copy>(
    source: &mut S,
    rows: &Rows<A>,
    lookup: &Lookup<A>,
    position: usize,
    algorithm: Algorithm,
    digested: &mut KnownDigests<A>,
) -> Result<Option<PayloadDigest>, OutFault>
    ensures { DigestsPath rows.now lookup.now.index lookup.now.parts position algorithm digested.old.known.items
        digested.new.known.items (S.seen source.old) (S.seen source.new) result }
{
    paths_end_inside();
    match path_from(lookup, position) {
        Ok(path) => digest_once(source, rows, lookup, path.given, algorithm, digested),
        Err(_) => Ok(None),
    }
}
