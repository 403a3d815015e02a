//! How the blocks of an archive compare with the digests that their heads state.
ghost use Rattle.std.specs.Prelude.{◌≡◌, ◌∷◌, ◌++◌, ◌<◌, ℕ, List, true, [], length, OnErr, OnOk, map};
ghost use Rattle.sha1.specs.Sha1.{sha1};
ghost use Rattle.warc_checking.specs.Batch.{verdict_with};
ghost use Rattle.warc_judged.specs.Counting.{verdict_at};
ghost use Rattle.warc_judged.specs.Fixity.{counts_of, digest_at, digest_kept, stated_on, unless_good};
ghost use Rattle.warc_judged.specs.Waiting.{kept_values};

use crate::block_verdicts::BlockVerdicts;
use crate::counts::Verdicts;
use crate::stated::{StatedBlock, digest_value, plain_check};
use std::alloc::{AllocError, Allocator};
use std::marker::Model;
use warc_checking::{BlockCheck, PIECE_LEN};
use warc_quick::{QuickHead, QuickRecord};
use warc_reading::Keep;
use warc_record::GoodHead;
use warc_value::Verdict;

/// How many records an archive has, and how many of them have a block that its digest fits, one that it doesn't fit,
/// and one that can't be checked.
#[derive(Clone, Copy, PartialEq, Eq, Debug)]
pub struct Counts {
    pub records: usize,
    pub good: usize,
    pub bad: usize,
    pub unchecked: usize,
}

/// A text, unless a block is good.
fn unless_good(verdict: Verdict, text: &[u8]) -> &[u8]
    ensures { result.now ≡ unless_good verdict text.now }
{
    match verdict {
        Verdict::Good => b"",
        Verdict::Bad | Verdict::Unchecked => text,
    }
}

/// A text, unless a block is known to be good.
fn unless_known_good(check: BlockCheck, text: &[u8]) -> &[u8]
    ensures { (digest : List ℕ) → unless_good (verdict_with check digest) result.now
        ≡ unless_good (verdict_with check digest) text.now }
{
    match check {
        BlockCheck::Known(verdict) => unless_good(verdict, text),
        BlockCheck::Compare(_) => text,
    }
}

/// The value at a position, empty past the end.
fn value_at<A: Allocator>(values: &[Vec<u8, A>], position: usize) -> &[u8]
    ensures { result.now ≡ digest_at (map (λ v. v.items) values.now) position }
{
    match values.get(position) {
        Some(value) => value.as_slice(),
        None => b"",
    }
}

/// How each block compares with its digest, and the value of each digest by which a block isn't good.
#[derive(Drop)]
pub struct Digests<A: Allocator> {
    verdicts: Verdicts<A>,
    values: Vec<Vec<u8, A>, A>,
}

impl<A: Allocator> Model for Digests<A> {
    ghost use Rattle.std.specs.Prelude.{◌≡◌, length, map};
    ghost use Rattle.warc_judged.specs.Fixity.{Judgements};
    ghost use Rattle.warc_judged.specs.Waiting.{judgements};

    ghost Value = { Judgements };

    ghost view = { λ d. judgements d.verdicts (map (λ v. v.items) d.values.items) };

    ghost invariant = { λ d. length d.verdicts ≡ length d.values.items };
}

impl<A: Allocator> Digests<A> {
    /// How each block compares with its digest.
    pub fn verdicts(&self) -> &Verdicts<A>
        ensures { result.now ≡ self.now.verdicts }
    {
        &self.verdicts
    }

    /// How the block of the record at a position compares with its digest.
    pub(crate) fn verdict(&self, position: usize) -> Verdict
        ensures { result ≡ verdict_at self.now.verdicts position }
    {
        self.verdicts.at(position)
    }

    /// How many blocks are good, bad and unchecked.
    pub fn counts(&self) -> Counts
        ensures { result ≡ counts_of self.now.verdicts }
    {
        Counts {
            records: self.verdicts.len(),
            good: self.verdicts.count(Verdict::Good),
            bad: self.verdicts.count(Verdict::Bad),
            unchecked: self.verdicts.count(Verdict::Unchecked),
        }
    }

    /// The value that is kept of the record at a position, empty where none is.
    pub(crate) fn at(&self, position: usize) -> &[u8]
        ensures { result.now ≡ digest_at self.now.digests position }
    {
        unless_good(self.verdicts.at(position), value_at(&self.values, position))
    }
}

/// Lets go the values from a position on by which blocks are known to be good.
fn forget_good<A: Allocator + Copy>(
    alloc: A,
    verdicts: &BlockVerdicts<A>,
    values: &mut [Vec<u8, A>],
    first: usize,
)
    ensures same { kept_values verdicts.now (map (λ v. v.items) values.new)
        ≡ kept_values verdicts.now (map (λ v. v.items) values.old) }
    ensures count { length values.new ≡ length values.old }
{
    'forgetting: for position in first..values.len() {
        if verdicts.is_good(position) {
            values[position] = Vec::new(alloc);
        }
    }
}

/// Hashes the blocks that wait, and lets go the values by which they are good. It doesn't allocate.
fn settle<A: Allocator + Copy>(alloc: A, verdicts: &mut BlockVerdicts<A>, values: &mut [Vec<u8, A>])
    ensures verdicts { verdicts.new ≡ verdicts.old }
    ensures values { kept_values verdicts.old (map (λ v. v.items) values.new)
        ≡ kept_values verdicts.old (map (λ v. v.items) values.old) }
    ensures count { length values.new ≡ length values.old }
{
    let first = verdicts.first_waiting();
    verdicts.settle();
    forget_good(alloc, verdicts, values, first);
}

/// Adds a block, and the value of its digest unless the block is known to be good. If an allocation fails, nothing is
/// added.
fn add_digest<A: Allocator + Copy>(
    alloc: A,
    verdicts: &mut BlockVerdicts<A>,
    values: &mut Vec<Vec<u8, A>, A>,
    check: BlockCheck,
    block: &[u8],
    value: &[u8],
) -> Result<(), AllocError>
    requires { length verdicts.old ≡ length values.old.items }
    ensures count { length verdicts.new ≡ length values.new.items }
    ensures verdict { OnOk result (verdicts.new ≡ verdicts.old ++ verdict_with check (sha1 block.now) ∷ []) }
    ensures value { OnOk result (kept_values verdicts.new (map (λ v. v.items) values.new.items)
        ≡ kept_values verdicts.old (map (λ v. v.items) values.old.items)
        ++ unless_good (verdict_with check (sha1 block.now)) value.now ∷ []) }
    ensures err { OnErr result ((verdicts.new ≡ verdicts.old) × (values.new.items ≡ values.old.items)) }
{
    values.reserve(1)?;
    let value = unless_known_good(check, value).to_vec(alloc)?;
    verdicts.add(check, block)?;
    values.push_reserved(value);
    Ok(())
}

/// `Digests` while the source is read. The last blocks wait until they are hashed, and so do the values of their
/// digests.
#[derive(Drop)]
pub struct WaitingDigests<A: Allocator> {
    verdicts: BlockVerdicts<A>,
    values: Vec<Vec<u8, A>, A>,
}

impl<A: Allocator> Model for WaitingDigests<A> {
    ghost use Rattle.std.specs.Prelude.{◌≡◌, length, map};
    ghost use Rattle.warc_judged.specs.Fixity.{Judgements};
    ghost use Rattle.warc_judged.specs.Waiting.{judgements};

    ghost Value = { Judgements };

    ghost view = { λ d. judgements d.verdicts (map (λ v. v.items) d.values.items) };

    ghost invariant = { λ d. length d.verdicts ≡ length d.values.items };
}

impl<A: Allocator + Copy> WaitingDigests<A> {
    /// Of no records.
    pub fn new(alloc: A) -> WaitingDigests<A>
        ensures verdicts { result.verdicts ≡ [] }
        ensures digests { result.digests ≡ [] }
    {
        WaitingDigests {
            verdicts: BlockVerdicts::new(alloc),
            values: Vec::new(alloc),
        }
    }

    /// Adds how the next block compares with its digest, and the value of that digest unless the block is good. If an
    /// allocation fails, nothing is added.
    fn add(
        &mut self,
        alloc: A,
        check: BlockCheck,
        block: &[u8],
        value: &[u8],
    ) -> Result<(), AllocError>
        ensures ok { OnOk result ((self.new.verdicts ≡ self.old.verdicts ++ verdict_with check (sha1 block.now) ∷ [])
            × (self.new.digests
            ≡ self.old.digests ++ unless_good (verdict_with check (sha1 block.now)) value.now ∷ [])) }
        ensures err { OnErr result (self.new ≡ self.old) }
    {
        if self.verdicts.is_full(block.len() as u64) {
            settle(alloc, &mut self.verdicts, &mut self.values);
        }
        add_digest(
            alloc,
            &mut self.verdicts,
            &mut self.values,
            check,
            block,
            value,
        )
    }

    /// What is found of all records. The blocks that wait are hashed first. It doesn't allocate.
    pub fn into_digests(self, alloc: A) -> Digests<A>
        ensures { result ≡ self }
    {
        let WaitingDigests {
            mut verdicts,
            mut values,
        } = self;
        settle(alloc, &mut verdicts, &mut values);
        Digests {
            verdicts: verdicts.into_verdicts(),
            values,
        }
    }
}

impl<A: Allocator + Copy> Keep<A> for WaitingDigests<A> {
    ghost keeps = { λ d records. (d.verdicts ≡ map stated_on records) × (d.digests ≡ map digest_kept records) };

    type Block = StatedBlock;

    ghost takes = { λ _. true };

    fn takes(_head: &QuickHead<'_>) -> bool {
        true
    }

    fn keep(
        &mut self,
        alloc: A,
        _position: usize,
        head: &GoodHead<A>,
        _block_start: u64,
        _block_len: u64,
        block: StatedBlock,
    ) -> Result<(), AllocError> {
        let check = BlockCheck::Known(block.verdict());
        self.add(alloc, check, b"", digest_value(head.fields()))
    }

    fn keep_plain(
        &mut self,
        alloc: A,
        _position: usize,
        found: &QuickRecord<'_>,
        _block_start: u64,
    ) -> Result<(), AllocError> {
        self.add(alloc, plain_check(found), found.block, found.head.digest)
    }

    fn truncate(&mut self, count: usize) {
        self.verdicts.truncate(count);
        self.values.truncate(count);
    }

    fn piece_len() -> usize {
        PIECE_LEN
    }
}
