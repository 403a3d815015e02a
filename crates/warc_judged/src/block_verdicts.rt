//! The verdicts on blocks, in the order of their records. The last blocks wait, so that they are hashed side by side.
ghost use Rattle.std.specs.Prelude.{true, ◌≡◌, ◌-◌, ◌++◌, ◌<◌, ◌≤◌, [], ◌∷◌, IsTrue, OnErr, OnOk, length, take};
ghost use Rattle.sha1.specs.Sha1.{sha1};
ghost use Rattle.warc_checking.specs.Batch.{verdict_with};
ghost use Rattle.warc_judged.specs.Counting.{verdict_at};
ghost use Rattle.warc_judged.specs.Waiting.{with_last};

use crate::counts::{Verdicts, is_verdict};
use std::alloc::{AllocError, Allocator};
use std::marker::Model;
use warc_checking::{Batch, BlockCheck, MAX_WAITING, PIECE_LEN};
use warc_quick::{QuickHead, QuickRecord};
use warc_reading::{BlockDigest, Keep};
use warc_record::GoodHead;
use warc_value::Verdict;

/// The position of the first block that waits.
fn first_waiting<A: Allocator>(list: &Verdicts<A>, batch: &Batch<A>) -> usize
    requires { length batch.now ≤ length list.now }
    ensures { result ≡ length list.now - length batch.now }
{
    list.len() - batch.len()
}

/// Hashes the blocks that wait, and writes the verdicts on them over the last ones. Then none waits. It doesn't
/// allocate.
fn settle<A: Allocator>(list: &mut Verdicts<A>, batch: &mut Batch<A>)
    requires { length batch.old ≤ length list.old }
    ensures same { list.new ≡ with_last list.old batch.old }
    ensures none { batch.new ≡ [] }
{
    let mut verdicts = [Verdict::Unchecked; MAX_WAITING];
    let count = batch.judge(&mut verdicts);
    list.replace_last(&verdicts[..count]);
}

/// Settles the verdicts, as `settle`, if no further block of this length should wait.
fn settle_if_full<A: Allocator>(list: &mut Verdicts<A>, batch: &mut Batch<A>, len: u64)
    requires { length batch.old ≤ length list.old }
    ensures same { with_last list.new batch.new ≡ with_last list.old batch.old }
    ensures few { length batch.new < MAX_WAITING }
    ensures last { length batch.new ≤ length list.new }
{
    if batch.is_full(len) {
        settle(list, batch);
    }
}

/// Adds a block. While it waits, the list has no verdict in its place. If its verdict is known and no other one waits,
/// it doesn't wait. If an allocation fails, it isn't added.
fn add<A: Allocator>(
    list: &mut Verdicts<A>,
    batch: &mut Batch<A>,
    check: BlockCheck,
    block: &[u8],
) -> Result<(), AllocError>
    requires few { length batch.old < MAX_WAITING }
    requires last { length batch.old ≤ length list.old }
    ensures last { length batch.new ≤ length list.new }
    ensures ok { OnOk result (with_last list.new batch.new
        ≡ with_last list.old batch.old ++ verdict_with check (sha1 block.now) ∷ []) }
    ensures err { OnErr result (with_last list.new batch.new ≡ with_last list.old batch.old) }
{
    if let (BlockCheck::Known(verdict), 0) = (check, batch.len()) {
        return list.push(verdict);
    }
    let count = list.len();
    list.push(Verdict::Unchecked)?;
    match batch.add(check, block) {
        Ok(()) => Ok(()),
        Err(refused) => {
            // What was added is taken back, which doesn't allocate.
            list.truncate(count);
            Err(refused)
        }
    }
}

/// The verdicts on blocks, of which the last ones wait until they are hashed. Contracts see all verdicts. At most
/// `MAX_WAITING` blocks wait, with 1 MiB of bytes.
#[derive(Drop)]
pub struct BlockVerdicts<A: Allocator> {
    list: Verdicts<A>,
    batch: Batch<A>,
}

impl<A: Allocator> Model for BlockVerdicts<A> {
    ghost use Rattle.std.specs.Prelude.{◌≤◌, List, length};
    ghost use Rattle.warc_value.specs.declared.hash.Verdict.{Verdict as Found};
    ghost use Rattle.warc_judged.specs.Waiting.{with_last};

    ghost Value = { List Found };

    ghost view = { λ b. with_last b.list b.batch };

    ghost invariant = { λ b. length b.batch ≤ length b.list };
}

impl<A: Allocator + Copy> BlockVerdicts<A> {
    /// Of no blocks.
    pub fn new(alloc: A) -> BlockVerdicts<A>
        ensures { result ≡ [] }
    {
        BlockVerdicts {
            list: Verdicts::new(alloc),
            batch: Batch::new(alloc),
        }
    }
}

impl<A: Allocator> BlockVerdicts<A> {
    /// The position of the first block that waits.
    pub fn first_waiting(&self) -> usize {
        first_waiting(&self.list, &self.batch)
    }

    /// Whether the block at a position is known to be good. It isn't known of one that waits.
    pub fn is_good(&self, position: usize) -> bool
        ensures { IsTrue result → verdict_at self.now position ≡ Verdict.Good }
    {
        position < first_waiting(&self.list, &self.batch)
            && is_verdict(Verdict::Good, self.list.at(position))
    }

    /// Whether those that wait are settled before a block of this length is added.
    pub fn is_full(&self, len: u64) -> bool {
        self.batch.is_full(len)
    }

    /// Hashes the blocks that wait. Then none waits. It doesn't allocate.
    pub fn settle(&mut self)
        ensures { self.new ≡ self.old }
    {
        settle(&mut self.list, &mut self.batch);
    }

    /// Adds the next block, which is in memory, or isn't looked at if its verdict is known. If an allocation fails, it
    /// isn't added.
    pub fn add(&mut self, check: BlockCheck, block: &[u8]) -> Result<(), AllocError>
        ensures ok { OnOk result (self.new ≡ self.old ++ verdict_with check (sha1 block.now) ∷ []) }
        ensures err { OnErr result (self.new ≡ self.old) }
    {
        settle_if_full(&mut self.list, &mut self.batch, block.len() as u64);
        add(&mut self.list, &mut self.batch, check, block)
    }

    /// Keeps the first `count` verdicts. It doesn't allocate.
    pub fn truncate(&mut self, count: usize)
        ensures { self.new ≡ take count self.old }
    {
        settle(&mut self.list, &mut self.batch);
        self.list.truncate(count);
    }

    /// All verdicts. The blocks that wait are hashed first. It doesn't allocate.
    pub fn into_verdicts(self) -> Verdicts<A>
        ensures { result ≡ self }
    {
        let BlockVerdicts {
            mut list,
            mut batch,
        } = self;
        settle(&mut list, &mut batch);
        list
    }
}

impl<A: Allocator + Copy> Keep<A> for BlockVerdicts<A> {
    ghost use Rattle.std.specs.Prelude.{map};
    ghost use Rattle.warc_reading.specs.Judging.{verdict_on};

    ghost keeps = { λ verdicts records. verdicts ≡ map verdict_on records };

    type Block = BlockDigest;

    ghost takes = { λ _. true };

    fn takes(_head: &QuickHead<'_>) -> bool {
        true
    }

    fn keep(
        &mut self,
        _alloc: A,
        _position: usize,
        _head: &GoodHead<A>,
        _block_start: u64,
        _block_len: u64,
        block: BlockDigest,
    ) -> Result<(), AllocError> {
        self.add(BlockCheck::Known(block.verdict()), b"")
    }

    fn keep_plain(
        &mut self,
        _alloc: A,
        _position: usize,
        found: &QuickRecord<'_>,
        _block_start: u64,
    ) -> Result<(), AllocError> {
        self.add(BlockCheck::of(&found.head.wanted()), found.block)
    }

    fn truncate(&mut self, count: usize) {
        BlockVerdicts::truncate(self, count);
    }

    fn piece_len() -> usize {
        PIECE_LEN
    }
}
