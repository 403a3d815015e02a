//! Blocks that wait until they are hashed, several at a time and side by side.
ghost use Rattle.std.specs.Prelude.{◌≡◌, ◌↔◌, ℕ, ◌+◌, ◌++◌, ◌^◌, ◌<◌, ◌≤◌, true, false, List, [], ◌∷◌, IfOk, OnOk, OnErr, length, map, take, drop};
ghost use Rattle.sha1.specs.Sha1.{sha1};
ghost use Rattle.warc_value.specs.Digests.{verdict_of};
ghost use Rattle.warc_frame.specs.Effects.{FailsBy, HasRange, ReadsRange};
ghost use Rattle.warc_frame.specs.Seen.{IfHeld};
ghost use Rattle.warc_digest.specs.Judging.{judged_len};
ghost use Rattle.warc_frame.specs.Send.{early_result};
ghost use Rattle.warc_checking.specs.Batch.{AreKeptIn, digest_in, verdict_with, verdicts_in};

use std::alloc::{AllocError, Allocator};
use std::marker::Model;
use warc_digest::judge_range;
use warc_frame::{EarlyFault, Source, read_range};
use warc_lanes::{DIGEST_LEN, digest_each};
use warc_value::{Verdict, Wanted, digest};

/// How many blocks wait at most.
pub const MAX_WAITING: usize = 64;

/// How many bytes a read asks for, if the blocks among them go to a batch: 1 MiB. A record that a read cuts is hashed
/// alone, so few are cut.
pub const PIECE_LEN: usize = 1_048_576;

/// How many bytes of blocks are kept at most: 1 MiB.
const MAX_KEPT: usize = 1_048_576;

/// The longest block that is kept, 256 KiB. A longer one is judged at once.
const MAX_KEPT_BLOCK: u64 = 262_144;

/// Makes a buffer at least as long as this. If an allocation fails, it stays.
fn lengthen<A: Allocator>(bytes: &mut Vec<u8, A>, len: usize) -> Result<(), AllocError>
    ensures longer { (more : List ℕ) × (bytes.new.items ≡ bytes.old.items ++ more) }
    ensures ok { OnOk result (len ≤ length bytes.new.items) }
{
    if len <= bytes.len() {
        return Ok(());
    }
    bytes.resize(len, 0)
}

/// Bytes of blocks, one block after another. They are written over a buffer that is kept when they are forgotten.
#[derive(Drop)]
struct Blocks<A: Allocator> {
    bytes: Vec<u8, A>,
    used: usize,
}

impl<A: Allocator> Model for Blocks<A> {
    ghost use Rattle.std.specs.Prelude.{ℕ, ◌≤◌, List, length, take};
    ghost use Rattle.warc_checking.specs.declared.batch.TheConstants.{MAX_KEPT};

    ghost Value = { List ℕ };

    ghost view = { λ b. take b.used b.bytes.items };

    ghost invariant = { λ b. (b.used ≤ length b.bytes.items) × (b.used ≤ MAX_KEPT) };
}

impl<A: Allocator> Blocks<A> {
    /// No bytes.
    fn new(alloc: A) -> Blocks<A>
        ensures { result ≡ [] }
    {
        Blocks {
            bytes: Vec::new(alloc),
            used: 0,
        }
    }

    /// How many bytes there are.
    fn len(&self) -> usize
        ensures { result ≡ length self.now }
    {
        self.used
    }

    /// The bytes.
    fn bytes(&self) -> &[u8]
        ensures { result.now ≡ self.now }
    {
        &self.bytes[..self.used]
    }

    /// Whether there is room for a block of this length, and it is short enough to be kept.
    fn fits(&self, len: u64) -> bool
        ensures { (result ≡ true) ↔ ((len ≤ MAX_KEPT_BLOCK) × (length self.now + len ≤ MAX_KEPT)) }
    {
        len <= MAX_KEPT_BLOCK && len as usize <= MAX_KEPT - self.used
    }

    /// Adds bytes of the source, for which there is room.
    fn add<S: Source>(&mut self, source: &mut S, at: u64, len: usize) -> Result<(), EarlyFault>
        requires room { length self.old + len ≤ MAX_KEPT }
        requires end { at + len < 2 ^ 64 }
        ensures bytes { IfHeld (S.seen source.old).holds (λ bytes.
            OnOk result (self.new ≡ self.old ++ take len (drop at bytes))) }
        ensures more { OnOk result ((more : List ℕ) × (self.new ≡ self.old ++ more)) }
        ensures err { OnErr result (self.new ≡ self.old) }
        ensures reads { ReadsRange at len (S.seen source.old) (S.seen source.new) }
        ensures fails { FailsBy (λ bytes. at + len ≤ length bytes) (early_result result) (S.seen source.old)
            (S.seen source.new) }
    {
        let end = self.used + len;
        let Ok(()) = lengthen(&mut self.bytes, end) else {
            return Err(EarlyFault::Memory);
        };
        match read_range(source, at, &mut self.bytes[self.used..end]) {
            Ok(()) => {}
            Err(_) => return Err(EarlyFault::Read),
        }
        self.used = end;
        Ok(())
    }

    /// Adds a block that is in memory, for which there is room. If an allocation fails, none is added.
    fn push(&mut self, block: &[u8]) -> Result<(), AllocError>
        requires { length self.old + length block.now ≤ MAX_KEPT }
        ensures ok { OnOk result (self.new ≡ self.old ++ block.now) }
        ensures err { OnErr result (self.new ≡ self.old) }
    {
        let end = self.used + block.len();
        lengthen(&mut self.bytes, end)?;
        self.bytes[self.used..end].copy_from_slice(block);
        self.used = end;
        Ok(())
    }

    /// Forgets all bytes.
    fn clear(&mut self)
        ensures { self.new ≡ [] }
    {
        self.used = 0;
    }
}

/// How a block is judged.
#[derive(Clone, Copy)]
pub enum BlockCheck {
    /// Its verdict is known.
    Known(Verdict),
    /// Its SHA-1 is compared with this one.
    Compare([u8; DIGEST_LEN]),
}

impl BlockCheck {
    /// By the digest that is wanted.
    pub fn of(wanted: &Wanted) -> BlockCheck
        ensures { (block : List ℕ) → verdict_with result (sha1 block) ≡ verdict_of wanted.now block }
    {
        match wanted {
            Wanted::Sha1(digest) => BlockCheck::Compare(*digest),
            Wanted::Unchecked => BlockCheck::Known(Verdict::Unchecked),
        }
    }

    /// The verdict on the block by its digest.
    fn verdict(&self, digest: &[u8; DIGEST_LEN]) -> Verdict
        ensures { result ≡ verdict_with self.now digest.now }
    {
        match self {
            BlockCheck::Known(verdict) => *verdict,
            BlockCheck::Compare(wanted) => {
                if wanted == digest {
                    Verdict::Good
                } else {
                    Verdict::Bad
                }
            }
        }
    }
}

/// Keeps a block that is in memory if it has to be hashed and there is room. A longer one is judged at once. Returns
/// how it is judged by what is kept of it.
fn keep_block<A: Allocator>(
    check: BlockCheck,
    block: &[u8],
    blocks: &mut Blocks<A>,
) -> Result<BlockCheck, AllocError>
    ensures more { (more : List ℕ) × (blocks.new ≡ blocks.old ++ more) }
    ensures verdict { IfOk result (λ kept. verdict_with kept (sha1 (drop (length blocks.old) blocks.new))
        ≡ verdict_with check (sha1 block.now)) }
{
    if let BlockCheck::Known(_) = check {
        return Ok(check);
    }
    if !blocks.fits(block.len() as u64) {
        return Ok(BlockCheck::Known(check.verdict(&digest(block))));
    }
    blocks.push(block)?;
    Ok(check)
}

/// Reads a block of the source, and keeps it if it has to be hashed and there is room. A longer one is judged as it is
/// read. If no digest of it can be checked, nothing is read.
fn read_block<S: Source, A: Allocator>(
    source: &mut S,
    at: u64,
    len: u64,
    wanted: &Wanted,
    blocks: &mut Blocks<A>,
    buf: &mut [u8],
) -> Result<BlockCheck, EarlyFault>
    requires { 0 < length buf.old }
    ensures more { (more : List ℕ) × (blocks.new ≡ blocks.old ++ more) }
    ensures verdict { IfHeld (S.seen source.old).holds (λ bytes. IfOk result (λ check.
        verdict_with check (sha1 (drop (length blocks.old) blocks.new))
        ≡ verdict_of wanted.now (take len (drop at bytes)))) }
    ensures reads { ReadsRange at (judged_len wanted.now len) (S.seen source.old) (S.seen source.new) }
    ensures fails { FailsBy (HasRange at len) (early_result result) (S.seen source.old) (S.seen source.new) }
{
    let Wanted::Sha1(digest) = wanted else {
        return Ok(BlockCheck::Known(Verdict::Unchecked));
    };
    if len > u64::MAX - at || !blocks.fits(len) {
        return match judge_range(source, at, len, wanted, buf) {
            Ok(verdict) => Ok(BlockCheck::Known(verdict)),
            Err(_) => Err(EarlyFault::Read),
        };
    }
    match blocks.add(source, at, len as usize) {
        Ok(()) => Ok(BlockCheck::Compare(*digest)),
        Err(fault) => Err(fault),
    }
}

/// A block that waits: how it is judged, and where its bytes are among those that are kept.
#[derive(Clone, Copy)]
struct Waiting {
    check: BlockCheck,
    start: usize,
    end: usize,
}

/// Adds a block that is in memory to those that wait. If an allocation fails, none is added.
fn add_block<A: Allocator>(
    waiting: &mut Vec<Waiting, A>,
    blocks: &mut Blocks<A>,
    check: BlockCheck,
    block: &[u8],
) -> Result<(), AllocError>
    requires { AreKeptIn (length blocks.old) waiting.old.items }
    ensures kept { AreKeptIn (length blocks.new) waiting.new.items }
    ensures ok { OnOk result (verdicts_in blocks.new waiting.new.items
        ≡ verdicts_in blocks.old waiting.old.items ++ verdict_with check (sha1 block.now) ∷ []) }
    ensures err { OnErr result (verdicts_in blocks.new waiting.new.items
        ≡ verdicts_in blocks.old waiting.old.items) }
    ensures count { length waiting.new.items ≤ length waiting.old.items + 1 }
{
    waiting.reserve(1)?;
    let start = blocks.len();
    let check = keep_block(check, block, blocks)?;
    waiting.push_reserved(Waiting {
        check,
        start,
        end: blocks.len(),
    });
    Ok(())
}

/// Adds a block of the source to those that wait. If it isn't read, or an allocation fails, none is added.
fn add_read_block<S: Source, A: Allocator>(
    waiting: &mut Vec<Waiting, A>,
    blocks: &mut Blocks<A>,
    source: &mut S,
    at: u64,
    len: u64,
    wanted: &Wanted,
    buf: &mut [u8],
) -> Result<(), EarlyFault>
    requires buf { 0 < length buf.old }
    requires kept { AreKeptIn (length blocks.old) waiting.old.items }
    ensures kept { AreKeptIn (length blocks.new) waiting.new.items }
    ensures added { IfHeld (S.seen source.old).holds (λ bytes. OnOk result (verdicts_in blocks.new waiting.new.items
        ≡ verdicts_in blocks.old waiting.old.items ++ verdict_of wanted.now (take len (drop at bytes)) ∷ [])) }
    ensures more { OnOk result ((verdict : Verdict) × (verdicts_in blocks.new waiting.new.items
        ≡ verdicts_in blocks.old waiting.old.items ++ verdict ∷ [])) }
    ensures err { OnErr result (verdicts_in blocks.new waiting.new.items
        ≡ verdicts_in blocks.old waiting.old.items) }
    ensures count { length waiting.new.items ≤ length waiting.old.items + 1 }
    ensures reads { ReadsRange at (judged_len wanted.now len) (S.seen source.old) (S.seen source.new) }
    ensures fails { FailsBy (HasRange at len) (early_result result) (S.seen source.old) (S.seen source.new) }
{
    let Ok(()) = waiting.reserve(1) else {
        return Err(EarlyFault::Memory);
    };
    let start = blocks.len();
    let check = match read_block(source, at, len, wanted, blocks, buf) {
        Ok(check) => check,
        Err(fault) => return Err(fault),
    };
    waiting.push_reserved(Waiting {
        check,
        start,
        end: blocks.len(),
    });
    Ok(())
}

/// Writes to its place what is kept of each block that waits.
fn take_messages<'a>(waiting: &[Waiting], blocks: &'a [u8], messages: &mut [&'a [u8]])
    requires kept { AreKeptIn (length blocks.now) waiting.now }
    requires places { length messages.old ≡ length waiting.now }
    ensures { map (λ message. sha1 message.now) messages.new ≡ map (digest_in blocks.now) waiting.now }
{
    'taking: for i in 0..waiting.len() {
        let one = waiting[i];
        messages[i] = &blocks[one.start..one.end];
    }
}

/// Writes the verdict on each block that waits to its place, by the digests of all.
fn compare_each(waiting: &[Waiting], digests: &[[u8; DIGEST_LEN]], verdicts: &mut [Verdict])
    requires digests { length digests.now ≡ length waiting.now }
    requires places { length verdicts.old ≡ length waiting.now }
    ensures { (blocks : List ℕ) → digests.now ≡ map (digest_in blocks) waiting.now →
        verdicts.new ≡ verdicts_in blocks waiting.now }
{
    'comparing: for i in 0..waiting.len() {
        verdicts[i] = waiting[i].check.verdict(&digests[i]);
    }
}

/// Hashes the blocks that wait, side by side, and writes the verdict on each to its place.
fn judge_each(waiting: &[Waiting], blocks: &[u8], verdicts: &mut [Verdict])
    requires kept { AreKeptIn (length blocks.now) waiting.now }
    requires few { length waiting.now ≤ MAX_WAITING }
    requires places { length verdicts.old ≡ length waiting.now }
    ensures { verdicts.new ≡ verdicts_in blocks.now waiting.now }
{
    let none: &[u8] = &[];
    let mut messages = [none; MAX_WAITING];
    let mut digests = [[0u8; DIGEST_LEN]; MAX_WAITING];
    let messages = &mut messages[..waiting.len()];
    let digests = &mut digests[..waiting.len()];
    take_messages(waiting, blocks, messages);
    digest_each(messages, digests);
    compare_each(waiting, digests, verdicts)
}

/// Blocks that wait until they are hashed side by side. Contracts see the verdict on each. At most `MAX_WAITING` wait,
/// and 1 MiB of their bytes at most is kept; that memory stays for the next blocks when they are judged.
#[derive(Drop)]
pub struct Batch<A: Allocator> {
    waiting: Vec<Waiting, A>,
    blocks: Blocks<A>,
}

impl<A: Allocator> Model for Batch<A> {
    ghost use Rattle.std.specs.Prelude.{◌≤◌, List, length};
    ghost use Rattle.warc_value.specs.declared.hash.Verdict.{Verdict as Found};
    ghost use Rattle.warc_checking.specs.Batch.{AreKeptIn, verdicts_in};
    ghost use Rattle.warc_checking.specs.declared.batch.TheConstants.{MAX_WAITING};

    ghost Value = { List Found };

    ghost view = { λ b. verdicts_in b.blocks b.waiting.items };

    ghost invariant = { λ b. AreKeptIn (length b.blocks) b.waiting.items × (length b.waiting.items ≤ MAX_WAITING) };
}

impl<A: Allocator + Copy> Batch<A> {
    /// Of no blocks.
    pub fn new(alloc: A) -> Batch<A>
        ensures { result ≡ [] }
    {
        Batch {
            waiting: Vec::new(alloc),
            blocks: Blocks::new(alloc),
        }
    }
}

impl<A: Allocator> Batch<A> {
    /// How many blocks wait.
    pub fn len(&self) -> usize
        ensures count { result ≡ length self.now }
        ensures few { result ≤ MAX_WAITING }
    {
        self.waiting.len()
    }

    /// Whether those that wait should be judged before a block of this length is added. If not, one more may wait.
    pub fn is_full(&self, len: u64) -> bool
        ensures { result ≡ false → length self.now < MAX_WAITING }
    {
        self.waiting.len() >= MAX_WAITING || (len <= MAX_KEPT_BLOCK && !self.blocks.fits(len))
    }

    /// Adds a block that is in memory. It is copied if it has to be hashed. One for which there is no room, such as one
    /// longer than 256 KiB, is judged at once. Only the allocator can refuse it, and then it isn't added.
    pub fn add(&mut self, check: BlockCheck, block: &[u8]) -> Result<(), AllocError>
        requires { length self.old < MAX_WAITING }
        ensures ok { OnOk result (self.new ≡ self.old ++ verdict_with check (sha1 block.now) ∷ []) }
        ensures err { OnErr result (self.new ≡ self.old) }
    {
        add_block(&mut self.waiting, &mut self.blocks, check, block)
    }

    /// Adds a block of the source, which is read now, if a digest of it can be checked. If the read fails, or an
    /// allocation fails, none is added.
    pub(crate) fn add_read<S: Source>(
        &mut self,
        source: &mut S,
        at: u64,
        len: u64,
        wanted: &Wanted,
        buf: &mut [u8],
    ) -> Result<(), EarlyFault>
        requires few { length self.old < MAX_WAITING }
        requires room { 0 < length buf.old }
        ensures added { IfHeld (S.seen source.old).holds (λ bytes.
            OnOk result (self.new ≡ self.old ++ verdict_of wanted.now (take len (drop at bytes)) ∷ [])) }
        ensures more { OnOk result ((verdict : Verdict) × (self.new ≡ self.old ++ verdict ∷ [])) }
        ensures err { OnErr result (self.new ≡ self.old) }
        ensures reads { ReadsRange at (judged_len wanted.now len) (S.seen source.old) (S.seen source.new) }
        ensures fails { FailsBy (HasRange at len) (early_result result) (S.seen source.old) (S.seen source.new) }
    {
        add_read_block(
            &mut self.waiting,
            &mut self.blocks,
            source,
            at,
            len,
            wanted,
            buf,
        )
    }

    /// Hashes the blocks that wait, side by side, writes the verdicts on them, in their order, and returns how many
    /// they are. Then none waits. It doesn't allocate.
    pub fn judge(&mut self, verdicts: &mut [Verdict; MAX_WAITING]) -> usize
        ensures verdicts { take result verdicts.new ≡ self.old }
        ensures count { result ≡ length self.old }
        ensures few { result ≤ MAX_WAITING }
        ensures none { self.new ≡ [] }
    {
        let count = self.waiting.len();
        judge_each(
            self.waiting.as_slice(),
            self.blocks.bytes(),
            &mut verdicts[..count],
        );
        self.waiting.clear();
        self.blocks.clear();
        count
    }
}
