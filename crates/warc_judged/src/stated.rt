//! The verdict on a block by the digest that its head states, whatever the algorithm.
ghost use Rattle.std.specs.Prelude.{◌≡◌, ℕ, List, []};
ghost use Rattle.sha1.specs.Sha1.{sha1};
ghost use Rattle.warc_field.specs.Area.{Pair};
ghost use Rattle.warc_fixity.specs.Decoded.{stated_digest};
ghost use Rattle.warc_fixity.specs.Judged.{JudgeHasTaken, stated_verdict};
ghost use Rattle.warc_reading.specs.Judging.{IsNextPlain};
ghost use Rattle.warc_reading.specs.Row.{Placed};
ghost use Rattle.warc_checking.specs.Batch.{verdict_with};
ghost use Rattle.warc_judged.specs.Fixity.{digest_value, stated_on};

use std::alloc::Allocator;
use warc_checking::BlockCheck;
use warc_field::Fields;
use warc_fixity::{Digest, Judge, stated_verdict};
use warc_frame::names;
use warc_quick::QuickRecord;
use warc_reading::TakeBlock;
use warc_record::GoodHead;
use warc_value::Verdict;

/// The value that states the digest of a block, empty if no field does.
pub fn digest_value<A: Allocator>(fields: &Fields<A>) -> &[u8]
    ensures { result.now ≡ digest_value fields.now }
{
    fields.value_of(names::WARC_BLOCK_DIGEST.as_bytes())
}

/// How a block compares with the digest that its head states, by any algorithm. A listing's `verdict` judges SHA-1 in
/// base32 alone.
pub fn block_verdict<A: Allocator>(fields: &Fields<A>, block: &[u8]) -> Verdict
    ensures { result ≡ stated_verdict (digest_value fields.now) block.now }
{
    stated_verdict(digest_value(fields), block)
}

/// A block that is judged by the digest that its head states, as its bytes come.
#[derive(Drop)]
pub struct StatedBlock {
    judge: Judge,
}

impl StatedBlock {
    /// How the block compares with the digest that its head states.
    pub fn verdict(self) -> Verdict
        ensures { (fields : List Pair) (bytes : List ℕ) →
            JudgeHasTaken self.judge (stated_digest (digest_value fields)) bytes →
            result ≡ stated_verdict (digest_value fields) bytes }
    {
        let StatedBlock { judge } = self;
        judge.verdict()
    }
}

impl TakeBlock for StatedBlock {
    ghost has_seen = { λ b fields bytes. JudgeHasTaken b.judge (stated_digest (digest_value fields)) bytes };

    fn begin<A: Allocator>(head: &GoodHead<A>) -> StatedBlock {
        StatedBlock {
            judge: Judge::stated(digest_value(head.fields())),
        }
    }

    fn take_part(&mut self, part: &[u8]) {
        self.judge.update(part);
    }
}

/// How a block that is in memory is judged by the digest that a value states: by its SHA-1, which isn't computed yet,
/// or at once.
fn stated_check(value: &[u8], block: &[u8]) -> BlockCheck
    ensures { verdict_with result (sha1 block.now) ≡ stated_verdict value.now block.now }
{
    match Digest::stated(value) {
        Some(Digest::Sha1(digest)) => BlockCheck::Compare(digest),
        Some(digest) => BlockCheck::Known(digest.verdict_on(block)),
        None => BlockCheck::Known(Verdict::Unchecked),
    }
}

/// How the block of a record that was read in place is judged by the digest that its head states, as `stated_check`.
pub fn plain_check(found: &QuickRecord<'_>) -> BlockCheck
    ensures { (p : Placed) (start : ℕ) → IsNextPlain p found.now start →
        verdict_with result (sha1 found.now.block.now) ≡ stated_on p }
{
    stated_check(found.head.digest, found.block)
}
