//! What takes the bytes of a block as they come.
ghost use Rattle.std.specs.Prelude.{◌≡◌, ℕ, List, [], ◌++◌};
ghost use Rattle.warc_field.specs.Area.{Pair};
ghost use Rattle.warc_value.specs.Digests.{verdict_of};
ghost use Rattle.warc_record.specs.Readings.{digest_wanted};
ghost use Rattle.warc_reading.specs.Blocks.{HasSeen};

use std::alloc::Allocator;
use warc_fixity::Judge;
use warc_fixity::laws::wanted_is_judged;
use warc_record::GoodHead;
use warc_value::Verdict;

/// What takes the bytes of a block as they come.
pub trait TakeBlock: Drop + Sized {
    /// After a head with these fields, these bytes of its block came.
    ghost has_seen: { Self → List Pair → List ℕ → Type 0 };

    /// A head came, and no byte of its block yet.
    fn begin<A: Allocator>(head: &GoodHead<A>) -> Self
        ensures { has_seen result head.now [] };

    /// Takes the block's next bytes.
    fn take_part(&mut self, part: &[u8])
        ensures { (fields : List Pair) (bytes : List ℕ) → has_seen self.old fields bytes → has_seen self.new fields
            (bytes ++ part.now) };
}

/// Keeps nothing of a block.
#[derive(Drop)]
pub struct NoBlock;

impl TakeBlock for NoBlock {
    ghost has_seen = { λ _ _ _. Unit {0} };

    #[inline(always)]
    fn begin<A: Allocator>(_head: &GoodHead<A>) -> NoBlock {
        NoBlock
    }

    #[inline(always)]
    fn take_part(&mut self, _part: &[u8]) {}
}

/// A block that is judged by the digest that its head asks for, as its bytes come.
#[derive(Drop)]
pub struct BlockDigest {
    judge: Judge,
}

impl BlockDigest {
    /// How the block compares with the digest that its head asks for.
    pub fn verdict(self) -> Verdict
        ensures { (fields : List Pair) (bytes : List ℕ) → HasSeen self fields bytes → result
            ≡ verdict_of (digest_wanted fields) bytes }
    {
        wanted_is_judged();
        let BlockDigest { judge } = self;
        judge.verdict()
    }
}

impl TakeBlock for BlockDigest {
    ghost has_seen = { HasSeen };

    fn begin<A: Allocator>(head: &GoodHead<A>) -> BlockDigest {
        BlockDigest {
            judge: Judge::wanting(&head.wanted()),
        }
    }

    fn take_part(&mut self, part: &[u8]) {
        self.judge.update(part);
    }
}
