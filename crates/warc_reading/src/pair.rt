//! What two keep of records, side by side.
ghost use Rattle.std.specs.Prelude.{◌&&◌};

use crate::block::NoBlock;
use crate::kept::Keep;
use std::alloc::{AllocError, Allocator};
use warc_quick::{QuickHead, QuickRecord};
use warc_record::GoodHead;

/// What two keep of the same records, of which the second looks at no block.
#[derive(Drop)]
pub struct KeptPair<K, L> {
    pub first: K,
    pub second: L,
}

impl<K: Keep<A>, L: Keep<A, Block = NoBlock>, A: Allocator + Copy> Keep<A> for KeptPair<K, L> {
    ghost keeps = { λ pair records. K.keeps pair.first records × L.keeps pair.second records };

    type Block = K::Block;

    ghost takes = { λ head. K.takes head && L.takes head };

    fn takes(head: &QuickHead<'_>) -> bool {
        K::takes(head) && L::takes(head)
    }

    fn keep(
        &mut self,
        alloc: A,
        position: usize,
        head: &GoodHead<A>,
        block_start: u64,
        block_len: u64,
        block: K::Block,
    ) -> Result<(), AllocError> {
        // The fields are good, whatever the block is: so what the second keeps can be taken back.
        let _fields = head.fields();
        self.second
            .keep(alloc, position, head, block_start, block_len, NoBlock)?;
        match self
            .first
            .keep(alloc, position, head, block_start, block_len, block)
        {
            Ok(()) => Ok(()),
            Err(refused) => {
                // What was kept is taken back, which doesn't allocate.
                self.second.truncate(position);
                Err(refused)
            }
        }
    }

    fn keep_plain(
        &mut self,
        alloc: A,
        position: usize,
        found: &QuickRecord<'_>,
        block_start: u64,
    ) -> Result<(), AllocError> {
        self.second.keep_plain(alloc, position, found, block_start)?;
        match self.first.keep_plain(alloc, position, found, block_start) {
            Ok(()) => Ok(()),
            Err(refused) => {
                // What was kept is taken back, which doesn't allocate.
                self.second.truncate(position);
                Err(refused)
            }
        }
    }

    fn truncate(&mut self, count: usize) {
        self.first.truncate(count);
        self.second.truncate(count);
    }

    fn checks_heads() -> bool {
        K::checks_heads() || L::checks_heads()
    }

    /// As many as the one that asks for more.
    fn piece_len() -> usize {
        let (first, second) = (K::piece_len(), L::piece_len());
        first.max(second)
    }
}
