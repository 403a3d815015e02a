//! What is kept of records besides their rows, as they are read: nothing in a listing.
ghost use Rattle.std.specs.Prelude.{◌≡◌, Bool, true, List, [], ◌∷◌, ◌++◌, ◌<◌, length, take, OnErr, OnOk};
ghost use Rattle.warc_quick.specs.declared.head.QuickHead.{QuickHead};
ghost use Rattle.warc_reading.specs.Judging.{IsNextOf, IsNextPlain};
ghost use Rattle.warc_reading.specs.Row.{Placed};

use crate::block::{NoBlock, TakeBlock};
use std::alloc::{AllocError, Allocator};
use warc_quick::{QuickHead, QuickRecord};
use warc_record::GoodHead;

/// How many bytes a read asks for, where nothing else is said.
const PIECE: usize = 65_536;

/// What is kept of records besides their rows, as they are read.
pub trait Keep<A: Allocator> {
    /// It is what is kept of these records.
    ghost keeps: { Self → List Placed → Type 0 };

    /// What takes the bytes of a block as they come.
    type Block: TakeBlock;

    /// A record with such a plain head is kept without its fields.
    ghost takes: { QuickHead → Bool };

    /// Whether a record with such a plain head is kept without its fields.
    fn takes(head: &QuickHead<'_>) -> bool
        ensures { result ≡ takes head.now };

    /// Keeps what is needed of the next record, by its position, its head, where its block begins, how long it is, and
    /// what took its bytes. If an allocation fails, it keeps what it kept of the records before.
    fn keep(
        &mut self,
        alloc: A,
        position: usize,
        head: &GoodHead<A>,
        block_start: u64,
        block_len: u64,
        block: Self::Block,
    ) -> Result<(), AllocError>
        ensures ok { (records : List Placed) (p : Placed) → keeps self.old records → position ≡ length records →
            IsNextOf p head.now block_start block_len → Self.Block.has_seen block head.now p.content.block →
            OnOk result (keeps self.new (records ++ p ∷ [])) }
        ensures err { (records : List Placed) → keeps self.old records → position ≡ length records →
            OnErr result (keeps self.new records) };

    /// Keeps what is needed of the next record, by its position, the record as it was read in place, whose head is one
    /// that it takes, and where its block begins. If an allocation fails, it keeps what it kept of the records before.
    fn keep_plain(
        &mut self,
        alloc: A,
        position: usize,
        found: &QuickRecord<'_>,
        block_start: u64,
    ) -> Result<(), AllocError>
        requires taken { takes found.now.head ≡ true }
        requires next { (p : Placed) × IsNextPlain p found.now block_start }
        ensures ok { (records : List Placed) (p : Placed) → keeps self.old records →
            position ≡ length records → IsNextPlain p found.now block_start →
            OnOk result (keeps self.new (records ++ p ∷ [])) }
        ensures err { (records : List Placed) → keeps self.old records → position ≡ length records →
            OnErr result (keeps self.new records) };

    /// Forgets all but the first `count` records. It doesn't allocate.
    fn truncate(&mut self, count: usize)
        ensures { (records : List Placed) → keeps self.old records → keeps self.new (take count records) };

    /// Whether plain heads are read with their findings. If not, `QuickHead::findings` is `None`.
    fn checks_heads() -> bool {
        false
    }

    /// How many bytes a read asks for.
    fn piece_len() -> usize
        ensures { 0 < result }
    {
        PIECE
    }
}

/// Only rows are kept.
#[derive(Drop)]
pub struct RowsAlone;

impl<A: Allocator> Keep<A> for RowsAlone {
    ghost keeps = { λ _ _. Unit {0} };

    type Block = NoBlock;

    ghost takes = { λ _. true };

    fn takes(_head: &QuickHead<'_>) -> bool {
        true
    }

    fn keep(
        &mut self,
        _alloc: A,
        _position: usize,
        _head: &GoodHead<A>,
        _block_start: u64,
        _block_len: u64,
        _block: NoBlock,
    ) -> Result<(), AllocError> {
        Ok(())
    }

    fn keep_plain(
        &mut self,
        _alloc: A,
        _position: usize,
        _found: &QuickRecord<'_>,
        _block_start: u64,
    ) -> Result<(), AllocError> {
        Ok(())
    }

    fn truncate(&mut self, _count: usize) {}
}
