//! What an archive keeps of its records besides their rows: what finds them, and what joins those that are segmented.
ghost use Rattle.std.specs.Prelude.{◌≡◌, List, [], ◌∷◌, ◌++◌, length, take, OnErr, OnOk};
ghost use Rattle.warc_lookup.specs.Indexed.{AreOf};
ghost use Rattle.warc_reading.specs.Row.{Placed};
ghost use Rattle.warc_record.specs.Readings.{reading_of};
ghost use Rattle.warc_record.specs.Seen.{said};

use std::alloc::{AllocError, Allocator};
use warc_index::{Index, RecordIndex, UnorderedIndex};
use warc_order::{EntryList, HasEntries, Order, Unordered};
use warc_quick::{QuickHead, QuickRecord};
use warc_reading::{Keep, NoBlock};
use warc_record::{GoodHead, Typed};
use warc_segment::Parts;

/// Keeps the next record, by its position, what its head says, where its block begins and how long it is.
fn add<O: EntryList, A: Allocator + Copy>(
    index: &mut RecordIndex<O, A>,
    parts: &mut Parts<A>,
    position: usize,
    typed: &Typed<'_>,
    start: u64,
    len: u64,
) -> Result<(), AllocError>
    ensures ok { (records : List Placed) (p : Placed) → AreOf records index.old parts.old →
        said typed.now ≡ reading_of p.content.fields → start ≡ p.block_start → len ≡ length p.content.block →
        OnOk result (AreOf (records ++ p ∷ []) index.new parts.new) }
    ensures err { (records : List Placed) → AreOf records index.old parts.old →
        position ≡ length records → OnErr result (AreOf records index.new parts.new) }
{
    index.add(typed)?;
    match parts.add(typed, start, len) {
        Ok(()) => Ok(()),
        Err(refused) => {
            // What was added is taken back, which doesn't allocate.
            index.truncate(position);
            Err(refused)
        }
    }
}

/// Keeps the first `count` records. It doesn't allocate.
fn keep_first<O: EntryList, A: Allocator + Copy>(
    index: &mut RecordIndex<O, A>,
    parts: &mut Parts<A>,
    count: usize,
)
    ensures { (records : List Placed) → AreOf records index.old parts.old →
        AreOf (take count records) index.new parts.new }
{
    index.truncate(count);
    parts.truncate(count);
}

/// What finds the records of an archive, and what joins those that are segmented.
#[derive(Drop)]
pub struct RecordLookup<O: HasEntries, A: Allocator> {
    pub index: RecordIndex<O, A>,
    pub parts: Parts<A>,
}

/// The lookup of records that are in order.
pub type Lookup<A> = RecordLookup<Order<A>, A>;

/// The lookup of records that come at once, and are put in order when all are there.
pub type UnorderedLookup<A> = RecordLookup<Unordered<A>, A>;

impl<A: Allocator + Copy> RecordLookup<Order<A>, A> {
    /// Of no records.
    pub fn new(alloc: A) -> Lookup<A>
        ensures { AreOf [] result.index result.parts }
    {
        RecordLookup {
            index: Index::new(alloc),
            parts: Parts::new(alloc),
        }
    }
}

impl<A: Allocator + Copy> RecordLookup<Unordered<A>, A> {
    /// Of no records.
    pub fn new(alloc: A) -> UnorderedLookup<A>
        ensures { AreOf [] result.index result.parts }
    {
        RecordLookup {
            index: UnorderedIndex::new(alloc),
            parts: Parts::new(alloc),
        }
    }

    /// Puts the records in order. It doesn't allocate.
    pub fn into_lookup(self) -> Lookup<A>
        ensures index { result.index ≡ self.index }
        ensures parts { result.parts ≡ self.parts }
    {
        RecordLookup {
            index: self.index.into_index(),
            parts: self.parts,
        }
    }
}

impl<O: EntryList, A: Allocator + Copy> Keep<A> for RecordLookup<O, A> {
    ghost keeps = { λ l records. AreOf records l.index l.parts };

    type Block = NoBlock;

    ghost takes = { λ head. head.is_alone };

    fn takes(head: &QuickHead<'_>) -> bool {
        head.is_alone
    }

    fn keep(
        &mut self,
        _alloc: A,
        position: usize,
        head: &GoodHead<A>,
        block_start: u64,
        block_len: u64,
        _block: NoBlock,
    ) -> Result<(), AllocError> {
        add(
            &mut self.index,
            &mut self.parts,
            position,
            &head.typed(),
            block_start,
            block_len,
        )
    }

    fn keep_plain(
        &mut self,
        _alloc: A,
        position: usize,
        found: &QuickRecord<'_>,
        block_start: u64,
    ) -> Result<(), AllocError> {
        add(
            &mut self.index,
            &mut self.parts,
            position,
            &found.head.typed(),
            block_start,
            found.head.block_len,
        )
    }

    fn truncate(&mut self, count: usize) {
        keep_first(&mut self.index, &mut self.parts, count);
    }
}
