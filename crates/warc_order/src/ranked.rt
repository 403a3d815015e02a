//! Slots kept in an order, in blocks.
ghost use Rattle.std.specs.Prelude.{◌≡◌, ℕ, ◌+◌, ◌^◌, ◌-◌, ◌<◌, ◌≤◌, true, false, not, [], ◌∷◌, ◌++◌, length};
ghost use Rattle.std.specs.Prelude.{slice_get, slice_index_or, OnOk, OnErr, IsTrue, IfOk, IfSome, IfNone, All};
ghost use Rattle.std.specs.Prelude.{find, filter, insert, map, nat_lt, vec_len, vec_capacity};
ghost use Rattle.std.specs.List.Sorted.{IsPartitionedBy, IsPartitionPoint, IsPermutation};
ghost use Rattle.std.specs.Cmp.{IsTotalOrder};
ghost use Rattle.std.specs.Ordering.{is_lt, is_gt, is_le};
ghost use Rattle.std.specs.declared.cmp.Ordering.{Ordering};
ghost use Rattle.warc_order.specs.Ranking.{flattened, blank, IsRanked, IsFirstOf, IsLastOf, IsStrict, placed};
ghost use Rattle.warc_order.specs.Ranking.{find_last, before_in, slot_in, lists_of, start_of, HoldsSome, IsBlock};
ghost use Rattle.warc_order.specs.Ranking.{IsNarrow};

use crate::block::Block;
use crate::slot::{Slot, SlotOrder, SlotTest};
use std::alloc::{AllocError, Allocator, Global};
use std::cmp::Ordering;
use std::marker::Model;
use std::mem;

/// The most indices of a block that isn't wide.
const LIMIT: usize = 512;

/// How many indices of a wide block go into one that isn't: it then takes some more before it is full.
const PIECE: usize = 384;

/// The test whether a slot comes before an index.
#[derive(Drop)]
struct Before<'a, O> {
    order: &'a O,
    slot: Slot,
}

impl<O: SlotOrder> SlotTest for Before<'_, O> {
    ghost passes = { λ s p. is_lt (O.compare s.order.now p s.slot) };

    fn passes(&self, slot: Slot) -> bool {
        matches!(self.order.compare(slot, self.slot), Ordering::Less)
    }
}

/// The test whether a slot doesn't come after an index.
#[derive(Drop)]
struct UpTo<'a, O> {
    order: &'a O,
    slot: Slot,
}

impl<O: SlotOrder> SlotTest for UpTo<'_, O> {
    ghost passes = { λ s p. is_le (O.compare s.order.now p s.slot) };

    fn passes(&self, slot: Slot) -> bool {
        !matches!(self.order.compare(slot, self.slot), Ordering::Greater)
    }
}

/// The index at a place of a block.
fn at<A: Allocator>(blocks: &[Block<A>], block: usize, offset: usize) -> Slot
    requires block { block < length blocks.now }
    requires offset { offset < length (slice_index_or (lists_of blocks.now) block []) }
    ensures { result ≡ slice_index_or (slice_index_or (lists_of blocks.now) block []) offset blank }
{
    blocks[block].at(offset)
}

/// How many indices a block holds.
fn length_of<A: Allocator>(blocks: &[Block<A>], block: usize) -> usize
    requires { block < length blocks.now }
    ensures { result ≡ length (slice_index_or (lists_of blocks.now) block []) }
{
    blocks[block].len()
}

/// How many indices at the beginning of a block pass.
fn cut_within<T: SlotTest, A: Allocator>(blocks: &[Block<A>], block: usize, test: &T) -> usize
    requires block { block < length blocks.now }
    requires order { IsPartitionedBy (T.passes test.now) (slice_index_or (lists_of blocks.now) block []) }
    ensures bound { result ≤ length (slice_index_or (lists_of blocks.now) block []) }
    ensures front { (k : ℕ) → k < result → T.passes test.now (slice_index_or (slice_index_or
        (lists_of blocks.now) block []) k blank) ≡ true }
    ensures back { (k : ℕ) → result ≤ k → k < length (slice_index_or (lists_of blocks.now) block []) →
        T.passes test.now (slice_index_or (slice_index_or (lists_of blocks.now) block []) k blank) ≡ false }
{
    blocks[block].cut(test)
}

/// How many blocks at the beginning begin with one that passes.
fn cut_blocks<T: SlotTest, A: Allocator>(blocks: &[Block<A>], test: &T) -> usize
    requires some { (k : ℕ) → k < length blocks.now → 0 < length (slice_index_or (lists_of blocks.now) k []) }
    requires order { (i j : ℕ) → i ≤ j → j < length blocks.now →
        T.passes test.now (slice_index_or (slice_index_or (lists_of blocks.now) j []) 0 blank) ≡ true →
        T.passes test.now (slice_index_or (slice_index_or (lists_of blocks.now) i []) 0 blank) ≡ true }
    ensures bound { result ≤ length blocks.now }
    ensures front { (k : ℕ) → k < result → T.passes test.now (slice_index_or (slice_index_or
        (lists_of blocks.now) k []) 0 blank) ≡ true }
    ensures back { (k : ℕ) → result ≤ k → k < length blocks.now →
        T.passes test.now (slice_index_or (slice_index_or (lists_of blocks.now) k []) 0 blank) ≡ false }
{
    let mut low = 0;
    let mut high = blocks.len();
    while low < high {
        let middle = low + (high - low) / 2;
        let first = at(blocks, middle, 0);
        if test.passes(first) {
            low = middle + 1;
        } else {
            high = middle;
        }
    }
    low
}

/// A place between slots: before the one at an offset of a block, or at the block's end.
#[derive(Clone, Copy, Debug)]
pub(crate) struct SlotPlace {
    block: usize,
    offset: usize,
}

/// A slot and its place: the place before it.
#[derive(Clone, Copy, Debug)]
pub(crate) struct PlacedSlot {
    pub(crate) slot: Slot,
    pub(crate) place: SlotPlace,
}

/// The slot at an offset of a block.
fn slot_at<A: Allocator>(blocks: &[Block<A>], block: usize, offset: usize) -> PlacedSlot
    requires block { block < length blocks.now }
    requires offset { offset < length (slice_index_or (lists_of blocks.now) block []) }
    ensures { result.slot ≡ slice_index_or (slice_index_or (lists_of blocks.now) block []) offset blank }
{
    PlacedSlot {
        slot: at(blocks, block, offset),
        place: SlotPlace { block, offset },
    }
}

/// The slot after a place.
fn next_slot<A: Allocator>(blocks: &[Block<A>], place: SlotPlace) -> Option<PlacedSlot>
    requires blocks { All HoldsSome blocks.now }
    requires block { place.block < length blocks.now }
    requires within { place.offset ≤ length (slice_index_or (lists_of blocks.now) place.block []) }
    ensures { slot_in result ≡ slice_get (flattened (lists_of blocks.now)) (start_of
        (lists_of blocks.now) place.block + place.offset) }
{
    if place.offset < length_of(blocks, place.block) {
        Some(slot_at(blocks, place.block, place.offset))
    } else if place.block + 1 < blocks.len() {
        Some(slot_at(blocks, place.block + 1, 0))
    } else {
        None
    }
}

/// The slot before a place.
fn slot_before<A: Allocator>(blocks: &[Block<A>], place: SlotPlace) -> Option<PlacedSlot>
    requires blocks { All HoldsSome blocks.now }
    requires block { place.block < length blocks.now }
    requires within { place.offset ≤ length (slice_index_or (lists_of blocks.now) place.block []) }
    ensures { slot_in result ≡ before_in (flattened (lists_of blocks.now)) (start_of
        (lists_of blocks.now) place.block + place.offset) }
{
    if place.offset > 0 {
        Some(slot_at(blocks, place.block, place.offset - 1))
    } else if place.block > 0 {
        let block = place.block - 1;
        let offset = length_of(blocks, block) - 1;
        Some(slot_at(blocks, block, offset))
    } else {
        None
    }
}

/// Whether there is a slot after a place.
fn is_slot_at<A: Allocator>(blocks: &[Block<A>], place: SlotPlace, slot: Slot) -> bool
    ensures block { IsTrue result → place.block < length blocks.now }
    ensures offset { IsTrue result → place.offset < length (slice_index_or (lists_of blocks.now) place.block []) }
    ensures fits { IsTrue result → place.offset + 1 < 2 ^ 64 }
    ensures slot { IsTrue result → slice_index_or (slice_index_or
        (lists_of blocks.now) place.block []) place.offset blank ≡ slot }
{
    place.block < blocks.len()
        && place.offset < length_of(blocks, place.block)
        && at(blocks, place.block, place.offset) == slot
}

/// The place where the indices that pass end.
fn find_place<T: SlotTest, A: Allocator>(blocks: &[Block<A>], test: &T) -> SlotPlace
    requires any { 0 < length blocks.now }
    requires blocks { All HoldsSome blocks.now }
    requires order { IsPartitionedBy (T.passes test.now) (flattened (lists_of blocks.now)) }
    ensures block { result.block < length blocks.now }
    ensures within { result.offset ≤ length (slice_index_or (lists_of blocks.now) result.block []) }
    ensures start { result.offset ≡ 0 → result.block ≡ 0 }
    ensures point { IsPartitionPoint (λ p. T.passes test.now p ≡ true) (λ p. T.passes test.now p ≡
        false) (flattened (lists_of blocks.now)) (start_of (lists_of blocks.now) result.block + result.offset) }
{
    let count = cut_blocks(blocks, test);
    let block = count.saturating_sub(1);
    let offset = cut_within(blocks, block, test);
    SlotPlace { block, offset }
}

/// The first slot that fails a test.
fn first_in<T: SlotTest, A: Allocator>(blocks: &[Block<A>], test: &T) -> Option<PlacedSlot>
    requires blocks { All HoldsSome blocks.now }
    requires order { IsPartitionedBy (T.passes test.now) (flattened (lists_of blocks.now)) }
    ensures { slot_in result ≡ find (λ p. not (T.passes test.now p)) (flattened (lists_of blocks.now)) }
{
    if blocks.is_empty() {
        return None;
    }
    let place = find_place(blocks, test);
    next_slot(blocks, place)
}

/// The last slot that passes a test.
fn last_in<T: SlotTest, A: Allocator>(blocks: &[Block<A>], test: &T) -> Option<PlacedSlot>
    requires blocks { All HoldsSome blocks.now }
    requires order { IsPartitionedBy (T.passes test.now) (flattened (lists_of blocks.now)) }
    ensures { slot_in result ≡ find_last (T.passes test.now) (flattened (lists_of blocks.now)) }
{
    if blocks.is_empty() {
        return None;
    }
    let place = find_place(blocks, test);
    slot_before(blocks, place)
}

/// The slot that comes next after one of the order. If the place of that one is right, nothing is searched.
fn next_in<O: SlotOrder, A: Allocator>(
    blocks: &[Block<A>],
    order: &O,
    slot: Slot,
    place: SlotPlace,
) -> Option<PlacedSlot>
    requires blocks { All HoldsSome blocks.now }
    requires strict { IsStrict (O.compare order.now) (flattened (lists_of blocks.now)) }
    ensures { slot_in result ≡ find (λ p. not (is_le (O.compare order.now p slot))) (flattened (lists_of blocks.now)) }
{
    if is_slot_at(blocks, place, slot) {
        let following = SlotPlace {
            block: place.block,
            offset: place.offset + 1,
        };
        next_slot(blocks, following)
    } else {
        let test = UpTo { order, slot };
        first_in(blocks, &test)
    }
}

/// The slot that comes just before one of the order. If the place of that one is right, nothing is searched.
fn previous_in<O: SlotOrder, A: Allocator>(
    blocks: &[Block<A>],
    order: &O,
    slot: Slot,
    place: SlotPlace,
) -> Option<PlacedSlot>
    requires blocks { All HoldsSome blocks.now }
    requires strict { IsStrict (O.compare order.now) (flattened (lists_of blocks.now)) }
    ensures { slot_in result ≡ find_last (λ p. is_lt (O.compare order.now p slot)) (flattened (lists_of blocks.now)) }
{
    if is_slot_at(blocks, place, slot) {
        slot_before(blocks, place)
    } else {
        let test = Before { order, slot };
        last_in(blocks, &test)
    }
}

/// The place where a full block is cut: near its end if indices come in order.
fn middle_of(last: bool, offset: usize) -> usize
    ensures { (0 < result) × (result < LIMIT) }
{
    if last && offset >= LIMIT - 1 {
        LIMIT - 1
    } else {
        LIMIT / 2
    }
}

/// Puts an index at a place. A block that is full then is cut in two.
fn insert_at<A: Allocator + Copy>(
    blocks: &mut Vec<Block<A>, A>,
    place: SlotPlace,
    slot: Slot,
    spare: &mut Block<A>,
)
    requires block { place.block < length blocks.old.items }
    requires within { place.offset ≤ length (slice_index_or (lists_of blocks.old.items) place.block []) }
    requires blocks { All (IsBlock LIMIT) blocks.old.items }
    requires room { vec_len blocks.old < vec_capacity blocks.old }
    requires spare { spare.old.list ≡ [] }
    requires spare_room { LIMIT ≤ spare.old.room }
    ensures blocks { All (IsBlock LIMIT) blocks.new.items }
    ensures spare { spare.new.list ≡ [] }
    ensures list { flattened (lists_of blocks.new.items) ≡
        insert (flattened (lists_of blocks.old.items)) (start_of
        (lists_of blocks.old.items) place.block + place.offset) slot }
{
    let last = place.block + 1 == blocks.len();
    let block = &mut blocks[place.block];
    block.insert(place.offset, slot);
    if block.len() == LIMIT {
        let middle = middle_of(last, place.offset);
        block.move_tail(middle, spare);
        let alloc = spare.allocator();
        let tail = mem::replace(spare, Block::new(alloc));
        match blocks.insert(place.block + 1, tail) {
            Ok(()) => {}
            Err(_) => unreachable!(),
        }
    }
}

/// The place where an index goes: after those that come before it.
fn place_for<O: SlotOrder, A: Allocator>(blocks: &[Block<A>], order: &O, slot: Slot) -> SlotPlace
    requires any { 0 < length blocks.now }
    requires blocks { All HoldsSome blocks.now }
    requires ranked { IsRanked (O.compare order.now) (flattened (lists_of blocks.now)) }
    ensures block { result.block < length blocks.now }
    ensures within { result.offset ≤ length (slice_index_or (lists_of blocks.now) result.block []) }
    ensures place { placed (O.compare order.now) (flattened (lists_of blocks.now)) slot ≡
        insert (flattened (lists_of blocks.now)) (start_of (lists_of blocks.now) result.block + result.offset) slot }
{
    let test = Before { order, slot };
    find_place(blocks, &test)
}

/// Adds the first index.
fn add_first<A: Allocator + Copy>(blocks: &mut Vec<Block<A>, A>, slot: Slot, spare: &mut Block<A>)
    requires none { blocks.old.items ≡ [] }
    requires room { vec_len blocks.old < vec_capacity blocks.old }
    requires spare { spare.old.list ≡ [] }
    requires spare_room { LIMIT ≤ spare.old.room }
    ensures blocks { All (IsBlock LIMIT) blocks.new.items }
    ensures spare { spare.new.list ≡ [] }
    ensures list { flattened (lists_of blocks.new.items) ≡ slot ∷ [] }
{
    let alloc = spare.allocator();
    let mut block = mem::replace(spare, Block::new(alloc));
    block.insert(0, slot);
    blocks.push_reserved(block);
}

/// Adds an index after those that come before it.
fn add_in<O: SlotOrder, A: Allocator + Copy>(
    blocks: &mut Vec<Block<A>, A>,
    order: &O,
    slot: Slot,
    spare: &mut Block<A>,
)
    requires blocks { All (IsBlock LIMIT) blocks.old.items }
    requires room { vec_len blocks.old < vec_capacity blocks.old }
    requires spare { spare.old.list ≡ [] }
    requires spare_room { LIMIT ≤ spare.old.room }
    requires ranked { IsRanked (O.compare order.now) (flattened (lists_of blocks.old.items)) }
    ensures blocks { All (IsBlock LIMIT) blocks.new.items }
    ensures spare { spare.new.list ≡ [] }
    ensures list { flattened (lists_of blocks.new.items) ≡
        placed (O.compare order.now) (flattened (lists_of blocks.old.items)) slot }
{
    if blocks.is_empty() {
        add_first(blocks, slot, spare);
    } else {
        let place = place_for(blocks, order, slot);
        insert_at(blocks, place, slot, spare);
    }
}

/// Adds some slots in blocks of few slots each.
fn add_pieces<A: Allocator + Copy>(
    even: &mut Vec<Block<A>, A>,
    slots: &[Slot],
) -> Result<(), AllocError>
    requires { All (IsBlock LIMIT) even.old.items }
    ensures blocks { OnOk result (All (IsBlock LIMIT) even.new.items) }
    ensures list { OnOk result (flattened (lists_of even.new.items) ≡
        flattened (lists_of even.old.items) ++ slots.now) }
{
    let alloc = *even.allocator();
    let mut from = 0;
    while from < slots.len() {
        let to = from + PIECE.min(slots.len() - from);
        let block = Block::holding(alloc, &slots[from..to], LIMIT)?;
        even.push(block)?;
        from = to;
    }
    Ok(())
}

/// The slots of some blocks in blocks of few slots each.
fn even_blocks<A: Allocator + Copy>(
    alloc: A,
    blocks: &[Block<A>],
) -> Result<Vec<Block<A>, A>, AllocError>
    ensures blocks { IfOk result (λ even. All (IsBlock LIMIT) even.items) }
    ensures list { IfOk result (λ even. flattened (lists_of even.items) ≡ flattened (lists_of blocks.now)) }
{
    let mut even = Vec::new(alloc);
    for block in blocks {
        add_pieces(&mut even, block.slots())?;
    }
    Ok(even)
}

/// Cuts wide blocks. `Err`: no memory for it; then nothing changes.
fn make_even<A: Allocator + Copy>(blocks: &mut Vec<Block<A>, A>) -> Result<(), AllocError>
    ensures list { flattened (lists_of blocks.new.items) ≡ flattened (lists_of blocks.old.items) }
    ensures ok { OnOk result (All (IsBlock LIMIT) blocks.new.items) }
    ensures err { OnErr result (blocks.new.items ≡ blocks.old.items) }
{
    *blocks = even_blocks(*blocks.allocator(), blocks)?;
    Ok(())
}

/// Drops the indices from a number on in every block.
fn keep_all_below<A: Allocator>(blocks: &mut Vec<Block<A>, A>, count: usize)
    ensures lists { lists_of blocks.new.items ≡ map (λ ps. filter (λ e. nat_lt e.index count) ps)
        (lists_of blocks.old.items) }
    ensures few { All (IsNarrow LIMIT) blocks.old.items → All (IsNarrow LIMIT) blocks.new.items }
{
    for i in 0..blocks.len() {
        let block = &mut blocks[i];
        block.keep_below(count);
    }
}

/// Drops the blocks that hold nothing.
fn drop_empty<A: Allocator>(blocks: &mut Vec<Block<A>, A>)
    ensures list { flattened (lists_of blocks.new.items) ≡ flattened (lists_of blocks.old.items) }
    ensures some { All HoldsSome blocks.new.items }
    ensures few { All (IsNarrow LIMIT) blocks.old.items → All (IsBlock LIMIT) blocks.new.items }
{
    blocks.retain(|b| b.len() > 0);
}

/// Positions in the order of their slots. It's sorted after each addition: about the logarithm of
/// the number of indices in comparisons, and a move of at most a block. Slots that were put in order at once are one
/// wide block, which the first addition cuts.
#[derive(Drop)]
pub struct Ranked<A: Allocator = Global> {
    blocks: Vec<Block<A>, A>,
    spare: Block<A>,
    /// Whether no block is wide.
    is_even: bool,
}

impl<A: Allocator> Model for Ranked<A> {
    ghost use Rattle.std.specs.Prelude.{◌≡◌, ◌&&◌, nat_lt, nat_le, [], All, IsTrue, vec_len, vec_capacity};
    ghost use Rattle.warc_order.specs.Ranking.{flattened, Ranking, lists_of, HoldsSome, IsBlock};

    ghost Value = { Ranking };

    ghost view = { λ s. record {
      list = flattened (lists_of s.blocks.items);
      ready = s.is_even && (nat_lt (vec_len s.blocks) (vec_capacity s.blocks) && nat_le 512 s.spare.room);
    } };

    ghost invariant = { λ s. record {
      blocks : All HoldsSome s.blocks.items;
      even : IsTrue s.is_even → All (IsBlock 512) s.blocks.items;
      spare : s.spare.list ≡ [];
    } };
}

impl<A: Allocator + Copy> Ranked<A> {
    pub fn new(alloc: A) -> Ranked<A>
        ensures { result.list ≡ [] }
    {
        Ranked {
            blocks: Vec::new(alloc),
            spare: Block::new(alloc),
            is_even: true,
        }
    }

    /// Slots that are in order already, as one block. It doesn't allocate.
    pub(crate) fn whole(slots: Vec<Slot, A>, mut blocks: Vec<Block<A>, A>) -> Ranked<A>
        requires none { blocks.items ≡ [] }
        requires room { 0 < length slots.items → 0 < vec_capacity blocks }
        ensures { result.list ≡ slots.items }
    {
        let spare = Block::new(*blocks.allocator());
        let is_even = slots.is_empty();
        if !is_even {
            blocks.push_reserved(Block::of(slots));
        }
        Ranked {
            blocks,
            spare,
            is_even,
        }
    }

    /// Makes room for one more index. `Err`: no memory for it; then no index changes.
    pub fn reserve(&mut self) -> Result<(), AllocError>
        ensures list { self.new.list ≡ self.old.list }
        ensures ready { OnOk result (IsTrue self.new.ready) }
    {
        if !self.is_even {
            make_even(&mut self.blocks)?;
            self.is_even = true;
        }
        self.blocks.reserve(1)?;
        self.spare.reserve(LIMIT)
    }

    /// Adds an index for which there is room.
    pub fn add_reserved<O: SlotOrder>(&mut self, order: &O, slot: Slot)
        requires ready { IsTrue self.old.ready }
        requires ranked { IsRanked (O.compare order.now) self.old.list }
        ensures list { self.new.list ≡ placed (O.compare order.now) self.old.list slot }
        ensures ranked { IsRanked (O.compare order.now) self.new.list }
        ensures members { IsPermutation (slot ∷ self.old.list) self.new.list }
    {
        add_in(&mut self.blocks, order, slot, &mut self.spare);
    }

    /// The first slot that fails a test, which those after it fail too.
    pub fn first_failing<T: SlotTest>(&self, test: &T) -> Option<PlacedSlot>
        requires { IsPartitionedBy (T.passes test.now) self.now.list }
        ensures some { (compare : Slot → Slot → Ordering) → IsTotalOrder compare → IsRanked compare self.now.list →
            IfSome result (λ s. IsFirstOf compare (T.passes test.now) self.now.list s.slot) }
        ensures none { IfNone result (All (λ p. T.passes test.now p ≡ true) self.now.list) }
    {
        first_in(&self.blocks, test)
    }

    /// The last slot that passes a test, which those before it pass too.
    pub fn last_passing<T: SlotTest>(&self, test: &T) -> Option<PlacedSlot>
        requires { IsPartitionedBy (T.passes test.now) self.now.list }
        ensures some { (compare : Slot → Slot → Ordering) → IsTotalOrder compare → IsRanked compare self.now.list →
            IfSome result (λ s. IsLastOf compare (T.passes test.now) self.now.list s.slot) }
        ensures none { IfNone result (All (λ p. T.passes test.now p ≡ false) self.now.list) }
    {
        last_in(&self.blocks, test)
    }

    /// The first slot that is after one in the order.
    pub fn next_after<O: SlotOrder>(
        &self,
        order: &O,
        slot: Slot,
        place: SlotPlace,
    ) -> Option<PlacedSlot>
        requires { IsStrict (O.compare order.now) self.now.list }
        ensures some { IfSome result (λ s. IsFirstOf (O.compare order.now) (λ p. is_le
            (O.compare order.now p slot)) self.now.list s.slot) }
        ensures none { IfNone result (All (λ p. is_le (O.compare order.now p slot) ≡ true) self.now.list) }
    {
        next_in(&self.blocks, order, slot, place)
    }

    /// The last slot that is before one in the order.
    pub fn last_before<O: SlotOrder>(
        &self,
        order: &O,
        slot: Slot,
        place: SlotPlace,
    ) -> Option<PlacedSlot>
        requires { IsStrict (O.compare order.now) self.now.list }
        ensures some { IfSome result (λ s. IsLastOf (O.compare order.now) (λ p. is_lt
            (O.compare order.now p slot)) self.now.list s.slot) }
        ensures none { IfNone result (All (λ p. is_lt (O.compare order.now p slot) ≡ false) self.now.list) }
    {
        previous_in(&self.blocks, order, slot, place)
    }

    /// Drops the indices from a number on. It doesn't allocate.
    pub fn keep_below(&mut self, count: usize)
        ensures { self.new.list ≡ filter (λ e. nat_lt e.index count) self.old.list }
    {
        keep_all_below(&mut self.blocks, count);
        drop_empty(&mut self.blocks);
    }
}
