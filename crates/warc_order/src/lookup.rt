//! Look-ups, and what puts slots in order.

ghost use Rattle.std.specs.Prelude.{◌≡◌, ℕ, ◌+◌, ◌^◌, ◌<◌, ◌≤◌, [], ◌∷◌, ◌++◌, length, OnOk, OnErr, IfOk, IfSome};
ghost use Rattle.std.specs.Prelude.{IfNone, IsTrue, min};
ghost use Rattle.std.specs.List.Sorted.{IsPermutation};
ghost use Rattle.warc_order.specs.Ranking.{IsRanked};
ghost use Rattle.warc_order.specs.Entries.{entry_at, IsUpTo, IsFrom, IsAfter, IsBefore, IsFirst, IsLast, IsNone};
ghost use Rattle.warc_order.specs.Layout.{slot_order, slot_for, slots_of, IsOrderOf, IsOrdered};

use crate::FoundEntry;
use crate::compare::{Below, ByText, NotAbove};
use crate::entries::Entries;
use crate::hash::hash_of;
use crate::mark::Mark;
use crate::ranked::{PlacedSlot, Ranked, SlotPlace};
use crate::slot::Slot;
use crate::unsorted::Waiting;
use std::alloc::{AllocError, Allocator};

/// A number as 4 bytes. `Err` if it is 2^32 or more: no order is that long.
pub fn narrow(number: usize) -> Result<u32, AllocError>
    ensures same { IfOk result (λ n. n ≡ number) }
    ensures large { OnErr result (2 ^ 32 ≤ number) }
{
    if number <= u32::MAX as usize {
        Ok(number as u32)
    } else {
        Err(AllocError)
    }
}

/// The slot of the entry at an index.
pub(crate) fn slot_of<A: Allocator + Copy>(entries: &Entries<A>, index: u32) -> Slot
    ensures { result ≡ slot_for entries.now index }
{
    Slot {
        hash: hash_of(entries.text(index as usize)),
        index,
    }
}

/// What was found, as callers see it.
fn found_at(held: PlacedSlot) -> FoundEntry
    ensures { result.index ≡ held.slot.index }
{
    FoundEntry {
        index: held.slot.index,
        place: held.place,
    }
}

/// Puts the slot of one more entry in order.
pub(crate) fn rank_one<A: Allocator + Copy>(
    ranked: &mut Ranked<A>,
    entries: &Entries<A>,
    index: u32,
)
    requires ready { IsTrue ranked.old.ready }
    requires order { IsOrderOf entries.now index ranked.old.list }
    ensures { IsOrderOf entries.now (index + 1) ranked.new.list }
{
    let order = ByText { entries };
    ranked.add_reserved(&order, slot_of(entries, index));
}

/// Puts the slots of all entries in order.
pub(crate) fn rank_all<A: Allocator + Copy>(entries: &Entries<A>, waiting: Waiting<A>) -> Ranked<A>
    requires { waiting.list ≡ slots_of entries.now (length entries.now) }
    ensures { IsOrderOf entries.now (length entries.now) result.list }
{
    let order = ByText { entries };
    waiting.into_ranked(&order)
}

/// The last entry of a text whose mark isn't above one.
pub(crate) fn last_up_to<A: Allocator + Copy>(
    entries: &Entries<A>,
    ranked: &Ranked<A>,
    text: &[u8],
    mark: Mark,
) -> Option<FoundEntry>
    requires { IsOrdered entries.now ranked.now.list }
    ensures within { IfSome result (λ found. found.index < length entries.now) }
    ensures some { IfSome result (λ found. IsLast entries.now (IsUpTo text.now mark)
        (entry_at entries.now found.index)) }
    ensures none { IfNone result (IsNone entries.now (IsUpTo text.now mark)) }
{
    let test = NotAbove {
        order: ByText { entries },
        hash: hash_of(text),
        text,
        mark,
    };
    match ranked.last_passing(&test) {
        Some(s) if entries.text(s.slot.index as usize) == text => Some(found_at(s)),
        _ => None,
    }
}

/// The first entry of a text whose mark isn't below one.
pub(crate) fn first_from<A: Allocator + Copy>(
    entries: &Entries<A>,
    ranked: &Ranked<A>,
    text: &[u8],
    mark: Mark,
) -> Option<FoundEntry>
    requires { IsOrdered entries.now ranked.now.list }
    ensures within { IfSome result (λ found. found.index < length entries.now) }
    ensures some { IfSome result (λ found. IsFirst entries.now (IsFrom text.now mark)
        (entry_at entries.now found.index)) }
    ensures none { IfNone result (IsNone entries.now (IsFrom text.now mark)) }
{
    let test = Below {
        order: ByText { entries },
        hash: hash_of(text),
        text,
        mark,
    };
    match ranked.first_failing(&test) {
        Some(s) if entries.text(s.slot.index as usize) == text => Some(found_at(s)),
        _ => None,
    }
}

/// The next entry of the same text. If the place is right, nothing is searched.
pub(crate) fn next<A: Allocator + Copy>(
    entries: &Entries<A>,
    ranked: &Ranked<A>,
    index: u32,
    place: SlotPlace,
) -> Option<FoundEntry>
    requires order { IsOrdered entries.now ranked.now.list }
    requires index { index < length entries.now }
    ensures within { IfSome result (λ found. found.index < length entries.now) }
    ensures some { IfSome result (λ found. IsFirst entries.now (IsAfter (entry_at entries.now index))
        (entry_at entries.now found.index)) }
    ensures none { IfNone result (IsNone entries.now (IsAfter (entry_at entries.now index))) }
{
    let order = ByText { entries };
    let text = entries.text(index as usize);
    match ranked.next_after(&order, slot_of(entries, index), place) {
        Some(s) if entries.text(s.slot.index as usize) == text => Some(found_at(s)),
        _ => None,
    }
}

/// The entry of the same text before one. If the place is right, nothing is searched.
pub(crate) fn previous<A: Allocator + Copy>(
    entries: &Entries<A>,
    ranked: &Ranked<A>,
    index: u32,
    place: SlotPlace,
) -> Option<FoundEntry>
    requires order { IsOrdered entries.now ranked.now.list }
    requires index { index < length entries.now }
    ensures within { IfSome result (λ found. found.index < length entries.now) }
    ensures some { IfSome result (λ found. IsLast entries.now (IsBefore (entry_at entries.now index))
        (entry_at entries.now found.index)) }
    ensures none { IfNone result (IsNone entries.now (IsBefore (entry_at entries.now index))) }
{
    let order = ByText { entries };
    let text = entries.text(index as usize);
    match ranked.last_before(&order, slot_of(entries, index), place) {
        Some(s) if entries.text(s.slot.index as usize) == text => Some(found_at(s)),
        _ => None,
    }
}
