//! Which records need named ones: a table of standings, by position.
ghost use Rattle.std.specs.Prelude.{◌≡◌, ◌≢◌, ◌<◌, ◌≤◌, ◌⊎◌, List, ℕ, Contains, IfOk, OnOk, Some, length, map, replicate, slice_set, true, false};
ghost use Rattle.warc_record.specs.Seen.{said};
ghost use Rattle.warc_index.specs.Captures.{Indexed};
ghost use Rattle.warc_index.specs.Orders.{IsIndexOf};
ghost use Rattle.warc_index.specs.Referents.{next_of};
ghost use Rattle.warc_segment.specs.Joined.{PlacedRecord, piece_placed};
ghost use Rattle.warc_segment.specs.Kept.{kept_in};
ghost use Rattle.warc_rewrite.specs.Marks.{AreWhere};
ghost use Rattle.warc_rewrite.specs.Statuses.{AreAllSettled, AreMemos, AreSettled, LeavesIfNamed, HasNamed, IsNamedAt, IsOpen, JudgesSeries, KeepsMemo, LeavesWay, NamesAll, Settles, is_left, is_open, memo_of, needs_none, status_at};
ghost use Rattle.warc_rewrite.specs.declared.remainder.Status.TheVariants.{Open, Named, Touched, Untouched};

use std::alloc::{AllocError, Allocator};
use warc_index::Index;
use warc_record::{SegmentNumber, Typed};
use warc_segment::Parts;

/// What is known of a position while records are looked for that need named ones.
#[derive(Clone, Copy, PartialEq, Eq, Debug)]
pub(crate) enum Status {
    /// Nothing is known.
    Open,

    /// Its record is named.
    Named,

    /// Its record needs a named one.
    Left,

    /// Its record needs none.
    Kept,

    /// Nothing is known, but that its record is of a series with a named segment.
    Touched,

    /// Nothing is known, but that its record is of a series without one.
    Untouched,
}

/// A table in which all positions are open.
pub(crate) fn open_statuses<A: Allocator>(
    alloc: A,
    len: usize,
) -> Result<Vec<Status, A>, AllocError>
    ensures { IfOk result (λ statuses. statuses.items ≡ replicate len Open) }
{
    vec![in alloc; Status::Open; len]
}

/// The standing of a position; one beyond the table is open.
fn status_at(statuses: &[Status], position: usize) -> Status
    ensures { result ≡ status_at statuses.now position }
{
    match statuses.get(position) {
        Some(status) => *status,
        None => Status::Open,
    }
}

/// Whether a position is named.
pub(crate) fn is_named(statuses: &[Status], position: usize) -> bool
    ensures yes { result ≡ true → IsNamedAt statuses.now position }
    ensures no { result ≡ false → status_at statuses.now position ≢ Named }
{
    match statuses.get(position) {
        Some(Status::Named) => true,
        _ => false,
    }
}

/// Whether it isn't known of a position of the table whether its record needs a named one.
fn is_open(statuses: &[Status], position: usize) -> bool
    ensures within { result ≡ true → position < length statuses.now }
    ensures yes { result ≡ true → IsOpen statuses.now position }
    ensures no { result ≡ false → position < length statuses.now →
        is_open (status_at statuses.now position) ≡ false }
{
    match statuses.get(position) {
        Some(Status::Open | Status::Touched | Status::Untouched) => true,
        _ => false,
    }
}

/// Whether the record at a position is known to need a named one.
fn is_left(statuses: &[Status], position: usize) -> bool
    ensures { result ≡ is_left (status_at statuses.now position) }
{
    match statuses.get(position) {
        Some(Status::Named | Status::Left) => true,
        _ => false,
    }
}

/// Whether the record at a position is known to need none.
fn is_kept(statuses: &[Status], position: usize) -> bool
    ensures { result ≡ needs_none (status_at statuses.now position) }
{
    match statuses.get(position) {
        Some(Status::Kept) => true,
        _ => false,
    }
}

/// Sets the standing of a position of the table.
pub(crate) fn set_status(statuses: &mut [Status], position: usize, status: Status)
    ensures inside { position < length statuses.old → statuses.new ≡ slice_set statuses.old position status }
    ensures past { length statuses.old ≤ position → statuses.new ≡ statuses.old }
{
    if position < statuses.len() {
        statuses[position] = status;
    }
}

/// Names positions.
pub(crate) fn name_all(statuses: &mut [Status], positions: &[usize])
    ensures { NamesAll positions.now statuses.old statuses.new }
{
    'naming: for position in positions {
        set_status(statuses, *position, Status::Named);
    }
}

/// Whether one of these positions is named.
fn has_named(statuses: &[Status], positions: &[usize]) -> bool
    ensures yes { result ≡ true → HasNamed statuses.now positions.now }
    ensures no { result ≡ false → (q : ℕ) → Contains positions.now q → status_at statuses.now q ≢ Named }
{
    'looking: for position in positions {
        if is_named(statuses, *position) {
            return true;
        }
    }
    false
}

/// What is kept of a segment whose series has a named one, or has none.
fn memo_of(named: bool) -> Status
    ensures { result ≡ memo_of named }
{
    if named {
        Status::Touched
    } else {
        Status::Untouched
    }
}

/// Keeps of a segment whether its series has a named one, if nothing else is known of it.
fn remember(statuses: &mut [Status], segment: usize, named: bool)
    ensures { KeepsMemo segment named statuses.old statuses.new }
{
    if is_fresh(statuses, segment) {
        statuses[segment] = memo_of(named);
    }
}

/// Whether nothing is known of a position of the table.
fn is_fresh(statuses: &[Status], position: usize) -> bool
    ensures within { result ≡ true → position < length statuses.now }
    ensures yes { result ≡ true → status_at statuses.now position ≡ Open }
{
    match statuses.get(position) {
        Some(Status::Open) => true,
        _ => false,
    }
}

/// Whether the series of a segment has a named one, if that is known.
fn recalled(statuses: &[Status], segment: usize) -> Option<bool>
    ensures yes { result ≡ Some true →
        IsNamedAt statuses.now segment ⊎ (status_at statuses.now segment ≡ Touched) }
    ensures no { result ≡ Some false → status_at statuses.now segment ≡ Untouched }
{
    match statuses.get(segment) {
        Some(Status::Named | Status::Touched) => Some(true),
        Some(Status::Untouched) => Some(false),
        _ => None,
    }
}

/// Whether a record with this head has a named segment. A series is looked through once.
pub(crate) fn series_is_named<A: Allocator + Copy>(
    parts: &Parts<A>,
    statuses: &mut [Status],
    typed: &Typed<'_>,
) -> Result<bool, AllocError>
    ensures same { length statuses.new ≡ length statuses.old }
    ensures judges { (all : List PlacedRecord) → parts.now ≡ kept_in all →
        AreMemos (map piece_placed all) statuses.old →
        IfOk result (JudgesSeries (map piece_placed all) (said typed.now) statuses.old statuses.new) }
{
    match typed.segment.number {
        SegmentNumber::Number(1) => {}
        _ => return Ok(false),
    }
    let Some(one) = parts.segment_of(typed) else {
        return Ok(false);
    };
    if let Some(named) = recalled(statuses, one) {
        return Ok(named);
    }
    let segments = parts.segments_of(typed)?;
    let named = has_named(statuses, &segments);
    remember(statuses, one, named);
    Ok(named)
}

/// Leaves out the record at a position, which has this head, if it has a named segment.
pub(crate) fn leave_if_named<A: Allocator + Copy>(
    parts: &Parts<A>,
    statuses: &mut [Status],
    typed: &Typed<'_>,
    position: usize,
) -> Result<(), AllocError>
    ensures same { length statuses.new ≡ length statuses.old }
    ensures judges { (all : List PlacedRecord) → parts.now ≡ kept_in all →
        AreMemos (map piece_placed all) statuses.old →
        OnOk result (LeavesIfNamed (map piece_placed all) (said typed.now) position statuses.old statuses.new) }
{
    let named = series_is_named(parts, statuses, typed)?;
    if named {
        set_status(statuses, position, Status::Left);
    }
    Ok(())
}

/// Leaves out the first places of a way from referent to referent.
fn leave_way<A: Allocator + Copy>(
    index: &Index<A>,
    statuses: &mut [Status],
    position: usize,
    steps: usize,
)
    ensures same { length statuses.new ≡ length statuses.old }
    ensures leaves { (all : List Indexed) → IsIndexOf all index.now → length statuses.old ≡ length all →
        LeavesWay (next_of all) position steps statuses.old statuses.new }
{
    let mut at = position;
    'leaving: for _step in 0..steps {
        set_status(statuses, at, Status::Left);
        match index.referent(at) {
            Some(next) => at = next,
            None => return,
        }
    }
}

/// Finds out whether a record needs a named one: goes its way as far as a place of which that is known, or as far as
/// the way goes, and keeps what it found for all on the way.
pub(crate) fn settle<A: Allocator + Copy>(
    index: &Index<A>,
    statuses: &mut [Status],
    position: usize,
)
    ensures same { length statuses.new ≡ length statuses.old }
    ensures settles { (all : List Indexed) (base : List Status) → IsIndexOf all index.now →
        length statuses.old ≡ length all → AreSettled (next_of all) base statuses.old → position < length all →
        Settles (next_of all) base position statuses.old statuses.new }
{
    let mut at = position;
    let mut steps = 0;
    'walking: while is_open(statuses, at) {
        statuses[at] = Status::Kept;
        steps += 1;
        match index.referent(at) {
            Some(next) => at = next,
            None => return,
        }
    }
    if is_left(statuses, at) {
        leave_way(index, statuses, position, steps);
    }
}

/// Finds out of each record whether it needs a named one.
pub(crate) fn settle_all<A: Allocator + Copy>(index: &Index<A>, statuses: &mut [Status])
    ensures same { length statuses.new ≡ length statuses.old }
    ensures settles { (all : List Indexed) (base : List Status) → IsIndexOf all index.now →
        length statuses.old ≡ length all → AreSettled (next_of all) base statuses.old →
        AreAllSettled (next_of all) base statuses.new (length all) }
{
    'settling: for position in 0..statuses.len() {
        settle(index, statuses, position);
    }
}

/// The positions of the records that are known to need none.
pub(crate) fn kept_positions<A: Allocator>(
    alloc: A,
    statuses: &[Status],
) -> Result<Vec<usize, A>, AllocError>
    ensures { IfOk result (λ positions. AreWhere (λ p. needs_none (status_at statuses.now p)) (length statuses.now)
        positions.items) }
{
    let mut positions = Vec::new(alloc);
    'listing: for position in 0..statuses.len() {
        if !is_kept(statuses, position) {
            continue;
        }
        positions.push(position)?;
    }
    Ok(positions)
}
