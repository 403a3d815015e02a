//! What parts hold of the continuations: an order by origin and number, and the rest in a list.
ghost use Rattle.std.specs.Prelude.{◌≡◌, ℕ, ◌+◌, ◌<◌, [], ◌∷◌, ◌++◌, length, map, ◌≤◌, OnOk, OnErr, IfOk, IfSome, IsSome, Some, option_map, slice_get};
ghost use Rattle.std.specs.Option.{option_to_list};
ghost use Rattle.warc_record.specs.Seen.{said};
ghost use Rattle.warc_order.specs.Entries.{entry_at};
ghost use Rattle.warc_segment.specs.Joined.{placed_with};
ghost use Rattle.warc_segment.specs.Kept.{kept_of};
ghost use Rattle.warc_segment.specs.Held.{side_by_side, AreHeld, IsWholeSeries, continuation_of, kept_from, positions_of};

use crate::place::Place;
use crate::series::Continuation;
use std::alloc::{AllocError, Allocator};
use warc_order::{FoundEntry, Mark, Order};
use warc_record::{Kind, SegmentNumber, Typed};

/// What the order doesn't hold of a continuation.
#[derive(Clone, Copy, Debug)]
pub(crate) struct TotalAndPlace {
    /// The total that it states, in bytes.
    pub(crate) total: Option<u64>,

    pub(crate) place: Place,
}

/// The series that a continuation is in, by the key of its origin, and its number there.
#[derive(Clone, Copy)]
struct Membership<'a> {
    origin: &'a [u8],
    number: u64,
}

/// The series that a record is in, if it is in one.
fn find_membership<'t>(typed: &'t Typed<'_>) -> Option<Membership<'t>>
    ensures numbered { IfSome result (λ m. 2 ≤ m.number) }
    ensures kept { (p start len : ℕ) → kept_of (p, placed_with (said typed.now) start len)
        ≡ option_map (λ m. record {
          origin = m.origin.now;
          position = p;
          number = m.number;
          total = typed.now.segment.total;
          place = (placed_with (said typed.now) start len).place;
        }) result }
{
    match typed.kind {
        Kind::Continuation => {}
        _ => return None,
    }
    let Some(origin) = &typed.segment.origin else {
        return None;
    };
    match typed.segment.number {
        SegmentNumber::Number(number) if number >= 2 => Some(Membership {
            origin: origin.bytes(),
            number,
        }),
        _ => None,
    }
}

/// The place of the block of a record whose head says this.
fn place_of(typed: &Typed<'_>, start: u64, len: u64) -> Place
    ensures { result ≡ (placed_with (said typed.now) start len).place }
{
    Place {
        start,
        len,
        wanted: typed.wanted(),
        truncated: typed.texts.is_truncated,
    }
}

/// Adds what is kept of the record at a position, whose block begins at `start` and has `len` bytes.
pub(crate) fn put<A: Allocator + Copy>(
    order: &mut Order<A>,
    facts: &mut Vec<TotalAndPlace, A>,
    position: usize,
    typed: &Typed<'_>,
    start: u64,
    len: u64,
) -> Result<(), AllocError>
    requires { AreHeld position order.old facts.old.items }
    ensures held { OnOk result (AreHeld (position + 1) order.new facts.new.items) }
    ensures ok { OnOk result (side_by_side order.new facts.new.items
        ≡ side_by_side order.old facts.old.items
        ++ option_to_list (kept_of (position, placed_with (said typed.now) start len))) }
    ensures err_order { OnErr result (order.new ≡ order.old) }
    ensures err_facts { OnErr result (facts.new.items ≡ facts.old.items) }
    ensures needed { OnErr result (IsSome (kept_of (position, placed_with (said typed.now) start len))) }
{
    let Some(member) = find_membership(typed) else {
        return Ok(());
    };
    let mark = Mark {
        major: 0,
        minor: member.number,
    };
    facts.reserve(1)?;
    order.add(member.origin, mark, position)?;
    facts.push_reserved(TotalAndPlace {
        total: typed.segment.total,
        place: place_of(typed, start, len),
    });
    Ok(())
}

/// The continuation that an entry and its facts are.
fn continuation_at<A: Allocator + Copy>(
    order: &Order<A>,
    facts: &[TotalAndPlace],
    found: FoundEntry,
) -> Continuation
    requires found { found.index < length order.now }
    requires same { length facts.now ≡ length order.now }
    ensures is_present { slice_get (side_by_side order.now facts.now) found.index
        ≡ Some (kept_from (entry_at order.now found.index) (record { total = result.total; place = result.place })) }
    ensures is { result ≡ continuation_of (kept_from (entry_at order.now found.index)
        (record { total = result.total; place = result.place })) }
{
    let rest = facts[found.index as usize];
    Continuation {
        position: order.position(found),
        number: order.mark(found).minor,
        total: rest.total,
        place: rest.place,
    }
}

/// The series of the record whose id has a key, in the order of its numbers.
pub(crate) fn series_of<A: Allocator + Copy>(
    alloc: A,
    order: &Order<A>,
    facts: &[TotalAndPlace],
    id: &[u8],
) -> Result<Vec<Continuation, A>, AllocError>
    requires { (count : ℕ) × AreHeld count order.now facts.now }
    ensures { IfOk result (λ series. IsWholeSeries id.now (side_by_side order.now facts.now) series.items) }
{
    let mut series = Vec::new(alloc);
    let mut next = order.first_from(id, Mark { major: 0, minor: 0 });
    while let Some(found) = next {
        series.push(continuation_at(order, facts, found))?;
        next = order.next(found);
    }
    Ok(series)
}

/// The positions of a series.
pub(crate) fn positions_of<A: Allocator>(
    alloc: A,
    series: &[Continuation],
) -> Result<Vec<usize, A>, AllocError>
    ensures { IfOk result (λ positions. positions.items ≡ positions_of series.now) }
{
    let mut positions = Vec::new(alloc);
    for continuation in series {
        positions.push(continuation.position)?;
    }
    Ok(positions)
}
