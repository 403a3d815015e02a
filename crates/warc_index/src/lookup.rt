//! Look-ups over the two orders and the links.

ghost use Rattle.std.specs.Prelude.{◌≡◌, All, IfOk, IsSome, List, Some};
ghost use Rattle.warc_value.specs.Dates.{Instant};
ghost use Rattle.warc_index.specs.Captures.{AreCapturesOf, Indexed};
ghost use Rattle.warc_index.specs.Referents.{by_key, by_pair, by_payload};
ghost use Rattle.warc_index.specs.Links.{is_same_mark, link_at, has_payload_as, ends_as, states_digest};
ghost use Rattle.warc_index.specs.Linked.{instant_mark};
ghost use Rattle.warc_index.specs.Orders.{capture_entry, id_entry, entries_from, ArePlacedOf};

use crate::link::{FIRST, Links, Role};
use std::alloc::{AllocError, Allocator};
use warc_order::{Mark, Order};

/// Whether two marks are the same.
fn is_same_mark(a: Mark, b: Mark) -> bool
    ensures { result ≡ is_same_mark a b }
{
    a.major == b.major && a.minor == b.minor
}

/// Whether the record at a position is a response or a resource.
fn has_payload<A: Allocator + Copy>(links: &Links<A>, position: usize) -> bool
    ensures { result ≡ has_payload_as (link_at links.now position).role }
{
    matches!(links.link(position).role, Role::Payload | Role::Digested)
}

/// Whether a chain ends at a position: whether the record there isn't a revisit.
pub(crate) fn ends_chain<A: Allocator + Copy>(links: &Links<A>, position: usize) -> bool
    ensures { result ≡ ends_as (link_at links.now position).role }
{
    matches!(
        links.link(position).role,
        Role::Other | Role::Payload | Role::Digested
    )
}

/// Whether the record at a position is a response or a resource that states a payload digest.
fn states_digest<A: Allocator + Copy>(links: &Links<A>, position: usize, digest: &[u8]) -> bool
    ensures { result ≡ states_digest digest.now (link_at links.now position) }
{
    let link = links.link(position);
    match link.role {
        Role::Digested => digest == link.first,
        _ => false,
    }
}

/// The first capture whose id has a key.
pub(crate) fn capture_with<A: Allocator + Copy>(by_id: &Order<A>, key: &[u8]) -> Option<usize>
    ensures { (all : List Indexed) → by_id.now ≡ entries_from id_entry 0 all → result ≡ by_key all key.now }
{
    match by_id.first_from(key, FIRST) {
        Some(found) if by_id.mark(found).major == 0 => Some(by_id.position(found)),
        _ => None,
    }
}

/// The first response or resource of a target and an instant.
pub(crate) fn first_of_pair<A: Allocator + Copy>(
    by_target: &Order<A>,
    links: &Links<A>,
    target: &[u8],
    mark: Mark,
) -> Option<usize>
    ensures { (all : List Indexed) → ArePlacedOf all by_target.now links.now → (instant : Instant)
        → mark ≡ instant_mark instant → result ≡ by_pair all (target.now, instant) }
{
    let mut next = by_target.first_from(target, mark);
    while let Some(found) = next {
        if !is_same_mark(by_target.mark(found), mark) {
            return None;
        }
        let position = by_target.position(found);
        if has_payload(links, position) {
            return Some(position);
        }
        next = by_target.next(found);
    }
    None
}

/// The positions of the captures of a target, by instant, then by position.
pub(crate) fn captures_of<A: Allocator + Copy>(
    alloc: A,
    by_target: &Order<A>,
    target: &[u8],
) -> Result<Vec<usize, A>, AllocError>
    ensures { (all : List Indexed) → All (λ r. IsSome r.instant) all → by_target.now ≡ entries_from capture_entry 0 all
        → IfOk result (λ positions. AreCapturesOf all target.now positions.items) }
{
    let mut positions = Vec::new(alloc);
    let mut next = by_target.first_from(target, FIRST);
    while let Some(found) = next {
        positions.push(by_target.position(found))?;
        next = by_target.next(found);
    }
    Ok(positions)
}

/// The latest response or resource of a target that states a payload digest and isn't after an instant.
pub(crate) fn latest_of_payload<A: Allocator + Copy>(
    by_target: &Order<A>,
    links: &Links<A>,
    target: &[u8],
    digest: &[u8],
    mark: Mark,
) -> Option<usize>
    ensures { (all : List Indexed) → ArePlacedOf all by_target.now links.now → (revisit : Indexed)
        → revisit.target ≡ Some target.now → revisit.payload_digest ≡ Some digest.now → (instant : Instant)
        → revisit.instant ≡ Some instant → mark ≡ instant_mark instant → result ≡ by_payload all revisit }
{
    let mut previous = by_target.last_up_to(target, mark);
    while let Some(found) = previous {
        let position = by_target.position(found);
        if states_digest(links, position, digest) {
            return Some(position);
        }
        previous = by_target.previous(found);
    }
    None
}
