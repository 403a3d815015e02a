//! Lists of positions, one a line.
ghost use Rattle.std.specs.List.{before_first};
ghost use Rattle.std.specs.Prelude.{◌≡◌, ◌↔◌, ℕ, Contains, find, nat_le};
ghost use Rattle.std.specs.List.Sorted.{IsStrictlyIncreasing};
ghost use Rattle.warc_commands.specs.Named.{Names, is_gap, position_in};

use crate::words::position_of;
use bstr::ByteSlice;
use memchr::memchr2;
use std::alloc::Allocator;

/// Why a list names no positions.
#[derive(Clone, Copy, Debug, PartialEq, Eq)]
pub(crate) enum ListFault {
    /// The line of a number, counted from 1, is neither empty nor begins with a position.
    Line(usize),
    /// An allocation failed.
    Memory,
}

/// The bytes of a line before its first tab or space.
fn before_gap(line: &[u8]) -> &[u8]
    ensures { result.now ≡ before_first is_gap line.now }
{
    match memchr2(b'\t', b' ', line) {
        Some(end) => &line[..end],
        None => line,
    }
}

/// The position at the beginning of a line.
fn position_in(line: &[u8]) -> Option<usize>
    ensures { result ≡ position_in line.now }
{
    position_of(before_gap(line))
}

/// The positions that the lines of a list name, in their order. The first line that is neither empty nor begins with a
/// position is reported.
pub(crate) fn read_list<A: Allocator>(alloc: A, list: &[u8]) -> Result<Vec<usize, A>, ListFault>
    ensures { Names list.now result }
{
    let mut positions = Vec::new(alloc);
    let mut number: usize = 0;
    'reading: for line in list.lines() {
        number += 1;
        if line.is_empty() {
            continue;
        }
        let Some(position) = position_in(line) else {
            return Err(ListFault::Line(number));
        };
        let Ok(()) = positions.push(position) else {
            return Err(ListFault::Memory);
        };
    }
    Ok(positions)
}

/// Puts positions in ascending order, each once.
pub(crate) fn put_in_order<A: Allocator>(positions: &mut Vec<usize, A>)
    ensures ascending { IsStrictlyIncreasing positions.new.items }
    ensures same { (p : ℕ) → Contains positions.new.items p ↔ Contains positions.old.items p }
{
    positions.sort_unstable();
    positions.dedup();
}

/// The first of these positions at which there is no record, if there are `count` records.
pub(crate) fn first_absent(positions: &[usize], count: usize) -> Option<usize>
    ensures { result ≡ find (λ p. nat_le count p) positions.now }
{
    'looking: for position in positions {
        if *position >= count {
            return Some(*position);
        }
    }
    None
}
