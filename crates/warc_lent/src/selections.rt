//! Which records a selection writes, as positions in buffers that callers lend.
ghost use Rattle.std.specs.Prelude.{◌≡◌, ◌⊎◌, ◌↔◌, ◌<◌, ℕ, All, Contains, IfErr, IfOk, IsTrue, OnErr, OnOk, length};
ghost use Rattle.std.specs.List.Sorted.{IsStrictlyIncreasing};
ghost use Rattle.warc_lookup.specs.Indexed.{IsIndexed, IsUnchanged};
ghost use Rattle.warc_rewrite.specs.Closure.{records_read};
ghost use Rattle.warc_rewrite.specs.Selecting.{ArePositions};
ghost use Rattle.warc_lent.specs.Buffers.{KeepsAfter};
ghost use Rattle.warc_lent.specs.Problems.{problem_of_out};
ghost use Rattle.warc_lent.specs.Selections.{AreChosen, AreClosedChoice, AreNamedPositions, IsNoChoice};
ghost use Rattle.warc_lent.specs.Texts.{IsUnreadable, PutsSome};

use crate::buffers::put_positions;
use crate::problem::Problem;
use std::alloc::{AllocError, Allocator};
use warc::Archive;
use warc_frame::{OutFault, SliceSource, Source};

/// Positions in ascending order, each once.
fn ascending<A: Allocator>(alloc: A, positions: &[usize]) -> Result<Vec<usize, A>, AllocError>
    ensures rises { IfOk result (λ sorted. IsStrictlyIncreasing sorted.items) }
    ensures each { IfOk result (λ sorted. (p : ℕ) → Contains sorted.items p ↔ Contains positions.now p) }
{
    let mut sorted = Vec::from_slice(alloc, positions)?;
    sorted.sort_unstable();
    sorted.dedup();
    Ok(sorted)
}

/// Whether all positions are below a count.
fn are_below(positions: &[usize], count: usize) -> bool
    ensures { IsTrue result ↔ All (λ p. p < count) positions.now }
{
    positions.iter().all(|position| *position < count)
}

/// The positions that are named, in ascending order, each once.
fn named<A: Allocator>(
    alloc: A,
    count: usize,
    positions: &[usize],
) -> Result<Vec<usize, A>, Problem>
    ensures named { IfOk result (λ named. AreNamedPositions count positions.now named.items) }
    ensures below { OnOk result (All (λ p. p < count) positions.now) }
    ensures refused { IfErr result (IsNoChoice count positions.now) }
{
    if !are_below(positions, count) {
        return Err(Problem::NoRecord);
    }
    match ascending(alloc, positions) {
        Ok(sorted) => Ok(sorted),
        Err(_) => Err(Problem::Memory),
    }
}

/// The positions of the records that are named, or of all others.
fn chosen<S: Source, A: Allocator + Copy>(
    alloc: A,
    archive: &Archive<S, A>,
    positions: &[usize],
    except: bool,
) -> Result<Vec<usize, A>, Problem>
    ensures chosen { IfOk result (λ chosen.
        AreChosen except (length archive.now.listing.rows) positions.now chosen.items) }
    ensures below { OnOk result (All (λ p. p < length archive.now.listing.rows) positions.now) }
    ensures refused { IfErr result (IsNoChoice (length archive.now.listing.rows) positions.now) }
{
    let named = named(alloc, archive.count(), positions)?;
    if !except {
        return Ok(named);
    }
    match archive.others(&named) {
        Ok(others) => Ok(others),
        Err(_) => Err(Problem::Memory),
    }
}

/// Puts the positions of the records that a selection writes, as many as there is room for: of those at positions, or
/// with `except` of all others. The given positions are in any order. The answer is how many there are; they ascend,
/// each once. What follows in the buffer stays.
pub fn put_chosen<S: Source, A: Allocator + Copy>(
    alloc: A,
    archive: &Archive<S, A>,
    positions: &[usize],
    except: bool,
    out: &mut [usize],
) -> Result<usize, Problem>
    ensures chosen { IfOk result (λ number.
        PutsSome (AreChosen except (length archive.now.listing.rows) positions.now) number out.new) }
    ensures below { OnOk result (All (λ p. p < length archive.now.listing.rows) positions.now) }
    ensures refused { IfErr result (IsNoChoice (length archive.now.listing.rows) positions.now) }
    ensures rest { IfOk result (λ number. KeepsAfter number out.old out.new) }
    ensures same { OnErr result (out.new ≡ out.old) }
    ensures room { length out.new ≡ length out.old }
{
    match chosen(alloc, archive, positions, except) {
        Ok(chosen) => Ok(put_positions(chosen.as_slice(), out)),
        Err(problem) => Err(problem),
    }
}

/// The positions of what is needed by records at these positions, or of all records that need none of them.
fn closure<A: Allocator + Copy>(
    archive: &mut Archive<SliceSource<'_>, A>,
    positions: &[usize],
    except: bool,
) -> Result<Vec<usize, A>, OutFault>
    requires ascending { ArePositions (length archive.old.listing.rows) positions.now }
    ensures closed { (is : IsIndexed archive.old.listing.source.bytes archive.old) → IfOk result (λ closed.
        AreClosedChoice except (records_read is.listed.are.records) positions.now closed.items) }
    ensures memory { IsIndexed archive.old.listing.source.bytes archive.old →
        IfErr result (λ fault. problem_of_out fault ≡ Problem.Memory) }
    ensures unchanged { IsUnchanged archive.old archive.new }
    ensures bytes { archive.new.listing.source.bytes ≡ archive.old.listing.source.bytes }
{
    if except {
        archive.closed_others(positions)
    } else {
        archive.closed(positions)
    }
}

/// Puts the positions of the records that a closed selection writes, in the same way: of those at positions and of all
/// that they need, or with `except` of all that need none of them. `Changed`: the source's bytes aren't the archive's.
pub fn put_closed<A: Allocator + Copy>(
    alloc: A,
    archive: &mut Archive<SliceSource<'_>, A>,
    positions: &[usize],
    except: bool,
    out: &mut [usize],
) -> Result<usize, Problem>
    ensures closed { (is : IsIndexed archive.old.listing.source.bytes archive.old) → IfOk result (λ number.
        PutsSome (AreClosedChoice except (records_read is.listed.are.records) positions.now) number out.new) }
    ensures below { OnOk result (All (λ p. p < length archive.old.listing.rows) positions.now) }
    ensures refused { IfErr result (λ problem.
        IsUnreadable problem ⊎ IsNoChoice (length archive.old.listing.rows) positions.now problem) }
    ensures memory { IsIndexed archive.old.listing.source.bytes archive.old →
        IfErr result (IsNoChoice (length archive.old.listing.rows) positions.now) }
    ensures rest { IfOk result (λ number. KeepsAfter number out.old out.new) }
    ensures same { OnErr result (out.new ≡ out.old) }
    ensures room { length out.new ≡ length out.old }
    ensures unchanged { IsUnchanged archive.old archive.new }
    ensures bytes { archive.new.listing.source.bytes ≡ archive.old.listing.source.bytes }
{
    let named = match named(alloc, archive.count(), positions) {
        Ok(named) => named,
        Err(problem) => return Err(problem),
    };
    match closure(archive, &named, except) {
        Ok(closed) => Ok(put_positions(closed.as_slice(), out)),
        Err(fault) => Err(Problem::from(fault)),
    }
}
