//! Archives over bytes that have become more.
ghost use Rattle.std.specs.Prelude.{◌≡◌, ◌⊎◌, ◌++◌, ℕ, List, true, false, IfErr, OnErr, OnOk, Err};
ghost use Rattle.warc_lookup.specs.Indexed.{IsIndexed};
ghost use Rattle.warc_lent.specs.Growing.{IsUngrown, begins_alike, last_head, part};
ghost use Rattle.warc_lent.specs.Texts.{IsRefusedFor};

use crate::problem::Problem;
use std::alloc::Allocator;
use warc::Archive;
use warc_frame::{SliceSource, Source};

/// Where the head of the last record begins and ends; 0 and 0 where there is none.
fn last_head<S: Source, A: Allocator>(archive: &Archive<S, A>) -> (u64, u64)
    ensures { result ≡ last_head archive.now.listing.rows }
{
    let count = archive.count();
    if count == 0 {
        return (0, 0);
    }
    match archive.row(count - 1) {
        Some(row) => (row.offset, row.block_start),
        None => (0, 0),
    }
}

/// The bytes of a text from an offset to another, as far as there are any.
fn part(from: u64, to: u64, text: &[u8]) -> &[u8]
    ensures { result.now ≡ part from to text.now }
{
    let to = text.len().min(to as usize);
    let from = to.min(from as usize);
    &text[from..to]
}

/// Whether bytes may be those that an archive has become: they aren't fewer, and the head of its last record is there,
/// byte for byte.
pub fn begins_alike<S: Source, A: Allocator>(
    archive: &Archive<S, A>,
    old: &[u8],
    new: &[u8],
) -> bool
    ensures { result ≡ begins_alike archive.now.listing.rows old.now new.now }
{
    if new.len() < old.len() {
        return false;
    }
    let (from, to) = last_head(archive);
    part(from, to, old) == part(from, to, new)
}

/// Reads on in bytes that begin with those of an archive, where it stopped, and has these from then on. Bytes that are
/// fewer than the old ones, or that have other bytes where the head of the last record was, are `Changed`. What the old
/// bytes hold before that head isn't compared. Old bytes with more after them are refused for the first fault of the
/// whole, or since memory ran out. A refusal leaves the archive as it was.
pub fn grow_lent<'a, A: Allocator + Copy>(
    archive: &mut Archive<SliceSource<'a>, A>,
    old: &[u8],
    new: &'a [u8],
) -> Result<(), Problem>
    ensures changed { begins_alike archive.old.listing.rows old.now new.now ≡ false → result ≡ Err Problem.Changed }
    ensures refused { IfErr result (IsUngrown archive.old.listing.rows old.now new.now) }
    ensures whole { (more : List ℕ) → new.now ≡ old.now ++ more → IsIndexed old.now archive.old →
        IfErr result (λ problem. (problem ≡ Problem.Changed) ⊎ IsRefusedFor new.now problem) }
    ensures grown { (more : List ℕ) → new.now ≡ old.now ++ more → IsIndexed old.now archive.old →
        OnOk result (IsIndexed new.now archive.new) }
    ensures same { OnErr result (archive.new.listing ≡ archive.old.listing) }
    ensures stays { (bytes : List ℕ) → IsIndexed bytes archive.old → OnErr result (IsIndexed bytes archive.new) }
{
    if !begins_alike(archive, old, new) {
        return Err(Problem::Changed);
    }
    match archive.grow(SliceSource::new(new)) {
        Ok(()) => Ok(()),
        Err((fault, _source)) => Err(Problem::Fault(fault)),
    }
}
