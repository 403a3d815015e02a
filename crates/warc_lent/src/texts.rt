//! Texts that callers ask for whole.
ghost use Rattle.std.specs.Prelude.{◌≡◌, length, IfErr, IfOk, OnErr};
ghost use Rattle.warc_judged.specs.Listing.{listing};
ghost use Rattle.warc_checking.specs.Checking.{check_text};
ghost use Rattle.warc_reading.specs.Archive.{IsArchiveOf, contents};
ghost use Rattle.warc_lookup.specs.Indexed.{IsUnchanged};
ghost use Rattle.warc_lent.specs.Buffers.{KeepsAfter};
ghost use Rattle.warc_lent.specs.Problems.{IsMemory, problem_result, problem_text};
ghost use Rattle.warc_frame.specs.Effects.{FailsBy, Preserves};
ghost use Rattle.warc_frame.specs.Seen.{IfHeld};
ghost use Rattle.warc_lent.specs.Texts.{AreFindingsOf, IsFindingsOf, IsFixityOf, IsProblemPut, IsTextPut, IsRefusedFor, IsUnreadable, PutsFindings, PutsFixity};

use crate::buffers::put_text;
use crate::problem::{Numbers, Problem};
use std::alloc::{AllocError, Allocator};
use warc::{Archive, Checked, Fixity};
use warc_frame::{MemSink, SliceSource, Source};

/// The text of a problem.
pub fn problem_text<A: Allocator>(alloc: A, problem: Problem) -> Result<Vec<u8, A>, AllocError>
    ensures { IfOk result (λ text. text.items ≡ problem_text problem) }
{
    Ok(format!(in alloc; "{problem}")?.into_bytes())
}

/// The lines that `warc list` writes of an archive.
pub fn list_text<A: Allocator + Copy, S: Source>(
    alloc: A,
    archive: &Archive<S, A>,
) -> Result<Vec<u8, A>, Problem>
    ensures lines { IfOk result (λ text. text.items ≡ listing archive.now.listing.rows) }
    ensures memory { IfErr result IsMemory }
{
    let mut lines = MemSink::new(Vec::new(alloc));
    archive.list(&mut lines)?;
    Ok(lines.into_inner())
}

/// The lines that `warc check` writes of an archive.
pub fn check_text<A: Allocator + Copy, S: Source>(
    alloc: A,
    archive: &mut Archive<S, A>,
) -> Result<Vec<u8, A>, Problem>
    ensures findings { IfOk result (λ text. IfHeld (S.seen archive.old.listing.source).holds (λ bytes. IsFindingsOf
        archive.old.listing.rows bytes text.items)) }
    ensures refused { IfErr result IsUnreadable }
    ensures unchanged { IsUnchanged archive.old archive.new }
    ensures keeps { Preserves (S.seen archive.old.listing.source) (S.seen archive.new.listing.source) }
    ensures fails { FailsBy (λ bytes. IsArchiveOf bytes archive.old.listing.rows) (problem_result result)
        (S.seen archive.old.listing.source) (S.seen archive.new.listing.source) }
{
    let mut lines = MemSink::new(Vec::new(alloc));
    archive.check(&mut lines)?;
    Ok(lines.into_inner())
}

/// The lines that `warc fixity` writes of these bytes.
pub fn fixity_text<A: Allocator + Copy>(alloc: A, bytes: &[u8]) -> Result<Vec<u8, A>, Problem>
    ensures lines { IfOk result (λ text. IsFixityOf bytes.now text.items) }
    ensures refused { IfErr result (IsRefusedFor bytes.now) }
{
    let fixity = match Fixity::open(alloc, SliceSource::new(bytes)) {
        Ok(fixity) => fixity,
        Err((fault, _source)) => return Err(Problem::Fault(fault)),
    };
    let mut lines = MemSink::new(Vec::new(alloc));
    fixity.list(&mut lines)?;
    Ok(lines.into_inner())
}

/// The lines that `warc check` writes of these bytes.
pub fn findings_text<A: Allocator + Copy>(alloc: A, bytes: &[u8]) -> Result<Vec<u8, A>, Problem>
    ensures lines { IfOk result (λ text. AreFindingsOf bytes.now text.items) }
    ensures refused { IfErr result (IsRefusedFor bytes.now) }
{
    let checked = match Checked::open(alloc, SliceSource::new(bytes)) {
        Ok(checked) => checked,
        Err((fault, _source)) => return Err(Problem::Fault(fault)),
    };
    let mut lines = MemSink::new(Vec::new(alloc));
    checked.check(&mut lines)?;
    Ok(lines.into_inner())
}

/// Puts the text of the problem with these numbers, as far as there is room, and answers its length; 0 where no problem
/// has these numbers, or memory runs out.
pub fn put_problem<A: Allocator>(alloc: A, numbers: Numbers, out: &mut [u8]) -> usize
    ensures put { IsProblemPut numbers result out.old out.new }
    ensures rest { KeepsAfter result out.old out.new }
    ensures room { length out.new ≡ length out.old }
{
    let Some(problem) = Problem::of(numbers) else {
        return 0;
    };
    match problem_text(alloc, problem) {
        Ok(text) => put_text(text.as_slice(), out),
        Err(_) => 0,
    }
}

/// Puts the lines that `warc list` writes of an archive, as far as there is room, and answers their length.
pub fn put_list<A: Allocator + Copy, S: Source>(
    alloc: A,
    archive: &Archive<S, A>,
    out: &mut [u8],
) -> Result<usize, Problem>
    ensures lines { IfOk result (λ answered. IsTextPut (listing archive.now.listing.rows) answered out.new) }
    ensures memory { IfErr result IsMemory }
    ensures rest { IfOk result (λ answered. KeepsAfter answered out.old out.new) }
    ensures same { OnErr result (out.new ≡ out.old) }
    ensures room { length out.new ≡ length out.old }
{
    match list_text(alloc, archive) {
        Ok(text) => Ok(put_text(text.as_slice(), out)),
        Err(problem) => Err(problem),
    }
}

/// Puts the lines that `warc check` writes of an archive, as far as there is room, and answers their length.
pub fn put_check<A: Allocator + Copy, S: Source>(
    alloc: A,
    archive: &mut Archive<S, A>,
    out: &mut [u8],
) -> Result<usize, Problem>
    ensures findings { IfOk result (λ answered. IfHeld (S.seen archive.old.listing.source).holds (λ bytes.
        (is : IsArchiveOf bytes archive.old.listing.rows) → IsTextPut (check_text (contents is.are.records)) answered
        out.new)) }
    ensures rest { IfOk result (λ answered. KeepsAfter answered out.old out.new) }
    ensures same { OnErr result (out.new ≡ out.old) }
    ensures room { length out.new ≡ length out.old }
    ensures refused { IfErr result IsUnreadable }
    ensures unchanged { IsUnchanged archive.old archive.new }
    ensures keeps { Preserves (S.seen archive.old.listing.source) (S.seen archive.new.listing.source) }
    ensures fails { FailsBy (λ bytes. IsArchiveOf bytes archive.old.listing.rows) (problem_result result)
        (S.seen archive.old.listing.source) (S.seen archive.new.listing.source) }
{
    match check_text(alloc, archive) {
        Ok(text) => Ok(put_text(text.as_slice(), out)),
        Err(problem) => Err(problem),
    }
}

/// Puts the lines that `warc fixity` writes of these bytes, as far as there is room, and answers their length.
pub fn put_fixity<A: Allocator + Copy>(
    alloc: A,
    bytes: &[u8],
    out: &mut [u8],
) -> Result<usize, Problem>
    ensures puts { PutsFixity bytes.now result out.old out.new }
    ensures rest { IfOk result (λ answered. KeepsAfter answered out.old out.new) }
    ensures room { length out.new ≡ length out.old }
{
    match fixity_text(alloc, bytes) {
        Ok(text) => Ok(put_text(text.as_slice(), out)),
        Err(problem) => Err(problem),
    }
}

/// Puts the lines that `warc check` writes of these bytes, as far as there is room, and answers their length.
pub fn put_findings<A: Allocator + Copy>(
    alloc: A,
    bytes: &[u8],
    out: &mut [u8],
) -> Result<usize, Problem>
    ensures puts { PutsFindings bytes.now result out.old out.new }
    ensures rest { IfOk result (λ answered. KeepsAfter answered out.old out.new) }
    ensures room { length out.new ≡ length out.old }
{
    match findings_text(alloc, bytes) {
        Ok(text) => Ok(put_text(text.as_slice(), out)),
        Err(problem) => Err(problem),
    }
}
