//! How a call ends.
ghost use Rattle.std.specs.Prelude.{◌≡◌, length};
ghost use Rattle.warc_page.specs.Shown.{EndsBy, EndsWith, wants_memory};

use crate::shapes::{DONE, MEMORY, PageOutcome, REFUSED};
use std::alloc::Allocator;
use warc_frame::FaultKind;
use warc_lent::{Problem, problem_text, put_text};

/// How a call ends, with a text of this length.
pub(crate) fn ended(state: u64, length: usize) -> PageOutcome
    ensures { result ≡ record { state = state; length = length } }
{
    PageOutcome {
        state,
        length: length as u64,
    }
}

/// Returns whether memory ran out.
fn wants_memory(problem: Problem) -> bool
    ensures { result ≡ wants_memory problem }
{
    match problem {
        Problem::Fault(fault) => matches!(fault.kind, FaultKind::Memory),
        Problem::Memory => true,
        _ => false,
    }
}

/// Puts the text of a problem into a buffer, as far as there is room, and says how the call ends. If memory ran out,
/// there is no text.
pub(crate) fn end_by<A: Allocator>(alloc: A, problem: Problem, out: &mut [u8]) -> PageOutcome
    ensures ends { EndsBy problem result.state result.length out.new }
    ensures room { length out.new ≡ length out.old }
{
    if wants_memory(problem) {
        return ended(MEMORY, 0);
    }
    match problem_text(alloc, problem) {
        Ok(text) => ended(REFUSED, put_text(text.as_slice(), out)),
        Err(_) => ended(MEMORY, 0),
    }
}

/// How a call ends: with a number of spans or pieces, or with a problem.
pub(crate) fn end_with<A: Allocator>(
    alloc: A,
    answer: Result<usize, Problem>,
    text: &mut [u8],
) -> PageOutcome
    ensures { EndsWith answer result text.new }
{
    match answer {
        Ok(count) => ended(DONE, count),
        Err(problem) => end_by(alloc, problem, text),
    }
}
