//! Problems, as C sees them.
ghost use Rattle.std.specs.Prelude.{◌≡◌};
ghost use Rattle.warc_lent.specs.Buffers.{KeepsAfter};
ghost use Rattle.warc_lent.specs.Problems.{problem_numbers};
ghost use Rattle.warc_lent.specs.Texts.{IsProblemPut};
ghost use Rattle.warc_c.specs.Answered.{IsAnswered, IsFlagged, IsFaultReported, IsStopReported, IsThereReported, IsVerdictReported};

use std::alloc::Global;
use warc_frame::Fault;
use warc_lent::{Numbers, Problem, put_problem};

/// The version of what C sees: its calls, structs and numbers.
const ABI: u32 = 4;

/// Reports a problem.
pub(crate) fn report(problem: Problem, out: &mut Numbers)
    ensures { out.new ≡ problem_numbers problem }
{
    *out = problem.numbers();
}

/// Reports what stops a call, if something does.
pub(crate) fn report_stop(stop: Option<Problem>, out: &mut Numbers)
    ensures { IsStopReported stop out.old out.new }
{
    if let Some(problem) = stop {
        report(problem, out);
    }
}

/// Reports a fault, if there is one.
pub(crate) fn report_fault(fault: Option<Fault>, out: &mut Numbers)
    ensures { IsFaultReported fault out.old out.new }
{
    if let Some(fault) = fault {
        report(Problem::Fault(fault), out);
    }
}

/// The number that a call answers; 0 where there is a problem, which is reported.
pub(crate) fn number_or_report(answer: Result<usize, Problem>, out: &mut Numbers) -> usize
    ensures { IsAnswered answer result out.old out.new }
{
    match answer {
        Ok(number) => number,
        Err(problem) => {
            report(problem, out);
            0
        }
    }
}

/// Whether there is what a call puts. A problem is reported.
pub(crate) fn there_or_report(answer: Result<bool, Problem>, out: &mut Numbers) -> bool
    ensures { IsThereReported answer result out.old out.new }
{
    match answer {
        Ok(is_there) => is_there,
        Err(problem) => {
            report(problem, out);
            false
        }
    }
}

/// Whether a call did what it was asked for. A problem is reported.
pub(crate) fn done_or_report(answer: Result<(), Problem>, out: &mut Numbers) -> bool
    ensures { IsFlagged answer result out.old out.new }
{
    let answer = match answer {
        Ok(()) => Ok(true),
        Err(problem) => Err(problem),
    };
    there_or_report(answer, out)
}

/// The verdict that a call answers. A problem is reported, and the answer is 2, which says of a block that it is
/// unchecked, and of a payload that no digest of it is stated.
pub(crate) fn verdict_or_report(answer: Result<u32, Problem>, out: &mut Numbers) -> u32
    ensures { IsVerdictReported answer result out.old out.new }
{
    match answer {
        Ok(verdict) => verdict,
        Err(problem) => {
            report(problem, out);
            2
        }
    }
}

/// The version of what C sees.
#[unsafe(no_mangle)]
pub extern "C" fn warc_rt_abi_version() -> u32
    ensures { result ≡ 4 }
{
    ABI
}

/// Puts the text of a problem into a buffer, as much as there is room for, and answers its length; 0 where no problem
/// has these numbers.
#[unsafe(no_mangle)]
pub extern "C" fn warc_rt_problem_text(alloc: Global, problem: &Numbers, out: &mut [u8]) -> usize
    ensures put { IsProblemPut problem.now result out.old out.new }
    ensures rest { KeepsAfter result out.old out.new }
{
    put_problem(alloc, *problem, out)
}
