//! Texts that C asks for whole: listings, findings, and how blocks compare with their digests.
ghost use Rattle.std.specs.Prelude.{◌≡◌};
ghost use Rattle.warc_lent.specs.Problems.{IsMemory};
ghost use Rattle.warc_lent.specs.Texts.{IsUnreadable};
ghost use Rattle.warc_c.specs.Answered.{AnswersBy, AnswersFixity, IsAnswered};

use crate::problems::{number_or_report, report};
use std::alloc::Global;
use warc_handle::WarcArchive;
use warc_lent::{Numbers, Problem, put_check, put_fixity, put_list};

/// The lines that `warc list` writes.
#[tactic(auto, using(crate::proofs::ClosedLemmas::no_number))]
#[unsafe(no_mangle)]
pub extern "C" fn warc_rt_list(
    alloc: Global,
    handle: &mut WarcArchive,
    out: &mut [u8],
    problem: &mut Numbers,
) -> usize
    ensures answers { AnswersBy IsAnswered IsMemory handle.old.is_open result problem.old problem.new }
    ensures stays { handle.new.is_open ≡ handle.old.is_open }
{
    let Some(archive) = handle.take(alloc) else {
        report(Problem::NotOpen, problem);
        return 0;
    };
    let answer = put_list(alloc, &archive, out);
    handle.put(archive, alloc);
    number_or_report(answer, problem)
}

/// The lines that `warc check` writes.
#[tactic(auto, using(crate::proofs::ClosedLemmas::no_number))]
#[unsafe(no_mangle)]
pub extern "C" fn warc_rt_check(
    alloc: Global,
    handle: &mut WarcArchive,
    out: &mut [u8],
    problem: &mut Numbers,
) -> usize
    ensures answers { AnswersBy IsAnswered IsUnreadable handle.old.is_open result problem.old problem.new }
    ensures stays { handle.new.is_open ≡ handle.old.is_open }
{
    let Some(mut archive) = handle.take(alloc) else {
        report(Problem::NotOpen, problem);
        return 0;
    };
    let answer = put_check(alloc, &mut archive, out);
    handle.put(archive, alloc);
    number_or_report(answer, problem)
}

/// The lines that `warc fixity` writes of an archive of these bytes.
#[unsafe(no_mangle)]
pub extern "C" fn warc_rt_fixity(
    alloc: Global,
    bytes: &[u8],
    out: &mut [u8],
    problem: &mut Numbers,
) -> usize
    ensures { AnswersFixity bytes.now result out.old out.new problem.old problem.new }
{
    let answer = put_fixity(alloc, bytes, out);
    number_or_report(answer, problem)
}
