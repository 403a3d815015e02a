//! What is kept of records, and which records there are.
ghost use Rattle.std.specs.Prelude.{◌≡◌, false};
ghost use Rattle.warc_lent.specs.Buffers.{KeepsAfter};
ghost use Rattle.warc_lent.specs.Problems.{IsMemory, IsNoRecord, IsNotGiven};
ghost use Rattle.warc_c.specs.Answered.{AnswersBy, IsAnswered, IsVerdictReported};

use crate::problems::{number_or_report, report, verdict_or_report};
use std::alloc::Global;
use warc_handle::WarcArchive;
use warc_lent::{
    Numbers, Problem, RowNumbers, payload_verdict_at, put_captures, put_row, stated_verdict_at,
    verdict_at,
};

/// How many records there are; 0 where no archive is open.
#[unsafe(no_mangle)]
pub extern "C" fn warc_rt_count(alloc: Global, handle: &mut WarcArchive) -> usize
    ensures closed { handle.old.is_open ≡ false → result ≡ 0 }
    ensures stays { handle.new.is_open ≡ handle.old.is_open }
{
    let Some(archive) = handle.take(alloc) else {
        return 0;
    };
    let count = archive.count();
    handle.put(archive, alloc);
    count
}

/// What is kept of the record at a position, and its texts, as much as there is room for. The answer is the length of
/// the texts.
#[tactic(auto, using(crate::proofs::ClosedLemmas::no_number))]
#[unsafe(no_mangle)]
pub extern "C" fn warc_rt_row(
    alloc: Global,
    handle: &mut WarcArchive,
    position: usize,
    row: &mut RowNumbers,
    texts: &mut [u8],
    problem: &mut Numbers,
) -> usize
    ensures answers { AnswersBy IsAnswered IsNoRecord handle.old.is_open result problem.old problem.new }
    ensures stays { handle.new.is_open ≡ handle.old.is_open }
{
    let Some(archive) = handle.take(alloc) else {
        report(Problem::NotOpen, problem);
        return 0;
    };
    let answer = put_row(&archive, position, row, texts);
    handle.put(archive, alloc);
    number_or_report(answer, problem)
}

/// How the block of the record at a position compares with its digest, if that is SHA-1 in base32: 0 good, 1 bad, 2
/// unchecked, or 2 and a problem.
#[tactic(auto, using(crate::proofs::ClosedLemmas::no_verdict))]
#[unsafe(no_mangle)]
pub extern "C" fn warc_rt_verdict(
    alloc: Global,
    handle: &mut WarcArchive,
    position: usize,
    problem: &mut Numbers,
) -> u32
    ensures answers { AnswersBy IsVerdictReported IsNotGiven handle.old.is_open result problem.old problem.new }
    ensures stays { handle.new.is_open ≡ handle.old.is_open }
{
    let Some(mut archive) = handle.take(alloc) else {
        return verdict_or_report(Err(Problem::NotOpen), problem);
    };
    let answer = verdict_at(&mut archive, position);
    handle.put(archive, alloc);
    verdict_or_report(answer, problem)
}

/// How the block of the record at a position compares with the digest that its head states: 0 good, 1 bad, 2 unchecked,
/// or 2 and a problem.
#[tactic(auto, using(crate::proofs::ClosedLemmas::no_verdict))]
#[unsafe(no_mangle)]
pub extern "C" fn warc_rt_stated_verdict(
    alloc: Global,
    handle: &mut WarcArchive,
    position: usize,
    problem: &mut Numbers,
) -> u32
    ensures answers { AnswersBy IsVerdictReported IsNotGiven handle.old.is_open result problem.old problem.new }
    ensures stays { handle.new.is_open ≡ handle.old.is_open }
{
    let Some(mut archive) = handle.take(alloc) else {
        return verdict_or_report(Err(Problem::NotOpen), problem);
    };
    let answer = stated_verdict_at(&mut archive, position);
    handle.put(archive, alloc);
    verdict_or_report(answer, problem)
}

/// How the payload of the record at a position compares with the digest that its head states: 0 good, 1 bad, from 3 on
/// unchecked, by the reason, and 2 if no digest is stated, or 2 and a problem.
#[tactic(auto, using(crate::proofs::ClosedLemmas::no_verdict))]
#[unsafe(no_mangle)]
pub extern "C" fn warc_rt_payload_verdict(
    alloc: Global,
    handle: &mut WarcArchive,
    position: usize,
    problem: &mut Numbers,
) -> u32
    ensures answers { AnswersBy IsVerdictReported IsNotGiven handle.old.is_open result problem.old problem.new }
    ensures stays { handle.new.is_open ≡ handle.old.is_open }
{
    let Some(mut archive) = handle.take(alloc) else {
        return verdict_or_report(Err(Problem::NotOpen), problem);
    };
    let answer = payload_verdict_at(&mut archive, position);
    handle.put(archive, alloc);
    verdict_or_report(answer, problem)
}

/// Puts the positions of the captures of a URI, by instant and then by position, as many as there is room for. The
/// answer is how many there are. What follows in the buffer stays.
#[tactic(auto, using(crate::proofs::RestLemmas::rest_stays, crate::proofs::ClosedLemmas::no_number))]
#[unsafe(no_mangle)]
pub extern "C" fn warc_rt_captures(
    alloc: Global,
    handle: &mut WarcArchive,
    uri: &[u8],
    positions: &mut [usize],
    problem: &mut Numbers,
) -> usize
    ensures answers { AnswersBy IsAnswered IsMemory handle.old.is_open result problem.old problem.new }
    ensures rest { KeepsAfter result positions.old positions.new }
    ensures stays { handle.new.is_open ≡ handle.old.is_open }
{
    let Some(archive) = handle.take(alloc) else {
        report(Problem::NotOpen, problem);
        return 0;
    };
    let answer = put_captures(&archive, uri, positions);
    handle.put(archive, alloc);
    number_or_report(answer, problem)
}
