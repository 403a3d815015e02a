//! Where bodies lie, and what is said of them.
ghost use Rattle.std.specs.Prelude.{◌≡◌, true, Err, None};
ghost use Rattle.warc_value.specs.Dates.{instant_of};
ghost use Rattle.warc_lent.specs.Bodies.{IsNoBody, IsNoReplay};
ghost use Rattle.warc_lent.specs.Buffers.{KeepsAfter};
ghost use Rattle.warc_c.specs.Answered.{AnswersBy, IsAnswered};

use crate::problems::{number_or_report, report};
use std::alloc::Global;
use warc_handle::WarcArchive;
use warc_lent::{AnswerNumbers, Numbers, Problem, SpanNumbers, put_body, put_replay};

/// The body for a URI as of a date: what is said of it, and its spans, as many as there is room for. The answer is how
/// many there are. What follows in the buffer stays.
#[tactic(auto, using(crate::proofs::RestLemmas::rest_stays, crate::proofs::ClosedLemmas::no_number))]
#[unsafe(no_mangle)]
pub extern "C" fn warc_rt_replay(
    alloc: Global,
    handle: &mut WarcArchive,
    uri: &[u8],
    date: &[u8],
    answer: &mut AnswerNumbers,
    spans: &mut [SpanNumbers],
    problem: &mut Numbers,
) -> usize
    ensures answers { AnswersBy IsAnswered (IsNoReplay (instant_of date.now)) handle.old.is_open result problem.old
        problem.new }
    ensures dated { handle.old.is_open ≡ true → instant_of date.now ≡ None →
        IsAnswered (Err Problem.BadDate) result problem.old problem.new }
    ensures rest { KeepsAfter result spans.old spans.new }
    ensures stays { handle.new.is_open ≡ handle.old.is_open }
{
    let Some(mut archive) = handle.take(alloc) else {
        report(Problem::NotOpen, problem);
        return 0;
    };
    let count = put_replay(&mut archive, uri, date, answer, spans);
    handle.put(archive, alloc);
    number_or_report(count, problem)
}

/// The body that the capture at a position gives, in the same way.
#[tactic(auto, using(crate::proofs::RestLemmas::rest_stays, crate::proofs::ClosedLemmas::no_number))]
#[unsafe(no_mangle)]
pub extern "C" fn warc_rt_body(
    alloc: Global,
    handle: &mut WarcArchive,
    position: usize,
    answer: &mut AnswerNumbers,
    spans: &mut [SpanNumbers],
    problem: &mut Numbers,
) -> usize
    ensures answers { AnswersBy IsAnswered IsNoBody handle.old.is_open result problem.old problem.new }
    ensures rest { KeepsAfter result spans.old spans.new }
    ensures stays { handle.new.is_open ≡ handle.old.is_open }
{
    let Some(mut archive) = handle.take(alloc) else {
        report(Problem::NotOpen, problem);
        return 0;
    };
    let count = put_body(&mut archive, position, answer, spans);
    handle.put(archive, alloc);
    number_or_report(count, problem)
}
