//! Runs in which each read, each write or each request for memory fails in turn.

use crate::lines::say_count;
use crate::runs::{Asked, Ended, Refused, run_broken, run_cut, run_in_pieces, run_refused};
use crate::salvaged::{good_in, is_salvaged};
use std::alloc::{AllocError, Global};
use warc_commands::{Command, Status};
use warc_vectors::Break;

/// More failures than any run of the suites has.
pub(crate) const MOST: u64 = 5000;

/// How far a run came of which a read or a request for memory failed.
#[derive(Clone, Copy)]
pub(crate) enum Stage {
    /// The archive wasn't open.
    Opening,
    /// It was, and some of the output may be out.
    Following,
    /// It ended as if none had failed.
    Done,
    /// It ended otherwise.
    Otherwise,
}

/// Whether a run failed after the opening: what went out is the front of the whole, and the line reports this, and how
/// many bytes that has.
fn is_cut(alloc: Global, ended: &Ended, whole: &Ended, reported: &str) -> Result<bool, AllocError> {
    let line = format!(in alloc; "warc: {reported} after {}\n", ended.out.len())?;
    let is_front = whole.out.starts_with(&ended.out);
    Ok(is_front && ended.err.as_slice() == line.as_bytes() && ended.status == Status::Failed)
}

/// Whether a run failed before anything went out, and reports a line that begins so.
fn is_begun(ended: &Ended, line: &[u8]) -> bool {
    ended.out.is_empty() && ended.err.starts_with(line) && ended.status == Status::Failed
}

/// Whether a run failed since the read of the bytes from an offset on did, before the archive was open. Then nothing
/// went out, or, if the run salvages, the good records before that offset.
fn is_unopened(
    alloc: Global,
    asked: Asked<'_>,
    ended: &Ended,
    at: u64,
) -> Result<bool, AllocError> {
    let fault = format!(in alloc; "F13 Read at {at}")?;
    if let Command::Salvage { all: false } = asked.command {
        let records = good_in(alloc, asked.archive, at as usize);
        return is_salvaged(alloc, ended, &fault, records);
    }
    let line = format!(in alloc; "warc: {fault}\n")?;
    Ok(is_begun(ended, line.as_bytes()))
}

/// How far a run came that ended otherwise than the whole, since a read failed. That asked for the bytes from an offset
/// on if the archive wasn't open.
fn stage_of(
    alloc: Global,
    asked: Asked<'_>,
    ended: &Ended,
    whole: &Ended,
    at: u64,
) -> Result<Stage, AllocError> {
    Ok(if is_cut(alloc, ended, whole, "read failed")? {
        Stage::Following
    } else if is_unopened(alloc, asked, ended, at)? {
        Stage::Opening
    } else {
        Stage::Otherwise
    })
}

/// How far a run comes if the read with this number fails. An archive is opened by reads of `most` bytes, each from
/// where the one before ended.
fn stage_at(
    alloc: Global,
    asked: Asked<'_>,
    whole: &Ended,
    most: usize,
    number: u64,
) -> Result<Stage, AllocError> {
    let (ended, again) = run_broken(alloc, asked, most, number)?;
    if ended.is_like(whole) {
        return Ok(Stage::Done);
    }
    if !again.is_like(whole) {
        return Ok(Stage::Otherwise);
    }
    let at = (most as u64).saturating_mul(number.saturating_sub(1));
    let end = asked.archive.len() as u64;
    stage_of(alloc, asked, &ended, whole, at.min(end))
}

/// How many reads fail in turn while the archive is opened, and how many after that. Nothing where a run ends
/// otherwise.
fn count_reads(
    alloc: Global,
    asked: Asked<'_>,
    whole: &Ended,
    most: usize,
) -> Result<Option<(u64, u64)>, AllocError> {
    let (mut opening, mut following) = (0u64, 0u64);
    for number in 1..MOST {
        match stage_at(alloc, asked, whole, most, number)? {
            Stage::Opening if following == 0 => opening = opening.saturating_add(1),
            Stage::Following => following = following.saturating_add(1),
            Stage::Done => return Ok(Some((opening, following))),
            Stage::Opening | Stage::Otherwise => return Ok(None),
        }
    }
    Ok(None)
}

/// Reports how many reads of `most` bytes fail in turn, until none fails.
pub(crate) fn say_reads(
    alloc: Global,
    asked: Asked<'_>,
    most: usize,
    answer: &mut Vec<u8>,
) -> Result<(), AllocError> {
    let whole = run_in_pieces(alloc, asked, usize::MAX)?;
    match count_reads(alloc, asked, &whole, most)? {
        Some((opening, following)) => {
            say_count(alloc, opening, "while the archive is opened", answer)?;
            say_count(alloc, following, "after that", answer)
        }
        None => answer.extend_from_slice(b"a run ends otherwise\n"),
    }
}

/// How far a run comes if the write with this number breaks, counted from 0, where each takes `most` bytes at most.
/// What went out before must be exactly what the writes took. The run after it must end as if none had broken.
fn stage_of_write(
    alloc: Global,
    asked: Asked<'_>,
    whole: &Ended,
    most: usize,
    (number, how): (u64, Break),
) -> Result<Stage, AllocError> {
    let at = (number.saturating_add(1), how);
    let (ended, again) = run_cut(alloc, asked, most, at)?;
    let sent = (most as u64).saturating_mul(number);
    Ok(if !again.is_like(whole) {
        Stage::Otherwise
    } else if is_cut(alloc, &ended, whole, "write failed")? && ended.out.len() as u64 == sent {
        Stage::Following
    } else if ended.is_like(whole) {
        Stage::Done
    } else {
        Stage::Otherwise
    })
}

/// How many writes break in turn and end the run. Nothing where a run ends otherwise.
fn count_writes(
    alloc: Global,
    asked: Asked<'_>,
    whole: &Ended,
    most: usize,
    how: Break,
) -> Result<Option<u64>, AllocError> {
    for number in 0..MOST {
        match stage_of_write(alloc, asked, whole, most, (number, how))? {
            Stage::Following => {}
            Stage::Done => return Ok(Some(number)),
            Stage::Opening | Stage::Otherwise => return Ok(None),
        }
    }
    Ok(None)
}

/// How many writes up to a number take one byte in turn, as do those after each, where the run ends as if none did.
fn count_short(
    alloc: Global,
    asked: Asked<'_>,
    whole: &Ended,
    most: usize,
    writes: u64,
) -> Result<u64, AllocError> {
    let mut count = 0u64;
    for number in 0..writes {
        let stage = stage_of_write(alloc, asked, whole, most, (number, Break::Takes(1)))?;
        count = count.saturating_add(u64::from(matches!(stage, Stage::Done)));
    }
    Ok(count)
}

/// Reports how many writes of `most` bytes fail in turn, take nothing and take one byte, until none does.
pub(crate) fn say_writes(
    alloc: Global,
    asked: Asked<'_>,
    most: usize,
    answer: &mut Vec<u8>,
) -> Result<(), AllocError> {
    let whole = run_in_pieces(alloc, asked, usize::MAX)?;
    let failing = count_writes(alloc, asked, &whole, most, Break::Fails)?;
    let empty = count_writes(alloc, asked, &whole, most, Break::Takes(0))?;
    match (failing, empty) {
        (Some(failing), Some(empty)) => {
            let short = count_short(alloc, asked, &whole, most, failing)?;
            let line = format!(in alloc;
                "{failing} writes fail, {empty} take nothing, {short} take one byte\n"
            )?;
            answer.extend_from_slice(line.as_bytes())
        }
        _ => answer.extend_from_slice(b"a run ends otherwise\n"),
    }
}

/// Whether a run of which a request for memory was refused reports so, and what went out is the front of the whole.
fn is_refused(alloc: Global, ended: &Ended, whole: &Ended) -> Result<bool, AllocError> {
    let is_unmade = is_begun(ended, b"warc: M4 Memory\n");
    let is_unopened = is_begun(ended, b"warc: F14 Memory at ");
    Ok(is_unmade || is_unopened || is_cut(alloc, ended, whole, "out of memory")?)
}

/// Adds the line that a run reported, where it isn't the last one.
fn say_line(line: Vec<u8>, last: &mut Vec<u8>, answer: &mut Vec<u8>) -> Result<(), AllocError> {
    if line.as_slice() != last.as_slice() {
        answer.extend_from_slice(b"! ")?;
        answer.extend_from_slice(&line)?;
        *last = line;
    }
    Ok(())
}

/// Reports the line of the run of which the request for memory of a number is refused, and whether there was such a
/// request. Where there was none, it is the run after it that may meet it.
fn say_request(
    alloc: Global,
    asked: Asked<'_>,
    whole: &Ended,
    number: u64,
    last: &mut Vec<u8>,
    answer: &mut Vec<u8>,
) -> Result<bool, AllocError> {
    let Refused {
        ended,
        has_refused,
        again,
    } = run_refused(alloc, asked, number)?;
    let is_again = !has_refused || again.is_like(whole);
    let is_like = is_again && ended.is_like(whole);
    if has_refused && is_like {
        say_count(alloc, number, "refused: nothing changes", answer)?;
    } else if has_refused && is_again && is_refused(alloc, &ended, whole)? {
        say_line(ended.err, last, answer)?;
    } else if !is_like {
        say_count(alloc, number, "refused: the run ends otherwise", answer)?;
    }
    Ok(has_refused)
}

/// Reports the lines of the runs in which each request for memory is refused in turn, until all are met: each line
/// once, where several runs in a row report it.
pub(crate) fn say_requests(
    alloc: Global,
    asked: Asked<'_>,
    answer: &mut Vec<u8>,
) -> Result<(), AllocError> {
    let whole = run_in_pieces(alloc, asked, usize::MAX)?;
    let mut last = Vec::new(alloc);
    for number in 1..MOST {
        if !say_request(alloc, asked, &whole, number, &mut last, answer)? {
            return Ok(());
        }
    }
    answer.extend_from_slice(b"there are more requests\n")
}

/// Whether a run refuses the request for memory of a number, and reports a line that begins so; nothing where there is
/// no such request.
fn reports_refusal(
    alloc: Global,
    asked: Asked<'_>,
    line: &[u8],
    number: u64,
) -> Result<Option<bool>, AllocError> {
    let run = run_refused(alloc, asked, number)?;
    if run.has_refused {
        Ok(Some(is_begun(&run.ended, line)))
    } else {
        Ok(None)
    }
}

/// How many requests for memory are refused in turn with a line that begins so; nothing where not all are met.
fn count_refusals(alloc: Global, asked: Asked<'_>, line: &[u8]) -> Result<Option<u64>, AllocError> {
    let mut count = 0u64;
    for number in 1..MOST {
        match reports_refusal(alloc, asked, line, number)? {
            Some(is_reported) => count = count.saturating_add(u64::from(is_reported)),
            None => return Ok(Some(count)),
        }
    }
    Ok(None)
}

/// Says whether as many requests are refused at the first record as while the archive of that record alone is opened.
pub(crate) fn say_as_alone(
    alloc: Global,
    asked: Asked<'_>,
    first: usize,
    answer: &mut Vec<u8>,
) -> Result<(), AllocError> {
    let count = count_refusals(alloc, asked, b"warc: F14 Memory at 0\n")?;
    let alone = Asked {
        archive: asked.archive.get(..first).unwrap_or(b""),
        ..asked
    };
    let wanted = count_refusals(alloc, alone, b"warc: F14 Memory at ")?;
    if count.is_some_and(|count| count > 0) && count == wanted {
        answer.extend_from_slice(b"as many\n")
    } else {
        answer.extend_from_slice(b"not as many\n")
    }
}
