//! Runs that salvage an archive, in which each read or each request for memory fails in turn.

use crate::runs::{Asked, Ended, Refused, run_in_pieces, run_refused};
use crate::salvaged::{good_in, is_salvaged};
use crate::turns::{MOST, Stage, say_reads};
use std::alloc::{AllocError, Global};
use suites_script::Case;
use warc_commands::Command;

/// The command that salvages.
const SALVAGE: Command<'static> = Command::Salvage { all: false };

/// How far the run comes of which the request for memory of a number is refused. It wrote the records before the one
/// for which memory was wanted.
fn stage_refused(
    alloc: Global,
    asked: Asked<'_>,
    whole: &Ended,
    number: u64,
) -> Result<Stage, AllocError> {
    let Refused {
        ended,
        has_refused,
        again,
    } = run_refused(alloc, asked, number)?;
    if !has_refused {
        let is_done = ended.is_like(whole);
        return Ok(if is_done {
            Stage::Done
        } else {
            Stage::Otherwise
        });
    }
    let end = ended.out.len();
    let fault = format!(in alloc; "F14 Memory at {end}")?;
    let records = good_in(alloc, asked.archive, end);
    Ok(if is_salvaged(alloc, &ended, &fault, records)? && again.is_like(whole) {
        Stage::Opening
    } else {
        Stage::Otherwise
    })
}

/// How many requests for memory are refused in turn, until all are met. Nothing where a run ends otherwise, or more are
/// to come.
fn count_refused(
    alloc: Global,
    asked: Asked<'_>,
    whole: &Ended,
) -> Result<Option<u64>, AllocError> {
    for number in 1..MOST {
        match stage_refused(alloc, asked, whole, number)? {
            Stage::Opening => {}
            Stage::Done => return Ok(Some(number - 1)),
            Stage::Following | Stage::Otherwise => return Ok(None),
        }
    }
    Ok(None)
}

/// Says whether more than a given number of requests for memory are refused in turn.
fn say_refused(
    alloc: Global,
    asked: Asked<'_>,
    few: u64,
    answer: &mut Vec<u8>,
) -> Result<(), AllocError> {
    let whole = run_in_pieces(alloc, asked, usize::MAX)?;
    let line = match count_refused(alloc, asked, &whole)? {
        Some(count) if count > few => format!(in alloc; "more than {few} requests are refused\n")?,
        Some(count) => format!(in alloc; "{count} requests are refused\n")?,
        None => format!(in alloc; "a run ends otherwise\n")?,
    };
    answer.extend_from_slice(line.as_bytes())
}

/// Whether a case salvages an archive while reads or requests for memory fail in turn. Adds what it answers.
pub(crate) fn answer_salvaging(
    alloc: Global,
    case: &Case<'_>,
    archive: &[u8],
    answer: &mut Vec<u8>,
) -> Result<bool, AllocError> {
    let asked = Asked {
        command: &SALVAGE,
        list: b"",
        archive,
    };
    match case.text(0) {
        "each-read-salvages" => say_reads(alloc, asked, case.number(1) as usize, answer)?,
        "each-request-salvages" => say_refused(alloc, asked, case.number(1), answer)?,
        _ => return Ok(false),
    }
    Ok(true)
}
