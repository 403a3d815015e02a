//! The ways in which a case runs a command.

use crate::archives::PIECES;
use crate::lines::{say, say_count};
use crate::runs::{
    Asked, Ended, run_broken, run_changing, run_cut, run_endless, run_in_pieces, run_streamed,
};
use crate::salvage_failures::answer_salvaging;
use crate::turns::{say_as_alone, say_reads, say_requests, say_writes};
use crate::words::{is_command, line_of};
use std::alloc::{AllocError, Global};
use suites_script::Case;
use warc_commands::{Command, CommandFault, parse};
use warc_vectors::Break;

/// How many words of a case stand before those of its command.
fn words_before(verb: &str) -> usize {
    match verb {
        "failed-read" | "failed-write" | "short-writes" => 3,
        "changed-read" | "each-read" | "each-write" | "requests-alone" => 2,
        "endless" | "each-request" => 1,
        _ => 0,
    }
}

/// The most bytes that a read or a write takes, by the word at an index: a number, or `all`.
fn most_of(case: &Case<'_>, index: usize) -> usize {
    match case.text(index) {
        "all" => usize::MAX,
        _ => case.number(index) as usize,
    }
}

/// Whether a case runs a command over an archive, in which something fails. Adds what it answers, and which runs end
/// otherwise by shorter reads, where nothing fails.
pub(crate) fn answer(
    alloc: Global,
    case: &Case<'_>,
    archive: &[u8],
    answer: &mut Vec<u8>,
) -> Result<bool, AllocError> {
    if case.text(0) == "memory-is-told" {
        say_memory(alloc, answer)?;
        return Ok(true);
    }
    if answer_salvaging(alloc, case, archive, answer)? {
        return Ok(true);
    }
    let index = words_before(case.text(0));
    if !is_command(case.text(index)) {
        return Ok(false);
    }
    let line = line_of(alloc, case, index)?;
    match parse(alloc, &line) {
        Ok(request) => {
            let asked = Asked {
                command: &request.command,
                list: list_of(&request.command, case),
                archive,
            };
            answer_run(alloc, case, asked, answer)?;
            if case.text(0) != "endless" {
                say_others(alloc, asked, answer)?;
            }
            Ok(true)
        }
        Err(_) => Ok(false),
    }
}

/// The list that a command reads: the text that is given with the case.
fn list_of<'a>(command: &Command<'_>, case: &'a Case<'_>) -> &'a [u8] {
    match command.list_path() {
        Some(_) => case.given(),
        None => b"",
    }
}

/// Runs a command in the way that the first word of a case says.
fn answer_run(
    alloc: Global,
    case: &Case<'_>,
    asked: Asked<'_>,
    answer: &mut Vec<u8>,
) -> Result<(), AllocError> {
    match case.text(0) {
        "failed-read" => {
            let (ended, _) = run_broken(alloc, asked, most_of(case, 2), case.number(1))?;
            say(alloc, &ended, asked.archive, answer)
        }
        "failed-write" => say_cut(alloc, case, asked, Break::Fails, answer),
        "short-writes" => {
            let how = Break::Takes(case.number(2) as usize);
            say_cut(alloc, case, asked, how, answer)
        }
        "changed-read" => {
            let ended = run_changing(alloc, asked, case.given(), case.number(1))?;
            say(alloc, &ended, asked.archive, answer)
        }
        "endless" => say_endless(alloc, asked, answer),
        "each-read" => say_reads(alloc, asked, most_of(case, 1), answer),
        "each-write" => say_writes(alloc, asked, most_of(case, 1), answer),
        "each-request" => say_requests(alloc, asked, answer),
        "requests-alone" => say_as_alone(alloc, asked, case.number(1) as usize, answer),
        _ => answer.extend_from_slice(b"nothing fails\n"),
    }
}

/// Reports which runs end otherwise than with reads of all bytes: with shorter reads, or, where the command can, over
/// bytes that come once, in order.
fn say_others(alloc: Global, asked: Asked<'_>, answer: &mut Vec<u8>) -> Result<(), AllocError> {
    let whole = run_in_pieces(alloc, asked, usize::MAX)?;
    for most in PIECES {
        if !ends_like(alloc, asked, most, &whole)? {
            say_count(
                alloc,
                most as u64,
                "bytes a read: it ends otherwise",
                answer,
            )?;
        }
    }
    if asked.command.reads_once() && !run_streamed(alloc, asked).is_like(&whole) {
        answer.extend_from_slice(b"as it comes: it ends otherwise\n")?;
    }
    Ok(())
}

/// Whether a run ends like another if a read gives `most` bytes at most.
fn ends_like(
    alloc: Global,
    asked: Asked<'_>,
    most: usize,
    other: &Ended,
) -> Result<bool, AllocError> {
    Ok(run_in_pieces(alloc, asked, most)?.is_like(other))
}

/// Reports a run of which a write breaks, and whether the run after it ends as if none had. Writes that fail are of so
/// many bytes as the case says, and others of one byte.
fn say_cut(
    alloc: Global,
    case: &Case<'_>,
    asked: Asked<'_>,
    how: Break,
    answer: &mut Vec<u8>,
) -> Result<(), AllocError> {
    let most = match how {
        Break::Fails => most_of(case, 2),
        Break::Takes(_) => 1,
    };
    let (ended, again) = run_cut(alloc, asked, most, (case.number(1), how))?;
    say(alloc, &ended, asked.archive, answer)?;
    if ends_like(alloc, asked, usize::MAX, &again)? {
        Ok(())
    } else {
        answer.extend_from_slice(b"the next run ends otherwise\n")
    }
}

/// Reports a run over a source without an end, how often it was read, and where last.
fn say_endless(alloc: Global, asked: Asked<'_>, answer: &mut Vec<u8>) -> Result<(), AllocError> {
    let (ended, (reads, last)) = run_endless(alloc, asked);
    say(alloc, &ended, b"", answer)?;
    let line = format!(in alloc; "{reads} reads, the last at {last}\n")?;
    answer.extend_from_slice(line.as_bytes())
}

/// Adds the line of a command line for which there is no memory.
fn say_memory(alloc: Global, answer: &mut Vec<u8>) -> Result<(), AllocError> {
    let line = format!(in alloc; "{}\n", CommandFault::Memory)?;
    answer.extend_from_slice(line.as_bytes())
}
