//! Lines for people about a word of the command line that a run couldn't use, or found nothing at.

use std::io;
use warc_arguments::{Command, Request, Status};

/// How many digits a date has in a CDX file and in the addresses of the Wayback Machine.
const CDX_DATE_LEN: usize = 14;

/// Writes a line if a run reported that a date is none, or that no record has an id that looks like a position.
pub fn hint_word(rt: &HostRuntime, request: &Request<'_>, report: &[u8]) -> io::Result<()> {
    if report.starts_with(b"warc: bad date") {
        return hint_date(rt, date_of(&request.command));
    }
    match request.command {
        Command::Extract { id } if report.starts_with(b"warc: E1 ") && are_digits(id) => {
            eprintln!(rt; "extract wants an id; block and head take a position")
        }
        _ => Ok(()),
    }
}

/// The commands whose only word is an archive.
const OF_ONE_ARCHIVE: [&str; 9] = [
    "list", "check", "fixity", "summary", "survey", "pieces", "salvage", "rewrite", "convert",
];

/// What a report of a word too many begins with, before that word.
const UNEXPECTED: &str = "error: unexpected argument '";

/// Writes how a command is done for many archives, if words name more than the one that it takes.
pub fn hint_fault(rt: &HostRuntime, words: &[String], fault: &str) -> io::Result<()> {
    let Some(word) = fault.strip_prefix(UNEXPECTED) else {
        return Ok(());
    };
    let Some(named) = words.get(1) else {
        return Ok(());
    };
    let command = named.as_str();
    if word.starts_with("-") || !OF_ONE_ARCHIVE.contains(&command) {
        return Ok(());
    }
    eprintln!(rt; "one archive at a time: for file in *.warc; do warc {command} \"$file\"; done")?;
    eprintln!(rt; "warc-collection checks many archives")
}

/// Writes that an archive has no records, if one was listed of which no byte was read.
pub fn hint_empty(
    rt: &HostRuntime,
    command: &Command<'_>,
    status: Status,
    is_unread: bool,
) -> io::Result<()> {
    match command {
        Command::List { .. } if status == Status::Done && is_unread => {
            eprintln!(rt; "the file is empty: an archive of no records")
        }
        _ => Ok(()),
    }
}

/// The date that a command names; empty if it names none.
fn date_of<'a>(command: &Command<'a>) -> &'a str {
    match command {
        Command::Replay { date, .. } => date,
        Command::Write { draft } => draft.date,
        Command::Instant { date } => date,
        _ => "",
    }
}

/// Writes which forms a date has, and the date that 14 digits mean.
fn hint_date(rt: &HostRuntime, date: &str) -> io::Result<()> {
    eprintln!(rt;
        "a date is YYYY, YYYY-MM, YYYY-MM-DD, YYYY-MM-DDThh:mmZ or YYYY-MM-DDThh:mm:ssZ"
    )?;
    match parts_of(date) {
        Some((day, time)) => write_date(rt, day, time),
        None => Ok(()),
    }
}

/// Whether a text is of decimal digits alone.
fn are_digits(text: &str) -> bool {
    !text.is_empty() && text.bytes().all(|byte| byte.is_ascii_digit())
}

/// The day and the time of a date of 14 digits, as a CDX file has it.
fn parts_of(date: &str) -> Option<(&str, &str)> {
    if date.len() == CDX_DATE_LEN && are_digits(date) {
        date.split_at_checked(8)
    } else {
        None
    }
}

/// Writes a date of eight digits and a time of six in the form that the program reads.
fn write_date(rt: &HostRuntime, day: &str, time: &str) -> io::Result<()> {
    let (Some((year, rest)), Some((hour, clock))) = (
        day.split_at_checked(4),
        time.split_at_checked(2),
    ) else {
        return Ok(());
    };
    let (Some((month, day)), Some((minute, second))) = (
        rest.split_at_checked(2),
        clock.split_at_checked(2),
    ) else {
        return Ok(());
    };
    eprintln!(rt; "these 14 digits mean {year}-{month}-{day}T{hour}:{minute}:{second}Z")
}
