//! The program `warc`: opens the archive that its words name, and does what they ask for.
#![tactic(auto)]

mod answers;
mod files;
mod wrong_words;

use answers::hint_answer;
use files::Files;
use std::cell::Cell;
use std::io::{self, IsTerminal};
use std::process::ExitCode;
use warc_arguments::{CommandFault, CommandLine, Request, Status};
use warc_commands::{Console, run};
use warc_frame::Sink;
use warc_host::{CountedSink, Ended, ErasingSink, Host, Progress, ShownSink, hint, words};
use wrong_words::{hint_empty, hint_fault, hint_word};

/// What is reported where standard output is a file that the command reads.
const SAME_FILE: &str = "warc: the output is a file that is read\n";

/// What the words of the command line name, or why they aren't text.
fn read_line<'a>(
    rt: &HostRuntime,
    words: &'a io::Result<Vec<String>>,
) -> io::Result<CommandLine<'a>> {
    match words {
        Ok(words) => Ok(CommandLine::read(rt.alloc(), words.as_slice())),
        Err(error) => Err(io::Error::from(error.kind())),
    }
}

/// What a command line asks for, if it names a command.
fn request_of<'a>(line: &io::Result<CommandLine<'a>>) -> Option<Request<'a>> {
    let Ok(line) = line else {
        return None;
    };
    match line.parsed() {
        Ok(request) => Some(*request),
        Err(_) => None,
    }
}

/// Whether standard output is a file that the command reads.
fn writes_over(host: &Host<'_>, request: &Request<'_>) -> bool {
    is_output(host, request.command.list_path()) || is_output(host, request.path)
}

/// Whether standard output is the file at a path, if there is one.
fn is_output(host: &Host<'_>, path: Option<&str>) -> bool {
    match path {
        Some(path) => host.is_output(path),
        None => false,
    }
}

/// Does what a command line says, and returns how it ended. Nothing is read or written where the output is a file
/// that the command reads.
fn status_of<'a, W: Sink, E: Sink>(
    files: &Files<'a>,
    line: &io::Result<CommandLine<'_>>,
    request: &Option<Request<'_>>,
    console: &mut Console<W, E>,
) -> Status {
    if let Some(request) = request
        && writes_over(&files.host, request)
    {
        console.err.report(SAME_FILE);
        return Status::Failed;
    }
    let (status, _) = run(files.host.rt.alloc(), files, line, console);
    status
}

/// Writes lines for people after a run that ended so, and reported this on standard error.
fn give_hints(
    files: &Files<'_>,
    line: &CommandLine<'_>,
    request: &Request<'_>,
    status: Status,
    report: &[u8],
) {
    let Host {
        rt,
        progress,
        reason,
        ..
    } = &files.host;
    let ended = Ended {
        status,
        packing: progress.packing(),
        reason: reason.get(),
    };
    let _ = hint(rt, line.words(), request, ended);
    let _ = hint_answer(&files.host, request, report);
    let _ = hint_word(rt, request, report);
    let _ = hint_empty(rt, &request.command, status, progress.is_unread());
    progress.erase();
}

/// Writes what more there is to say after a run: to people on a terminal or where they ask for it, and of a command
/// that reads two files which of them failed.
fn say_more(
    files: &Files<'_>,
    line: &CommandLine<'_>,
    is_terminal: bool,
    status: Status,
    report: &[u8],
) {
    let rt = files.host.rt;
    match line.parsed() {
        Ok(request) if is_terminal || request.hints => {
            give_hints(files, line, request, status, report);
        }
        Ok(request) if status == Status::Failed && request.command.list_path().is_some() => {
            let ended = Ended {
                status,
                packing: None,
                reason: files.host.reason.get(),
            };
            let _ = hint(rt, line.words(), request, ended);
        }
        Err(CommandFault::Usage { text, asked: false }) if is_terminal => {
            let _ = hint_fault(rt, line.words(), text.as_str());
        }
        _ => {}
    }
}

/// Runs a command line over the files and the outputs of the system, and returns how it ended.
fn run_line(
    files: &Files<'_>,
    line: &io::Result<CommandLine<'_>>,
    request: Option<Request<'_>>,
) -> Status {
    let Host { rt, progress, .. } = &files.host;
    let is_text = !request.is_some_and(|it| it.command.gives_bytes());
    let shown = ShownSink::new(rt.stdout(), is_text && rt.stdout().is_terminal());
    let is_terminal = rt.stderr().is_terminal();
    let err = ErasingSink::new(ShownSink::new(rt.stderr(), is_terminal), progress);
    let mut console = Console::new(CountedSink::new(shown, progress), err);
    let status = status_of(files, line, &request, &mut console);
    let status = if console.out.sink.end() {
        status
    } else {
        Status::Failed
    };
    let err = &mut console.err.sink;
    err.sink.end();
    progress.erase();
    if let Ok(line) = line {
        say_more(files, line, is_terminal, status, err.report.as_slice());
    }
    status
}

/// Runs the program over the words, the files and the outputs of the system, and returns how it ended.
fn run_program(rt: &HostRuntime) -> Status {
    let words = words(rt);
    let line = read_line(rt, &words);
    let request = request_of(&line);
    let progress = Progress::new(rt, request.is_some_and(|it| it.quiet));
    let reason = Cell::new(None);
    let files = Files {
        host: Host {
            rt,
            progress: &progress,
            reason: &reason,
            list: request.and_then(|it| it.command.list_path()),
        },
    };
    run_line(&files, &line, request)
}

fn main(rt: HostRuntime) -> ExitCode {
    ExitCode::from(run_program(&rt).code())
}
