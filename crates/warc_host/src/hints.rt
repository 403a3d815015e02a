//! The words of the command line, and the lines for people that follow a run.

use crate::files::Failure;
use crate::shown::is_escaped;
use std::{env, fmt, io};
use warc_arguments::{Command, Request, Status};

/// The words of the command line, the program's name being the first.
pub fn words(rt: &HostRuntime) -> io::Result<Vec<String>> {
    Ok(env::args(rt)?.collect(rt.alloc())?)
}

/// How a run ended: its status, the compression that its input looks like, and the system's last error.
#[derive(Clone, Copy)]
pub struct Ended {
    pub status: Status,
    pub packing: Option<&'static str>,
    pub reason: Option<Failure>,
}

/// Writes a line for people on standard error, if there is more to say: how a compressed archive is read, how to see
/// what of a damaged file is whole, or the path and the system's reason where a file didn't open or a read failed.
pub fn hint(
    rt: &HostRuntime,
    words: &[String],
    request: &Request<'_>,
    ended: Ended,
) -> io::Result<()> {
    if ended.status == Status::Refused {
        return match ended.packing {
            Some(packing) => hint_packing(rt, words, packing),
            None => hint_pieces(rt, request),
        };
    }
    if ended.status == Status::Failed
        && let Some(failure) = ended.reason
    {
        let path = Quoted(path_of(request, failure));
        let error = io::Error::from_raw_os_error(failure.code);
        return eprintln!(rt; "{path}: {error}");
    }
    Ok(())
}

/// Writes how to see what of a refused file is whole, unless that is what was asked for, or it has no path.
fn hint_pieces(rt: &HostRuntime, request: &Request<'_>) -> io::Result<()> {
    if let Command::Pieces = request.command {
        return Ok(());
    }
    match request.path {
        None | Some("-" | "/dev/stdin") => Ok(()),
        Some(path) => {
            let path = Quoted(path);
            eprintln!(rt; "to see what is whole: warc pieces {path}")
        }
    }
}

/// The path of what failed.
fn path_of<'a>(request: &Request<'a>, failure: Failure) -> &'a str {
    match request.command.list_path() {
        Some(list) if failure.of_list => list,
        _ => request.path.unwrap_or(""),
    }
}

/// Writes how an archive is read that looks compressed: by the same words after another name.
fn hint_packing(rt: &HostRuntime, words: &[String], packing: &str) -> io::Result<()> {
    eprint!(rt; "this looks like {packing}: zwarc")?;
    for word in words.iter().skip(1) {
        let word = Quoted(word.as_str());
        eprint!(rt; " {word}")?;
    }
    eprintln!(rt; "")
}

/// A word as a shell reads it. If it has control characters or marks of direction, these are octal in `$'..'`.
#[derive(Clone, Copy)]
struct Quoted<'a>(&'a str);

impl fmt::Display for Quoted<'_> {
    fn fmt<W: fmt::Write>(&self, f: &mut fmt::Formatter<W>) -> fmt::Result {
        let word = self.0;
        if !word.is_empty() && word.bytes().all(is_plain) {
            return write!(f, "{word}");
        }
        if word.chars().any(is_hidden) {
            write_escaped(word, f)
        } else {
            write_quoted(word, f)
        }
    }
}

/// Whether a shell reads a byte as it is, wherever it is in a word.
fn is_plain(byte: u8) -> bool {
    byte.is_ascii_alphanumeric() || b"_@%+:,./-".contains(&byte)
}

/// Whether a character isn't shown as it is in a line.
fn is_hidden(c: char) -> bool {
    c.is_control() || is_escaped(c)
}

/// Writes a word in single quotes.
fn write_quoted<W: fmt::Write>(word: &str, f: &mut fmt::Formatter<W>) -> fmt::Result {
    write!(f, "'")?;
    for c in word.chars() {
        if c == '\'' {
            write!(f, "'\\''")?;
        } else {
            write!(f, "{c}")?;
        }
    }
    write!(f, "'")
}

/// Writes a word in `$'..'`.
fn write_escaped<W: fmt::Write>(word: &str, f: &mut fmt::Formatter<W>) -> fmt::Result {
    write!(f, "$'")?;
    for c in word.chars() {
        if is_hidden(c) {
            write_octal(c, f)?;
        } else if c == '\'' || c == '\\' {
            write!(f, "\\{c}")?;
        } else {
            write!(f, "{c}")?;
        }
    }
    write!(f, "'")
}

/// Writes the bytes of a character as octal numbers.
fn write_octal<W: fmt::Write>(c: char, f: &mut fmt::Formatter<W>) -> fmt::Result {
    let mut room = [0; 4];
    for byte in c.encode_utf8(&mut room).bytes() {
        write!(f, "\\{byte:03o}")?;
    }
    Ok(())
}
