//! The files of the system, and standard input.
ghost use Rattle.std.specs.Prelude.{◌≡◌, IfOk, IfSome};

use crate::progress::Progress;
use std::cell::Cell;
use std::fs::{self, File, Metadata};
use std::io::{self, Read, Seek, SeekFrom, Stdin};
use std::os::unix::fs::MetadataExt;
use warc_frame::FileSource;
use warc_stream::{StreamSource, WatchedSource, WindowSource};

/// A file that is read through a window, which passes each read on to the progress.
pub type HostFile<'a> = WindowSource<WatchedSource<'a, FileSource<Noted<'a, File>>, Progress<'a>>>;

/// Standard input as it comes, which passes each read on to the progress.
pub type HostStream<'a> = WatchedSource<'a, StreamSource<Noted<'a, Stdin>>, Progress<'a>>;

/// The paths of standard input and standard output.
const STANDARD_INPUT: &str = "/dev/stdin";

const STANDARD_OUTPUT: &str = "/dev/stdout";

/// The system's last error: its number, and whether it is of the list that a command reads beside its archive.
#[derive(Clone, Copy)]
pub struct Failure {
    pub code: i32,
    pub of_list: bool,
}

/// A reader whose last error is noted. Of one that is no regular file, such as a pipe, the bytes come in order.
#[derive(Drop)]
pub struct Noted<'a, F> {
    reader: F,
    of_list: bool,
    is_regular: bool,
    position: u64,
    reason: &'a Cell<Option<Failure>>,
}

impl<'a, F> Noted<'a, F> {
    /// A reader that nobody has read.
    fn new(
        reader: F,
        of_list: bool,
        is_regular: bool,
        reason: &'a Cell<Option<Failure>>,
    ) -> Noted<'a, F> {
        Noted {
            reader,
            of_list,
            is_regular,
            position: 0,
            reason,
        }
    }

    /// Whether the next byte that comes is the wanted one, of a reader that can't be put elsewhere.
    fn is_there(&self, to: SeekFrom) -> bool {
        match to {
            SeekFrom::Start(at) => !self.is_regular && at == self.position,
            _ => false,
        }
    }
}

impl<'a, F: Read> Read for Noted<'a, F> {
    fn read(&mut self, buf: &mut [u8]) -> io::Result<usize> {
        let answer = self.reader.read(buf);
        note(self.reason, self.of_list, &answer);
        if let Ok(count) = &answer {
            self.position = self.position.saturating_add(*count as u64);
        }
        answer
    }
}

impl<'a, F: Seek> Seek for Noted<'a, F> {
    fn seek(&mut self, to: SeekFrom) -> io::Result<u64> {
        if self.is_there(to) {
            return Ok(self.position);
        }
        let answer = self.reader.seek(to);
        note(self.reason, self.of_list, &answer);
        answer
    }
}

fn note<T>(reason: &Cell<Option<Failure>>, of_list: bool, answer: &io::Result<T>) {
    if let Err(error) = answer {
        let code = error.raw_os_error();
        reason.set(code.map(|code| Failure { code, of_list }));
    }
}

/// The system, as a run of the program asks it. It shows how far the reading is, and notes the system's last error.
#[derive(Drop)]
pub struct Host<'a> {
    pub rt: &'a HostRuntime,
    pub progress: &'a Progress<'a>,
    pub reason: &'a Cell<Option<Failure>>,
    /// The path of the list that a command reads beside its archive, if it reads one.
    pub list: Option<&'a str>,
}

impl<'a> Host<'a> {
    /// Opens the file at a path. Nobody has read it by what is given.
    pub fn open(&self, path: &str) -> io::Result<HostFile<'a>>
        ensures unread { IfOk result (λ file. file.reads ≡ 0) }
        ensures sound { IfOk result (λ file. file.source.source.faults ≡ 0) }
    {
        let of_list = self.list == Some(path);
        let opened = File::open(self.rt, path);
        note(self.reason, of_list, &opened);
        let file = opened?;
        let metadata = file.metadata();
        if let Ok(metadata) = &metadata
            && !of_list
        {
            self.progress.expect(metadata.len());
        }
        let is_regular = !of_list || is_regular(&metadata);
        let reader = Noted::new(file, of_list, is_regular, self.reason);
        let source = WatchedSource::new(FileSource::new(reader), self.progress);
        Ok(WindowSource::new(self.rt.alloc(), source))
    }

    /// Standard input as a file, if it is one that opens. Nobody has read it by what is given.
    pub fn redirected(&self) -> Option<HostFile<'a>>
        ensures unread { IfSome result (λ file. file.reads ≡ 0) }
        ensures sound { IfSome result (λ file. file.source.source.faults ≡ 0) }
    {
        match fs::metadata(self.rt, STANDARD_INPUT) {
            Ok(metadata) if metadata.is_file() => self.open(STANDARD_INPUT).ok(),
            _ => None,
        }
    }

    /// Standard input as it comes. Its next byte is at offset 0, and nobody has read it by what is given.
    pub fn stream(&self) -> HostStream<'a>
        ensures begins { result.source.position ≡ 0 }
        ensures unread { result.source.reads ≡ 0 }
        ensures sound { result.source.faults ≡ 0 }
    {
        let of_list = matches!(self.list, Some("-" | STANDARD_INPUT));
        let reader = Noted::new(self.rt.stdin(), of_list, false, self.reason);
        WatchedSource::new(StreamSource::new(reader), self.progress)
    }

    /// Whether standard output is a regular file, and the same as the file at a path.
    pub fn is_output(&self, path: &str) -> bool {
        let input = if path == "-" { STANDARD_INPUT } else { path };
        match (
            fs::metadata(self.rt, input),
            fs::metadata(self.rt, STANDARD_OUTPUT),
        ) {
            (Ok(read), Ok(written)) => {
                written.is_file() && read.dev() == written.dev() && read.ino() == written.ino()
            }
            _ => false,
        }
    }
}

/// Whether this is known to be of a regular file.
fn is_regular(metadata: &io::Result<Metadata>) -> bool {
    match metadata {
        Ok(metadata) => metadata.is_file(),
        Err(_) => false,
    }
}
