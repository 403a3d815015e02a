//! A run of the program: its words, what the system gives it, and how it ends.
ghost use Rattle.std.specs.Option.{option_map};
ghost use Rattle.std.specs.Prelude.{◌≡◌, ◌≤◌, [], IfErr, IfOk, Some, length, nat_le};
ghost use Rattle.std.specs.Result.{result_map_both};
ghost use Rattle.std.specs.IoError.{error_kind};
ghost use Rattle.warc_commands.specs.Devices.{outputs_of, outputs};
ghost use Rattle.warc_commands.specs.Program.{Reports, reported_line};
ghost use Rattle.warc_commands.specs.Running.{Offer, CommandEnds, IsListAt, IsListCut, IsListOf, IsRunInMemory, LacksList, MemoryEnds, RunsOver, PipeEnds, ReadsFile, ReadsInput, ReadsInto, ReadsMemory, RunEnds, PathEnds, is_input, max_input, names_input_twice, opened, place_at, redirected, run_left, stop_text, streamed};
ghost use Rattle.warc_arguments.specs.Command.{list_word, path_word, reads_once};
ghost use Rattle.warc_frame.specs.Seen.{IfHeld, Seen};

use crate::console::{Console, Ended, Reporter};
use crate::program::{perform, refuse};
use crate::write::read_front;
use std::alloc::Global;
use std::io::{self, ErrorKind};
use warc_arguments::{Command, CommandLine, Request, Status};
use warc_frame::{MemSource, OutFault, Sink, Source};

/// The most bytes of standard input that are kept in memory.
const MOST_INPUT: u64 = 1 << 30;

/// What is reported where standard input is too long for memory, of the path `/dev/stdin` and of `-`.
const READ_FAILED: &str = "read failed after 0";

/// What is reported where a list is too long for memory, and where a command names standard input twice.
const LIST_TOO_LONG: &str = "the positions are too long";

const TWO_INPUTS: &str = "the archive and the positions can't both be standard input";

const TOO_LONG: &str = "standard input is too long for this command; write it to a file first";

/// What a run asks of the system: a file by its path, and standard input.
pub trait System {
    /// A file, which is read at any offset.
    type File: Source + Drop;

    /// Standard input, which is read as it comes.
    type Stream: Source + Drop;

    /// What the system may give.
    ghost gives: { Self → Offer → Type 0 };

    /// Opens the file at a path.
    fn open(&self, path: &str) -> io::Result<Self::File>
        ensures { gives self.now (opened path.now (result_map_both Self.File.seen (λ e. e) result)) };

    /// Standard input as a file from its first byte on, where it is one that opens.
    fn redirected(&self) -> Option<Self::File>
        ensures { gives self.now (redirected (option_map Self.File.seen result)) };

    /// Standard input as it comes.
    fn stream(&self) -> Self::Stream
        ensures { gives self.now (streamed (Self.Stream.seen result)) };
}

/// What a run read of the system's, as the run leaves it.
#[derive(Drop)]
pub enum RunSource<F, S> {
    File(F),
    Stream(S),
    Nothing,
}

/// Where the bytes of a command are: in the file at its path; in memory, into which standard input is read first; or in
/// standard input.
#[derive(Clone, Copy, Debug, PartialEq, Eq)]
enum Location {
    File,
    Memory,
    Input,
}

/// Does what a command line says: all of `main` but opening. The answer is how it ended, and what was read: a failed
/// read is reported only if a read of that source failed. Words that aren't text, for which there is an error in place
/// of the line, and a file that doesn't open are reported, with the status `Failed`. The path `-` is standard input: at
/// any offset if it is a file, as it comes if the command can ask for each offset once, in order, and else read into
/// memory, at most 2^30 bytes of it. The path `/dev/stdin` is always read into memory. A command that reads nothing
/// opens nothing. A list that a command reads beside its archive is read into memory, at most 2^30 bytes of it, after
/// the archive was opened; it can't be standard input if the archive is.
pub fn run<Y: System, W: Sink, E: Sink>(
    alloc: Global,
    system: &Y,
    line: &io::Result<CommandLine<'_>>,
    console: &mut Console<W, E>,
) -> Ended<RunSource<Y::File, Y::Stream>>
    ensures { RunEnds (Y.gives system.now) (run_left Y.File.seen Y.Stream.seen result.1) line.now
        (outputs W.seen E.seen console.old) (outputs W.seen E.seen console.new) result.0 }
{
    match line {
        Ok(line) => match line.parsed() {
            Ok(request) => console.run_request(alloc, system, request),
            Err(fault) => (refuse(fault, console), RunSource::Nothing),
        },
        Err(error) => (
            console.err.stop_by(error, "the arguments aren't text"),
            RunSource::Nothing,
        ),
    }
}

impl<W: Sink, E: Sink> Console<W, E> {
    /// Does what a command says, over the bytes at its path, if it has one.
    fn run_request<Y: System>(
        &mut self,
        alloc: Global,
        system: &Y,
        request: &Request<'_>,
    ) -> Ended<RunSource<Y::File, Y::Stream>>
        ensures { CommandEnds (path_word request.now) (Y.gives system.now)
            (run_left Y.File.seen Y.Stream.seen result.1) request.now.command
            (outputs W.seen E.seen self.old) (outputs W.seen E.seen self.new) result.0 }
    {
        match request.path {
            Some(path) => self.run_at(alloc, system, path, &request.command),
            None => (
                self.run_in_memory(alloc, &request.command, &[], Vec::new(alloc)),
                RunSource::Nothing,
            ),
        }
    }

    /// Does what a command says, over the bytes at a path.
    fn run_at<Y: System>(
        &mut self,
        alloc: Global,
        system: &Y,
        path: &str,
        command: &Command<'_>,
    ) -> Ended<RunSource<Y::File, Y::Stream>>
        ensures { PathEnds (names_input_twice path.now command.now) (Y.gives system.now)
            (run_left Y.File.seen Y.Stream.seen result.1) path.now command.now
            (outputs W.seen E.seen self.old) (outputs W.seen E.seen self.new) result.0 }
    {
        if names_input_twice(path, command) {
            return (self.err.stop(TWO_INPUTS), RunSource::Nothing);
        }
        match place_at(path) {
            Location::File => self.run_file(alloc, system, path, command),
            Location::Memory => self.run_memory(alloc, system, command, READ_FAILED),
            Location::Input => self.run_input(alloc, system, command),
        }
    }
}

/// Whether a command over the bytes at a path names standard input for its archive and for its list.
fn names_input_twice(path: &str, command: &Command<'_>) -> bool
    ensures { result ≡ names_input_twice path.now command.now }
{
    match command.list_path() {
        Some(list) => is_input(path) && is_input(list),
        None => false,
    }
}

/// Whether a path is one of standard input.
fn is_input(path: &str) -> bool
    ensures { result ≡ is_input path.now }
{
    path == "-" || path == "/dev/stdin"
}

/// Where the bytes at a path are.
fn place_at(path: &str) -> Location
    ensures { result ≡ place_at path.now }
{
    match path {
        "-" => Location::Input,
        "/dev/stdin" => Location::Memory,
        _ => Location::File,
    }
}

impl<W: Sink, E: Sink> Console<W, E> {
    /// Does what a command says, over the file at a path.
    fn run_file<Y: System>(
        &mut self,
        alloc: Global,
        system: &Y,
        path: &str,
        command: &Command<'_>,
    ) -> Ended<RunSource<Y::File, Y::Stream>>
        ensures { ReadsFile (Y.gives system.now) (run_left Y.File.seen Y.Stream.seen result.1) path.now command.now
            (outputs W.seen E.seen self.old) (outputs W.seen E.seen self.new) result.0 }
    {
        match system.open(path) {
            Ok(file) => self.run_on_file(alloc, system, command, file),
            Err(error) => (self.err.stop_by(&error, "open failed"), RunSource::Nothing),
        }
    }

    /// Does what a command says, over its list and a file.
    fn run_on_file<Y: System>(
        &mut self,
        alloc: Global,
        system: &Y,
        command: &Command<'_>,
        file: Y::File,
    ) -> Ended<RunSource<Y::File, Y::Stream>>
        ensures { RunsOver (Y.gives system.now) (run_left Y.File.seen Y.Stream.seen result.1) command.now
            (Y.File.seen file) (outputs W.seen E.seen self.old) (outputs W.seen E.seen self.new)
            result.0 }
    {
        match list_of(alloc, system, command, &mut self.err) {
            Ok(list) => {
                let (status, file) = perform(alloc, command, &list, file, self);
                (status, RunSource::File(file))
            }
            Err(stopped) => stopped,
        }
    }
}

/// The bytes of the list of a command, if it reads one; else what the run ends with.
fn list_of<Y: System, E: Sink>(
    alloc: Global,
    system: &Y,
    command: &Command<'_>,
    err: &mut Reporter<E>,
) -> Result<Vec<u8>, Ended<RunSource<Y::File, Y::Stream>>>
    ensures read { IfOk result (λ list. IsListOf (Y.gives system.now) (list_word command.now) list.items) }
    ensures silent { IfOk result (λ list. E.seen err.new.sink ≡ E.seen err.old.sink) }
    ensures unread { IfErr result (λ stopped. (out : Seen) → LacksList (Y.gives system.now)
        (run_left Y.File.seen Y.Stream.seen stopped.1) (list_word command.now) (outputs_of out (E.seen err.old.sink))
        (outputs_of out (E.seen err.new.sink)) stopped.0) }
{
    match command.list_path() {
        Some(path) => list_at(alloc, system, path, err),
        None => Ok(Vec::new(alloc)),
    }
}

/// The bytes of the list at a path.
fn list_at<Y: System, E: Sink>(
    alloc: Global,
    system: &Y,
    path: &str,
    err: &mut Reporter<E>,
) -> Result<Vec<u8>, Ended<RunSource<Y::File, Y::Stream>>>
    ensures read { IfOk result (λ list. IsListAt (Y.gives system.now) path.now list.items) }
    ensures silent { IfOk result (λ list. E.seen err.new.sink ≡ E.seen err.old.sink) }
    ensures unread { IfErr result (λ stopped. (out : Seen) → LacksList (Y.gives system.now)
        (run_left Y.File.seen Y.Stream.seen stopped.1) (Some path.now) (outputs_of out (E.seen err.old.sink))
        (outputs_of out (E.seen err.new.sink)) stopped.0) }
{
    if is_input(path) {
        let mut source = system.stream();
        return match read_list(alloc, &mut source, err) {
            Ok(list) => Ok(list),
            Err(status) => Err((status, RunSource::Stream(source))),
        };
    }
    let mut file = match system.open(path) {
        Ok(file) => file,
        Err(error) => {
            let status = err.stop_by(&error, "open failed");
            return Err((status, RunSource::Nothing));
        }
    };
    match read_list(alloc, &mut file, err) {
        Ok(list) => Ok(list),
        Err(status) => Err((status, RunSource::File(file))),
    }
}

/// All bytes of a source, if they are few enough; else the status.
fn read_list<S: Source, E: Sink>(
    alloc: Global,
    source: &mut S,
    err: &mut Reporter<E>,
) -> Result<Vec<u8>, Status>
    ensures few { IfOk result (λ list. length list.items ≤ max_input) }
    ensures are { IfOk result (λ list. IfHeld (S.seen source.old).holds (λ all. list.items ≡ all)) }
    ensures silent { IfOk result (λ list. E.seen err.new.sink ≡ E.seen err.old.sink) }
    ensures cut { IfErr result (λ status. (out : Seen) → IsListCut (S.seen source.old) (S.seen source.new)
        (outputs_of out (E.seen err.old.sink)) (outputs_of out (E.seen err.new.sink)) status) }
{
    let list = match read_front(alloc, source, MOST_INPUT + 1) {
        Ok(list) => list,
        Err(fault) => return Err(err.fail(fault)),
    };
    if list.len() as u64 > MOST_INPUT {
        return Err(err.stop(LIST_TOO_LONG));
    }
    Ok(list)
}

impl<W: Sink, E: Sink> Console<W, E> {
    /// Does what a command says, over standard input.
    fn run_input<Y: System>(
        &mut self,
        alloc: Global,
        system: &Y,
        command: &Command<'_>,
    ) -> Ended<RunSource<Y::File, Y::Stream>>
        ensures { ReadsInput (Y.gives system.now) (run_left Y.File.seen Y.Stream.seen result.1) command.now
            (outputs W.seen E.seen self.old) (outputs W.seen E.seen self.new) result.0 }
    {
        match system.redirected() {
            Some(file) => self.run_on_file(alloc, system, command, file),
            None => self.run_pipe(alloc, system, command),
        }
    }

    /// Does what a command says, over standard input that is no file.
    fn run_pipe<Y: System>(
        &mut self,
        alloc: Global,
        system: &Y,
        command: &Command<'_>,
    ) -> Ended<RunSource<Y::File, Y::Stream>>
        ensures { PipeEnds (reads_once command.now) (Y.gives system.now) (run_left Y.File.seen Y.Stream.seen result.1)
            command.now
            (outputs W.seen E.seen self.old) (outputs W.seen E.seen self.new) result.0 }
    {
        if command.reads_once() {
            let (status, stream) = perform(alloc, command, &[], system.stream(), self);
            (status, RunSource::Stream(stream))
        } else {
            self.run_memory(alloc, system, command, TOO_LONG)
        }
    }

    /// Does what a command says, over its list and standard input, which is read into memory after the list. The line
    /// is written where it is too long for that.
    fn run_memory<Y: System>(
        &mut self,
        alloc: Global,
        system: &Y,
        command: &Command<'_>,
        long: &str,
    ) -> Ended<RunSource<Y::File, Y::Stream>>
        requires { length long.now ≤ 100 }
        ensures { ReadsMemory (Y.gives system.now) (run_left Y.File.seen Y.Stream.seen result.1) long.now command.now
            (outputs W.seen E.seen self.old) (outputs W.seen E.seen self.new) result.0 }
    {
        match list_of(alloc, system, command, &mut self.err) {
            Ok(list) => self.run_read(alloc, system, command, &list, long),
            Err(stopped) => stopped,
        }
    }

    /// Does what a command says, over a list and standard input, which is read into memory.
    fn run_read<Y: System>(
        &mut self,
        alloc: Global,
        system: &Y,
        command: &Command<'_>,
        list: &[u8],
        long: &str,
    ) -> Ended<RunSource<Y::File, Y::Stream>>
        requires { length long.now ≤ 100 }
        ensures { ReadsInto (Y.gives system.now) (run_left Y.File.seen Y.Stream.seen result.1) long.now command.now
            list.now (outputs W.seen E.seen self.old) (outputs W.seen E.seen self.new) result.0 }
    {
        let mut source = system.stream();
        match read_front(alloc, &mut source, MOST_INPUT + 1) {
            Ok(bytes) => {
                let status = self.run_bytes(alloc, command, list, bytes, long);
                (status, RunSource::Stream(source))
            }
            Err(fault) => (self.err.fail(fault), RunSource::Stream(source)),
        }
    }

    /// Does what a command says, over bytes in memory, if they aren't too many.
    fn run_bytes(
        &mut self,
        alloc: Global,
        command: &Command<'_>,
        list: &[u8],
        bytes: Vec<u8>,
        long: &str,
    ) -> Status
        requires { length long.now ≤ 100 }
        ensures { MemoryEnds (nat_le (length bytes.items) max_input) long.now command.now list.now bytes.items
            (outputs W.seen E.seen self.old) (outputs W.seen E.seen self.new) result }
    {
        if bytes.len() as u64 <= MOST_INPUT {
            self.run_in_memory(alloc, command, list, bytes)
        } else {
            self.err.stop(long)
        }
    }

    /// Does what a command says, over bytes in memory.
    fn run_in_memory(
        &mut self,
        alloc: Global,
        command: &Command<'_>,
        list: &[u8],
        bytes: Vec<u8>,
    ) -> Status
        ensures { IsRunInMemory command.now list.now bytes.items (outputs W.seen E.seen self.old)
            (outputs W.seen E.seen self.new) result }
    {
        let source = MemSource::new(bytes, usize::MAX);
        let (status, _) = perform(alloc, command, list, source, self);
        status
    }
}

impl<E: Sink> Reporter<E> {
    /// Reports why a run can't begin: the text, or that an allocation failed; and answers the status.
    fn stop_by(&mut self, error: &io::Error, why: &str) -> Status
        requires { length why.now ≤ 100 }
        ensures reported { Reports (reported_line (stop_text why.now (error_kind error.now)))
            (E.seen self.old.sink) (E.seen self.new.sink) }
        ensures status { result ≡ Status.Failed }
    {
        match error.kind() {
            ErrorKind::OutOfMemory => self.fail(OutFault::Memory(0)),
            _ => self.stop(why),
        }
    }
}
