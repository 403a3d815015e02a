//! What a run writes to: its output, and a line on what went wrong.
ghost use Rattle.std.specs.Prelude.{◌≡◌, ◌≤◌, length};
ghost use Rattle.warc_frame.specs.FaultText.{out_fault_text};
ghost use Rattle.warc_commands.specs.Program.{IsShown, Reports, fault_line, status_of_kind, reported_line};

use arrayvec::ArrayString;
use itoa::Buffer;
use std::alloc::Allocator;
use warc_arguments::Status;
use warc_frame::{Fault, FaultKind, OutFault, Sink, Source, send_all};

/// What memory is taken from.
pub trait Heap: Allocator + Copy {}

impl<A: Allocator + Copy> Heap for A {}

/// What a command reads, and gives back.
pub trait Input: Source + Drop {}

impl<S: Source + Drop> Input for S {}

/// How a run ended, and what it read.
pub type Ended<S> = (Status, S);

/// How a command ended that opens its source, or why the source isn't opened; and the source.
pub(crate) type Run<S> = Result<Ended<S>, (Fault, S)>;

/// What a run writes to: its output, and lines on what went wrong.
#[derive(Drop)]
pub struct Console<W, E> {
    pub out: W,
    pub err: Reporter<E>,
}

/// Where lines on what went wrong go. Failed writes of them are ignored.
#[derive(Drop)]
pub struct Reporter<E> {
    pub sink: E,
}

impl<W, E> Console<W, E> {
    /// The console of these two outputs.
    pub fn new(out: W, err: E) -> Console<W, E>
        ensures { result ≡ record { out = out; err = record { sink = err } } }
    {
        Console {
            out,
            err: Reporter { sink: err },
        }
    }
}

/// The most bytes of a line of the program.
pub(crate) const LINE: usize = 128;

impl<W: Sink, E: Sink> Console<W, E> {
    /// Writes a text that was asked for.
    pub(crate) fn show(&mut self, text: &str) -> Status
        ensures { IsShown text.now (W.seen self.old.out) (W.seen self.new.out) (E.seen self.old.err.sink)
            (E.seen self.new.err.sink) result }
    {
        match send_all(&mut self.out, text.as_bytes()) {
            Ok(()) => Status::Done,
            Err(fault) => self.err.fail(OutFault::Write(fault.sent)),
        }
    }
}

impl<E: Sink> Reporter<E> {
    /// Writes a line, as far as the sink takes it.
    pub fn report(&mut self, line: &str)
        ensures { Reports line.now (E.seen self.old.sink) (E.seen self.new.sink) }
    {
        let _ = send_all(&mut self.sink, line.as_bytes());
    }

    /// Reports why an archive isn't opened, and answers the status.
    pub(crate) fn refuse(&mut self, fault: Fault) -> Status
        ensures reported { Reports (fault_line fault) (E.seen self.old.sink) (E.seen self.new.sink) }
        ensures status { result ≡ status_of_kind fault.kind }
    {
        self.report(line_of_fault(fault).as_str());
        status_of(fault.kind)
    }

    /// Reports why an output ends early, and answers the status.
    pub(crate) fn fail(&mut self, fault: OutFault) -> Status
        ensures reported { Reports (reported_line (out_fault_text fault))
            (E.seen self.old.sink) (E.seen self.new.sink) }
        ensures status { result ≡ Status.Failed }
    {
        self.report(line_of_cut(fault).as_str());
        Status::Failed
    }

    /// Reports a short text, and returns the status.
    pub(crate) fn stop(&mut self, why: &str) -> Status
        requires { length why.now ≤ 100 }
        ensures reported { Reports (reported_line why.now) (E.seen self.old.sink) (E.seen self.new.sink) }
        ensures status { result ≡ Status.Failed }
    {
        self.report(line_of(why).as_str());
        Status::Failed
    }
}

/// The status where an archive isn't opened.
fn status_of(kind: FaultKind) -> Status
    ensures { result ≡ status_of_kind kind }
{
    match kind {
        FaultKind::Read | FaultKind::Memory => Status::Failed,
        _ => Status::Refused,
    }
}

/// The line that says why an archive isn't opened.
fn line_of_fault(fault: Fault) -> ArrayString<LINE>
    ensures { result.bytes ≡ fault_line fault }
{
    let (name, field) = fault.kind.parts();
    let mut digits = Buffer::new();
    let mut line = ArrayString::new();
    line.push_str("warc: ");
    line.push_str(name);
    line.push_str(field);
    line.push_str(" at ");
    line.push_str(digits.format(fault.offset));
    line.push_str("\n");
    line
}

/// The line that says why an output ends early.
fn line_of_cut(fault: OutFault) -> ArrayString<LINE>
    ensures { result.bytes ≡ reported_line (out_fault_text fault) }
{
    let mut digits = Buffer::new();
    let mut line = ArrayString::new();
    line.push_str("warc: ");
    line.push_str(fault.cause());
    line.push_str(digits.format(fault.sent()));
    line.push_str("\n");
    line
}

/// The line of a short text.
fn line_of(text: &str) -> ArrayString<LINE>
    requires { length text.now ≤ 100 }
    ensures { result.bytes ≡ reported_line text.now }
{
    let mut line = ArrayString::new();
    line.push_str("warc: ");
    line.push_str(text);
    line.push_str("\n");
    line
}
