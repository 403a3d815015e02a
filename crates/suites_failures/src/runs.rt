//! Runs of commands over archives in memory.

use crate::endless::EndlessSource;
use std::alloc::{AllocError, Global};
use warc_commands::{Command, Console, Heap, Input, Status, perform};
use warc_frame::{MemSink, MemSource, Sink};
use warc_stream::StreamSource;
use warc_vectors::{Break, BrokenSource, BrokenWriter, ChangingSource, RefusingAllocator};

/// What a run wrote to its two outputs, and its status.
#[derive(Drop)]
pub(crate) struct Ended {
    pub(crate) out: Vec<u8>,
    pub(crate) err: Vec<u8>,
    pub(crate) status: Status,
}

impl Ended {
    pub(crate) fn is(&self, out: &[u8], err: &[u8], status: Status) -> bool {
        self.out.as_slice() == out && self.err.as_slice() == err && self.status == status
    }

    /// Whether another run ended in the same way.
    pub(crate) fn is_like(&self, other: &Ended) -> bool {
        self.is(&other.out, &other.err, other.status)
    }
}

/// A command, the list that it reads, and the archive that it is run over.
#[derive(Clone, Copy)]
pub(crate) struct Asked<'a> {
    pub(crate) command: &'a Command<'a>,
    pub(crate) list: &'a [u8],
    pub(crate) archive: &'a [u8],
}

/// The console, the status and the source after a run whose output goes to a sink. What the program keeps is taken from
/// `heap`.
fn reported<S: Input, A: Heap, W: Sink>(
    heap: A,
    alloc: Global,
    asked: Asked<'_>,
    source: S,
    out: W,
) -> (Console<W, MemSink>, Status, S) {
    let mut console = Console::new(out, MemSink::new(Vec::new(alloc)));
    let (status, source) = perform(heap, asked.command, asked.list, source, &mut console);
    (console, status, source)
}

/// The run of a command over a source, and the source.
fn run<S: Input, A: Heap>(heap: A, alloc: Global, asked: Asked<'_>, source: S) -> (Ended, S) {
    let out = MemSink::new(Vec::new(alloc));
    let (console, status, source) = reported(heap, alloc, asked, source, out);
    let ended = Ended {
        out: console.out.into_inner(),
        err: console.err.sink.into_inner(),
        status,
    };
    (ended, source)
}

/// The run of a command over its archive, of which a read gives `most` bytes at most.
pub(crate) fn run_in_pieces(
    alloc: Global,
    asked: Asked<'_>,
    most: usize,
) -> Result<Ended, AllocError> {
    let source = MemSource::new(asked.archive.to_vec(alloc)?, most.max(1));
    let (ended, _) = run(alloc, alloc, asked, source);
    Ok(ended)
}

/// The run of a command over its archive, whose bytes come once, in order.
pub(crate) fn run_streamed(alloc: Global, asked: Asked<'_>) -> Ended {
    let (ended, _) = run(alloc, alloc, asked, StreamSource::new(asked.archive));
    ended
}

/// The run of a command over its archive where the read of a number fails, counted from 1; and the run after it, over
/// the source that came back.
pub(crate) fn run_broken(
    alloc: Global,
    asked: Asked<'_>,
    most: usize,
    number: u64,
) -> Result<(Ended, Ended), AllocError> {
    let source = BrokenSource::new(asked.archive.to_vec(alloc)?, most.max(1), number);
    let (ended, source) = run(alloc, alloc, asked, source);
    let (again, _) = run(alloc, alloc, asked, source);
    Ok((ended, again))
}

/// The run of a command over a source that gives other bytes from the read of a number on.
pub(crate) fn run_changing(
    alloc: Global,
    asked: Asked<'_>,
    other: &[u8],
    number: u64,
) -> Result<Ended, AllocError> {
    let source = ChangingSource::new(asked.archive.to_vec(alloc)?, other.to_vec(alloc)?, number);
    let (ended, _) = run(alloc, alloc, asked, source);
    Ok(ended)
}

/// The run of a command over a source without an end; how often it was read, and the offset that was asked for last.
pub(crate) fn run_endless(alloc: Global, asked: Asked<'_>) -> (Ended, (u64, u64)) {
    let (ended, source) = run(alloc, alloc, asked, EndlessSource::new());
    (ended, source.reads())
}

/// What came of a run of which a request for memory was to be refused.
#[derive(Drop)]
pub(crate) struct Refused {
    pub(crate) ended: Ended,
    pub(crate) has_refused: bool,
    /// The run after it, over the source that came back.
    pub(crate) again: Ended,
}

/// The run of a command over its archive where the request for memory of a number is refused.
pub(crate) fn run_refused(
    alloc: Global,
    asked: Asked<'_>,
    number: u64,
) -> Result<Refused, AllocError> {
    let heap = RefusingAllocator::new(alloc, number);
    let source = MemSource::new(asked.archive.to_vec(alloc)?, usize::MAX);
    let (ended, source) = run(&heap, alloc, asked, source);
    let has_refused = heap.has_refused();
    let (again, _) = run(&heap, alloc, asked, source);
    Ok(Refused {
        ended,
        has_refused,
        again,
    })
}

/// The run of a command over its archive to a sink that takes `most` bytes at a time, and of which the write with this
/// number breaks; and the run after it, over the source that came back.
pub(crate) fn run_cut(
    alloc: Global,
    asked: Asked<'_>,
    most: usize,
    (number, how): (u64, Break),
) -> Result<(Ended, Ended), AllocError> {
    let source = MemSource::new(asked.archive.to_vec(alloc)?, usize::MAX);
    let sink = BrokenWriter::new(alloc, number, how).taking(most);
    let (console, status, source) = reported(alloc, alloc, asked, source, sink);
    let out = console.out.bytes().to_vec(alloc)?;
    let err = console.err.sink.into_inner();
    let (again, _) = run(alloc, alloc, asked, source);
    Ok((Ended { out, err, status }, again))
}
