//! The line on standard error that shows how far a long reading is.
ghost use Rattle.std.specs.Prelude.{◌≡◌};

use arrayvec::{ArrayString, ArrayVec};
use itoa::Buffer;
use std::cell::Cell;
use std::io::IsTerminal;
use std::time::Instant;
use warc_frame::{OutSink, Sink, WriteFault, send_all};
use warc_stream::Watcher;

/// How long nothing is shown, and how long a line is shown at least, in milliseconds.
const FIRST: u64 = 1_000;

const EACH: u64 = 250;

/// How many bytes are shown as one.
const MEGABYTE: u64 = 1_000_000;

/// The most bytes of a line.
const LINE: usize = 256;

/// What removes the line on a terminal.
const ERASE: &[u8] = b"\r\x1b[K";

/// Shows how far a reading is, where standard error is a terminal and standard output isn't.
#[derive(Drop)]
pub struct Progress<'a> {
    rt: &'a HostRuntime,
    start: Option<Instant>,
    total: Cell<u64>,
    read: Cell<u64>,
    written: Cell<u64>,
    due: Cell<u64>,
    is_shown: Cell<bool>,
    packing: Cell<Option<&'static str>>,
}

impl<'a> Progress<'a> {
    /// Nothing is read yet, and nothing is shown where it is to be quiet.
    pub fn new(rt: &'a HostRuntime, is_quiet: bool) -> Progress<'a> {
        let start = if !is_quiet && rt.stderr().is_terminal() && !rt.stdout().is_terminal() {
            Instant::now(rt).ok()
        } else {
            None
        };
        Progress {
            rt,
            start,
            total: Cell::new(0),
            read: Cell::new(0),
            written: Cell::new(0),
            due: Cell::new(FIRST),
            is_shown: Cell::new(false),
            packing: Cell::new(None),
        }
    }

    /// Notes how many bytes there are to read.
    pub fn expect(&self, total: u64) {
        self.total.set(total);
    }

    /// Whether no byte was read.
    pub fn is_unread(&self) -> bool {
        self.read.get() == 0
    }

    /// The compression that the first bytes that were read look like.
    pub fn packing(&self) -> Option<&'static str> {
        self.packing.get()
    }

    /// Removes the line, where one is shown.
    pub fn erase(&self) {
        if self.is_shown.get() {
            self.is_shown.set(false);
            let _ = send_all(&mut OutSink::new(self.rt.stderr()), ERASE);
        }
    }

    /// Notes how many bytes more went out, and shows a line of that, where it is due: what follows the reading may take
    /// as long.
    fn note_written(&self, count: u64) {
        self.written.set(self.written.get().saturating_add(count));
        if let Some(start) = self.start
            && let Some(_) = self.due_at(start)
        {
            self.put(line_of_output(self.read.get(), self.written.get()).as_str());
        }
    }

    /// Shows how far the reading is, where that is due.
    fn show(&self, start: Instant, position: u64) {
        if let Some(now) = self.due_at(start) {
            self.put(line_of(position, self.total.get(), self.read.get(), now).as_str());
        }
    }

    /// The milliseconds since the start, if a line is due; then the next one is due later.
    fn due_at(&self, start: Instant) -> Option<u64> {
        let elapsed = start.elapsed(self.rt).ok()?;
        let now = elapsed
            .as_secs()
            .saturating_mul(1_000)
            .saturating_add(elapsed.subsec_millis() as u64);
        if now < self.due.get() {
            return None;
        }
        self.due.set(now.saturating_add(EACH));
        Some(now)
    }

    /// Writes the line in the place of the one before.
    fn put(&self, line: &str) {
        self.is_shown.set(true);
        let _ = send_all(&mut OutSink::new(self.rt.stderr()), line.as_bytes());
    }
}

/// The compression whose output begins like these bytes, or ZIP: a package of archives (WACZ) is a ZIP file.
fn packing_of(bytes: &[u8]) -> Option<&'static str> {
    if bytes.starts_with(&[0x1f, 0x8b]) {
        Some("gzip")
    } else if bytes.starts_with(&[0x28, 0xb5, 0x2f, 0xfd]) {
        Some("zstd")
    } else if bytes.starts_with(b"PK\x03\x04") {
        Some("ZIP")
    } else {
        None
    }
}

/// The line: the position in megabytes, of how many, the megabytes a second, and the seconds left.
fn line_of(position: u64, total: u64, read: u64, millis: u64) -> ArrayString<LINE> {
    let speed = read / millis.max(1);
    let mut digits = Buffer::new();
    let mut line = ArrayString::new();
    line.push_str("\r\x1b[K");
    line.push_str(digits.format(position / MEGABYTE));
    if total > 0 {
        line.push_str(" of ");
        line.push_str(digits.format(total / MEGABYTE));
    }
    line.push_str(" MB, ");
    line.push_str(digits.format(speed / 1_000));
    line.push_str(" MB/s");
    if total > 0 {
        line.push_str(", ");
        line.push_str(digits.format(total.saturating_sub(position) / speed.max(1) / 1_000));
        line.push_str(" s left");
    }
    line
}

/// The line of what follows the reading: the megabytes that were read, and those that went out.
fn line_of_output(read: u64, written: u64) -> ArrayString<LINE> {
    let mut digits = Buffer::new();
    let mut line = ArrayString::new();
    line.push_str("\r\x1b[K");
    line.push_str(digits.format(read / MEGABYTE));
    line.push_str(" MB read, ");
    line.push_str(digits.format(written / MEGABYTE));
    line.push_str(" MB written");
    line
}

/// A sink whose writes show progress. Contracts see the sink alone.
#[derive(Drop)]
pub struct CountedSink<'a, W> {
    pub sink: W,
    pub progress: &'a Progress<'a>,
}

impl<'a, W> CountedSink<'a, W> {
    /// Nothing was written yet.
    pub fn new(sink: W, progress: &'a Progress<'a>) -> CountedSink<'a, W>
        ensures { result.sink ≡ sink }
    {
        CountedSink { sink, progress }
    }
}

impl<'a, W: Sink> Sink for CountedSink<'a, W> {
    ghost seen = { λ e. W.seen e.sink };

    /// It answers what the sink answers.
    fn write(&mut self, piece: &[u8]) -> Result<usize, WriteFault> {
        let answer = self.sink.write(piece);
        if let Ok(count) = answer {
            self.progress.note_written(count as u64);
        }
        answer
    }
}

impl<'a> Watcher for Progress<'a> {
    fn see(&self, at: u64, bytes: &[u8]) {
        if at == 0 {
            self.packing.set(packing_of(bytes));
        }
        let count = bytes.len() as u64;
        self.read.set(self.read.get().saturating_add(count));
        if let Some(start) = self.start {
            self.show(start, at.saturating_add(count));
        }
    }
}

/// The most bytes of a report that are kept.
const REPORT: usize = 64;

/// A sink before whose writes the line is removed. The beginning of what goes to it is kept. Contracts see the sink
/// alone.
#[derive(Drop)]
pub struct ErasingSink<'a, W> {
    pub sink: W,
    pub progress: &'a Progress<'a>,
    pub report: ArrayVec<u8, REPORT>,
}

impl<'a, W> ErasingSink<'a, W> {
    /// Nothing was written yet.
    pub fn new(sink: W, progress: &'a Progress<'a>) -> ErasingSink<'a, W>
        ensures { result.sink ≡ sink }
    {
        ErasingSink {
            sink,
            progress,
            report: ArrayVec::new(),
        }
    }
}

/// Keeps a piece of a report, as far as there is room.
fn keep(report: &mut ArrayVec<u8, REPORT>, piece: &[u8]) {
    for byte in piece {
        let _ = report.try_push(*byte);
    }
}

impl<'a, W: Sink> Sink for ErasingSink<'a, W> {
    ghost seen = { λ e. W.seen e.sink };

    /// It answers what the sink answers.
    fn write(&mut self, piece: &[u8]) -> Result<usize, WriteFault> {
        self.progress.erase();
        keep(&mut self.report, piece);
        self.sink.write(piece)
    }
}
