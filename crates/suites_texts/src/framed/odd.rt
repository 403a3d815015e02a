//! Files and writers that fail or lie.

use std::io::{self, ErrorKind, Read, Seek, SeekFrom, Write};
use warc_frame::{FileSource, OutSink, ReadFault, SendFault, Sink, Source, WriteFault, send_all};

/// How a file fails or lies.
#[derive(Clone, Copy, PartialEq, Eq)]
pub(crate) enum Trick {
    IsInterrupted,
    SeeksNowhere,
    /// The first seek fails, and no other.
    SeeksLate,
    FillsNothing,
}

impl Trick {
    pub(crate) fn named(word: &str) -> Trick {
        match word {
            "is-interrupted" => Trick::IsInterrupted,
            "seeks-nowhere" => Trick::SeeksNowhere,
            "seeks-late" => Trick::SeeksLate,
            _ => Trick::FillsNothing,
        }
    }
}

/// A file that fails or lies. It counts the calls.
struct Liar {
    trick: Trick,
    reads: u32,
    seeks: u32,
}

impl Read for Liar {
    fn read(&mut self, buf: &mut [u8]) -> io::Result<usize> {
        self.reads = self.reads.saturating_add(1);
        match self.trick {
            Trick::IsInterrupted => Err(io::Error::from(ErrorKind::Interrupted)),
            _ => Ok(buf.len()),
        }
    }
}

impl Seek for Liar {
    fn seek(&mut self, _to: SeekFrom) -> io::Result<u64> {
        self.seeks = self.seeks.saturating_add(1);
        match (self.trick, self.seeks) {
            (Trick::SeeksNowhere, _) | (Trick::SeeksLate, 1) => {
                Err(io::Error::from(ErrorKind::Unsupported))
            }
            _ => Ok(7),
        }
    }
}

/// What two reads of such a file tell, the bytes that they leave, and how often the file was read, and a place sought.
pub(crate) struct Tricked {
    pub(crate) first: Result<usize, ReadFault>,
    pub(crate) second: Result<usize, ReadFault>,
    pub(crate) bytes: [u8; 3],
    pub(crate) reads: u32,
    pub(crate) seeks: u32,
}

/// What comes of two reads of such a file.
pub(crate) fn read_twice(trick: Trick) -> Tricked {
    let mut source = FileSource::new(Liar {
        trick,
        reads: 0,
        seeks: 0,
    });
    let mut bytes = [b'x'; 3];
    let first = source.read_at(5, &mut bytes);
    let second = source.read_at(5, &mut bytes);
    let Liar {
        trick: _,
        reads,
        seeks,
    } = source.into_inner();
    Tricked {
        first,
        second,
        bytes,
        reads,
        seeks,
    }
}

/// A writer that takes two bytes, and then fails or takes none.
#[derive(Drop)]
struct Full {
    taken: u32,
    fails: bool,
}

impl Write for Full {
    fn write(&mut self, buf: &[u8]) -> io::Result<usize> {
        if self.taken == 0 {
            self.taken = 2;
            Ok(buf.len().min(2))
        } else if self.fails {
            Err(io::Error::from(ErrorKind::Interrupted))
        } else {
            Ok(0)
        }
    }

    fn flush(&mut self) -> io::Result<()> {
        Ok(())
    }
}

/// What a send to such a writer reports, and what a write of its last byte reports then.
pub(crate) fn sent_to_full(
    text: &[u8],
    fails: bool,
) -> (Result<(), SendFault>, Result<usize, WriteFault>) {
    let mut sink = OutSink::new(Full { taken: 0, fails });
    let sent = send_all(&mut sink, text);
    (sent, sink.write(&text[text.len().saturating_sub(1)..]))
}

/// A writer whose first write fails. It counts the writes.
#[derive(Drop)]
struct FailsOnce {
    writes: u32,
}

impl Write for FailsOnce {
    fn write(&mut self, buf: &[u8]) -> io::Result<usize> {
        self.writes = self.writes.saturating_add(1);
        if self.writes == 1 {
            Err(io::Error::from(ErrorKind::Interrupted))
        } else {
            Ok(buf.len())
        }
    }

    fn flush(&mut self) -> io::Result<()> {
        Ok(())
    }
}

/// What a write to such a writer reports, and how often the writer was written to.
pub(crate) fn written_once(text: &[u8]) -> (Result<usize, WriteFault>, u32) {
    let mut sink = OutSink::new(FailsOnce { writes: 0 });
    let written = sink.write(text);
    let FailsOnce { writes } = sink.into_inner();
    (written, writes)
}

/// What a send to a writer reports whose first write fails, and how often the writer was written to.
pub(crate) fn sent_once(text: &[u8]) -> (Result<(), SendFault>, u32) {
    let mut sink = OutSink::new(FailsOnce { writes: 0 });
    let sent = send_all(&mut sink, text);
    let FailsOnce { writes } = sink.into_inner();
    (sent, writes)
}
