//! What records are read from and written to: sources and sinks.

use crate::framed::odd::{Trick, Tricked, read_twice, sent_once, sent_to_full, written_once};
use crate::framed::ranges::{say_put_ranges, say_range};
use std::alloc::{AllocError, Global};
use std::io::Cursor;
use suites_script::Case;
use suites_texts_parsed::{say_done, say_line, say_outcome, say_parts, text_of};
use warc_frame::{
    FileSource, MemSink, MemSource, OutBuffer, OutSink, ReadFault, SendFault, Sink, Source,
    WriteFault, send_all,
};
use warc_vectors::{Break, BrokenSource, BrokenWriter, RefusingAllocator};

/// The number that a word is; the greatest one where it is `all`.
pub(crate) fn number_or_all(case: &Case<'_>, place: usize) -> usize {
    if case.text(place) == "all" {
        usize::MAX
    } else {
        case.number(place) as usize
    }
}

/// Adds what reads of a source give, each of 16 bytes at the offset where the bytes so far end. Reports how many gave
/// any.
fn read_in_turns<S: Source>(source: &mut S, bytes: &mut Vec<u8>) -> Option<usize> {
    let mut buffer = [0; 16];
    for reads in 0..1000usize {
        let count = source.read_at(bytes.len() as u64, &mut buffer).ok()?;
        if count == 0 {
            return Some(reads);
        }
        bytes.extend_from_slice(&buffer[..count]).ok()?;
    }
    None
}

/// Adds how many reads give all bytes of a source, and those bytes in a line.
fn say_reads<S: Source>(
    alloc: Global,
    answer: &mut Vec<u8>,
    source: &mut S,
) -> Result<(), AllocError> {
    let mut bytes = Vec::new(alloc);
    let reads = read_in_turns(source, &mut bytes).unwrap_or(0);
    let reported = format!(in alloc; "{reads} reads: ")?;
    say_parts(answer, &[reported.as_bytes(), &bytes, b"\n"])
}

/// Adds what a source in memory gives, `most` bytes at most at once, and what it gives past its end and if no bytes are
/// asked for.
fn say_source(
    alloc: Global,
    answer: &mut Vec<u8>,
    text: &[u8],
    most: usize,
) -> Result<(), AllocError> {
    let mut source = MemSource::new(text.to_vec(alloc)?, most.max(1));
    say_reads(alloc, answer, &mut source)?;
    say_outcome(alloc, answer, source.read_at(u64::MAX, &mut [0]))?;
    say_outcome(alloc, answer, source.read_at(0, &mut []))
}

/// Adds the four bytes that a source gives at an offset.
fn say_four<S: Source>(
    alloc: Global,
    answer: &mut Vec<u8>,
    source: &mut S,
    at: u64,
) -> Result<(), AllocError> {
    let mut bytes = [b'-'; 4];
    let read = source.read_at(at, &mut bytes);
    say_outcome(alloc, answer, read)?;
    say_parts(answer, &[&bytes, b"\n"])
}

/// Adds what a file gives, what is asked at 2^48, and what it gives then at 5 and at 0.
fn say_file(alloc: Global, answer: &mut Vec<u8>, text: &[u8]) -> Result<(), AllocError> {
    let mut source = FileSource::new(Cursor::new(text));
    say_reads(alloc, answer, &mut source)?;
    say_outcome(alloc, answer, source.read_at(1 << 48, &mut [0]))?;
    say_four(alloc, answer, &mut source, 5)?;
    say_four(alloc, answer, &mut source, 0)
}

/// Adds what two reads of a file that fails or lies tell, the bytes that they leave, and how often the file was read,
/// and a place sought.
fn say_odd_file(alloc: Global, answer: &mut Vec<u8>, trick: Trick) -> Result<(), AllocError> {
    let Tricked {
        first,
        second,
        bytes,
        reads,
        seeks,
    } = read_twice(trick);
    say_outcome(alloc, answer, first)?;
    say_outcome(alloc, answer, second)?;
    let reported = format!(in alloc; " by {reads} reads and {seeks} seeks\n")?;
    say_parts(answer, &[&bytes, reported.as_bytes()])
}

/// Whether the read with this number fails, and no other, where each gives a byte of a text of `len`.
fn fails_at(source: &mut BrokenSource, number: u64, len: u64) -> bool {
    for read in 0..=len {
        let answer = source.read_at(read, &mut [0; 2]);
        let expected = if read.saturating_add(1) == number {
            Err(ReadFault)
        } else {
            Ok((read < len) as usize)
        };
        if answer != expected {
            return false;
        }
    }
    true
}

/// The first number of a read such that a source whose read of that number breaks does otherwise.
fn first_otherwise(alloc: Global, text: &[u8]) -> Result<Option<u64>, AllocError> {
    let len = text.len() as u64;
    for number in 1..=len.saturating_add(1) {
        let mut source = BrokenSource::new(text.to_vec(alloc)?, 1, number);
        let mut bytes = Vec::new(alloc);
        let is_so = fails_at(&mut source, number, len)
            && read_in_turns(&mut source, &mut bytes).is_some()
            && bytes.as_slice() == text;
        if !is_so {
            return Ok(Some(number));
        }
    }
    Ok(None)
}

/// Adds whether sources whose reads break, each in turn, fail once and give the text then.
fn say_broken(alloc: Global, answer: &mut Vec<u8>, text: &[u8]) -> Result<(), AllocError> {
    let reported = match first_otherwise(alloc, text)? {
        None => format!(in alloc;
            "each read up to {} fails once",
            text.len().saturating_add(1)
        )?,
        Some(number) => format!(in alloc; "not the read {number}")?,
    };
    say_line(alloc, answer, &reported)
}

/// A writer that breaks as the words from a place on say: `fails at N`, or `takes M at N`; one that doesn't where there
/// are none.
fn writer_of(alloc: Global, case: &Case<'_>, place: usize) -> BrokenWriter {
    let (number, how) = match case.text(place) {
        "takes" => {
            let most = case.number(place.saturating_add(1)) as usize;
            (case.number(place.saturating_add(3)), Break::Takes(most))
        }
        "fails" => (case.number(place.saturating_add(2)), Break::Fails),
        _ => (0, Break::Fails),
    };
    BrokenWriter::new(alloc, number, how)
}

/// Adds bytes between brackets, in a line.
pub(crate) fn say_taken(answer: &mut Vec<u8>, bytes: &[u8]) -> Result<(), AllocError> {
    say_parts(answer, &[b"[", bytes, b"]\n"])
}

/// Adds the answer if a text is sent to a writer that breaks, and what the writer took.
fn say_send(
    alloc: Global,
    case: &Case<'_>,
    answer: &mut Vec<u8>,
    text: &[u8],
) -> Result<(), AllocError> {
    let mut writer = writer_of(alloc, case, 2).taking(number_or_all(case, 1));
    let sent = send_all(&mut writer, text);
    say_done(alloc, answer, "sent", sent)?;
    say_taken(answer, writer.bytes())
}

/// Adds what a writer took that breaks while a buffer is flushed, before and then, and how much the buffer sent.
fn say_flush(
    alloc: Global,
    case: &Case<'_>,
    answer: &mut Vec<u8>,
    text: &[u8],
) -> Result<(), AllocError> {
    let mut writer = writer_of(alloc, case, 2).taking(1);
    let mut buffer = OutBuffer::new();
    let (front, back) = text.split_at(text.len().min(case.number(1) as usize));
    say_done(alloc, answer, "sent", buffer.put(&mut writer, front))?;
    say_done(alloc, answer, "sent", buffer.put(&mut writer, back))?;
    say_taken(answer, writer.bytes())?;
    say_done(alloc, answer, "sent", buffer.flush(&mut writer))?;
    say_taken(answer, writer.bytes())?;
    say_line(alloc, answer, &buffer.sent())
}

/// Adds the answers if a text, the same text and nothing are written to a sink in memory that holds three bytes and
/// whose first growth is refused; and what the sink holds each time.
fn say_sink(alloc: Global, answer: &mut Vec<u8>, text: &[u8]) -> Result<(), AllocError> {
    let heap = RefusingAllocator::new(alloc, 2);
    let mut sink = MemSink::new(b"abc".to_vec(&heap)?);
    for piece in [text, text, b"".as_slice()] {
        let written = sink.write(piece);
        say_outcome(alloc, answer, written)?;
        say_taken(answer, sink.bytes())?;
    }
    Ok(())
}

/// Adds what a sink over a vector hands it.
fn say_handed_on(alloc: Global, answer: &mut Vec<u8>, text: &[u8]) -> Result<(), AllocError> {
    let mut sink = OutSink::new(Vec::new(alloc));
    let sent = send_all(&mut sink, text);
    say_done(alloc, answer, "sent", sent)?;
    say_taken(answer, &sink.into_inner())
}

/// Adds what a sink reports over a writer that takes two bytes and then fails, or takes none.
fn say_full(
    alloc: Global,
    answer: &mut Vec<u8>,
    text: &[u8],
    fails: bool,
) -> Result<(), AllocError> {
    let (sent, written) = sent_to_full(text, fails);
    say_done(alloc, answer, "sent", sent)?;
    say_outcome(alloc, answer, written)
}

/// Adds what a write and a send to a writer tell whose first write fails, and how often each wrote.
fn say_once(alloc: Global, answer: &mut Vec<u8>, text: &[u8]) -> Result<(), AllocError> {
    let (written, writes) = written_once(text);
    say_outcome(alloc, answer, written)?;
    say_line(alloc, answer, &writes)?;
    let (sent, writes) = sent_once(text);
    say_done(alloc, answer, "sent", sent)?;
    say_line(alloc, answer, &writes)
}

/// Adds what a sink reports over the writer that the second word names.
fn say_out(
    alloc: Global,
    case: &Case<'_>,
    answer: &mut Vec<u8>,
    text: &[u8],
) -> Result<(), AllocError> {
    match case.text(1) {
        "full-and-fails" => say_full(alloc, answer, text, true),
        "full-and-takes-none" => say_full(alloc, answer, text, false),
        "fails-once" => say_once(alloc, answer, text),
        _ => say_handed_on(alloc, answer, text),
    }
}

/// Answers a case of sources and sinks.
pub(crate) fn answer(
    alloc: Global,
    case: &Case<'_>,
    kept: &[u8],
    answer: &mut Vec<u8>,
) -> Result<bool, AllocError> {
    let reported = match case.text(0) {
        "source" => say_source(alloc, answer, text_of(case, kept), number_or_all(case, 1)),
        "file" => say_file(alloc, answer, text_of(case, kept)),
        "odd-file" => say_odd_file(alloc, answer, Trick::named(case.text(1))),
        "broken-source" => say_broken(alloc, answer, text_of(case, kept)),
        "send" => say_send(alloc, case, answer, text_of(case, kept)),
        "flush" => say_flush(alloc, case, answer, text_of(case, kept)),
        "sink-without-memory" => say_sink(alloc, answer, text_of(case, kept)),
        "writer" => say_out(alloc, case, answer, text_of(case, kept)),
        "range" => say_range(alloc, case, answer, text_of(case, kept)),
        "put-ranges" => say_put_ranges(alloc, case, answer, text_of(case, kept)),
        _ => return Ok(false),
    };
    reported?;
    Ok(true)
}
