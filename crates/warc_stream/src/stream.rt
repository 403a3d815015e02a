//! Bytes that come once, in order.
ghost use Rattle.std.specs.Prelude.{◌≡◌, ◌↔◌, ◌==◌, ℕ, ◌<◌, ◌≤◌, length, take, false, None, Some, IfOk, IfSome, IsSome, is_err, if◌then◌else◌};
ghost use Rattle.std.specs.Io.KnownBytes.{Consumes, IsAtEnd};
ghost use Rattle.warc_frame.specs.Count.{raised};
ghost use Rattle.warc_stream.specs.Stream.{AnswersStop, GivesNext, IsAnswerOf, LeavesStop, unread};

use std::io::Read;
use std::marker::Model;
use warc_frame::{ReadFault, Source, raise};

/// Why a reader gave fewer bytes than there was room for.
#[derive(Clone, Copy)]
enum Stop {
    /// A read gave no byte.
    End,

    /// A read failed.
    Failure,
}

impl Stop {
    /// What a read answers that gets no byte before the stop.
    fn answer(self) -> Result<usize, ReadFault>
        ensures { IsAnswerOf self result }
    {
        match self {
            Stop::End => Ok(0),
            Stop::Failure => Err(ReadFault),
        }
    }
}

/// Reads until the buffer is full or the reader stops. Returns the number of bytes, and why it stopped, if it did.
#[tactic(auto, using(crate::proofs::FillLemmas::filled_within, crate::proofs::FillLemmas::filled_more))]
fn fill<R: Read>(reader: &mut R, buf: &mut [u8]) -> (usize, Option<Stop>)
    ensures bound { result.0 ≤ length buf.new }
    ensures bytes { Consumes (R.remaining reader.old) (R.remaining reader.new) (take result.0 buf.new) }
    ensures stops { IsSome result.1 ↔ (result.0 < length buf.new) }
    ensures end { result.1 ≡ Some Stop.End → IsAtEnd (R.remaining reader.new) }
{
    let mut filled = 0;
    'filling: while filled < buf.len() {
        match reader.read(&mut buf[filled..]) {
            Ok(0) => return (filled, Some(Stop::End)),
            Ok(n) => filled += n,
            Err(_) => return (filled, Some(Stop::Failure)),
        }
    }
    (filled, None)
}

/// A reader whose bytes come once, in order, as the bytes of a pipe do. A read at an offset other than its next byte's
/// fails. Nothing is known of its bytes. A read joins what reads of the reader give, until its buffer is full. An end
/// or a failure after some bytes is what the next read answers.
#[derive(Drop)]
pub struct StreamSource<R: Read> {
    reader: R,
    position: u64,
    pending: Option<Stop>,
    reads: u64,
    asked: u64,
    faults: u64,
    jumps: u64,
}

impl<R: Read> Model for StreamSource<R> {
    ghost use Rattle.std.specs.Prelude.{◌≡◌, Some};
    ghost use Rattle.std.specs.Io.KnownBytes.{IsAtEnd};
    ghost use Rattle.warc_stream.specs.declared.stream.Stop.TheVariants.{End};
    ghost use Rattle.warc_stream.specs.Stream.{Streamed};

    ghost Value = { Streamed R };

    ghost view = { λ s. record {
      reader = s.reader;
      position = s.position;
      pending = s.pending;
      reads = s.reads;
      faults = s.faults;
      asked = s.asked;
      jumps = s.jumps;
    } };

    ghost invariant = { λ s. s.pending ≡ Some End → IsAtEnd (R.remaining s.reader) };
}

impl<R: Read> StreamSource<R> {
    /// A source over this reader, whose next byte is at offset 0, and which nobody has read by it.
    pub fn new(reader: R) -> StreamSource<R>
        ensures { result ≡ unread reader }
    {
        StreamSource {
            reader,
            position: 0,
            pending: None,
            reads: 0,
            asked: 0,
            faults: 0,
            jumps: 0,
        }
    }

    /// Returns the reader, which is after the bytes that were given. A stop that waits for the next read is dropped.
    pub fn into_inner(self) -> R
        ensures { result ≡ self.reader }
    {
        self.reader
    }

    /// Reads the next bytes, if those are asked for, or answers the stop that waits.
    fn read_next(&mut self, at: u64, buf: &mut [u8]) -> Result<usize, ReadFault>
        ensures bound { IfOk result (λ n. n ≤ length buf.new) }
        ensures next { GivesNext at self.old.position self.new.position (R.remaining self.old.reader)
            (R.remaining self.new.reader) result buf.new }
        ensures leaves { LeavesStop at self.old.position (length buf.new) result self.old.pending self.new.pending }
        ensures answers { IfSome self.old.pending (AnswersStop at self.old self.new result) }
        ensures reads { self.new.reads ≡ self.old.reads }
        ensures asked { self.new.asked ≡ self.old.asked }
        ensures faults { self.new.faults ≡ self.old.faults }
        ensures jumps { self.new.jumps ≡ (if at == self.old.position then self.old.jumps else raised self.old.jumps) }
    {
        if at != self.position {
            self.jumps = raise(self.jumps);
            return Err(ReadFault);
        }
        if let Some(stop) = self.pending.take() {
            return stop.answer();
        }
        let (count, stop) = fill(&mut self.reader, buf);
        match stop {
            Some(stop) if count == 0 => stop.answer(),
            _ => {
                self.position = self.position.saturating_add(count as u64);
                self.pending = stop;
                Ok(count)
            }
        }
    }
}

impl<R: Read> Source for StreamSource<R> {
    ghost seen = { λ s. record {
      holds = None;
      faults = s.faults;
      reads = s.reads;
      asked = s.asked;
      watches = λ _. false;
      watched_reads = 0;
      next = Some s.position;
      jumps = s.jumps;
    } };

    /// It gives the reader's next bytes, at its position alone: as many as the buffer has room for, or those before an
    /// end or a failure. Any error of the reader is a failure, also an interrupted read, and nothing is tried again. An
    /// end or a failure after some bytes waits: the next read answers it and doesn't ask the reader, and the read after
    /// that asks it anew.
    fn read_at(&mut self, at: u64, buf: &mut [u8]) -> Result<usize, ReadFault>
        ensures bound { IfOk result (λ n. n ≤ length buf.new) }
        ensures next { GivesNext at self.old.position self.new.position (R.remaining self.old.reader)
            (R.remaining self.new.reader) result buf.new }
        ensures leaves { LeavesStop at self.old.position (length buf.new) result self.old.pending self.new.pending }
        ensures answers { IfSome self.old.pending (AnswersStop at self.old self.new result) }
        ensures cause { self.new.faults ≡ (if is_err result then raised self.old.faults else self.old.faults) }
        ensures counted { self.new.reads ≡ raised self.old.reads }
        ensures asked { self.new.asked ≡ at }
        ensures jumps { self.new.jumps ≡ (if at == self.old.position then self.old.jumps else raised self.old.jumps) }
    {
        self.reads = raise(self.reads);
        self.asked = at;
        let answer = self.read_next(at, buf);
        if answer.is_err() {
            self.faults = raise(self.faults);
        }
        answer
    }
}
