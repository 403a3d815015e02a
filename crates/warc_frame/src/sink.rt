//! Where bytes go to.
ghost use Rattle.std.specs.Prelude.{◌≡◌, ℕ, ◌-◌, ◌<◌, ◌≤◌, List, take, length, Option, Some, None, IfOk, OnErr, if◌then◌else◌, vec_len, vec_capacity};
ghost use Rattle.std.specs.Io.KnownBytes.{append_known, WriteAppends};
ghost use Rattle.warc_frame.specs.Count.{raised};
ghost use Rattle.warc_frame.specs.Device.{taken, failed};
ghost use Rattle.warc_frame.specs.Seen.{Seen};

use crate::count::raise;
use std::alloc::{Allocator, Global};
use std::fmt;
use std::io::Write;
use std::marker::Model;
use thiserror::Error;

/// A write failed.
#[derive(Clone, Copy, PartialEq, Eq, Debug, Error)]
pub struct WriteFault;

impl fmt::Display for WriteFault {
    ghost use Rattle.std.specs.Prelude.{codes};

    ghost output = { λ _. Some (codes "write failed") };

    fn fmt<W: fmt::Write>(&self, f: &mut fmt::Formatter<W>) -> fmt::Result {
        write!(f, "write failed")
    }
}

/// Takes bytes, as many of each piece as it likes.
pub trait Sink {
    /// What contracts see of it: the bytes that it reports to have taken, if it does, and how often it has failed. The
    /// count stays at 2^64 - 1.
    ghost seen: { Self → Seen };

    /// Takes a beginning of the piece, and returns its length. A write that takes nothing of a piece
    /// that isn't empty is a failure, too.
    fn write(&mut self, piece: &[u8]) -> Result<usize, WriteFault>
        ensures bound { IfOk result (λ n. n ≤ length piece.now) }
        ensures bytes { (seen self.new).reports ≡ append_known (seen self.old).reports (take (taken result) piece.now) }
        ensures cause { (seen self.new).faults ≡ (if failed result piece.now then raised (seen self.old).faults else
            (seen self.old).faults) };
}

/// Whether a write failed, or took nothing of a piece that isn't empty.
pub fn is_failed(answer: &Result<usize, WriteFault>, piece: &[u8]) -> bool
    ensures { result ≡ failed answer.now piece.now }
{
    match answer {
        Ok(n) => *n == 0 && !piece.is_empty(),
        Err(_) => true,
    }
}

/// A sink in memory.
#[derive(Drop)]
pub struct MemSink<A: Allocator = Global> {
    bytes: Vec<u8, A>,
    faults: u64,
}

impl<A: Allocator> Model for MemSink<A> {
    ghost use Rattle.std.specs.Prelude.{◌-◌, vec_len, vec_capacity};
    ghost use Rattle.warc_frame.specs.Device.{Grown};

    ghost Value = { Grown };

    ghost view = { λ s. record {
      bytes = s.bytes.items;
      room = vec_capacity s.bytes - vec_len s.bytes;
      faults = s.faults;
    } };
}

impl<A: Allocator> MemSink<A> {
    /// A sink that appends to these bytes.
    pub fn new(bytes: Vec<u8, A>) -> MemSink<A>
        ensures bytes { result.bytes ≡ bytes.items }
        ensures room { result.room ≡ vec_capacity bytes - vec_len bytes }
        ensures sound { result.faults ≡ 0 }
    {
        MemSink { bytes, faults: 0 }
    }

    /// The bytes so far.
    pub fn bytes(&self) -> &[u8]
        ensures { result.now ≡ self.now.bytes }
    {
        self.bytes.as_slice()
    }

    /// Returns the bytes.
    pub fn into_inner(self) -> Vec<u8, A>
        ensures { result.items ≡ self.bytes }
    {
        self.bytes
    }
}

impl<A: Allocator> Sink for MemSink<A> {
    ghost seen = { λ s. record { reports = Some s.bytes; faults = s.faults } };

    /// It fails only if an allocation fails, and otherwise takes the whole piece.
    fn write(&mut self, piece: &[u8]) -> Result<usize, WriteFault>
        ensures bound { IfOk result (λ n. n ≤ length piece.now) }
        ensures bytes { Some self.new.bytes ≡ append_known (Some self.old.bytes) (take (taken result) piece.now) }
        ensures cause { self.new.faults
            ≡ (if failed result piece.now then raised self.old.faults else self.old.faults) }
        ensures whole { IfOk result (λ n. n ≡ length piece.now) }
        ensures full { OnErr result (self.old.room < length piece.now) }
    {
        match self.bytes.extend_from_slice(piece) {
            Ok(()) => Ok(piece.len()),
            Err(_) => {
                self.faults = raise(self.faults);
                Err(WriteFault)
            }
        }
    }
}

/// A sink over a writer. It reports nothing of the bytes.
#[derive(Drop)]
pub struct OutSink<W> {
    writer: W,
    faults: u64,
}

impl<W> Model for OutSink<W> {
    ghost use Rattle.warc_frame.specs.Device.{Written};

    ghost Value = { Written W };

    ghost view = { λ s. record { writer = s.writer; faults = s.faults } };
}

impl<W: Write> OutSink<W> {
    /// A sink over this writer, which hasn't failed.
    pub fn new(writer: W) -> OutSink<W>
        ensures writer { result.writer ≡ writer }
        ensures sound { result.faults ≡ 0 }
    {
        OutSink { writer, faults: 0 }
    }

    /// Returns the writer. It isn't flushed.
    pub fn into_inner(self) -> W
        ensures { result ≡ self.writer }
    {
        self.writer
    }
}

impl<W: Write> Sink for OutSink<W> {
    ghost seen = { λ s. record { reports = None; faults = s.faults } };

    /// Any error of the writer is a failure, and nothing is tried again. What the writer holds,
    /// where that is known, grows by the bytes that it took.
    fn write(&mut self, piece: &[u8]) -> Result<usize, WriteFault>
        ensures bound { IfOk result (λ n. n ≤ length piece.now) }
        ensures bytes { None ≡ append_known None (take (taken result) piece.now) }
        ensures cause { self.new.faults
            ≡ (if failed result piece.now then raised self.old.faults else self.old.faults) }
        ensures passed { WriteAppends (W.contents self.old.writer) (W.contents self.new.writer) result piece.now }
    {
        let answer = match self.writer.write(piece) {
            Ok(n) => Ok(n),
            Err(_) => Err(WriteFault),
        };
        if is_failed(&answer, piece) {
            self.faults = raise(self.faults);
        }
        answer
    }
}
